// What names a flow and a buffer.
ghost use Rattle.std.specs.Prelude.{◌≡◌};

/// A flow: the request of an exchange, or its response, which goes back.
#[derive(Clone, Copy, Debug, PartialEq, Eq, PartialOrd, Ord)]
pub struct FlowId {
    pub exchange: u64,
    pub back: bool,
}

impl FlowId {
    ghost use Rattle.std.specs.Prelude.{false, true};

    /// The request flow of an exchange.
    pub fn request(exchange: u64) -> Self
        ensures { result ≡ record { exchange = exchange; back = false } }
    {
        FlowId {
            exchange,
            back: false,
        }
    }

    /// The response flow of an exchange.
    pub fn response(exchange: u64) -> Self
        ensures { result ≡ record { exchange = exchange; back = true } }
    {
        FlowId {
            exchange,
            back: true,
        }
    }
}

/// A buffer on the way of a flow, or the write buffer of a connection. Write buffers, which are few and looked up
/// most, are the least, so that a map finds them by a few comparisons.
#[derive(Clone, Copy, Debug, PartialEq, Eq, PartialOrd, Ord)]
pub enum BufferId {
    Write(u32),
    Recv(FlowId),
    Stage(FlowId, u32),
    Send(FlowId),
}
