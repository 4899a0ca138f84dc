// With what an exchange begins.
ghost use Rattle.std.specs.Prelude.{◌≡◌, IfOk};
ghost use Rattle.exchange_core.specs.Changes.{number_after};

use io_ports::NoMemory;

/// The greatest number of an exchange.
const LAST_NUMBER: u64 = (1 << 63) - 1;

/// With what an exchange begins.
#[derive(Clone, Copy, PartialEq, Eq)]
pub struct StartSpec {
    /// Whether this is a stream of a plain session, which has no response.
    pub plain: bool,
    /// The connection and the stream that the request comes from.
    pub from_conn: u32,
    pub from_stream: u32,
    /// The connection that the request goes to, or none.
    pub to_conn: Option<u32>,
    /// The route row whose filters the flows pass, or none.
    pub row: Option<u32>,
    /// For how many octets a receive buffer has room: at most 16,777,216.
    pub recv: u32,
    /// The limit of a send buffer in octets, 0 for none: at most 16,777,216.
    pub send: u32,
    /// The most octets that one move carries: 16,384 to 1,048,576.
    pub quantum: u32,
    /// The moment, in ms.
    pub now: u64,
}

impl StartSpec {
    /// The number of the exchange that begins so, after the last number that was given.
    pub(crate) fn number(&self, last: u64) -> Result<u64, NoMemory>
        ensures { IfOk result (λ x. x ≡ number_after self.entry.now last) }
    {
        if self.plain {
            return Ok(u64::from(self.from_stream));
        }
        if last >= LAST_NUMBER {
            return Err(NoMemory);
        }
        Ok(last + 1)
    }
}
