// The live exchanges, and between whom they stand.
ghost use Rattle.std.specs.Prelude.{◌≡◌, IfSome, IsSome, None, OnErr, OnOk, length, true};
ghost use Rattle.wire_links.specs.Links.{IsOn, IsToFrame, cluster_of, doomed, ends_of, exchange_at, exchanges_of, framed, is_client, least_of, next_of, started};

use super::{Links, tables};
use io_ports::NoMemory;

/// The two ends of an exchange.
#[derive(Clone, Copy, PartialEq, Eq)]
pub struct Ends {
    /// The client's connection, and the stream of the request on it.
    pub client: u32,
    pub stream: u32,
    /// The connection to a cluster; none where the request is refused.
    pub cluster: Option<u32>,
    /// The stream there, once the request's head has been framed.
    pub cluster_stream: Option<u32>,
}

impl Links {
    /// The exchange on a stream of the connection, while it is live.
    #[inline(always)]
    pub fn exchange_at(&self, conn: u32, stream: u32) -> Option<u64>
        ensures exchange { result ≡ exchange_at conn stream self.now }
        ensures found { IfSome result (λ x. IsOn conn stream x self.now) }
    {
        self.seats.get(&conn)?.exchange_at(stream)
    }

    /// The ends of the exchange, while it is live.
    pub fn ends_of(&self, exchange: u64) -> Option<Ends>
        ensures { result ≡ ends_of exchange self.now }
    {
        self.exchanges.get(&exchange).copied()
    }

    /// How many exchanges the connection has.
    pub fn exchanges_of(&self, conn: u32) -> usize
        ensures { result ≡ length (exchanges_of conn self.now.exchanges) }
    {
        match self.seats.get(&conn) {
            Some(seat) => seat.count(),
            None => 0,
        }
    }

    /// The exchange of the connection with the least number.
    pub fn least_of(&self, conn: u32) -> Option<u64>
        ensures { result ≡ least_of conn self.now }
    {
        self.seats.get(&conn)?.least()
    }

    /// The exchange of the connection with the least number above `after`.
    pub fn next_of(&self, conn: u32, after: u64) -> Option<u64>
        ensures { result ≡ next_of conn after self.now }
    {
        self.seats.get(&conn)?.next(after)
    }

    /// An exchange begins on the stream of a client's connection, to the connection of a cluster; to none where it is refused.
    pub fn start(
        &mut self,
        exchange: u64,
        conn: u32,
        stream: u32,
        to: Option<u32>,
    ) -> Result<(), NoMemory>
        requires new_one { ends_of exchange self.old ≡ None }
        requires client { is_client conn self.old ≡ true }
        requires unused { exchange_at conn stream self.old ≡ None }
        requires cluster { IfSome to (λ t. IsSome (cluster_of t self.old)) }
        ensures ok { OnOk result (self.new ≡ started exchange conn stream to self.old) }
        ensures err { OnErr result (self.new ≡ self.old) }
    {
        let ends = Ends {
            client: conn,
            stream,
            cluster: to,
            cluster_stream: None,
        };
        let _ = self.exchanges.insert(exchange, ends)?;
        let Ok(()) = tables::open(&mut self.seats, conn, stream, exchange) else {
            let _ = self.exchanges.remove(&exchange);
            return Err(NoMemory);
        };
        let Ok(()) = tables::connect(&mut self.seats, &mut self.offers, to, exchange) else {
            tables::leave(&mut self.seats, conn, exchange, Some(stream));
            let _ = self.exchanges.remove(&exchange);
            return Err(NoMemory);
        };
        Ok(())
    }

    /// The head of the exchange's request is framed: it is on this stream of the cluster's connection from now on. Where the
    /// exchange isn't live, nothing changes. After running out of memory nothing has changed.
    pub fn framed_to(&mut self, exchange: u64, stream: u32) -> Result<(), NoMemory>
        requires { IfSome (ends_of exchange self.old) (IsToFrame stream self.old) }
        ensures ok { OnOk result (self.new ≡ framed exchange stream self.old) }
        ensures err { OnErr result (self.new ≡ self.old) }
    {
        let Some(ends) = self.exchanges.get_mut(&exchange) else {
            return Ok(());
        };
        let Some(to) = ends.cluster else {
            unreachable!()
        };
        tables::place(&mut self.seats, to, stream, exchange)?;
        ends.cluster_stream = Some(stream);
        Ok(())
    }

    /// The exchange is live no more: it is on no stream, and its connections don't have it. Answers the ends that it had; none
    /// where it wasn't live, and then nothing changes. Takes no memory.
    pub fn doom(&mut self, exchange: u64) -> Option<Ends>
        ensures ends { result ≡ ends_of exchange self.old }
        ensures gone { self.new ≡ doomed exchange self.old }
    {
        let ends = self.exchanges.remove(&exchange)?;
        tables::disconnect(
            &mut self.seats,
            &mut self.offers,
            ends.cluster,
            exchange,
            ends.cluster_stream,
        );
        tables::leave(&mut self.seats, ends.client, exchange, Some(ends.stream));
        Some(ends)
    }
}
