// Sockets with a client and a server beside them.
ghost use Rattle.std.specs.Prelude.{◌≡◌};
ghost use Rattle.mio_edge.specs.Sockets.{faults_of, seen_of};

use crate::client::Client;
use crate::server::Server;
use io_ports::Failed;
use mio::net::TcpListener;
use mio_edge::SocketTaps;
use relay_ports::Taps;
use std::io::Eprint;
use std::net::Net;
use std::time::Clock;
use worker_ports::{WireRefusal, Wired, Wires};

/// Sockets with a client and a server beside them, which do something in each turn. Once the client has all that it waits for
/// it goes; once the server has seen it end, the work is to stop.
#[derive(Drop)]
pub struct Beside<R: Clock + Net + Drop> {
    pub taps: SocketTaps<R, TcpListener>,
    pub client: Option<Client>,
    pub server: Option<Server>,
    /// What the client had got when it went.
    pub counts: Option<(usize, usize)>,
}

impl<R: Clock + Net + Eprint + Drop> Beside<R> {
    fn step(&mut self)
        ensures { self.new.taps ≡ self.old.taps }
    {
        if let Some(server) = &mut self.server {
            server.step();
        }
        let Some(client) = &mut self.client else {
            return;
        };
        client.step();
        self.counts = client.counts();
        if client.is_done() {
            self.client = None;
        }
    }

    /// Whether the server has seen its client end.
    pub fn is_over(&self) -> bool {
        match &self.server {
            Some(server) => server.is_over(),
            None => false,
        }
    }
}

impl<R: Clock + Net + Eprint + Drop> Wires for Beside<R> {
    ghost seen = { λ b. seen_of b.taps };

    ghost faults = { λ b. faults_of b.taps };

    fn next(&mut self) -> Result<Wired, WireRefusal> {
        self.step();
        if self.is_over() {
            return Ok(Wired::Stop);
        }
        self.taps.next()
    }

    fn offer(&mut self, conn: u32, piece: &[u8]) -> Result<usize, Failed> {
        self.taps.offer(conn, piece)
    }

    fn close(&mut self, conn: u32) {
        self.taps.close(conn)
    }
}

impl<R: Clock + Net + Eprint + Drop> Taps for Beside<R> {
    fn hold(&mut self, conn: u32, held: bool) {
        self.taps.hold(conn, held)
    }
}
