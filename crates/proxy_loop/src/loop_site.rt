// The site over sockets, with a client and a server.
ghost use Rattle.std.specs.Prelude.{◌≡◌};
ghost use Rattle.proxy_sockets.specs.Sites.{site_faults};

use crate::beside::Beside;
use crate::client::Client;
use crate::server::Server;
use io_ports::Octets;
use mio_edge::read_address;
use proxy_config::Config;
use proxy_site::{Site, SiteRefusal};
use proxy_sockets::{FileJournal, SocketSite};
use std::io::Eprint;
use std::net::Net;
use std::rt::Files;
use std::sync::Wait;
use std::time::Clock;

/// The site over sockets. A client comes where it listens, and a server may be where its configuration says.
#[derive(Drop)]
pub struct LoopSite<R: Clock + Net + Wait + Files + Drop> {
    rt: R,
    site: SocketSite<R>,
    client: Option<Client>,
    server: Option<Server>,
    /// How many octets the client has sent and got back, if those were its own.
    pub counts: Option<(usize, usize)>,
    /// Whether the server has seen it end.
    pub is_over: bool,
}

impl<R: Eprint + Files + Net + Clock + Wait + AllocGlobal + Copy + Drop> LoopSite<R> {
    /// A site with a server that listens already.
    pub fn new(rt: R, site: SocketSite<R>, server: Server) -> Self {
        LoopSite {
            rt,
            site,
            client: None,
            server: Some(server),
            counts: None,
            is_over: false,
        }
    }

    // A client comes to an address. Where it can't, there is none.
    fn invite(&mut self, at: &Octets)
        ensures { self.new.site ≡ self.old.site }
    {
        if let Some(address) = read_address(at.as_slice()) {
            self.client = Client::new(&self.rt, self.rt.alloc(), address).ok();
        }
    }
}

impl<R: Eprint + Files + Net + Clock + Wait + AllocGlobal + Copy + Drop> Site for LoopSite<R> {
    ghost use Rattle.std.specs.Prelude.{None};

    type T = Beside<R>;

    type J = FileJournal<R::File>;

    ghost faults = { λ s. site_faults s.site };

    ghost told = { λ _. None };

    fn listen(&mut self, at: &Octets) -> Result<Octets, SiteRefusal> {
        let used = self.site.listen(at)?;
        self.invite(&used);
        Ok(used)
    }

    fn fit_taps(&mut self, config: &Config) -> Result<(Self::T, Self::J), SiteRefusal> {
        let (taps, journal) = self.site.fit_taps(config)?;
        let beside = Beside {
            taps,
            client: self.client.take(),
            server: self.server.take(),
            counts: None,
        };
        Ok((beside, journal))
    }

    fn give_back_taps(&mut self, taps: Self::T, journal: Self::J) {
        self.counts = taps.counts;
        self.is_over = taps.is_over();
        self.site.give_back_taps(taps.taps, journal);
    }
}
