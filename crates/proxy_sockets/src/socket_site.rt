// The site over sockets.
ghost use Rattle.std.specs.Prelude.{◌≡◌, ◌≤◌, IfOk, length};
ghost use Rattle.io_ports.specs.Faults.{Rose};
ghost use Rattle.mio_edge.specs.Rolls.{new_roll, roll_seen};
ghost use Rattle.mio_edge.specs.Sockets.{faults_of, seen_of};
ghost use Rattle.proxy_sockets.specs.Journals.{journal_faults};
ghost use Rattle.proxy_sockets.specs.Sites.{site_faults};

use crate::counts::ClientCounts;
use crate::journal::FileJournal;
use crate::unused::warn_unused;
use crate::warn::{
    shown, warn_address, warn_files, warn_journal, warn_listen, warn_sockets, warn_written,
};
use io_ports::{NoMemory, Octets};
use itoa::Buffer;
use mio::net::TcpListener;
use mio::{Interest, Poll};
use mio_accept::{Acceptor, MOST_WAITING};
use mio_edge::{DOOR, EdgeFault, Plan, Sharing, SocketTaps, Target, open_files, read_address};
use program_ports::Output;
use proxy_config::{Cluster, Config};
use proxy_site::{Site, SiteRefusal};
use std::alloc::{AllocError, Global};
use std::fs::OpenOptions;
use std::io::{self, Eprint, ErrorKind};
use std::net::{Net, SocketAddr};
use std::os::unix::fs::OpenOptionsExt;
use std::rt::Files;
use std::sync::{Arc, Wait};
use std::time::Clock;

/// The site over sockets and files. What it meets that an operator should know is told on standard error.
#[derive(Drop)]
pub struct SocketSite<R: Clock + Net + Wait + Files + Drop> {
    pub(crate) rt: R,
    /// Where clients come, from `listen` on until a relay or the acceptor gets it.
    pub(crate) listener: Option<TcpListener>,
    /// What hands clients to workers, once the first has been fitted.
    pub(crate) acceptor: Option<Acceptor<R>>,
    /// What the gauge of clients reads.
    pub(crate) counts: Arc<ClientCounts, Global>,
    faults: u64,
}

impl<R: Eprint + Files + Net + Clock + Wait + AllocGlobal + Copy + Drop> SocketSite<R> {
    /// A site that doesn't listen yet.
    pub fn new(rt: R, counts: Arc<ClientCounts, Global>) -> Self
        ensures { site_faults result ≡ 0 }
    {
        SocketSite {
            rt,
            listener: None,
            acceptor: None,
            counts,
            faults: 0,
        }
    }

    // Counts a failure.
    pub(crate) fn count(&mut self)
        ensures rose { Rose (site_faults self.old) (site_faults self.new) }
        ensures no_fall { site_faults self.old ≤ site_faults self.new }
    {
        self.faults = self.faults.saturating_add(1);
    }

    // A call fails.
    pub(crate) fn fail(&mut self) -> SiteRefusal
        ensures is { result ≡ SiteRefusal.Failed }
        ensures rose { Rose (site_faults self.old) (site_faults self.new) }
        ensures no_fall { site_faults self.old ≤ site_faults self.new }
    {
        self.count();
        SiteRefusal::Failed
    }

    // Listens at an address. Why it can't is told.
    fn bind(&self, at: &[u8]) -> Option<(TcpListener, SocketAddr)> {
        let Some(address) = read_address(at) else {
            warn_listen(&self.rt, at, ErrorKind::InvalidInput);
            return None;
        };
        match TcpListener::bind(&self.rt, address) {
            Ok(listener) => match listener.local_addr() {
                Ok(used) => Some((listener, used)),
                Err(error) => {
                    warn_listen(&self.rt, at, error.kind());
                    None
                }
            },
            Err(error) => {
                warn_listen(&self.rt, at, error.kind());
                None
            }
        }
    }

    // What the sockets of a relay, or of a worker that counts from 1, are to be. Clusters without an address that can be read, too few
    // files, and keys that are set and do nothing are told once.
    pub(crate) fn plan(
        &self,
        config: &Config,
        sharing: Sharing,
        worker: u32,
    ) -> Result<Plan, AllocError>
        ensures { IfOk result (λ plan. length plan.clusters.items ≡ length config.now.clusters) }
    {
        let rows = config.clusters.as_slice();
        let mut clusters = Vec::with_capacity(self.rt.alloc(), rows.len())?;
        for cluster in rows {
            clusters.push(self.target_of(cluster, sharing, worker)?)?;
        }
        let plan = Plan {
            clusters,
            sharing,
            ready: config.proxy.connections,
            clients: most_clients(config, sharing),
        };
        if worker == 1 {
            self.look_at_files(&plan, config);
            warn_unused(&self.rt, config, sharing);
        }
        Ok(plan)
    }

    fn look_at_files(&self, plan: &Plan, config: &Config) {
        let most = most_files(plan, config);
        if let Some(files) = open_files() {
            if files < most {
                warn_files(&self.rt, files, most);
            }
        }
    }

    // A cluster, and what it is called. Of several workers each says which one it is.
    fn target_of(
        &self,
        cluster: &Cluster,
        sharing: Sharing,
        worker: u32,
    ) -> Result<Target, AllocError> {
        let cluster_name = shown(cluster.name.as_slice());
        let name = match sharing {
            Sharing::OneEach => format!(in self.rt.alloc(); "cluster {cluster_name}")?,
            Sharing::All => format!(in self.rt.alloc(); "worker {worker}: cluster {cluster_name}")?,
        };
        let address = self.address_of(cluster, worker);
        Ok(Target { name, address })
    }

    fn address_of(&self, cluster: &Cluster, worker: u32) -> Option<SocketAddr> {
        let address = match &cluster.address {
            Some(text) => read_address(text.as_slice()),
            None => None,
        };
        if address.is_none() && worker == 1 {
            warn_address(&self.rt, cluster.name.as_slice());
        }
        address
    }

    // The sockets of a plan, whose clients come at the listener.
    fn sockets(
        &self,
        mut listener: TcpListener,
        plan: &Plan,
    ) -> Result<SocketTaps<R, TcpListener>, EdgeFault>
        ensures { IfOk result (λ taps. (seen_of taps ≡ roll_seen (new_roll (length plan.now.clusters.items))) × (faults_of taps ≡ 0)) }
    {
        let poll = Poll::new(&self.rt)?;
        poll.registry()
            .register(&mut listener, DOOR, Interest::READABLE)?;
        SocketTaps::new(self.rt, self.rt.alloc(), poll, listener, plan)
    }

    // The journal's file, which has the worker's number behind its name, or 1 for a relay.
    pub(crate) fn open_journal(
        &self,
        config: &Config,
        worker: u32,
    ) -> Result<FileJournal<R::File>, SiteRefusal>
        ensures { IfOk result (λ journal. journal_faults journal ≡ 0) }
    {
        let Some(front) = &config.proxy.journal else {
            return Ok(FileJournal::None);
        };
        let Ok(name) = name_of(front, worker, self.rt.alloc()) else {
            return Err(SiteRefusal::NoMemory);
        };
        let Ok(path) = std::str::from_utf8(name.as_slice()) else {
            warn_journal(&self.rt, "?", ErrorKind::InvalidInput);
            return Err(SiteRefusal::Failed);
        };
        match make_file(&self.rt, path) {
            Ok(file) => Ok(FileJournal::File(Output::new(file))),
            Err(error) => {
                warn_journal(&self.rt, path, error.kind());
                Err(SiteRefusal::Failed)
            }
        }
    }

    // Why the journal of a worker, or of a relay, couldn't be written is told, if it couldn't.
    pub(crate) fn tell_journal(&self, worker: Option<u32>, journal: &FileJournal<R::File>) {
        if let Some(kind) = journal.kind() {
            warn_written(&self.rt, worker, kind);
        }
    }
}

// The most clients that a relay takes, or a worker. All workers have permits for as many as the configuration says; one more is
// taken, and closed since there is no permit for it.
fn most_clients(config: &Config, sharing: Sharing) -> u32 {
    let most = config.proxy.max_connections;
    match sharing {
        Sharing::OneEach => most,
        Sharing::All => most.saturating_add(1),
    }
}

// How many files a relay may have open at once, or all workers, whose clients are the same. Beside these each worker has some that wait
// for it.
fn most_files(plan: &Plan, config: &Config) -> u64 {
    let (workers, waiting) = match plan.sharing {
        Sharing::OneEach => (1, 0),
        Sharing::All => (config.proxy.workers, MOST_WAITING),
    };
    let clients = u64::from(plan.clients);
    let others = plan.most_files().saturating_sub(clients);
    others
        .saturating_add(waiting)
        .saturating_mul(u64::from(workers))
        .saturating_add(clients)
}

// Opens a file that is empty then. One that wasn't there nobody but its owner may read or write: a journal holds all that anybody sent.
fn make_file<R: Files>(rt: &R, path: &str) -> io::Result<R::File> {
    let mut options = OpenOptions::new();
    options.write(true).create(true).truncate(true).mode(0o600);
    options.open(rt, path)
}

fn name_of(front: &Octets, worker: u32, alloc: Global) -> Result<Octets, NoMemory> {
    let mut name = Octets::from_slice(alloc, front.as_slice())?;
    name.push_all(b".")?;
    let mut digits = Buffer::new();
    name.push_all(digits.format(worker).as_bytes())?;
    Ok(name)
}

impl<R: Eprint + Files + Net + Clock + Wait + AllocGlobal + Copy + Drop> Site for SocketSite<R> {
    ghost use Rattle.proxy_sockets.specs.Sites.{site_faults};
    ghost use Rattle.std.specs.Prelude.{None};

    type T = SocketTaps<R, TcpListener>;

    type J = FileJournal<R::File>;

    ghost faults = { site_faults };

    ghost told = { λ _. None };

    fn listen(&mut self, at: &Octets) -> Result<Octets, SiteRefusal> {
        let Some((listener, used)) = self.bind(at.as_slice()) else {
            return Err(self.fail());
        };
        self.listener = Some(listener);
        match format!(in self.rt.alloc(); "{used}") {
            Ok(text) => Ok(Octets::from_vec(text.into_bytes())),
            Err(_) => Err(SiteRefusal::NoMemory),
        }
    }

    fn fit_taps(&mut self, config: &Config) -> Result<(Self::T, Self::J), SiteRefusal> {
        let Some(listener) = self.listener.take() else {
            return Err(self.fail());
        };
        let Ok(plan) = self.plan(config, Sharing::OneEach, 1) else {
            return Err(SiteRefusal::NoMemory);
        };
        let journal = match self.open_journal(config, 1) {
            Ok(journal) => journal,
            Err(SiteRefusal::NoMemory) => return Err(SiteRefusal::NoMemory),
            Err(SiteRefusal::Failed) => return Err(self.fail()),
        };
        match self.sockets(listener, &plan) {
            Ok(taps) => Ok((taps, journal)),
            Err(EdgeFault::NoMemory) => Err(SiteRefusal::NoMemory),
            Err(EdgeFault::Failed(error)) => {
                warn_sockets(&self.rt, &error);
                Err(self.fail())
            }
        }
    }

    fn give_back_taps(&mut self, taps: Self::T, journal: Self::J) {
        self.tell_journal(None, &journal);
        if taps.faults() > 0 || journal.faults() > 0 {
            self.count();
        }
    }
}
