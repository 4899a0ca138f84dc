// Clients that were accepted for a worker, and wait for it.

use crossbeam_queue::SegQueue;
use mio::net::TcpStream;
use mio::{Registry, Waker};
use mio_edge::{DOOR, EdgeFault, Inlet};
use std::alloc::Global;
use std::io::{self, ErrorKind};
use std::sync::atomic::{AtomicBool, AtomicU32, Ordering};
use std::sync::{Arc, Wait};

/// How many clients wait for a worker at most. Further ones wait in the system's queue, where they take no file of the process.
pub const MOST_WAITING: u64 = 64;

/// Clients that were accepted for a worker, and wait for it.
#[derive(Drop)]
pub struct AcceptQueue {
    clients: SegQueue<TcpStream>,
    waker: Waker,
    /// How many connections of clients the worker has.
    live: AtomicU32,
    /// How many rounds the worker has begun; behind 2^32 - 1 the count begins again.
    rounds: AtomicU32,
    /// Whether nobody comes any more.
    over: AtomicBool,
}

impl AcceptQueue {
    /// A queue without clients. The poll of the registry, which is the worker's, is told of those that come.
    pub fn new(alloc: Global, registry: &Registry) -> Result<Self, EdgeFault> {
        Ok(AcceptQueue {
            clients: SegQueue::new(alloc)?,
            waker: Waker::new(registry, DOOR)?,
            live: AtomicU32::new(0),
            rounds: AtomicU32::new(0),
            over: AtomicBool::new(false),
        })
    }

    // Hands a client to the worker. Out of memory, the client's connection is closed.
    pub(crate) fn push<R: Wait>(&self, rt: &R, client: TcpStream) {
        if self.clients.push(rt, client).is_ok() {
            self.wake();
        }
    }

    // A client that waits still.
    pub(crate) fn take_back<R: Wait>(&self, rt: &R) -> Option<TcpStream> {
        self.clients.pop(rt)
    }

    // How many clients wait.
    pub(crate) fn waiting(&self) -> u64 {
        self.clients.claimed()
    }

    // How many rounds the worker has begun, as far as they are told apart.
    pub(crate) fn rounds(&self) -> u32 {
        self.rounds.load(Ordering::SeqCst)
    }

    // How many connections of clients the worker has.
    pub(crate) fn live(&self) -> u32 {
        self.live.load(Ordering::SeqCst)
    }

    // Nobody comes any more: the worker is to end.
    pub(crate) fn end(&self) {
        self.over.store(true, Ordering::SeqCst);
        self.wake();
    }

    // Ends a wait of the worker.
    fn wake(&self) {
        // Where the system refuses, the next client wakes it. An end it sees by itself, within a tenth of a second.
        let _ = self.waker.wake();
    }
}

/// The way in of a worker, which takes its clients from its queue.
#[derive(Drop)]
pub struct QueueInlet<R: Wait + Drop> {
    rt: R,
    queue: Arc<AcceptQueue, Global>,
}

impl<R: Wait + Drop> QueueInlet<R> {
    pub fn new(rt: R, queue: Arc<AcceptQueue, Global>) -> Self {
        QueueInlet { rt, queue }
    }
}

impl<R: Wait + Drop> Inlet for QueueInlet<R> {
    fn accept(&mut self) -> io::Result<TcpStream> {
        match self.queue.clients.pop(&self.rt) {
            Some(client) => Ok(client),
            None => Err(io::Error::from(ErrorKind::WouldBlock)),
        }
    }

    fn waiting(&self) -> u64 {
        self.queue.waiting()
    }

    fn count(&mut self, clients: u32) {
        self.queue.live.store(clients, Ordering::SeqCst);
        self.queue.rounds.fetch_add(1, Ordering::SeqCst);
    }

    fn is_over(&self) -> bool {
        self.queue.over.load(Ordering::SeqCst)
    }
}
