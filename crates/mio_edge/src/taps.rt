// Connections over sockets.
ghost use Rattle.std.specs.Prelude.{◌≡◌, Err, IfOk, OnErr, length};
ghost use Rattle.mio_edge.specs.Rolls.{new_roll, roll_seen};
ghost use Rattle.mio_edge.specs.Sockets.{faults_of, seen_of};
ghost use Rattle.worker_ports.specs.Wires.{Gives};
ghost use Rattle.worker_ports.specs.declared.wires.WireRefusal.TheVariants as refusal;

use crate::fault::EdgeFault;
use crate::inlet::Inlet;
use crate::plan::Plan;
use crate::roll::Roll;
use crate::sockets::Sockets;
use io_ports::{Failed, NoMemory, Octets};
use mio::Poll;
use relay_ports::Taps;
use std::alloc::Global;
use std::io::Eprint;
use std::net::Net;
use std::time::Clock;
use worker_ports::{WireRefusal, Wired, Wires};

/// How many octets are given at once at most.
const MOST_READ: usize = 16_384;

/// Connections over sockets: those of clients that come at an inlet, and those to clusters, of which some are kept ready. What
/// the sockets tell is given where it may come. That a cluster can't be reached, a client not be accepted, or sockets not be waited
/// for, is told on standard error.
#[derive(Drop)]
pub struct SocketTaps<R: Clock + Net + Drop, I: Inlet + Drop> {
    pub(crate) roll: Roll,
    pub(crate) sockets: Sockets<R, I>,
    pub(crate) faults: u64,
}

impl<R: Clock + Net + Eprint + Drop, I: Inlet + Drop> SocketTaps<R, I> {
    /// The sockets of a plan, without connections. Clients come at the inlet, which doesn't block, and of which the poll tells
    /// under the token `DOOR`.
    pub fn new(rt: R, alloc: Global, poll: Poll, inlet: I, plan: &Plan) -> Result<Self, EdgeFault>
        ensures { IfOk result (λ made. (seen_of made ≡ roll_seen (new_roll (length plan.now.clusters.items))) × (faults_of made ≡ 0)) }
    {
        let Ok(clusters) = u32::try_from(plan.clusters.len()) else {
            return Err(EdgeFault::NoMemory);
        };
        Ok(SocketTaps {
            roll: Roll::new(alloc, clusters),
            sockets: Sockets::new(rt, alloc, poll, inlet, plan)?,
            faults: 0,
        })
    }

    /// How many calls failed.
    pub fn faults(&self) -> u64
        ensures { result ≡ faults_of self.now }
    {
        self.faults
    }

    // What the sockets tell is given, where it may come, and else nothing.
    #[tactic(auto, using(crate::proofs::Admitting::gives_idle, crate::proofs::Admitting::gives_stop))]
    fn admit(&mut self, wired: Wired) -> Result<Wired, WireRefusal>
        ensures ok { IfOk result (λ wired. Gives (seen_of self.old) wired (seen_of self.new)) }
        ensures err { OnErr result (seen_of self.new ≡ seen_of self.old) }
        ensures faults { faults_of self.new ≡ faults_of self.old }
        ensures memory { result ≡ Err refusal.Failed → ⊥ }
    {
        match wired {
            Wired::Accept(conn) => self.admit_accept(conn),
            Wired::Join(conn, cluster) => self.admit_join(conn, cluster),
            Wired::Read(conn, octets) => Ok(self.admit_read(conn, octets)),
            Wired::Lost(conn) => Ok(self.admit_lost(conn)),
            Wired::Idle => Ok(Wired::Idle),
            Wired::Stop => Ok(Wired::Stop),
        }
    }

    #[tactic(auto, using(crate::proofs::Admitting::gives_idle, crate::proofs::Admitting::gives_accept))]
    fn admit_accept(&mut self, conn: u32) -> Result<Wired, WireRefusal>
        ensures ok { IfOk result (λ wired. Gives (seen_of self.old) wired (seen_of self.new)) }
        ensures err { OnErr result (seen_of self.new ≡ seen_of self.old) }
        ensures faults { faults_of self.new ≡ faults_of self.old }
        ensures memory { result ≡ Err refusal.Failed → ⊥ }
    {
        if !self.roll.is_next(conn) {
            return Ok(Wired::Idle);
        }
        match self.roll.come(conn) {
            Ok(()) => Ok(Wired::Accept(conn)),
            Err(NoMemory) => {
                self.sockets.close(conn);
                Err(WireRefusal::NoMemory)
            }
        }
    }

    #[tactic(auto, using(crate::proofs::Admitting::gives_idle, crate::proofs::Admitting::gives_join))]
    fn admit_join(&mut self, conn: u32, cluster: u32) -> Result<Wired, WireRefusal>
        ensures ok { IfOk result (λ wired. Gives (seen_of self.old) wired (seen_of self.new)) }
        ensures err { OnErr result (seen_of self.new ≡ seen_of self.old) }
        ensures faults { faults_of self.new ≡ faults_of self.old }
        ensures memory { result ≡ Err refusal.Failed → ⊥ }
    {
        if !self.roll.is_next(conn) || !self.roll.has_cluster(cluster) {
            return Ok(Wired::Idle);
        }
        match self.roll.come(conn) {
            Ok(()) => Ok(Wired::Join(conn, cluster)),
            Err(NoMemory) => {
                self.sockets.close(conn);
                Err(WireRefusal::NoMemory)
            }
        }
    }

    #[tactic(auto, using(crate::proofs::Admitting::gives_idle, crate::proofs::Admitting::gives_read))]
    fn admit_read(&mut self, conn: u32, octets: Octets) -> Wired
        ensures gives { Gives (seen_of self.old) result (seen_of self.new) }
        ensures faults { faults_of self.new ≡ faults_of self.old }
    {
        if self.roll.is_read(conn) && !octets.is_empty() && octets.len() <= MOST_READ {
            Wired::Read(conn, octets)
        } else {
            Wired::Idle
        }
    }

    #[tactic(auto, using(crate::proofs::Admitting::gives_idle, crate::proofs::Admitting::gives_lost))]
    fn admit_lost(&mut self, conn: u32) -> Wired
        ensures gives { Gives (seen_of self.old) result (seen_of self.new) }
        ensures faults { faults_of self.new ≡ faults_of self.old }
    {
        if self.roll.leave(conn) {
            Wired::Lost(conn)
        } else {
            Wired::Idle
        }
    }
}

impl<R: Clock + Net + Eprint + Drop, I: Inlet + Drop> Wires for SocketTaps<R, I> {
    ghost seen = { seen_of };

    ghost faults = { faults_of };

    fn next(&mut self) -> Result<Wired, WireRefusal> {
        let number = self.roll.next_number();
        match self.sockets.next(number) {
            Ok(wired) => self.admit(wired),
            Err(WireRefusal::NoMemory) => Err(WireRefusal::NoMemory),
            Err(WireRefusal::Failed) => {
                self.faults = self.faults.saturating_add(1);
                Err(WireRefusal::Failed)
            }
        }
    }

    fn offer(&mut self, conn: u32, piece: &[u8]) -> Result<usize, Failed> {
        if self.sockets.leaves(piece) || !self.roll.is_live(conn) {
            return Ok(0);
        }
        Ok(self.sockets.take(conn, piece))
    }

    fn close(&mut self, conn: u32) {
        if self.roll.leave(conn) {
            self.sockets.close(conn);
        }
    }
}

impl<R: Clock + Net + Eprint + Drop, I: Inlet + Drop> Taps for SocketTaps<R, I> {
    fn hold(&mut self, conn: u32, held: bool) {
        self.roll.hold(conn, held);
        self.sockets.hold(conn, held);
    }
}
