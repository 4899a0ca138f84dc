// The clusters, and the connections that are made to them.

use crate::dials::{Dial, Dials};
use crate::link::Origin;
use crate::plan::Plan;
use crate::upstream::Upstream;
use mio::Registry;
use mio::event::Event;
use std::alloc::{AllocError, Global};
use std::io::{Eprint, Error, ErrorKind};
use std::net::Net;

/// How many connections to one cluster are begun in one round at most.
const MOST_DIALS: u32 = 16;

/// The clusters by number, and the connections to them that are being made. Moments are in milliseconds.
#[derive(Drop)]
pub(crate) struct Dialing {
    upstreams: Vec<Upstream>,
    dials: Dials,
}

impl Dialing {
    /// The clusters of a plan, without connections.
    pub fn new(alloc: Global, plan: &Plan) -> Result<Self, AllocError> {
        let mut upstreams = Vec::with_capacity(alloc, plan.clusters.len())?;
        for target in &plan.clusters {
            upstreams.push(Upstream::new(alloc, target, plan.ready)?)?;
        }
        Ok(Dialing {
            upstreams,
            dials: Dials::new(alloc),
        })
    }

    /// Whether a connection to a cluster is ready.
    pub fn has_ready(&self) -> bool {
        self.upstreams.iter().any(Upstream::is_ready)
    }

    /// Whether one may be ready soon.
    pub fn is_hopeful(&self) -> bool {
        self.upstreams.iter().any(Upstream::is_hopeful)
    }

    /// Whether a connection has been made.
    pub fn is_due(&self) -> bool {
        self.dials.is_due()
    }

    /// The connection that was made first. It counts as being made until it joins or is postponed.
    pub fn next_made(&mut self) -> Option<Dial> {
        self.dials.next_made()
    }

    /// A connection that was made to this cluster is live.
    pub fn join<R: Eprint>(&mut self, rt: &R, cluster: u32) {
        if let Some(upstream) = self.upstreams.get_mut(cluster as usize) {
            upstream.join(rt);
        }
    }

    /// A connection that was made to this cluster couldn't be taken in, for want of something that isn't the cluster's.
    pub fn postpone(&mut self, cluster: u32, now: u64) {
        if let Some(upstream) = self.upstreams.get_mut(cluster as usize) {
            upstream.dialer.postpone(now);
        }
    }

    /// A client has a connection to this cluster for itself.
    pub fn take(&mut self, cluster: u32) {
        if let Some(upstream) = self.upstreams.get_mut(cluster as usize) {
            upstream.dialer.take();
        }
    }

    /// A connection is lost.
    pub fn lose(&mut self, origin: Origin, now: u64) {
        let Some((cluster, since)) = origin.ready() else {
            return;
        };
        if let Some(upstream) = self.upstreams.get_mut(cluster as usize) {
            upstream.dialer.lose(now, since);
        }
    }

    /// A connection was ended here.
    pub fn part(&mut self, origin: Origin, now: u64) {
        let Some((cluster, since)) = origin.ready() else {
            return;
        };
        if let Some(upstream) = self.upstreams.get_mut(cluster as usize) {
            upstream.dialer.part(now, since);
        }
    }

    /// The system tells something of a connection that is being made.
    pub fn on_event<R: Eprint>(&mut self, rt: &R, token: usize, event: &Event, now: u64) {
        if let Some((cluster, error)) = self.dials.on_event(token, event) {
            self.fail(rt, cluster, &error, now);
        }
    }

    /// Gives up the connections that weren't made in time.
    pub fn give_up<R: Eprint>(&mut self, rt: &R, now: u64) {
        let error = Error::from(ErrorKind::TimedOut);
        for _ in 0..self.dials.len() {
            let Some(cluster) = self.dials.give_up(now) else {
                return;
            };
            self.fail(rt, cluster, &error, now);
        }
    }

    // A connection to this cluster couldn't be made.
    fn fail<R: Eprint>(&mut self, rt: &R, cluster: u32, error: &Error, now: u64) {
        if let Some(upstream) = self.upstreams.get_mut(cluster as usize) {
            upstream.fail(rt, error, now);
        }
    }

    /// Begins the connections that are wanted, at once where it is urgent.
    pub fn begin_all<R: Net + Eprint>(
        &mut self,
        rt: &R,
        registry: &Registry,
        now: u64,
        is_urgent: bool,
    ) {
        for place in 0..self.upstreams.len() {
            self.begin(rt, registry, place, now, is_urgent);
        }
    }

    fn begin<R: Net + Eprint>(
        &mut self,
        rt: &R,
        registry: &Registry,
        place: usize,
        now: u64,
        is_urgent: bool,
    ) {
        let Ok(cluster) = u32::try_from(place) else {
            return;
        };
        let Some(upstream) = self.upstreams.get_mut(place) else {
            return;
        };
        for _ in 0..MOST_DIALS {
            let Some(address) = upstream.dialer.to_dial(now, is_urgent) else {
                return;
            };
            upstream.dialer.begin();
            if let Err(error) = self.dials.begin(rt, registry, cluster, address, now) {
                upstream.refuse(rt, &error, now);
                return;
            }
        }
    }
}
