// How many clients there are, as a pressure.

use io_ports::Failed;
use proxy_config::Config;
use std::alloc::Global;
use std::sync::Arc;
use std::sync::atomic::{AtomicU32, Ordering};
use worker_ports::Gauge;

/// The name of the resource that has a gauge.
pub const CONNECTIONS: &[u8] = b"connections";

/// How many connections of clients there are, and the most that there may be.
#[derive(Drop)]
pub struct ClientCounts {
    live: AtomicU32,
    most: AtomicU32,
    /// The place of the resource among those of the configuration, counted from 1; 0 where it isn't listed.
    place: AtomicU32,
}

impl ClientCounts {
    pub fn new() -> Self {
        ClientCounts {
            live: AtomicU32::new(0),
            most: AtomicU32::new(1),
            place: AtomicU32::new(0),
        }
    }

    /// From now on the pressure is that of this configuration.
    pub fn set_up(&self, config: &Config) {
        self.most
            .store(config.proxy.max_connections, Ordering::SeqCst);
        let resources = config.overload.resources.as_slice();
        let at = resources
            .iter()
            .position(|name| name.as_slice() == CONNECTIONS);
        if let Some(at) = at {
            let place = u32::try_from(at).unwrap_or(u32::MAX).saturating_add(1);
            self.place.store(place, Ordering::SeqCst);
        }
    }

    /// So many connections of clients there are.
    pub fn set_live(&self, live: u32) {
        self.live.store(live, Ordering::SeqCst);
    }
}

/// The gauge of the resource `connections`: open connections of clients by the most that there may be, in parts per million. Other
/// resources have the pressure 0.
#[derive(Drop)]
pub struct ClientGauge {
    counts: Arc<ClientCounts, Global>,
}

impl ClientGauge {
    pub fn new(counts: Arc<ClientCounts, Global>) -> Self {
        ClientGauge { counts }
    }
}

impl Gauge for ClientGauge {
    ghost use Rattle.std.specs.Prelude.{None};

    ghost told = { λ _. None };

    ghost faults = { λ _. 0 };

    fn read(&mut self, resource: u32) -> Result<u32, Failed> {
        let counts = &self.counts;
        if counts.place.load(Ordering::SeqCst) != resource.saturating_add(1) {
            return Ok(0);
        }
        let live = u64::from(counts.live.load(Ordering::SeqCst));
        let most = u64::from(counts.most.load(Ordering::SeqCst)).max(1);
        let pressure = live.saturating_mul(1_000_000) / most;
        Ok(pressure.min(1_000_000) as u32)
    }
}
