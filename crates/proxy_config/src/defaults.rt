// The configuration of the empty text.
ghost use Rattle.std.specs.Prelude.{◌≡◌, IfOk};
ghost use Rattle.proxy_config.specs.Defaults.{config_of_empty, default_limits, default_timeouts};
ghost use Rattle.proxy_config.specs.Ranges.{IsInRange};

use crate::config::{Config, LimitKeys, ProxyKeys, TimeoutKeys};
use crate::overload::OverloadKeys;
use crate::rows::Rows;
use io_ports::{NoMemory, Octets};
use std::alloc::Global;

fn default_limits() -> LimitKeys
    ensures { result ≡ default_limits }
{
    LimitKeys {
        write_buffer: 1_048_576,
        send_buffer: 65_536,
        stream_window: 65_535,
        connection_window: 1_048_576,
        max_streams: 100,
        field_list: 61_440,
        control_frames: 1_000,
        empty_frames: 100,
        peer_resets: 1_000,
        quantum: 16_384,
        frame_size: 16_384,
        overflow_multiple: 0,
    }
}

fn default_timeouts() -> TimeoutKeys
    ensures { result ≡ default_timeouts }
{
    TimeoutKeys {
        route: 15_000,
        stream_idle: 300_000,
        connection_idle: 3_600_000,
        stream_idle_min: 300_000,
        connection_idle_min: 3_600_000,
    }
}

impl Config {
    /// The configuration of the empty text: every key has its default.
    pub fn of_defaults(alloc: Global) -> Result<Config, NoMemory>
        ensures defaults { IfOk result (λ config. config ≡ config_of_empty) }
        ensures in_range { IfOk result IsInRange }
    {
        Ok(Config {
            limits: default_limits(),
            timeouts: default_timeouts(),
            clusters: Rows::new(alloc),
            routes: Rows::new(alloc),
            overload: OverloadKeys {
                resources: Rows::new(alloc),
                class_start: 20,
                triggers: Rows::new(alloc),
                shed: Rows::new(alloc),
            },
            proxy: ProxyKeys {
                listen: Octets::from_slice(alloc, b"127.0.0.1:0")?,
                journal: None,
                workers: 2,
                connections: 1,
                max_connections: 1_000,
                accept_rate: 0,
                accept_burst: 1_000,
            },
        })
    }
}
