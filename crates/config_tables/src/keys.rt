// The keys of the configuration: each with its name, its kind, its range and what stands for it where it is absent.
ghost use Rattle.std.specs.Prelude.{◌≡◌, ◌≤◌};
ghost use Rattle.config_tables.specs.Kinds.{key_of};
ghost use Rattle.config_tables.specs.Tables.{stream_idle_min, connection_idle_min, cluster_name, resource, saturation};

use io_ports::Octets;
use proxy_config::Cluster;

/// What may stand at a key.
#[derive(Clone, Copy)]
pub enum Kind<'a> {
    /// An integer from `least` to `most`; where the key is absent, `other` stands for it.
    Number { least: u32, most: u32, other: u32 },
    /// A string.
    Text,
    /// A name: 1 to 64 octets of `a` to `z`, `0` to `9`, `-` and `_`.
    Name,
    /// A name that none of these clusters has.
    NewName(&'a [Cluster]),
    /// One of these words.
    OneOf(&'a [&'a str]),
    /// One of these names.
    Listed(&'a [Octets]),
    /// A list of at most so many names, none twice.
    Names { most: usize },
    /// A list of at most so many of these words.
    Words { most: usize, words: &'a [&'a str] },
    /// A list of tables, of at most so many where that is said.
    Tables { most: Option<usize> },
    /// A table.
    Section,
}

/// A key of a table.
#[derive(Clone, Copy)]
pub struct Key<'a> {
    pub name: &'a str,
    /// Whether the key must be there.
    pub needed: bool,
    pub kind: Kind<'a>,
}

const MOST_OCTETS: u32 = 16_777_216;

const DAY: u32 = 86_400_000;

const MILLION: u32 = 1_000_000;

// A key that may be absent.
macro_rules! optional {
    ($name:literal, $kind:expr) => {
        Key {
            name: $name,
            needed: false,
            kind: $kind,
        }
    };
}

// A key that must be there.
macro_rules! needed {
    ($name:literal, $kind:expr) => {
        Key {
            name: $name,
            needed: true,
            kind: $kind,
        }
    };
}

// A number from a least to a most, with what stands for it where it is absent.
macro_rules! number {
    ($name:literal, $least:expr, $most:expr, $other:expr) => {
        Key {
            name: $name,
            needed: false,
            kind: Kind::Number {
                least: $least,
                most: $most,
                other: $other,
            },
        }
    };
}

// A share of a million that must be there, from a least on.
macro_rules! share {
    ($name:literal, $least:expr) => {
        needed!(
            $name,
            Kind::Number {
                least: $least,
                most: MILLION,
                other: 0,
            }
        )
    };
}

type Fixed = Key<'static>;

// The tables of the document.
pub const LIMITS: Fixed = optional!("limits", Kind::Section);

pub const TIMEOUTS: Fixed = optional!("timeouts", Kind::Section);

pub const CLUSTERS: Fixed = optional!("clusters", Kind::Tables { most: None });

pub const ROUTES: Fixed = optional!("routes", Kind::Tables { most: None });

pub const OVERLOAD: Fixed = optional!("overload", Kind::Section);

pub const PROXY: Fixed = optional!("proxy", Kind::Section);

// The table limits.
pub const WRITE_BUFFER: Fixed = number!("write_buffer", 0, MOST_OCTETS, 1_048_576);

pub const SEND_BUFFER: Fixed = number!("send_buffer", 0, MOST_OCTETS, 65_536);

pub const STREAM_WINDOW: Fixed = number!("stream_window", 65_535, MOST_OCTETS, 65_535);

pub const CONNECTION_WINDOW: Fixed = number!("connection_window", 65_535, MOST_OCTETS, 1_048_576);

pub const MAX_STREAMS: Fixed = number!("max_streams", 1, 1_000, 100);

pub const FIELD_LIST: Fixed = number!("field_list", 1_024, 61_440, 61_440);

pub const CONTROL_FRAMES: Fixed = number!("control_frames", 1, 10_000, 1_000);

pub const EMPTY_FRAMES: Fixed = number!("empty_frames", 1, 10_000, 100);

pub const PEER_RESETS: Fixed = number!("peer_resets", 1, 1_000_000, 1_000);

pub const QUANTUM: Fixed = number!("quantum", 16_384, 1_048_576, 16_384);

pub const FRAME_SIZE: Fixed = number!("frame_size", 16_384, 1_048_576, 16_384);

pub const OVERFLOW_MULTIPLE: Fixed = number!("overflow_multiple", 0, 1_000, 0);

// The table timeouts. A least timeout is at most its greatest, which stands for it.
pub const ROUTE: Fixed = number!("route", 0, DAY, 15_000);

pub const STREAM_IDLE: Fixed = number!("stream_idle", 0, DAY, 300_000);

pub const CONNECTION_IDLE: Fixed = number!("connection_idle", 0, DAY, 3_600_000);

pub fn stream_idle_min(stream_idle: u32) -> Fixed
    ensures { key_of result ≡ stream_idle_min stream_idle }
{
    number!("stream_idle_min", 0, stream_idle, stream_idle)
}

pub fn connection_idle_min(connection_idle: u32) -> Fixed
    ensures { key_of result ≡ connection_idle_min connection_idle }
{
    number!("connection_idle_min", 0, connection_idle, connection_idle)
}

// A row of clusters, after these clusters.
pub fn cluster_name(before: &[Cluster]) -> Key<'_>
    ensures { key_of result ≡ cluster_name before.now }
{
    needed!("name", Kind::NewName(before))
}

pub const ADDRESS: Fixed = optional!("address", Kind::Text);

// A row of routes.
pub const AUTHORITY: Fixed = optional!("authority", Kind::Text);

pub const PATH: Fixed = optional!("path", Kind::Text);

pub const PREFIX: Fixed = needed!("prefix", Kind::Text);

pub const CLUSTER: Fixed = needed!("cluster", Kind::Name);

pub const REQUEST: Fixed = optional!("request", FILTERS);

pub const RESPONSE: Fixed = optional!("response", FILTERS);

pub const HOLD_LIMIT: Fixed = number!("hold_limit", 1, MOST_OCTETS, 1_048_576);

pub const METER_LIMIT: Fixed = number!("meter_limit", 1, MOST_OCTETS, 1_048_576);

pub const METER_RATE: Fixed = number!("meter_rate", 1, MOST_OCTETS, 65_536);

const FILTERS: Kind<'static> = Kind::Words {
    most: 8,
    words: &["pass", "hold", "meter"],
};

// The table overload.
pub const RESOURCES: Fixed = optional!("resources", Kind::Names { most: 16 });

pub const CLASS_START: Fixed = number!("class_start", 10, 40, 20);

pub const TRIGGERS: Fixed = optional!("triggers", Kind::Tables { most: Some(64) });

pub const SHED: Fixed = optional!("shed", Kind::Tables { most: Some(16) });

// A row of triggers and a row of shed points.
pub const ACTIONS: [&str; 6] = [
    "stop_requests",
    "stop_accepting",
    "reject_incoming",
    "no_keepalive",
    "reduce_timeouts",
    "reset_streams",
];

pub const ACTION: Fixed = needed!("action", Kind::OneOf(&ACTIONS));

pub const POINT: Fixed = needed!("point", Kind::OneOf(&["accept", "read", "drain"]));

pub const VALUE: Fixed = share!("value", 0);

pub const SCALING: Fixed = share!("scaling", 0);

pub fn resource(names: &[Octets]) -> Key<'_>
    ensures { key_of result ≡ resource names.now }
{
    needed!("resource", Kind::Listed(names))
}

/// The key `saturation` beside this `scaling`, which it must be above.
pub fn saturation(scaling: u32) -> Fixed
    requires { scaling ≤ 1000000 }
    ensures { key_of result ≡ saturation scaling }
{
    share!("saturation", scaling + 1)
}

// The table proxy.
pub const LISTEN: Fixed = optional!("listen", Kind::Text);

pub const JOURNAL: Fixed = optional!("journal", Kind::Text);

pub const WORKERS: Fixed = number!("workers", 1, 16, 2);

pub const CONNECTIONS: Fixed = number!("connections", 1, 16, 1);

pub const MAX_CONNECTIONS: Fixed = number!("max_connections", 1, 1_000_000, 1_000);

pub const ACCEPT_RATE: Fixed = number!("accept_rate", 0, 1_000_000, 0);

pub const ACCEPT_BURST: Fixed = number!("accept_burst", 1, 1_000_000, 1_000);
