// The configuration and its tables of plain keys.
use crate::overload::OverloadKeys;
use crate::routes::RouteList;
use crate::rows::Rows;
use io_ports::Octets;

/// The keys of the table `limits`. Buffers, windows and frames are octets.
#[derive(Clone, Copy, PartialEq, Eq)]
pub struct LimitKeys {
    /// The limit of the write buffer of a connection; 0 is no limit.
    pub write_buffer: u32,
    /// The limit of the send buffer of a flow; 0 is no limit.
    pub send_buffer: u32,
    /// The receive window of a stream.
    pub stream_window: u32,
    /// The receive window of a connection.
    pub connection_window: u32,
    /// The most streams that a peer may have open on a connection.
    pub max_streams: u32,
    /// The most octets of a field section.
    pub field_list: u32,
    /// The most units that wait on a connection.
    pub control_frames: u32,
    /// The most empty DATA frames in a row on a connection.
    pub empty_frames: u32,
    /// The most resets by a client on a connection, beside those of exchanges that are done.
    pub peer_resets: u32,
    /// The most octets that one move carries.
    pub quantum: u32,
    /// The greatest payload of a frame that a peer may send.
    pub frame_size: u32,
    /// How many times its limit a body buffer may hold before its exchange is given up; 0 turns this off.
    pub overflow_multiple: u32,
}

/// The keys of the table `timeouts`, in milliseconds; 0 is no timeout.
#[derive(Clone, Copy, PartialEq, Eq)]
pub struct TimeoutKeys {
    /// From a request's end to its response's end.
    pub route: u64,
    /// An exchange on which nothing moves.
    pub stream_idle: u64,
    /// A client connection without an exchange.
    pub connection_idle: u64,
    /// What `stream_idle` shrinks to under full overload.
    pub stream_idle_min: u64,
    /// What `connection_idle` shrinks to under full overload.
    pub connection_idle_min: u64,
}

/// A cluster of servers that requests go to.
#[derive(Drop)]
pub struct Cluster {
    pub name: Octets,
    /// Where its servers listen, as a host and a port.
    pub address: Option<Octets>,
}

/// The clusters, counted from 0 in this order. No name stands twice.
pub type ClusterList = Rows<Cluster>;

/// The keys of the table `proxy`.
#[derive(Drop)]
pub struct ProxyKeys {
    /// Where the proxy listens, as an address and a port.
    pub listen: Octets,
    /// The front of the names of the journals, or none, where no journal is kept.
    pub journal: Option<Octets>,
    /// How many workers there are.
    pub workers: u32,
    /// How many connections each worker has to each cluster.
    pub connections: u32,
    /// The most client connections of all workers together.
    pub max_connections: u32,
    /// The tokens for accepts that come each 100 ms; 0 is no bucket.
    pub accept_rate: u32,
    /// The most tokens for accepts that are kept.
    pub accept_burst: u32,
}

/// A configuration.
#[derive(Drop)]
pub struct Config {
    pub limits: LimitKeys,
    pub timeouts: TimeoutKeys,
    pub clusters: ClusterList,
    pub routes: RouteList,
    pub overload: OverloadKeys,
    pub proxy: ProxyKeys,
}
