// What is known of a connection.
ghost use Rattle.std.specs.Prelude.{◌≡◌, ◌&&◌, None, Some, is_some, not, true};
ghost use Rattle.wire_links.specs.Links.{is_same, most_of};

/// The state of a connection.
#[derive(Clone, Copy, PartialEq, Eq)]
pub struct Conn {
    /// The number of its cluster; none of a client's connection.
    pub cluster: Option<u32>,
    /// Whether it hasn't been closed.
    pub live: bool,
    /// Where it is draining: the number that its first GOAWAY named (RFC 9113 section 6.8).
    pub draining: Option<u32>,
    /// The peer's SETTINGS_MAX_CONCURRENT_STREAMS (RFC 9113 section 6.5.2), once it has named one.
    pub concurrent: Option<u32>,
}

impl Conn {
    /// An open one, of a cluster or else of a client, of whose peer nothing has come yet.
    pub(crate) fn new(cluster: Option<u32>) -> Self
        ensures { result ≡ record { cluster = cluster; live = true; draining = None; concurrent = None } }
    {
        Conn {
            cluster,
            live: true,
            draining: None,
            concurrent: None,
        }
    }

    /// Whether it is an open one of the cluster that isn't draining.
    pub(crate) fn is_ready(&self, cluster: u32) -> bool
        ensures { result ≡ (is_same self.now.cluster cluster && (self.now.live && not (is_some self.now.draining))) }
    {
        self.cluster == Some(cluster) && self.live && self.draining.is_none()
    }

    /// How many exchanges it takes at most: as many as its peer allows, but never above 100, which holds too until the peer
    /// has named a number.
    pub(crate) fn most(&self) -> u32
        ensures { result ≡ most_of self.now }
    {
        self.concurrent
            .unwrap_or(MOST_CONCURRENT)
            .min(MOST_CONCURRENT)
    }
}

const MOST_CONCURRENT: u32 = 100;
