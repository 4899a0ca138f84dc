// The rows of the route table.
use crate::rows::Rows;
use io_ports::Octets;

/// A stage of a flow. Limits and rates are octets from 1 to 16,777,216; a rate is per 50 ms.
#[derive(Clone, Copy, Debug, PartialEq, Eq)]
pub enum Filter {
    /// Keeps nothing: octets go on at once.
    Pass,
    /// Keeps the whole body, at most `limit` octets, and lets it go at the body's end.
    Hold { limit: u32 },
    /// Lets `rate` octets go each 50 ms, and rises above `limit` octets.
    Meter { limit: u32, rate: u32 },
}

/// The filters of one flow of a route, in their order.
pub type FilterList = Rows<Filter>;

/// A row of the route table. Exactly one of `path` and `prefix` is there.
#[derive(Drop)]
pub struct Route {
    /// The authority that a request must have, or none, where any will do.
    pub authority: Option<Octets>,
    /// The path that a request must have.
    pub path: Option<Octets>,
    /// What the path of a request must begin with.
    pub prefix: Option<Octets>,
    /// The name of the cluster that the request goes to.
    pub cluster: Octets,
    /// The filters of the request's body.
    pub request: FilterList,
    /// The filters of the response's body.
    pub response: FilterList,
    /// The limit of each Hold of this row, in octets.
    pub hold_limit: u32,
    /// The limit of each Meter of this row, in octets.
    pub meter_limit: u32,
    /// The rate of each Meter of this row, in octets per 50 ms.
    pub meter_rate: u32,
}

/// The route table. The first row that matches a request is taken.
pub type RouteList = Rows<Route>;
