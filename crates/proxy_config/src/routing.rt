// Which route a request takes.
ghost use Rattle.std.specs.Prelude.{◌≡◌, ◌<◌, length, position, IfSome, Some};
ghost use Rattle.std.specs.List.{HoldsAt};
ghost use Rattle.std.specs.Option.{option_copied};
ghost use Rattle.proxy_config.specs.Clusters.{number_of};
ghost use Rattle.proxy_config.specs.Ranges.{IsInRange};
ghost use Rattle.proxy_config.specs.Routing.{takes, is_met, is_to};

use crate::config::{Cluster, Config};
use crate::routes::Route;

/// The number of the first route that takes the request, from 0: its authority is absent or the request's, and its path is
/// the request's, or its prefix is a front of that. None exactly where no route does. Takes no memory.
pub fn route(config: &Config, authority: Option<&[u8]>, path: &[u8]) -> Option<u32>
    ensures { result ≡ position (takes (option_copied authority.entry) path.now) config.now.routes }
{
    let routes = config.routes.as_slice();
    match first_that_takes(routes, authority, path) {
        Some(number) => Some(number as u32),
        None => None,
    }
}

fn first_that_takes(routes: &[Route], authority: Option<&[u8]>, path: &[u8]) -> Option<usize>
    ensures first { result ≡ position (takes (option_copied authority.entry) path.now) routes.now }
    ensures bound { IfSome result (λ number. number < length routes.now) }
{
    routes
        .iter()
        .position(|route| is_met(route, authority) && is_to(route, path))
}

/// The number of the cluster that a row of the route table goes to, from 0 in the order of the list of clusters. Takes no
/// memory.
pub fn cluster_of(config: &Config, row: u32) -> u32
    requires range { IsInRange config.now }
    requires row { row < length config.now.routes }
    ensures number { HoldsAt (λ route. number_of config.now.clusters route.cluster ≡ Some result) config.now.routes row }
    ensures bound { result < length config.now.clusters }
{
    let route = &config.routes.as_slice()[row as usize];
    match first_named(config.clusters.as_slice(), route.cluster.as_slice()) {
        Some(number) => number as u32,
        None => unreachable!(),
    }
}

fn first_named(clusters: &[Cluster], name: &[u8]) -> Option<usize>
    ensures first { result ≡ number_of clusters.now name.now }
    ensures bound { IfSome result (λ number. number < length clusters.now) }
{
    clusters
        .iter()
        .position(|cluster| name == cluster.name.as_slice())
}

// Whether the row's authority is absent or the request's.
fn is_met(row: &Route, authority: Option<&[u8]>) -> bool
    ensures { result ≡ is_met (option_copied authority.entry) row.now }
{
    match &row.authority {
        Some(wanted) => authority.is_some_and(|authority| wanted.as_slice() == authority),
        None => true,
    }
}

// Whether the request's path is the row's, or begins with its prefix.
fn is_to(row: &Route, path: &[u8]) -> bool
    ensures { result ≡ is_to path.now row.now }
{
    let is_path = match &row.path {
        Some(wanted) => wanted.as_slice() == path,
        None => false,
    };
    let is_below = match &row.prefix {
        Some(front) => path.starts_with(front.as_slice()),
        None => false,
    };
    is_path || is_below
}
