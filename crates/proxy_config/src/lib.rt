//! The configuration of the proxy, with its ranges and its defaults, and the route that a request takes by it.
#![tactic(auto)]

mod config;
mod defaults;
mod overload;
mod routes;
mod routing;
mod rows;

pub use config::{Cluster, ClusterList, Config, LimitKeys, ProxyKeys, TimeoutKeys};
pub use overload::{Form, NameList, OverloadKeys, Point, ShedList, ShedRow, Trigger, TriggerList};
pub use routes::{Filter, FilterList, Route, RouteList};
pub use routing::{cluster_of, route};
pub use rows::Rows;
