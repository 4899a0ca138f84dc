// One text's configuration.
use crate::config::overload::say_overload;
use crate::said::Said;
use config_tables::{ConfigFault, read_config};
use io_ports::Octets;
use proxy_config::{
    Cluster, Config, Filter, FilterList, LimitKeys, ProxyKeys, Route, TimeoutKeys, route,
};

/// The name of a text, its configuration or its fault, and the rows that it asks for. A configuration is dropped by a call, since the
/// check follows a drop without one field by field.
pub fn say_text(said: &mut Said, text: &[u8]) {
    let name = text.split(|octet| *octet == b'\n').next().unwrap_or(b"");
    said.line(shown(name));
    if text.len() >= u32::MAX as usize {
        return;
    }
    match read_config(said.alloc(), text) {
        Ok(config) => {
            say_config(said, &config);
            say_rows(said, &config, text);
            drop(config);
        }
        Err(fault) => say_fault(said, &fault),
    }
}

fn shown(octets: &[u8]) -> &str {
    std::str::from_utf8(octets).unwrap_or("?")
}

/// A space, and octets behind it.
pub fn say_word(said: &mut Said, octets: &[u8]) {
    said.say(" ");
    said.say(shown(octets));
}

// A space, and octets behind it, or a dash where there are none.
fn say_or_dash(said: &mut Said, octets: &Option<Octets>) {
    match octets {
        Some(octets) => say_word(said, octets.as_slice()),
        None => said.say(" -"),
    }
}

// Numbers, each behind a space.
fn say_numbers(said: &mut Said, numbers: &[u32]) {
    for number in numbers {
        said.say_small(" ", *number);
    }
}

fn number_of(fault: &ConfigFault) -> u32 {
    match fault {
        ConfigFault::NotToml => 1,
        ConfigFault::Missing(_) => 2,
        ConfigFault::WrongKind(_) => 3,
        ConfigFault::OutOfRange(_) => 4,
        ConfigFault::Unknown(_) => 5,
        ConfigFault::UnknownCluster(_) => 6,
        ConfigFault::NoMemory => 7,
    }
}

fn say_fault(said: &mut Said, fault: &ConfigFault) {
    said.say_small("refused ", number_of(fault));
    match fault {
        ConfigFault::NotToml => {}
        ConfigFault::Missing(key) => say_word(said, key.as_slice()),
        ConfigFault::WrongKind(key) => say_word(said, key.as_slice()),
        ConfigFault::OutOfRange(key) => say_word(said, key.as_slice()),
        ConfigFault::Unknown(key) => say_word(said, key.as_slice()),
        ConfigFault::UnknownCluster(key) => say_word(said, key.as_slice()),
        ConfigFault::NoMemory => {}
    }
    said.say("\n");
}

/// A configuration, each key in its place.
pub fn say_config(said: &mut Said, config: &Config) {
    say_limits(said, &config.limits);
    say_timeouts(said, &config.timeouts);
    say_clusters(said, config.clusters.as_slice());
    for route in config.routes.as_slice() {
        say_route(said, route);
    }
    say_overload(said, &config.overload);
    say_proxy(said, &config.proxy);
}

fn say_limits(said: &mut Said, limits: &LimitKeys) {
    said.say("limits");
    say_numbers(
        said,
        &[
            limits.write_buffer,
            limits.send_buffer,
            limits.stream_window,
            limits.connection_window,
            limits.max_streams,
            limits.field_list,
            limits.control_frames,
            limits.empty_frames,
            limits.peer_resets,
            limits.quantum,
            limits.frame_size,
            limits.overflow_multiple,
        ],
    );
    said.say("\n");
}

fn say_timeouts(said: &mut Said, timeouts: &TimeoutKeys) {
    said.say_with("timeouts ", timeouts.route);
    said.say_with(" ", timeouts.stream_idle);
    said.say_with(" ", timeouts.connection_idle);
    said.say_with(" ", timeouts.stream_idle_min);
    said.say_with(" ", timeouts.connection_idle_min);
    said.say("\n");
}

fn say_clusters(said: &mut Said, clusters: &[Cluster]) {
    for cluster in clusters {
        said.say("cluster");
        say_word(said, cluster.name.as_slice());
        say_or_dash(said, &cluster.address);
        said.say("\n");
    }
}

fn say_route(said: &mut Said, route: &Route) {
    said.say("route");
    say_or_dash(said, &route.authority);
    say_or_dash(said, &route.path);
    say_or_dash(said, &route.prefix);
    say_word(said, route.cluster.as_slice());
    say_numbers(
        said,
        &[route.hold_limit, route.meter_limit, route.meter_rate],
    );
    say_filters(said, &route.request);
    say_filters(said, &route.response);
    said.say("\n");
}

fn say_filters(said: &mut Said, filters: &FilterList) {
    said.say(" [");
    for filter in filters.as_slice() {
        say_filter(said, *filter);
    }
    said.say(" ]");
}

fn say_filter(said: &mut Said, filter: Filter) {
    match filter {
        Filter::Pass => said.say(" pass"),
        Filter::Hold { limit } => said.say_small(" hold ", limit),
        Filter::Meter { limit, rate } => {
            said.say_small(" meter ", limit);
            said.say_small(" ", rate);
        }
    }
}

fn say_proxy(said: &mut Said, proxy: &ProxyKeys) {
    said.say("proxy");
    say_word(said, proxy.listen.as_slice());
    say_or_dash(said, &proxy.journal);
    say_numbers(
        said,
        &[
            proxy.workers,
            proxy.connections,
            proxy.max_connections,
            proxy.accept_rate,
            proxy.accept_burst,
        ],
    );
    said.say("\n");
}

// The row of each request that the text asks for.
fn say_rows(said: &mut Said, config: &Config, text: &[u8]) {
    for line in shown(text).lines() {
        if let Some(request) = line.strip_prefix("#? ") {
            say_row(said, config, request);
        }
    }
}

fn say_row(said: &mut Said, config: &Config, request: &str) {
    let Some((authority, path)) = request.split_once(' ') else {
        return;
    };
    let asked = if authority == "-" {
        None
    } else {
        Some(authority.as_bytes())
    };
    match route(config, asked, path.as_bytes()) {
        Some(row) => said.say_with("row ", row as u64),
        None => said.say("no row"),
    }
    said.say(" of ");
    said.line(request);
}

/// A list of filters as it grows, and after it went through a vector.
pub fn say_list(said: &mut Said) {
    let mut filters = FilterList::new(said.alloc());
    say_len(said, &filters);
    let fails = filters.push(Filter::Pass).is_err();
    if fails || filters.push(Filter::Hold { limit: 7 }).is_err() {
        said.lack();
    }
    say_len(said, &filters);
    let rows = filters.into_vec();
    if rows.len() < u32::MAX as usize {
        say_each(said, &FilterList::from_vec(rows));
    }
}

fn say_len(said: &mut Said, filters: &FilterList) {
    said.say_truth("empty ", filters.is_empty());
    said.say_with(" with ", filters.len() as u64);
    said.say("\n");
}

fn say_each(said: &mut Said, filters: &FilterList) {
    for filter in filters.as_slice() {
        match format!(in said.alloc(); "{filter:?}") {
            Ok(name) => said.line(name.as_str()),
            Err(_) => said.lack(),
        }
    }
}
