// What of a configuration the proxy passes over, on standard error. A key whose value is its default counts as one that isn't set.

use crate::counts::CONNECTIONS;
use crate::warn::{warn_gauge, warn_key};
use mio_edge::Sharing;
use proxy_config::{Config, OverloadKeys, ProxyKeys};
use std::io::Eprint;

/// Tells the keys that are set and that a relay, or the workers of a proxy of HTTP/2, don't use.
pub fn warn_unused<R: Eprint + AllocGlobal>(rt: &R, config: &Config, sharing: Sharing) {
    match sharing {
        Sharing::OneEach => warn_of_relay(rt, config),
        Sharing::All => warn_of_workers(rt, config),
    }
}

// Where there is no memory for the defaults nothing is told.
fn warn_of_relay<R: Eprint + AllocGlobal>(rt: &R, config: &Config) {
    let Ok(usual) = Config::of_defaults(rt.alloc()) else {
        return;
    };
    let mut limits = usual.limits;
    limits.write_buffer = config.limits.write_buffer;
    if config.limits != limits {
        warn_key(rt, "the relay uses no key of limits but write_buffer");
    }
    if config.timeouts != usual.timeouts {
        warn_key(rt, "the relay doesn't use timeouts");
    }
    if !config.routes.is_empty() {
        warn_key(rt, "the relay doesn't use routes");
    }
    if is_set(&config.overload, &usual.overload) {
        warn_key(rt, "the relay doesn't use overload");
    }
    warn_of_rates(rt, &config.proxy, &usual.proxy);
}

fn warn_of_rates<R: Eprint>(rt: &R, proxy: &ProxyKeys, usual: &ProxyKeys) {
    if proxy.workers != usual.workers {
        warn_key(rt, "the relay doesn't use proxy.workers");
    }
    if proxy.accept_rate != usual.accept_rate {
        warn_key(rt, "the relay doesn't use proxy.accept_rate");
    }
    if proxy.accept_burst != usual.accept_burst {
        warn_key(rt, "the relay doesn't use proxy.accept_burst");
    }
}

fn is_set(overload: &OverloadKeys, usual: &OverloadKeys) -> bool {
    overload.class_start != usual.class_start
        || !overload.resources.is_empty()
        || !overload.triggers.is_empty()
        || !overload.shed.is_empty()
}

fn warn_of_workers<R: Eprint>(rt: &R, config: &Config) {
    if config.routes.is_empty() {
        warn_key(
            rt,
            "there are no [[routes]]: every request is answered with 404",
        );
    }
    for name in config.overload.resources.as_slice() {
        if name.as_slice() != CONNECTIONS {
            warn_gauge(rt, name.as_slice());
        }
    }
    if !config.overload.shed.is_empty() {
        warn_key(rt, "overload.shed isn't used; h2replay shed uses it");
    }
}
