//! The configuration of the proxy as a text of TOML: what it comes to, and the first of its faults.
#![tactic(auto)]

ghost use Rattle.config_tables.specs.Reading.{config_of};
ghost use Rattle.proxy_config.specs.Defaults.{config_of_empty};
ghost use Rattle.std.specs.Prelude.{◌≡◌, [], Ok};

mod cluster_rows;
mod document;
mod fault;
mod judge;
mod keys;
mod overload_rows;
mod route_rows;
mod row;
mod section;
mod strings;
mod tables;
mod words;

pub use document::read_config;
pub use fault::ConfigFault;

/// The configuration of the defaults is that of the empty text.
pub fn defaults_are_of_empty_text()
    ensures { config_of [] ≡ Ok config_of_empty }
{}
