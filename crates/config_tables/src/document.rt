// The whole document.
ghost use Rattle.std.specs.Prelude.{◌≡◌, ◌≢◌, ◌<◌, ◌^◌, ◌++◌, [], true, codes, length, IfOk, IfErr};
ghost use Rattle.std.specs.Str.{is_utf8};
ghost use Rattle.toml.specs.Parse.{parse_document};
ghost use Rattle.toml.specs.View.{table_view};
ghost use Rattle.config_tables.specs.Answers.{Checks, members_of};
ghost use Rattle.config_tables.specs.Keys.{unknown_faults};
ghost use Rattle.proxy_config.specs.Ranges.{IsInRange};
ghost use Rattle.config_tables.specs.Reading.{config_of, config_faults, config_made, tables_faults, stray_faults, top_keys, row_place};

use crate::cluster_rows::read_clusters;
use crate::fault::ConfigFault;
use crate::keys::{CLUSTERS, LIMITS, OVERLOAD, PROXY, ROUTES, TIMEOUTS};
use crate::route_rows::read_routes;
use crate::row::row_place;
use crate::section::Section;
use crate::tables::{read_limits, read_overload, read_proxy, read_timeouts};
use crate::words::is_cluster;
use io_ports::{NoMemory, Octets};
use proxy_config::{Cluster, Config, Route};
use std::alloc::Global;
use toml::Table;

/// Reads a configuration, or answers the first of its faults: where the text isn't a TOML document in UTF-8; then of the
/// tables `limits`, `timeouts`, `clusters`, `routes`, `overload` and `proxy`, with their rows and keys in their order and the
/// least unknown key last; then the least unknown table; then the first route whose cluster isn't there.
#[tactic(auto, unfolding(crate::specs::Reading::config_of))]
pub fn read_config(alloc: Global, text: &[u8]) -> Result<Config, ConfigFault>
    requires { length text.now < 2 ^ 32 }
    ensures ok { IfOk result (λ config. config_of text.now ≡ Ok config) }
    ensures refused { IfErr result (λ fault. fault ≢ ConfigFault.NoMemory → config_of text.now ≡ Err fault) }
    ensures in_range { IfOk result IsInRange }
{
    let table = read_document(alloc, text)?;
    read_table(alloc, &table)
}

#[tactic(auto, unfolding(crate::specs::Reading::config_of))]
fn read_document(alloc: Global, text: &[u8]) -> Result<Table, ConfigFault>
    ensures utf8 { IfOk result (λ table. is_utf8 text.now ≡ true) }
    ensures table { IfOk result (λ table. parse_document text.now ≡ Some (table_view table)) }
    ensures refused { IfErr result (λ fault. fault ≢ ConfigFault.NoMemory → config_of text.now ≡ Err fault) }
{
    match std::str::from_utf8(text) {
        Ok(text) => parse_table(alloc, text),
        Err(_) => Err(ConfigFault::NotToml),
    }
}

fn parse_table(alloc: Global, text: &str) -> Result<Table, ConfigFault>
    ensures table { IfOk result (λ table. parse_document text.now ≡ Some (table_view table)) }
    ensures refused { IfErr result (λ fault. fault ≢ ConfigFault.NoMemory → (fault ≡ ConfigFault.NotToml) × (parse_document text.now ≡ None)) }
{
    match toml::table_from_str(alloc, text) {
        Ok(table) => Ok(table),
        Err(error) if error.is_memory() => Err(ConfigFault::NoMemory),
        Err(_) => Err(ConfigFault::NotToml),
    }
}

fn read_table(alloc: Global, table: &Table) -> Result<Config, ConfigFault>
    ensures faults { Checks (config_faults (table_view table.now)) result }
    ensures value { IfOk result (λ config. config ≡ config_made (table_view table.now)) }
{
    let top = Section {
        alloc,
        place: "",
        table: Some(table),
    };
    let config = read_tables(&top)?;
    check_top(&top, &config)?;
    Ok(config)
}

// The tables of the document, in the order of their faults.
fn read_tables(top: &Section) -> Result<Config, ConfigFault>
    requires { top.now.place.now ≡ [] }
    ensures faults { Checks (tables_faults (members_of top.now.table)) result }
    ensures value { IfOk result (λ config. config ≡ config_made (members_of top.now.table)) }
{
    Ok(Config {
        limits: read_limits(top)?,
        timeouts: read_timeouts(top)?,
        clusters: read_clusters(top)?,
        routes: read_routes(top)?,
        overload: read_overload(top)?,
        proxy: read_proxy(top)?,
    })
}

// What may be wrong beside its tables: the least unknown one, and then the first route whose cluster isn't there.
fn check_top(top: &Section, config: &Config) -> Result<(), ConfigFault>
    requires { top.now.place.now ≡ [] }
    ensures { Checks (unknown_faults [] (members_of top.now.table) top_keys ++ stray_faults config.now.clusters 0 config.now.routes) result }
{
    top.end(&[LIMITS, TIMEOUTS, CLUSTERS, ROUTES, OVERLOAD, PROXY])?;
    check_routes(
        top.alloc,
        config.clusters.as_slice(),
        config.routes.as_slice(),
    )
}

// Refuses the first route whose cluster isn't there.
fn check_routes(alloc: Global, clusters: &[Cluster], routes: &[Route]) -> Result<(), ConfigFault>
    ensures { Checks (stray_faults clusters.now 0 routes.now) result }
{
    for (number, route) in routes.iter().enumerate() {
        if !is_cluster(clusters, route.cluster.as_slice()) {
            return Err(ConfigFault::UnknownCluster(cluster_key(alloc, number)?));
        }
    }
    Ok(())
}

// How the cluster of a route is spelled.
fn cluster_key(alloc: Global, number: usize) -> Result<Octets, NoMemory>
    ensures { IfOk result (λ key. key ≡ row_place (codes "routes") number ++ codes "cluster") }
{
    let place = row_place(alloc, "routes", number)?;
    let mut key = Octets::from_vec(place.into_bytes());
    key.push_all(b"cluster")?;
    Ok(key)
}
