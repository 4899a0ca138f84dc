// The list of routes.
ghost use Rattle.std.specs.Prelude.{◌≡◌, ◌++◌, ◌∷◌, [], codes, map, IfOk};
ghost use Rattle.toml.specs.View.{view};
ghost use Rattle.config_tables.specs.Answers.{Checks, members_of};
ghost use Rattle.config_tables.specs.Keys.{keys_faults, table_faults};
ghost use Rattle.config_tables.specs.Kinds.{key_of};
ghost use Rattle.config_tables.specs.Reading.{routes_key, route_row_faults, routes_faults, made_row, rows_of};
ghost use Rattle.config_tables.specs.Tables.{target_key, route_keys, route_of, filter_of};
ghost use Rattle.config_tables.specs.Values.{list_at, strings_in, strings_at};

use crate::fault::ConfigFault;
use crate::keys::{
    AUTHORITY, CLUSTER, HOLD_LIMIT, Key, METER_LIMIT, METER_RATE, PATH, PREFIX, REQUEST, RESPONSE,
    ROUTES,
};
use crate::row::{row_place, row_table};
use crate::section::Section;
use io_ports::{NoMemory, Octets};
use proxy_config::{Filter, FilterList, Route, RouteList, Rows};
use std::alloc::Global;
use toml::Value;

/// The table of routes.
#[tactic(auto, using(crate::proofs::Faults::first_append))]
pub fn read_routes(top: &Section) -> Result<RouteList, ConfigFault>
    requires { top.now.place.now ≡ [] }
    ensures faults { Checks (keys_faults [] (members_of top.now.table) (routes_key ∷ []) ++ routes_faults (list_at (codes "routes") (members_of top.now.table))) result }
    ensures value { IfOk result (λ routes. routes ≡ rows_of route_of (list_at (codes "routes") (members_of top.now.table))) }
{
    top.check(&[ROUTES])?;
    route_rows(top.alloc, top.list(ROUTES.name))
}

fn route_rows(alloc: Global, rows: &[Value]) -> Result<RouteList, ConfigFault>
    ensures faults { Checks (routes_faults (map view rows.now)) result }
    ensures value { IfOk result (λ routes. routes ≡ rows_of route_of (map view rows.now)) }
{
    let mut routes = Rows::new(alloc);
    for row in rows {
        let route = route_row(alloc, row, routes.as_slice())?;
        routes.push(route)?;
    }
    Ok(routes)
}

// The row after these routes.
fn route_row(alloc: Global, row: &Value, before: &[Route]) -> Result<Route, ConfigFault>
    ensures faults { Checks (route_row_faults before.now (view row.now)) result }
    ensures value { IfOk result (λ route. route ≡ made_row route_of (view row.now)) }
{
    let table = row_table(alloc, row, "routes", before.len())?;
    let place = row_place(alloc, "routes", before.len())?;
    let section = Section {
        alloc,
        place: place.as_str(),
        table: Some(table),
    };
    check_route(&section)?;
    Ok(route_in(&section)?)
}

// A row has a path, or else it must have a prefix.
fn target_key(row: &Section) -> Key<'static>
    ensures { key_of result ≡ target_key (members_of row.now.table) }
{
    if row.has(PATH.name) { PATH } else { PREFIX }
}

fn check_route(row: &Section) -> Result<(), ConfigFault>
    ensures { Checks (table_faults row.now.place.now (members_of row.now.table) (route_keys (members_of row.now.table))) result }
{
    row.check_all(&[
        AUTHORITY,
        target_key(row),
        CLUSTER,
        REQUEST,
        RESPONSE,
        HOLD_LIMIT,
        METER_LIMIT,
        METER_RATE,
    ])
}

fn route_in(row: &Section) -> Result<Route, NoMemory>
    ensures { IfOk result (λ route. route ≡ route_of (members_of row.now.table)) }
{
    Ok(Route {
        authority: row.octets(AUTHORITY.name)?,
        path: row.octets(PATH.name)?,
        prefix: row.octets(PREFIX.name)?,
        cluster: Octets::from_slice(row.alloc, row.word(CLUSTER.name).as_bytes())?,
        request: filters_in(row, REQUEST.name)?,
        response: filters_in(row, RESPONSE.name)?,
        hold_limit: row.number(&HOLD_LIMIT),
        meter_limit: row.number(&METER_LIMIT),
        meter_rate: row.number(&METER_RATE),
    })
}

fn filters_in(row: &Section, name: &str) -> Result<FilterList, NoMemory>
    ensures { IfOk result (λ filters. filters ≡ map (filter_of (members_of row.now.table)) (strings_at name.now (members_of row.now.table))) }
{
    filters_of(row, row.list(name))
}

// The filters whose words stand in the list.
fn filters_of(row: &Section, items: &[Value]) -> Result<FilterList, NoMemory>
    ensures { IfOk result (λ filters. filters ≡ map (filter_of (members_of row.now.table)) (strings_in (map view items.now))) }
{
    let mut filters = Rows::new(row.alloc);
    for item in items {
        if let Some(word) = item.as_str() {
            filters.push(filter_of(row, word))?;
        }
    }
    Ok(filters)
}

// The filter of a word, with the limits and the rate of its row.
fn filter_of(row: &Section, word: &str) -> Filter
    ensures { result ≡ filter_of (members_of row.now.table) word.now }
{
    if word == "hold" {
        return Filter::Hold {
            limit: row.number(&HOLD_LIMIT),
        };
    }
    if word == "meter" {
        return Filter::Meter {
            limit: row.number(&METER_LIMIT),
            rate: row.number(&METER_RATE),
        };
    }
    Filter::Pass
}
