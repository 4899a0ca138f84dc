// The lists of triggers and of shed points.
ghost use Rattle.std.specs.Prelude.{◌≡◌, ◌^◌, position, unwrap_or, ◌<◌, codes, length, map, IfOk};
ghost use Rattle.std.specs.Str.{bytes_eq};
ghost use Rattle.toml.specs.View.{view};
ghost use Rattle.config_tables.specs.Answers.{Checks, members_of};
ghost use Rattle.config_tables.specs.Keys.{table_faults};
ghost use Rattle.config_tables.specs.Reading.{trigger_row_faults, triggers_faults, shed_row_faults, shed_faults, made_row, rows_of};
ghost use Rattle.config_tables.specs.Tables.{actions, form_of, is_scaled, point_of, trigger_keys, shed_keys, trigger_of, shed_row_of};
ghost use Rattle.config_tables.specs.Values.{list_at};

use crate::fault::ConfigFault;
use crate::keys::{ACTION, ACTIONS, POINT, SCALING, SHED, TRIGGERS, VALUE, resource, saturation};
use crate::row::{row_place, row_table};
use crate::section::Section;
use crate::words::{place_of_name, place_of_word};
use io_ports::Octets;
use proxy_config::{Form, NameList, Point, Rows, ShedList, ShedRow, Trigger, TriggerList};
use std::alloc::Global;
use toml::Value;

/// The list of triggers, over resources of these names.
pub fn read_triggers(overload: &Section, names: &NameList) -> Result<TriggerList, ConfigFault>
    ensures faults { Checks (triggers_faults names.now (list_at (codes "triggers") (members_of overload.now.table))) result }
    ensures value { IfOk result (λ triggers. triggers ≡ rows_of (trigger_of names.now) (list_at (codes "triggers") (members_of overload.now.table))) }
{
    trigger_rows(
        overload.alloc,
        overload.list(TRIGGERS.name),
        names.as_slice(),
    )
}

/// The list of shed points, over resources of these names.
pub fn read_shed(overload: &Section, names: &NameList) -> Result<ShedList, ConfigFault>
    ensures faults { Checks (shed_faults names.now (list_at (codes "shed") (members_of overload.now.table))) result }
    ensures value { IfOk result (λ shed. shed ≡ rows_of (shed_row_of names.now) (list_at (codes "shed") (members_of overload.now.table))) }
{
    shed_rows(overload.alloc, overload.list(SHED.name), names.as_slice())
}

fn trigger_rows(alloc: Global, rows: &[Value], names: &[Octets]) -> Result<TriggerList, ConfigFault>
    requires { length names.now < 2 ^ 32 }
    ensures faults { Checks (triggers_faults names.now (map view rows.now)) result }
    ensures value { IfOk result (λ triggers. triggers ≡ rows_of (trigger_of names.now) (map view rows.now)) }
{
    let mut triggers = Rows::new(alloc);
    for row in rows {
        let trigger = trigger_row(alloc, row, triggers.as_slice(), names)?;
        triggers.push(trigger)?;
    }
    Ok(triggers)
}

// The row after these triggers.
fn trigger_row(
    alloc: Global,
    row: &Value,
    before: &[Trigger],
    names: &[Octets],
) -> Result<Trigger, ConfigFault>
    requires { length names.now < 2 ^ 32 }
    ensures faults { Checks (trigger_row_faults names.now before.now (view row.now)) result }
    ensures value { IfOk result (λ trigger. trigger ≡ made_row (trigger_of names.now) (view row.now)) }
{
    let table = row_table(alloc, row, "overload.triggers", before.len())?;
    let place = row_place(alloc, "overload.triggers", before.len())?;
    let section = Section {
        alloc,
        place: place.as_str(),
        table: Some(table),
    };
    check_trigger(&section, names)?;
    Ok(trigger_in(&section, names))
}

fn trigger_in(row: &Section, names: &[Octets]) -> Trigger
    requires { length names.now < 2 ^ 32 }
    ensures { result ≡ trigger_of names.now (members_of row.now.table) }
{
    Trigger {
        action: action_of(row.word("action")),
        resource: place_of_name(names, row.word("resource")),
        form: form_in(row),
    }
}

fn shed_rows(alloc: Global, rows: &[Value], names: &[Octets]) -> Result<ShedList, ConfigFault>
    requires { length names.now < 2 ^ 32 }
    ensures faults { Checks (shed_faults names.now (map view rows.now)) result }
    ensures value { IfOk result (λ shed. shed ≡ rows_of (shed_row_of names.now) (map view rows.now)) }
{
    let mut shed = Rows::new(alloc);
    for row in rows {
        let shed_row = shed_row(alloc, row, shed.as_slice(), names)?;
        shed.push(shed_row)?;
    }
    Ok(shed)
}

// The row after these shed points.
fn shed_row(
    alloc: Global,
    row: &Value,
    before: &[ShedRow],
    names: &[Octets],
) -> Result<ShedRow, ConfigFault>
    requires { length names.now < 2 ^ 32 }
    ensures faults { Checks (shed_row_faults names.now before.now (view row.now)) result }
    ensures value { IfOk result (λ shed. shed ≡ made_row (shed_row_of names.now) (view row.now)) }
{
    let table = row_table(alloc, row, "overload.shed", before.len())?;
    let place = row_place(alloc, "overload.shed", before.len())?;
    let section = Section {
        alloc,
        place: place.as_str(),
        table: Some(table),
    };
    check_shed_row(&section, names)?;
    Ok(shed_row_in(&section, names))
}

fn shed_row_in(row: &Section, names: &[Octets]) -> ShedRow
    requires { length names.now < 2 ^ 32 }
    ensures { result ≡ shed_row_of names.now (members_of row.now.table) }
{
    ShedRow {
        point: point_of(row.word("point")),
        resource: place_of_name(names, row.word("resource")),
        form: form_in(row),
    }
}

fn check_trigger(row: &Section, names: &[Octets]) -> Result<(), ConfigFault>
    ensures { Checks (table_faults row.now.place.now (members_of row.now.table) (trigger_keys names.now (members_of row.now.table))) result }
{
    let resource = resource(names);
    if is_scaled(row) {
        let saturation = saturation(row.number(&SCALING));
        row.check_all(&[ACTION, resource, SCALING, saturation])
    } else {
        row.check_all(&[ACTION, resource, VALUE])
    }
}

fn check_shed_row(row: &Section, names: &[Octets]) -> Result<(), ConfigFault>
    ensures { Checks (table_faults row.now.place.now (members_of row.now.table) (shed_keys names.now (members_of row.now.table))) result }
{
    let resource = resource(names);
    if is_scaled(row) {
        let saturation = saturation(row.number(&SCALING));
        row.check_all(&[POINT, resource, SCALING, saturation])
    } else {
        row.check_all(&[POINT, resource, VALUE])
    }
}

// The number of an action.
fn action_of(word: &str) -> u32
    ensures { result ≡ unwrap_or (position (bytes_eq word.now) actions) 0 }
{
    place_of_word(&ACTIONS, word)
}

fn is_scaled(row: &Section) -> bool
    ensures { result ≡ is_scaled (members_of row.now.table) }
{
    row.has("scaling") || row.has("saturation")
}

fn form_in(row: &Section) -> Form
    ensures { result ≡ form_of (members_of row.now.table) }
{
    if is_scaled(row) {
        let scaling = row.number(&SCALING);
        Form::Scaled {
            scaling,
            saturation: row.number(&saturation(scaling)),
        }
    } else {
        Form::Threshold {
            value: row.number(&VALUE),
        }
    }
}

fn point_of(word: &str) -> Point
    ensures { result ≡ point_of word.now }
{
    if word == "read" {
        Point::Read
    } else if word == "drain" {
        Point::Drain
    } else {
        Point::Accept
    }
}
