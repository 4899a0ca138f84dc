// The rows of a list of tables.
ghost use Rattle.std.specs.Prelude.{◌≡◌, ◌≢◌, Some, None, IfOk, IfErr, string_bytes};
ghost use Rattle.toml.specs.Data.{as_table};
ghost use Rattle.toml.specs.View.{view, table_view};
ghost use Rattle.config_tables.specs.Reading.{row_name, row_place};

use crate::fault::ConfigFault;
use io_ports::{NoMemory, Octets};
use std::alloc::Global;
use toml::{Table, Value};

/// How a row is spelled, as `routes.0`.
fn row_name(alloc: Global, list: &str, number: usize) -> Result<Octets, NoMemory>
    ensures { IfOk result (λ name. name ≡ row_name list.now number) }
{
    let name = format!(in alloc; "{list}.{number}")?;
    Ok(Octets::from_vec(name.into_bytes()))
}

/// What stands before the keys of a row, as `routes.0.`.
pub fn row_place(alloc: Global, list: &str, number: usize) -> Result<String, NoMemory>
    ensures { IfOk result (λ place. string_bytes place ≡ row_place list.now number) }
{
    Ok(format!(in alloc; "{list}.{number}.")?)
}

/// The table that a row of this list is.
pub fn row_table<'a>(
    alloc: Global,
    row: &'a Value,
    list: &str,
    number: usize,
) -> Result<&'a Table, ConfigFault>
    ensures table { IfOk result (λ table. as_table (view row.now) ≡ Some (table_view table.now)) }
    ensures other { IfErr result (λ fault. fault ≢ ConfigFault.NoMemory → (as_table (view row.now) ≡ None) × (fault ≡ ConfigFault.WrongKind (row_name list.now number))) }
{
    match row.as_table() {
        Some(table) => Ok(table),
        None => Err(ConfigFault::WrongKind(row_name(alloc, list, number)?)),
    }
}
