// The flows of a line side by side.
ghost use Rattle.std.specs.Prelude.{◌≡◌, ◌==◌, ◌∷◌, ◌++◌, ℕ, List, [], OnOk, Some, filter, if◌then◌else◌, length, not};
ghost use Rattle.flow_gate.specs.declared.stands.Stand.{Stand};
ghost use Rattle.std.specs.Map.{values_of};
ghost use Rattle.flow_gate.specs.Line.{IsRow, is_taken, live};

use crate::stands::Stand;
use flow_rules::FlowId;
use io_ports::NoMemory;

/// Makes the row as long as the line where it is not: the gaps of the line go, and its flows are copied. Where there
/// is no memory for them the row is empty.
pub(crate) fn make_whole(row: &mut Vec<FlowId>, line: &mut Vec<Stand>)
    requires { IsRow row.old.items line.old.items }
    ensures line { line.new.items ≡ (if not (length row.old.items == length line.old.items) then filter is_taken line.old.items else line.old.items) }
    ensures row { IsRow row.new.items line.new.items }
{
    if row.len() != line.len() {
        line.retain(|stand| stand.flow.is_some());
        if fill(row, line.as_slice()).is_err() {
            row.clear();
        }
    }
}

// Copies the flows of a line.
fn fill(row: &mut Vec<FlowId>, stands: &[Stand]) -> Result<(), NoMemory>
    ensures { OnOk result (row.new.items ≡ values_of (live stands.now)) }
{
    row.clear();
    row.reserve(stands.len())?;
    for stand in stands {
        if let Some(flow) = stand.flow {
            row.push(flow)?;
        }
    }
    Ok(())
}

/// Adds the flow that came last to a row that was as long as the line without it. Where the row was not, or where there is
/// no memory, it is empty; and it stays empty until the buffer rises or drains, since few do.
pub(crate) fn add_last(row: &mut Vec<FlowId>, flow: FlowId, line: &[Stand])
    ensures { (place : ℕ) (others : List Stand) → IsRow row.old.items others → line.now ≡ others ++ record { place = place; flow = Some flow } ∷ [] → IsRow row.new.items line.now }
{
    if row.is_empty() {
        return;
    }
    if row.len() + 1 != line.len() {
        row.clear();
    } else if row.push(flow).is_err() {
        row.clear();
    }
}
