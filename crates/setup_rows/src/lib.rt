//! What the laws of any setup say of each step of a made-up kind of session: who is paused and who is told, and in which order.
#![tactic(auto)]

ghost use Rattle.setup_rows.specs.Rows.{StepsApply};

/// Of the exchanges between two connections, whose requests pass a Meter and whose responses pass a Hold: in each sound tape a
/// source rises only where it is fed and drains only where it is eased, its watchers are then to be paused or told in the order in
/// which they began to watch, and they are, with only doomed ones left out. So it is where octets fill the Meter over its limit.
pub fn made_steps_keep_order()
    ensures { StepsApply }
{}
