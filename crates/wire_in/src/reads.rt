// The frames of the octets that were read.
ghost use Rattle.std.specs.Prelude.{◌≡◌, ◌<◌, ◌≤◌, ◌+◌, IfOk, OnOk};
ghost use Rattle.wire_inlet.specs.Next.{intake_of};
ghost use Rattle.wire_state.specs.Intakes.{PaysFor};
ghost use Rattle.wire_state.specs.Agenda.{top_go};
ghost use Rattle.wire_state.specs.Noting.{Appends};
ghost use Rattle.wire_state.specs.Progress.{to_go};
ghost use Rattle.wire_state.specs.Sound.{IsSound};
ghost use Rattle.wire_state.specs.Worlds.{Goes, Keeps, KeepsOk};

use crate::acts::take_act;
use flow_notes::{CloseCause, Notes};
use io_ports::NoMemory;
use wire_ends::close;
use wire_inlet::{Front, Taken};
use wire_state::{Task, WireCore};

/// The task Read: the next frame of the connection is taken.
#[inline(never)]
pub fn read(core: &mut WireCore, number: u32, notes: &mut Notes) -> Result<(), NoMemory>
    requires sound { IsSound core.old }
    requires top { top_go core.old.agenda ≡ 4 }
    ensures sound { OnOk result (IsSound core.new) }
    ensures go { OnOk result (to_go core.new < to_go core.old) }
    ensures notes { Appends notes.old notes.new }
    ensures octets { Goes result core.old notes.old core.new notes.new }
{
    let mut taken = Taken::none();
    match next(core, number, &mut taken) {
        Ok(Front::Taken) => {
            let Ok(()) = follow_up(core, number) else {
                let_go(taken);
                return Err(NoMemory);
            };
            take_act(core, number, taken, notes)
        }
        Ok(Front::Need) => {
            let_go(taken);
            core.end_task();
            Ok(())
        }
        Ok(Front::Fault(code)) => {
            let_go(taken);
            core.end_task();
            close(core, number, code, CloseCause::Protocol, notes)
        }
        Err(error) => {
            let_go(taken);
            Err(error)
        }
    }
}

// Lets go what is in the place of a frame. It is a call of its own, so that nothing of it stands where a frame is taken.
#[cold]
#[inline(never)]
fn let_go(taken: Taken) {
    drop(taken);
}

// What follows each frame that was read, whatever it means: the connection has changed, and may have something to frame.
#[inline(always)]
fn follow_up(core: &mut WireCore, number: u32) -> Result<(), NoMemory>
    requires sound { IsSound core.old }
    ensures sound { OnOk result (IsSound core.new) }
    ensures go { OnOk result (to_go core.new ≤ to_go core.old + 3) }
    ensures octets { KeepsOk result core.old core.new }
{
    core.stir(number)?;
    end_read(core, number);
    core.begin(Task::AskDrain(number))
}

// Where all octets of the connection are read, no more frames are taken.
fn end_read(core: &mut WireCore, number: u32)
    requires sound { IsSound core.old }
    ensures sound { IsSound core.new }
    ensures go { to_go core.new ≤ to_go core.old }
    ensures rest { core.new ≡ record core.old { agenda = core.new.agenda } }
    ensures octets { Keeps core.old core.new }
{
    if is_read(core, number) {
        core.end_task();
    }
}

fn is_read(core: &WireCore, number: u32) -> bool {
    match core.conns.get(&number) {
        Some(conn) => conn.inlet.is_read(),
        None => true,
    }
}

// What stands at the front of the octets of a connection: nothing where it is closed. A frame that is taken is put into `into`.
#[inline(always)]
fn next(core: &mut WireCore, number: u32, into: &mut Taken) -> Result<Front, NoMemory>
    requires sound { IsSound core.old }
    ensures sound { OnOk result (IsSound core.new) }
    ensures go { IfOk result (λ front. PaysFor (intake_of front into.new) (to_go core.old) (to_go core.new)) }
    ensures agenda { core.new.agenda ≡ core.old.agenda }
    ensures octets { KeepsOk result core.old core.new }
{
    let most = core.config.limits.frame_size;
    let Some(conn) = core.conns.get_mut(&number) else {
        return Ok(Front::Need);
    };
    conn.take_frame(most, into)
}
