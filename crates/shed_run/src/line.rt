// The line of an event that was shed.
ghost use Rattle.flow_notes.specs.Extends.{Extends};
ghost use Rattle.shed_run.specs.ShedLines.{conn_of, line_told, point_word, shed_line};
ghost use Rattle.std.specs.Prelude.{◌≡◌, ◌++◌, OnErr, OnOk, codes};

use flow_notes::Event;
use io_ports::{NoMemory, Octets};
use shed_points::{Point, Verdict};
use tape_summary::{put_behind, put_number};

/// Appends the line of a session's event, which has this number counted from 1, where it was shed, and else nothing. Running out of memory
/// may leave some of the line.
pub fn put_line(
    into: &mut Octets,
    number: u64,
    event: &Event,
    verdict: Verdict,
) -> Result<(), NoMemory>
    ensures ok { OnOk result (into.new ≡ into.old ++ line_told event.now verdict number) }
    ensures err { OnErr result (Extends into.old into.new) }
{
    match verdict {
        Verdict::Shed { point, state } => put_shed(into, number, point, conn_of(event), state),
        _ => Ok(()),
    }
}

fn put_shed(
    into: &mut Octets,
    number: u64,
    point: Point,
    conn: u32,
    state: u32,
) -> Result<(), NoMemory>
    ensures ok { OnOk result (into.new ≡ into.old ++ shed_line (record { number = number; point = point; conn = conn; state = state })) }
    ensures err { OnErr result (Extends into.old into.new) }
{
    put_behind(into, b"shed ", number)?;
    into.push_all(point_word(point))?;
    put_number(into, u64::from(conn))?;
    put_behind(into, b" ", u64::from(state))?;
    into.push_all(b"\n")
}

fn point_word(point: Point) -> &'static [u8]
    ensures { result.now ≡ codes " " ++ (point_word point ++ codes " ") }
{
    match point {
        Point::Accept => b" accept ",
        Point::Read => b" read ",
        Point::Drain => b" drain ",
    }
}

// The connection that an arrival is of, 0 for an obey.
fn conn_of(event: &Event) -> u32
    ensures { result ≡ conn_of event.now }
{
    match event {
        Event::Accept { conn } => *conn,
        Event::Read { conn, .. } => *conn,
        _ => 0,
    }
}
