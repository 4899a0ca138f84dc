// Events that are copied, of each kind that holds a list or more than numbers.

use crate::said::holds;
use flow_notes::{Event, Job, PlainEvent};
use io_ports::{NoMemory, Octets, PressureList};
use std::alloc::Global;

// A copy of an event, which goes. Events are dropped by calls, since the check follows a drop without one field by field.
fn copy_of(alloc: Global, event: Event) -> Result<Event, NoMemory> {
    let copy = event.copied(alloc);
    drop(event);
    copy
}

#[test]
fn octets_of_a_read_are_copied(rt: HostRuntime) -> Result<(), NoMemory> {
    let octets = Octets::from_slice(rt.alloc(), &[0xaa, 1])?;
    let copy = copy_of(rt.alloc(), Event::Read { conn: 7, octets })?;
    holds(
        &rt,
        matches!(&copy, Event::Read { conn: 7, octets } if octets.as_slice() == [0xaa, 1].as_slice()),
    );
    drop(copy);
    Ok(())
}

#[test]
fn pressures_are_copied(rt: HostRuntime) -> Result<(), NoMemory> {
    let pressures = PressureList::from_slice(rt.alloc(), &[0, 900_000])?;
    let event = Event::Obey {
        version: 3,
        pressures,
    };
    let copy = copy_of(rt.alloc(), event)?;
    holds(
        &rt,
        matches!(&copy, Event::Obey { version: 3, pressures } if pressures.as_slice() == [0, 900_000].as_slice()),
    );
    drop(copy);
    Ok(())
}

#[test]
fn octets_of_a_body_are_copied(rt: HostRuntime) -> Result<(), NoMemory> {
    let octets = Octets::from_slice(rt.alloc(), &[5])?;
    let event = Event::Plain(PlainEvent::Body { stream: 1, octets });
    let copy = copy_of(rt.alloc(), event)?;
    holds(
        &rt,
        matches!(&copy, Event::Plain(PlainEvent::Body { stream: 1, octets }) if octets.as_slice() == [5].as_slice()),
    );
    drop(copy);
    Ok(())
}

#[test]
fn a_post_is_copied(rt: HostRuntime) -> Result<(), NoMemory> {
    let event = Event::Post {
        poster: 2,
        number: 4,
        job: Job::Cancel { exchange: 9 },
    };
    let copy = copy_of(rt.alloc(), event)?;
    holds(
        &rt,
        matches!(
            copy,
            Event::Post {
                poster: 2,
                number: 4,
                job: Job::Cancel { exchange: 9 }
            }
        ),
    );
    drop(copy);
    Ok(())
}
