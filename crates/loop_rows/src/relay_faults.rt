// The text of a relay's faults.
use crate::relay_case::Case;
use crate::said::Said;
use crate::show::say_wired;
use flow_notes::{Event, Notes};
use std::alloc::Global;
use tcp_relay::{Relay, RelayFault};
use worker_ports::Wired;

/// Dispatches what the connections give, and says the text of each fault; then that of the case's own faults.
pub fn say_faults(alloc: Global, case: Case, said: &mut Said) {
    let mut relay = Relay::new(alloc, case.limit);
    let mut notes = Notes::new(alloc);
    for wired in case.answers {
        say_dispatch(&mut relay, &mut notes, wired, said);
    }
    drop(relay);
    drop(notes);
    for fault in case.faults.as_slice() {
        say_fault(fault, said);
    }
}

fn say_fault(fault: &RelayFault, said: &mut Said) {
    match format!(in said.alloc(); "! {fault}") {
        Ok(text) => said.line(text.as_str()),
        Err(_) => said.lack(),
    }
}

fn say_dispatch(relay: &mut Relay, notes: &mut Notes, wired: Wired, said: &mut Said) {
    say_wired(&wired, said);
    let Some(event) = event_of(wired) else {
        return;
    };
    if let Err(fault) = relay.dispatch(&event, notes) {
        say_fault(&fault, said);
    }
}

fn event_of(wired: Wired) -> Option<Event> {
    match wired {
        Wired::Accept(conn) => Some(Event::Accept { conn }),
        Wired::Join(conn, cluster) => Some(Event::Join { conn, cluster }),
        Wired::Read(conn, octets) => Some(Event::Read { conn, octets }),
        Wired::Lost(conn) => Some(Event::Gone { conn }),
        Wired::Idle | Wired::Stop => None,
    }
}
