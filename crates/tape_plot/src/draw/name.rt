// Which buffer a lane is of, in words.
use super::frame::WORDS;
use super::put::{end_text, open_text};
use flow_gate::FlowId;
use io_ports::{NoMemory, Octets};
use tape_summary::{put_behind, put_flow};

/// Which buffer a lane is of.
#[derive(Clone, Copy)]
pub enum Name {
    Recv(FlowId),
    Stage(FlowId, u32),
    Send(FlowId),
    /// A place that is a stage or the send buffer.
    Place(FlowId, u32),
    Write(u32),
}

impl Name {
    /// Which buffer a place of a flow is, of so many, the last of which is its send buffer where `sends` says so.
    pub fn of_place(flow: FlowId, i: u32, end: u32, sends: bool, limit: Option<u32>) -> Self {
        if i == 0 {
            return Name::Recv(flow);
        }
        if i.saturating_add(1) < end {
            return Name::Stage(flow, i);
        }
        if sends {
            return Name::Send(flow);
        }
        match limit {
            Some(_) => Name::Stage(flow, i),
            None => Name::Place(flow, i),
        }
    }

    /// A receive buffer has a window and no limit: it pauses nobody.
    pub fn is_watched(self) -> bool {
        !matches!(self, Name::Recv(_))
    }
}

/// What stands before a lane: its buffer, and the most that it held and its limit.
pub fn put_names(
    into: &mut Octets,
    y: u64,
    name: Name,
    most: u64,
    limit: Option<u32>,
) -> Result<(), NoMemory> {
    open_text(into, b"b", WORDS, y.saturating_add(16))?;
    put_name(into, name)?;
    end_text(into)?;
    open_text(into, b"e", WORDS, y.saturating_add(31))?;
    put_behind(into, b"max ", most)?;
    if let Some(limit) = limit {
        put_limit(into, name, limit)?;
    }
    end_text(into)
}

fn put_limit(into: &mut Octets, name: Name, limit: u32) -> Result<(), NoMemory> {
    match name {
        Name::Recv(_) => put_behind(into, b", window ", u64::from(limit)),
        _ if limit == 0 => into.push_all(b", no limit"),
        _ => put_behind(into, b", limit ", u64::from(limit)),
    }
}

fn put_name(into: &mut Octets, name: Name) -> Result<(), NoMemory> {
    match name {
        Name::Recv(flow) => {
            put_flow(into, flow)?;
            into.push_all(b" receive buffer")
        }
        Name::Stage(flow, i) => {
            put_flow(into, flow)?;
            put_behind(into, b" stage ", u64::from(i))
        }
        Name::Send(flow) => {
            put_flow(into, flow)?;
            into.push_all(b" send buffer")
        }
        Name::Place(flow, i) => {
            put_flow(into, flow)?;
            put_behind(into, b" place ", u64::from(i))
        }
        Name::Write(conn) => { put_behind(into, b"write buffer ", u64::from(conn)) }
    }
}
