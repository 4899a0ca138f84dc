// What a line of a script asks for.
use crate::exchange::words::Words;
use flow_gate::FlowId;
use flow_notes::Cause;

/// What is done to exchanges, or asked of them.
#[derive(Clone, Copy)]
pub enum Act {
    Start {
        row: Option<u32>,
        send: u32,
        multiple: u32,
    },
    Plain {
        stream: u32,
        send: u32,
        quantum: u32,
        multiple: u32,
    },
    Ready {
        framed: bool,
        ended: bool,
    },
    Head {
        flow: FlowId,
        last: bool,
    },
    Arrive {
        flow: FlowId,
        n: u32,
    },
    Receive {
        flow: FlowId,
        n: u32,
    },
    Finish {
        flow: FlowId,
        trailers: bool,
    },
    Step(FlowId),
    Next {
        flow: FlowId,
        room: i64,
        frame: u32,
    },
    Frame {
        flow: FlowId,
        room: i64,
        frame: u32,
    },
    High(u32),
    Low(u32),
    Tell(FlowId),
    Tick(u64),
    Doom {
        exchange: u64,
        cause: Cause,
        back: bool,
    },
    Sweep,
    Live(u64),
    Ends(u64),
    Known(FlowId),
    Octets(FlowId),
    Space(FlowId),
    Came(FlowId),
    Stages(FlowId),
    Source {
        flow: FlowId,
        place: u32,
    },
    Metered(u64),
}

/// The act of a line, but for a doom.
pub fn act_of(line: &str) -> Option<Act> {
    let mut words = Words { rest: line };
    let verb = words.next();
    match begin_of(verb, words.rest) {
        Some(act) => Some(act),
        None => match change_of(verb, words.rest) {
            Some(act) => Some(act),
            None => question_of(verb, words.rest),
        },
    }
}

fn begin_of(verb: &str, rest: &str) -> Option<Act> {
    let mut words = Words { rest };
    match verb {
        "start" => Some(Act::Start {
            row: words.next().parse::<u32>().ok(),
            send: words.number()?,
            multiple: words.number()?,
        }),
        "plain" => Some(Act::Plain {
            stream: words.number()?,
            send: words.number()?,
            quantum: words.number()?,
            multiple: words.number()?,
        }),
        "ready" => {
            let framed = rest.starts_with("framed");
            let ended = rest.ends_with("ended");
            Some(Act::Ready { framed, ended })
        }
        _ => None,
    }
}

fn change_of(verb: &str, rest: &str) -> Option<Act> {
    let mut words = Words { rest };
    match verb {
        "high" => Some(Act::High(words.number()?)),
        "low" => Some(Act::Low(words.number()?)),
        "tick" => Some(Act::Tick(words.long()?)),
        "sweep" => Some(Act::Sweep),
        _ => change_of_flow(verb, words.flow()?, words),
    }
}

fn change_of_flow(verb: &str, flow: FlowId, rest: Words<'_>) -> Option<Act> {
    let mut words = rest;
    match verb {
        "head" => Some(Act::Head {
            flow,
            last: words.next() == "end",
        }),
        "arrive" => Some(Act::Arrive {
            flow,
            n: words.number()?,
        }),
        "receive" => Some(Act::Receive {
            flow,
            n: words.number()?,
        }),
        "finish" => Some(Act::Finish {
            flow,
            trailers: words.next() == "trailers",
        }),
        "step" => Some(Act::Step(flow)),
        "frame" => Some(Act::Frame {
            flow,
            room: words.room()?,
            frame: words.number()?,
        }),
        "tell" => Some(Act::Tell(flow)),
        _ => None,
    }
}

fn question_of(verb: &str, rest: &str) -> Option<Act> {
    let mut words = Words { rest };
    match verb {
        "live" => Some(Act::Live(words.long()?)),
        "ends" => Some(Act::Ends(words.long()?)),
        "metered" => Some(Act::Metered(words.long()?)),
        _ => question_of_flow(verb, words.flow()?, words),
    }
}

fn question_of_flow(verb: &str, flow: FlowId, rest: Words<'_>) -> Option<Act> {
    let mut words = rest;
    match verb {
        "next" => Some(Act::Next {
            flow,
            room: words.room()?,
            frame: words.number()?,
        }),
        "known" => Some(Act::Known(flow)),
        "octets" => Some(Act::Octets(flow)),
        "space" => Some(Act::Space(flow)),
        "came" => Some(Act::Came(flow)),
        "stages" => Some(Act::Stages(flow)),
        "source" => Some(Act::Source {
            flow,
            place: words.number()?,
        }),
        _ => None,
    }
}
