// Plays scripts on exchanges and on chains, and prints what each call answers.
//
// A line `## NAME` begins a case, with nothing that the one before left. Each other line is a call; an empty line or one that
// begins with `# ` says nothing. A flow is its exchange's number with `q` for the request or `r` for the response. Every
// exchange is from connection 1 to connection 2, with receive buffers of 65,535 octets and moves of at most 16,384.
//
// | Line | What is done, and what is printed |
// |---|---|
// | `start ROW SEND TIMES` | begins an exchange through the filters of a row of `rows.toml`, counted from 0, or of none as `-`; with send buffers of limit SEND, and TIMES as overflow multiple. Its number |
// | `plain STREAM SEND QUANTUM TIMES` | begins one of a plain session. Its number |
// | `ready [framed] [ended]` | begins one without filters whose heads came, with 7 octets in its request and 3 in its response; the response head was framed, and the request's end came, where that is said. Its number |
// | `head FLOW`, `head FLOW end` | its head comes, with its end |
// | `arrive FLOW N`, `receive FLOW N` | N octets come; `receive` says what became of them |
// | `finish FLOW`, `finish FLOW trailers` | its end comes |
// | `step FLOW`, `run FLOW` | one step, or steps until it is still: the place, the octets, and what both buffers crossed |
// | `next FLOW ROOM FRAME`, `frame FLOW ROOM FRAME` | what goes next, or is framed |
// | `high CONN`, `low CONN` | the write buffer of a connection rises, or drains and its flows are told |
// | `tell FLOW` | the flow is told of its own buffers that drained |
// | `tick NOW` | the Meters go on to a moment in ms |
// | `doom EXCHANGE CAUSE ..`, `back doom ..` | it ends by a cause as a tape has it; `back` where the cluster or the response gave it. The octets dropped, and what client and cluster are told |
// | `sweep` | the doomed exchange that is destroyed |
// | `live EXCHANGE`, `ends EXCHANGE`, `known FLOW`, `octets FLOW`, `space FLOW`, `came FLOW`, `stages FLOW`, `source FLOW PLACE`, `metered AFTER` | what is asked |
// | `chain QUANTUM SEND N FILTER ..` | begins a chain at 7 ms with N octets before it: `pass`, `hold LIMIT` or `meter LIMIT RATE` |
// | `offer N`, `release PLACE N`, `send N`, `wait NOW`, `finish` | what is done to it: what both buffers crossed, what each place holds, what each stage may release, and whether a head may go |
// | `out` | the octets that it sent, with the two octets 97 and 98 as head of each frame |
//
// `refused` is printed where the call may not be made, `?` where a line is none of these. Every exchange is played twice, by
// the calls that answer one thing and by those that also answer what goes next; where they differ both are printed.
mod act;
mod answer;
mod chain_act;
mod chain_stage;
mod script;
mod stage;
mod words;

use anyhow::Result;
use std::fs;

/// Plays the scripts of a text, with the rows of the file beside it.
pub fn play(rt: &HostRuntime, text: &str) -> Result<()> {
    let rows = fs::read(rt, "rows.toml")?;
    script::play_cases(rt, rows.as_slice(), text)
}
