// The scripts of the input, one after another.
use crate::exchange::act::{Act, act_of};
use crate::exchange::answer::{Answer, show};
use crate::exchange::chain_act::chain_act_of;
use crate::exchange::chain_stage::ChainStage;
use crate::exchange::stage::Stage;
use crate::exchange::words::Words;
use crate::said::Said;
use anyhow::Result;
use exchange_core::Step;
use flow_gate::FlowId;
use flow_notes::{Names, Note, read_note};
use std::alloc::Global;
use std::mem;

/// The most steps of a run.
const MOST: u32 = 1_000;

/// What a case is played on.
#[derive(Drop)]
struct Play {
    apart: Stage,
    joined: Stage,
    chain: Option<ChainStage>,
}

/// Plays each case, and prints each of its calls with its answer. What a case is played on is dropped by a call, since the check
/// follows a drop without one field by field.
pub fn play_cases(rt: &HostRuntime, rows: &[u8], text: &str) -> Result<()> {
    let mut play = Play::new(rt.alloc());
    let end = play.heed_all(rt, rows, text);
    drop(play);
    end
}

/// The flow of a run of steps, if a line asks for one.
fn run_of(line: &str) -> Option<FlowId> {
    let mut words = Words {
        rest: line.strip_prefix("run ")?,
    };
    words.flow()
}

impl Play {
    fn new(alloc: Global) -> Self {
        Play {
            apart: Stage::of_single_calls(alloc),
            joined: Stage::of_joined_calls(alloc),
            chain: None,
        }
    }

    fn heed_all(&mut self, rt: &HostRuntime, rows: &[u8], text: &str) -> Result<()> {
        for line in text.lines() {
            self.heed(rt, rows, line)?;
        }
        Ok(())
    }

    /// Nothing is left of the case before.
    fn begin_case(&mut self, alloc: Global) {
        let before = mem::replace(self, Play::new(alloc));
        drop(before);
    }

    /// Begins a case anew where a line is its heading, and prints that; plays a call, and prints it with its answer.
    fn heed(&mut self, rt: &HostRuntime, rows: &[u8], line: &str) -> Result<()> {
        if line.starts_with("## ") {
            self.begin_case(rt.alloc());
            println!(rt; "{line}")?;
            return Ok(());
        }
        if line.is_empty() || line.starts_with("# ") {
            return Ok(());
        }
        let mut said = Said::new(rt.alloc());
        said.say(line);
        said.say(":");
        self.line(&mut said, rows, line);
        said.line("");
        said.print(rt)
    }

    /// Plays a line, and says its answer.
    fn line(&mut self, said: &mut Said, rows: &[u8], line: &str) {
        if line.starts_with("chain ") {
            return self.begin_chain(said, line);
        }
        if let Some(act) = chain_act_of(line)
            && let Some(chain) = &mut self.chain
        {
            return chain.play(said, act);
        }
        match run_of(line) {
            Some(flow) => self.run(said, rows, Act::Step(flow)),
            None => self.one(said, rows, line),
        }
    }

    /// Plays a line that is one act.
    fn one(&mut self, said: &mut Said, rows: &[u8], line: &str) {
        let act = match act_of(line) {
            Some(act) => Some(act),
            None => doom_of(said.alloc(), line),
        };
        match act {
            Some(act) => {
                let _answer = self.both(said, rows, act);
            }
            None => said.say(" ?"),
        }
    }

    fn begin_chain(&mut self, said: &mut Said, line: &str) {
        match ChainStage::of_line(said.alloc(), line) {
            Ok(chain) => {
                said.say(if chain.is_some() { " done" } else { " refused" });
                self.chain = chain;
            }
            Err(_) => said.say(" no memory"),
        }
    }

    /// Does an act by both kinds of calls, says the answer, and both where they differ.
    fn both(&mut self, said: &mut Said, rows: &[u8], act: Act) -> Answer {
        let apart = self.apart.perform(rows, act).unwrap_or(Answer::Refused);
        let joined = self.joined.perform(rows, act).unwrap_or(Answer::Refused);
        show(said, apart);
        if joined != apart {
            said.say(" or");
            show(said, joined);
        }
        apart
    }

    /// Steps until one doesn't move.
    fn run(&mut self, said: &mut Said, rows: &[u8], step: Act) {
        for _step in 0..MOST {
            let Answer::Step(Step::Moved { .. }) = self.both(said, rows, step) else {
                return;
            };
            said.say(",");
        }
    }
}

/// The doom of a line, spelled as on a tape.
fn doom_of(alloc: Global, line: &str) -> Option<Act> {
    let (line, back) = match line.strip_prefix("back ") {
        Some(line) => (line, true),
        None => (line, false),
    };
    let names = Names::new(alloc);
    let note = read_note(alloc, line.as_bytes(), &names).ok()??;
    let Note::Doom { exchange, cause } = note else {
        return None;
    };
    Some(Act::Doom {
        exchange,
        cause,
        back,
    })
}
