// What exchanges are asked, and what the rest of the world does to them.
use super::Stage;
use crate::exchange::act::Act;
use crate::exchange::answer::Answer;
use flow_gate::FlowId;

impl Stage {
    pub fn ask(&mut self, act: Act) -> Answer {
        match act {
            Act::High(conn) => {
                self.rise(conn);
                Answer::Done
            }
            Act::Low(conn) => {
                self.drain(conn);
                Answer::Done
            }
            Act::Tell(flow) => {
                self.tell(flow);
                Answer::Done
            }
            Act::Tick(now) => self.tick(now),
            Act::Sweep => Answer::Number(self.exchanges.sweep()),
            _ => self.look(act),
        }
    }

    fn tick(&mut self, now: u64) -> Answer {
        if now < self.exchanges.time() {
            return Answer::Refused;
        }
        self.exchanges.tick(now);
        Answer::Done
    }

    fn look(&self, act: Act) -> Answer {
        match act {
            Act::Next { flow, room, frame } => self.next(flow, room, frame),
            Act::Live(exchange) => Answer::Is(self.exchanges.is_live(exchange)),
            Act::Ends(exchange) if self.exchanges.is_live(exchange) => {
                Answer::Ends(self.exchanges.ends(exchange))
            }
            Act::Known(flow) => Answer::Is(self.gates.is_open(flow)),
            Act::Octets(flow) => self.octets_of(flow),
            Act::Space(flow) => Answer::Number(self.exchanges.space(flow).map(u64::from)),
            Act::Came(flow) => Answer::Is(self.exchanges.head_came(flow)),
            Act::Stages(flow) => Answer::Number(self.exchanges.stages(flow).map(u64::from)),
            Act::Source { flow, place } => Answer::Is(self.exchanges.is_source(flow, place)),
            Act::Metered(after) => Answer::Number(self.exchanges.metered(after)),
            _ => Answer::Refused,
        }
    }

    fn octets_of(&self, flow: FlowId) -> Answer {
        if !self.exchanges.has_flow(flow) {
            return Answer::Refused;
        }
        Answer::Octets(
            self.exchanges.received(flow),
            self.exchanges.held(flow.exchange),
        )
    }
}
