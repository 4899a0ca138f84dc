// The gate of a worker's turns.
use crate::said::Said;
use std::alloc::Global;
use worker_ports::Gate;

/// A gate that is open, and keeps the points at which it was passed.
#[derive(Drop)]
pub struct Points {
    points: Vec<u32>,
    lacks: bool,
}

impl Points {
    pub fn new(alloc: Global) -> Self {
        Points {
            points: Vec::new(alloc),
            lacks: false,
        }
    }

    /// Says the points.
    pub fn say(&self, said: &mut Said) {
        if self.lacks {
            said.lack();
        }
        said.say("turns");
        for point in self.points.as_slice() {
            said.say_with(" ", u64::from(*point));
        }
        said.line("");
    }
}

impl Gate for Points {
    fn pass(&mut self, point: u32) {
        if self.points.push(point).is_err() {
            self.lacks = true;
        }
    }
}
