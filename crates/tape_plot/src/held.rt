// How many octets lie at the places of a flow.
ghost use Rattle.std.specs.Prelude.{◌≡◌, ◌≤◌, OnOk, length};
ghost use Rattle.tape_plot.specs.Levels.{filled};

use io_ports::NoMemory;
use std::alloc::Global;

/// How many octets lie at each place of a flow, up to the last that octets came to, its receive buffer first.
#[derive(Drop)]
pub struct Held {
    levels: Vec<u64>,
}

impl Held {
    ghost use Rattle.std.specs.Prelude.{◌≡◌, [], OnOk, length, map, min};
    ghost use Rattle.tape_plot.specs.Levels.{at, filled, framed, moved, top};

    /// No places. Takes no memory.
    pub fn new(alloc: Global) -> Self
        ensures { result.levels.items ≡ [] }
    {
        Held {
            levels: Vec::new(alloc),
        }
    }

    /// How many places there are.
    pub fn len(&self) -> usize
        ensures { result ≡ length self.now.levels.items }
    {
        self.levels.len()
    }

    /// How many octets lie at a place, 0 where there is none.
    pub fn at(&self, place: usize) -> u64
        ensures { result ≡ at self.now.levels.items place }
    {
        self.levels.get(place).copied().unwrap_or(0)
    }

    /// Octets enter the receive buffer.
    pub fn arrive(&mut self, n: u64) -> Result<(), NoMemory>
        ensures { OnOk result (self.new.levels.items ≡ filled 0 n self.old.levels.items) }
    {
        fill(&mut self.levels, 0, n)
    }

    /// Octets go from a place to the next, at most those that lie there.
    pub fn shift(&mut self, place: usize, n: u64) -> Result<(), NoMemory>
        ensures { OnOk result (self.new.levels.items ≡ moved place n self.old.levels.items) }
    {
        let level = self.at(place);
        let moved = n.min(level);
        if moved == 0 {
            return Ok(());
        }
        self.levels[place] = level - moved;
        fill(&mut self.levels, place + 1, moved)
    }

    /// Octets leave the last place, at most those that lie there. Answers how many.
    pub fn frame(&mut self, n: u64) -> u64
        ensures held { self.new.levels.items ≡ framed n self.old.levels.items }
        ensures taken { result ≡ min n (at self.old.levels.items (top self.old.levels.items)) }
    {
        let Some(last) = self.levels.len().checked_sub(1) else {
            return 0;
        };
        let level = self.levels[last];
        let taken = n.min(level);
        self.levels[last] = level - taken;
        taken
    }

    /// All octets are dropped.
    pub fn drop_all(&mut self)
        ensures { self.new.levels.items ≡ map (λ _. 0) self.old.levels.items }
    {
        self.levels.fill(0);
    }
}

// So many octets come to a place that there is, or to a new one behind the last.
fn fill(levels: &mut Vec<u64>, place: usize, n: u64) -> Result<(), NoMemory>
    requires { place ≤ length levels.old.items }
    ensures { OnOk result (levels.new.items ≡ filled place n levels.old.items) }
{
    if place == levels.len() {
        levels.push(n)?;
        return Ok(());
    }
    let Some(level) = levels[place].checked_add(n) else {
        return Err(NoMemory);
    };
    levels[place] = level;
    Ok(())
}
