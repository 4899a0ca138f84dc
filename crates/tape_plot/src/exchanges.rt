// What is drawn of all exchanges.
ghost use Rattle.std.specs.Prelude.{◌≡◌, IfOk, OnOk};

use crate::clock::Clock;
use crate::exchange::{Exchange, Fill};
use crate::mark::Mark;
use flow_notes::Note;
use io_ports::NoMemory;
use std::alloc::Global;
use std::collections::BTreeMap;

/// The exchanges that a note was told of, by their numbers.
#[derive(Drop)]
pub struct Exchanges {
    alloc: Global,
    pub items: BTreeMap<u64, Exchange>,
}

impl Exchanges {
    ghost use Rattle.std.specs.BTreeMap.{get};
    ghost use Rattle.std.specs.Ordering.{nat_cmp};
    ghost use Rattle.std.specs.Prelude.{◌≡◌, [], IfOk, IsSome, OnOk};
    ghost use Rattle.tape_plot.specs.Goes.{ExchangesFill, ExchangesGo, ExchangesStay};
    ghost use Rattle.tape_plot.specs.Subjects as spec;
    ghost use Rattle.tape_plot.specs.declared.subject.Subject.TheVariants as subject;

    /// Before the first note. Takes no memory.
    pub fn new(alloc: Global) -> Self
        ensures { result.items.entries ≡ [] }
    {
        Exchanges {
            alloc,
            items: BTreeMap::new(alloc),
        }
    }

    /// Goes on with a note of an exchange, of the present dispatch. Answers what the note brings into a write buffer.
    pub fn note(
        &mut self,
        exchange: u64,
        note: &Note,
        clock: &Clock,
    ) -> Result<Option<Fill>, NoMemory>
        requires { spec.subject_of note.now ≡ subject.Exchange exchange }
        ensures goes { OnOk result (ExchangesGo self.old note.now clock.now self.new) }
        ensures fills { IfOk result (ExchangesFill self.old note.now) }
    {
        self.know(exchange)?;
        let Some(exchange) = self.items.get_mut(&exchange) else {
            unreachable!()
        };
        exchange.note(note, clock)
    }

    /// The doom of an exchange is marked, unless it is already.
    pub fn mark_doom(&mut self, exchange: u64, mark: Mark) -> Result<(), NoMemory>
        ensures { OnOk result (ExchangesStay self.old self.new) }
    {
        self.know(exchange)?;
        if let Some(exchange) = self.items.get_mut(&exchange) {
            exchange.mark_doom(mark);
        }
        Ok(())
    }

    // The exchange is there: one that nothing was told of yet is new.
    fn know(&mut self, exchange: u64) -> Result<(), NoMemory>
        ensures same { OnOk result (ExchangesStay self.old self.new) }
        ensures there { OnOk result (IsSome (get nat_cmp self.new.items exchange)) }
    {
        if self.items.contains_key(&exchange) {
            return Ok(());
        }
        self.items.insert(exchange, Exchange::new(self.alloc))?;
        Ok(())
    }
}
