ghost use Rattle.std.specs.Prelude.{◌≡◌};
ghost use Rattle.dai_trail.specs.Marks.{AreStamps};

use crate::order::Order;
use dai_base::Spent;
use dai_trail::marks::Marks;
use dai_trail::trail::Trail;
use dai_trail::uses::Uses;
use dai_trail::watches::Watches;
use std::alloc::Global;

/// What a search keeps beside the trail and the clauses. But for the marks it only guides.
#[derive(Drop)]
pub(crate) struct Desk {
    pub watches: Watches,
    pub marks: Marks,
    pub uses: Uses,
    pub order: Order,
    /// The places of the decisions.
    pub levels: Vec<usize>,
    /// The clause that is being learned.
    pub draft: Vec<u32>,
    /// How many literals were propagated.
    pub propagations: u64,
}

impl Desk {
    /// The tables over no variable. Takes no memory.
    pub(crate) fn new(alloc: Global) -> Desk
        ensures { AreStamps result.marks 0 }
    {
        Desk {
            watches: Watches::new(alloc),
            marks: Marks::new(alloc),
            uses: Uses::new(alloc),
            order: Order::new(alloc),
            levels: Vec::new(alloc),
            draft: Vec::new(alloc),
            propagations: 0,
        }
    }

    /// Takes the variables that got a value since the last decision back.
    pub(crate) fn release_last(&mut self, trail: &Trail) -> Result<(), Spent>
        ensures { self.new.marks ≡ self.old.marks }
    {
        if let Some(start) = self.levels.last().copied() {
            self.order.release(trail, start)?;
        }
        Ok(())
    }

    /// Takes the variables that got a value since the first decision back, and forgets the decisions.
    pub(crate) fn release_all(&mut self, trail: &Trail) -> Result<(), Spent>
        ensures { self.new.marks ≡ self.old.marks }
    {
        if let Some(start) = self.levels.first().copied() {
            self.order.release(trail, start)?;
        }
        self.levels.clear();
        Ok(())
    }

    /// Takes the decisions that are gone off the list.
    pub(crate) fn drop_levels(&mut self, len: usize)
        ensures { self.new.marks ≡ self.old.marks }
    {
        while let Some(last) = self.levels.last()
            && (*last >= len || *last + 1 == len)
        {
            self.levels.pop();
        }
    }
}
