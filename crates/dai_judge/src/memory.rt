//! What a judge remembers: what it has proved, each with the clauses that it needed, and the transitions that it has
//! shown. The premises of a way down grow weaker, so a transition that met them goes on meeting them, and what was
//! proved stands as long as the clauses that it needed are premises.
ghost use Rattle.std.specs.Prelude.{◌≡◌, ◌<◌, length, slice_get, Some, IsTrue, IfOk, IfSome};
ghost use Rattle.dai_model.specs.Classes.{Class};
ghost use Rattle.dai_model.specs.Protocol.{Protocol as Meaning};
ghost use Rattle.dai_weaken.specs.Judging.{IsTransition};
ghost use Rattle.dai_inquiry.specs.Keys.{clause_in, clauses_in};
ghost use Rattle.dai_judge.specs.Memory.{Keeps, IsKnown, IsMemoryOf};

use crate::premises::Premises;
use dai_base::Spent;
use dai_inquiry::keys::{Key, is_same};
use dai_logic::BlockId;
use dai_weaken::Counterexample;
use indexmap::IndexMap;
use std::alloc::Global;

/// How many transitions are kept.
const MOST_SHOWN: usize = 1024;

/// That a block leads to the clause of the goal, from the structures that meet the clauses that are needed.
#[derive(Drop)]
pub struct Known {
    pub block: BlockId,
    pub goal: Key,
    pub needed: Vec<Key>,
}

/// What was proved, and what was shown. The places say where something known stands, as a hint.
#[derive(Drop)]
pub struct Memory {
    pub(crate) known: Vec<Known>,
    pub(crate) places: IndexMap<Vec<u8>, usize>,
    pub(crate) shown: Vec<Counterexample>,
}

/// The name of a goal of a block in the places.
fn name_of(alloc: Global, block: BlockId, goal: &Key) -> Result<Vec<u8>, Spent>
    ensures { IfOk result (λ name. length goal.now.bytes.items < length name.items) }
{
    let number = match block {
        BlockId::Init => 255,
        BlockId::Act(action) => action,
    };
    let mut name = Vec::from_slice(alloc, &goal.bytes)?;
    name.push(number)?;
    Ok(name)
}

/// Whether this is what is asked.
fn is_of(known: &Known, block: BlockId, goal: &Key) -> bool
    ensures block { IsTrue result → known.now.block ≡ block }
    ensures goal { IsTrue result → clause_in known.now.goal ≡ clause_in goal.now }
{
    known.block == block && is_same(&known.goal, goal)
}

/// Whether it says that the block leads to the goal from the structures that meet the premises.
fn tells(known: &Known, block: BlockId, premises: &Premises, goal: &Key) -> bool
    ensures { IsTrue result → (C : Class) (P : Meaning) → IsKnown C P known.now → Keeps C P block (clauses_in premises.now.keys.items) (clause_in goal.now) }
{
    is_of(known, block, goal) && premises.has_each(known.needed.as_slice())
}

impl Memory {
    ghost use Rattle.std.specs.Prelude.{[]};

    /// Nothing is remembered.
    pub(crate) fn new(alloc: Global) -> Memory
        ensures { (C : Class) (P : Meaning) → IsMemoryOf C P result }
    {
        Memory {
            known: Vec::new(alloc),
            places: IndexMap::new(alloc),
            shown: Vec::new(alloc),
        }
    }

    /// Whether it is known that the block leads to the goal from the structures that meet the premises.
    pub(crate) fn knows(
        &self,
        alloc: Global,
        block: BlockId,
        premises: &Premises,
        goal: &Key,
    ) -> Result<bool, Spent>
        ensures { IfOk result (λ known. IsTrue known → (C : Class) (P : Meaning) → IsMemoryOf C P self.now → Keeps C P block (clauses_in premises.now.keys.items) (clause_in goal.now)) }
    {
        let name = name_of(alloc, block, goal)?;
        match self.places.get(name.as_slice()) {
            None => Ok(false),
            Some(place) => Ok(self.tells_at(*place, block, premises, goal)),
        }
    }

    /// The same of what stands at the place, if something does.
    fn tells_at(&self, place: usize, block: BlockId, premises: &Premises, goal: &Key) -> bool
        ensures { IsTrue result → (C : Class) (P : Meaning) → IsMemoryOf C P self.now → Keeps C P block (clauses_in premises.now.keys.items) (clause_in goal.now) }
    {
        match self.known.get(place) {
            None => false,
            Some(known) => tells(known, block, premises, goal),
        }
    }

    /// Remembers what was proved.
    pub(crate) fn learn(&mut self, alloc: Global, known: Known) -> Result<(), Spent>
        ensures { (C : Class) (P : Meaning) → IsMemoryOf C P self.old → IsKnown C P known → IsMemoryOf C P self.new }
    {
        let name = name_of(alloc, known.block, &known.goal)?;
        self.places.insert(name, self.known.len())?;
        self.known.push(known)?;
        Ok(())
    }

    /// Remembers a transition, if there are few so far.
    pub(crate) fn keep(&mut self, x: Counterexample) -> Result<(), Spent>
        ensures { (C : Class) (P : Meaning) → IsMemoryOf C P self.old → IsTransition C P x → IsMemoryOf C P self.new }
    {
        if self.shown.len() < MOST_SHOWN {
            self.shown.push(x)?;
        }
        Ok(())
    }
}
