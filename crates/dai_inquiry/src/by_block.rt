//! The inquiries of a protocol's blocks, each opened when its block is first asked about.
ghost use Rattle.std.specs.Prelude.{◌≡◌, ◌+◌, ◌<◌, [], IsSome, IfSome, IfOk, OnOk, length, map};
ghost use Rattle.std.specs.List.{All};
ghost use Rattle.dai_model.specs.WellSorted.{IsWellSorted, closed_scope};
ghost use Rattle.dai_logic.specs.Protocols.{protocol_of, block_named};
ghost use Rattle.dai_logic.specs.declared.structure.BlockId.{BlockId};
ghost use Rattle.dai_logic.specs.Trees.{formula_of};
ghost use Rattle.dai_template.specs.ClauseFormulas.{formula_of_clause};
ghost use Rattle.dai_ground.specs.Answers.{IsAnswerTo};
ghost use Rattle.dai_inquiry.specs.Keys.{clause_in, clauses_in};
ghost use Rattle.dai_inquiry.specs.Places.{AreOpen, IsPlaceOf};

use crate::inquiry::Inquiry;
use crate::keys::Key;
use dai_base::Spent;
use dai_ground::found::Answer;
use dai_logic::{BlockId, Formula, Protocol};
use std::alloc::Global;

/// What the questions took so far.
#[derive(Clone, Copy, Debug, PartialEq, Eq)]
pub struct Tally {
    /// The questions that were put.
    pub questions: u64,
    /// The calls of a solver: one for each question, and one more for each premise that was grounded.
    pub calls: u64,
    /// The most clauses that one formula had.
    pub clauses: usize,
}

/// The inquiries that were opened.
#[derive(Drop)]
pub struct ByBlock {
    opened: Vec<Inquiry>,
    questions: u64,
}

impl ByBlock {
    /// No inquiry. Takes no memory.
    pub fn new(alloc: Global) -> ByBlock
        ensures { result.opened.items ≡ [] }
    {
        ByBlock {
            opened: Vec::new(alloc),
            questions: 0,
        }
    }

    /// What the questions took so far: how many were put is exact, the rest is for reports of speed alone.
    ///
    /// # Errors
    /// `Spent` where there were 2^64 calls.
    pub fn tally(&self) -> Result<Tally, Spent>
        ensures { IfOk result (λ tally. tally.questions ≡ self.now.questions) }
    {
        let mut calls = 0u64;
        let mut clauses = 0usize;
        for inquiry in &self.opened {
            calls = calls.checked_add(inquiry.calls).ok_or(Spent)?;
            clauses = clauses.max(inquiry.most_clauses());
        }
        Ok(Tally {
            questions: self.questions,
            calls,
            clauses,
        })
    }

    /// The place of an inquiry of the block, if one was opened.
    fn place_found(&self, block: BlockId) -> Option<usize>
        ensures { IfSome result (IsPlaceOf block self.now) }
    {
        for place in 0..self.opened.len() {
            if self.opened[place].block() == block {
                return Some(place);
            }
        }
        None
    }

    /// Opens an inquiry of the block, and answers its place.
    fn place_added(
        &mut self,
        alloc: Global,
        protocol: &Protocol,
        block: BlockId,
        sizes: &[u16],
    ) -> Result<usize, Spent>
        requires open { AreOpen (protocol_of protocol.now) sizes.now self.old }
        requires known { IsSome (block_named (protocol_of protocol.now) block) }
        requires one_each { length sizes.now ≡ length (protocol_of protocol.now).sorts }
        requires inhabited { All (λ n. 0 < n) sizes.now }
        ensures open { AreOpen (protocol_of protocol.now) sizes.now self.new }
        ensures place { IfOk result (IsPlaceOf block self.new) }
        ensures kept { self.new.questions ≡ self.old.questions }
    {
        let place = self.opened.len();
        let inquiry = Inquiry::open(alloc, protocol, block, sizes)?;
        self.opened.push(inquiry)?;
        Ok(place)
    }

    /// Begins the inquiry at the place anew where half of it are goals.
    fn renew(&mut self, protocol: &Protocol, place: usize, sizes: &[u16]) -> Result<(), Spent>
        requires open { AreOpen (protocol_of protocol.now) sizes.now self.old }
        requires inside { place < length self.old.opened.items }
        requires one_each { length sizes.now ≡ length (protocol_of protocol.now).sorts }
        requires inhabited { All (λ n. 0 < n) sizes.now }
        ensures open { AreOpen (protocol_of protocol.now) sizes.now self.new }
        ensures place { (block : BlockId) → IsPlaceOf block self.old place → IsPlaceOf block self.new place }
        ensures kept { self.new.questions ≡ self.old.questions }
    {
        let inquiry = &mut self.opened[place];
        if !inquiry.is_mostly_goals() {
            return Ok(());
        }
        inquiry.reopen(protocol, sizes)
    }

    /// The place of the block's inquiry, which is opened if there is none, and anew if it grew too large.
    fn place_of(
        &mut self,
        alloc: Global,
        protocol: &Protocol,
        block: BlockId,
        sizes: &[u16],
    ) -> Result<usize, Spent>
        requires open { AreOpen (protocol_of protocol.now) sizes.now self.old }
        requires known { IsSome (block_named (protocol_of protocol.now) block) }
        requires one_each { length sizes.now ≡ length (protocol_of protocol.now).sorts }
        requires inhabited { All (λ n. 0 < n) sizes.now }
        ensures open { AreOpen (protocol_of protocol.now) sizes.now self.new }
        ensures place { IfOk result (IsPlaceOf block self.new) }
        ensures kept { self.new.questions ≡ self.old.questions }
    {
        let Some(place) = self.place_found(block) else {
            return self.place_added(alloc, protocol, block, sizes);
        };
        self.renew(protocol, place, sizes)?;
        Ok(place)
    }

    /// What `Inquiry::ask` answers by the inquiry of the block over these sizes, of which there is one of at least 1 for
    /// each type.
    ///
    /// # Errors
    /// `Spent` where memory is wanting, and where there are too many variables or clauses for a formula. The inquiries
    /// may be asked again.
    pub fn ask(
        &mut self,
        alloc: Global,
        protocol: &Protocol,
        block: BlockId,
        premises: &[Formula],
        keys: &[Key],
        broken: &Formula,
        goal: &Key,
        sizes: &[u16],
    ) -> Result<Answer, Spent>
        requires open { AreOpen (protocol_of protocol.now) sizes.now self.old }
        requires known { IsSome (block_named (protocol_of protocol.now) block) }
        requires premises { All (IsWellSorted (protocol_of protocol.now) closed_scope) (map formula_of premises.now) }
        requires closed { IsWellSorted (protocol_of protocol.now) closed_scope (formula_of broken.now) }
        requires keys { map formula_of premises.now ≡ map (formula_of_clause (protocol_of protocol.now)) (clauses_in keys.now) }
        requires goal { formula_of broken.now ≡ formula_of_clause (protocol_of protocol.now) (clause_in goal.now) }
        requires one_each { length sizes.now ≡ length (protocol_of protocol.now).sorts }
        requires inhabited { All (λ n. 0 < n) sizes.now }
        ensures open { AreOpen (protocol_of protocol.now) sizes.now self.new }
        ensures counted { OnOk result (self.new.questions ≡ self.old.questions + 1) }
        ensures answer { IfOk result (IsAnswerTo (protocol_of protocol.now) (block_named (protocol_of protocol.now) block) (map formula_of premises.now) (formula_of broken.now) sizes.now) }
    {
        let place = self.place_of(alloc, protocol, block, sizes)?;
        self.questions = self.questions.checked_add(1).ok_or(Spent)?;
        let inquiry = &mut self.opened[place];
        inquiry.ask(protocol, premises, keys, broken, goal)
    }
}
