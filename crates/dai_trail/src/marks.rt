ghost use Rattle.std.specs.Prelude.{◌≡◌, ◌/◌, ◌<◌, ◌≤◌, ◌↔◌, ◌⊎◌, ℕ, Some, false, [], length, IsTrue, IfOk, OnOk, MatchOption, slice_index};
ghost use Rattle.dai_trail.specs.Trail.{IsTrail, IsFalseIn, code_at};
ghost use Rattle.dai_trail.specs.Marks.{IsMarked, AreStamps, AreListed, MarksMore, Unmarks, Names, IsCovered};

use crate::trail::Trail;
use dai_base::Spent;
use std::alloc::Global;

/// The variables of the clause that is being resolved. One is marked where its stamp is the newest.
#[derive(Drop)]
pub struct Marks {
    /// By variable: when it was marked last.
    pub stamps: Vec<u64>,
    /// The stamp of now.
    pub stamp: u64,
    /// The false literals that were marked under it.
    pub marked: Vec<u32>,
    /// Literals beside the marked ones: the two together have no model. Empty while a clause is learned.
    pub named: Vec<u32>,
    /// How many of the marked variables were assigned since the last decision. It only guides.
    pub open: usize,
}

/// Whether the literal is this one.
fn is_same(literal: Option<u32>, code: u32) -> bool
    ensures { IsTrue result ↔ (literal ≡ Some code) }
{
    match literal {
        Some(other) => other == code,
        None => false,
    }
}

impl Marks {
    /// No mark, over no variable. Takes no memory.
    pub fn new(alloc: Global) -> Marks
        ensures { AreStamps result 0 }
    {
        Marks {
            stamps: Vec::new(alloc),
            stamp: 1,
            marked: Vec::new(alloc),
            named: Vec::new(alloc),
            open: 0,
        }
    }

    /// Makes room for this many variables; the new ones are not marked.
    pub fn fit(&mut self, vars: usize) -> Result<(), Spent>
        requires stamps { AreStamps self.old (length self.old.stamps.items) }
        requires more { length self.old.stamps.items ≤ vars }
        ensures { OnOk result (AreStamps self.new vars) }
    {
        while self.stamps.len() < vars {
            self.stamps.push(0)?;
        }
        Ok(())
    }

    /// Takes all marks away, by a new stamp. Where there is no newer one the answer is false.
    pub fn restart(&mut self) -> bool
        requires { AreStamps self.old (length self.old.stamps.items) }
        ensures stamps { AreStamps self.new (length self.old.stamps.items) }
        ensures clear { IsTrue result → (var : ℕ) → IsMarked self.new var → ⊥ }
        ensures unnamed { IsTrue result → self.new.named.items ≡ [] }
        ensures last { (result ≡ false) → self.old.stamp ≡ u64.MAX }
    {
        if self.stamp == u64::MAX {
            return false;
        }
        self.stamp += 1;
        self.marked.clear();
        self.named.clear();
        self.open = 0;
        true
    }

    /// Whether a variable is marked.
    pub fn is_marked(&self, var: usize) -> bool
        requires { 0 < self.now.stamp }
        ensures { IsTrue result ↔ IsMarked self.now var }
    {
        match self.stamps.get(var) {
            Some(newest) => *newest == self.stamp,
            None => false,
        }
    }

    /// Marks the variable of a false literal.
    pub fn mark(&mut self, trail: &Trail, code: u32) -> Result<(), Spent>
        requires stamps { AreStamps self.old (length trail.now.values.items) }
        requires listed { AreListed self.old trail.now }
        requires false_now { IsFalseIn trail.now code }
        ensures stamps { OnOk result (AreStamps self.new (length trail.now.values.items)) }
        ensures listed { OnOk result (AreListed self.new trail.now) }
        ensures more { OnOk result (MarksMore self.old self.new) }
        ensures marked { OnOk result (IsMarked self.new (code / 2)) }
    {
        let var = code as usize / 2;
        if self.stamps[var] != self.stamp {
            self.marked.push(code)?;
            self.stamps[var] = self.stamp;
        }
        Ok(())
    }

    /// Takes the mark of a variable away.
    pub fn unmark(&mut self, var: usize)
        requires { AreStamps self.old (length self.old.stamps.items) }
        ensures stamps { AreStamps self.new (length self.old.stamps.items) }
        ensures unmarks { Unmarks self.old self.new var }
        ensures gone { IsMarked self.new var → ⊥ }
    {
        if var < self.stamps.len() {
            self.stamps[var] = 0;
        }
        self.open = self.open.saturating_sub(1);
    }

    /// Names the literal of a variable and takes the variable's mark away.
    pub fn name(&mut self, code: u32) -> Result<(), Spent>
        requires { AreStamps self.old (length self.old.stamps.items) }
        ensures stamps { OnOk result (AreStamps self.new (length self.old.stamps.items)) }
        ensures names { OnOk result (Names self.old self.new code) }
    {
        self.named.push(code)?;
        self.unmark(code as usize / 2);
        Ok(())
    }

    /// Marks a false literal, unless it is false by the formula alone. Literals from `start` on are counted.
    pub fn cover(&mut self, trail: &Trail, code: u32, start: usize) -> Result<(), Spent>
        requires stamps { AreStamps self.old (length trail.now.values.items) }
        requires listed { AreListed self.old trail.now }
        requires trail { IsTrail trail.now }
        requires false_now { IsFalseIn trail.now code }
        ensures stamps { OnOk result (AreStamps self.new (length trail.now.values.items)) }
        ensures listed { OnOk result (AreListed self.new trail.now) }
        ensures more { OnOk result (MarksMore self.old self.new) }
        ensures covered { OnOk result (IsCovered trail.now self.new code) }
    {
        let var = code as usize / 2;
        let place = trail.places[var];
        if place < trail.root {
            return Ok(());
        }
        if self.is_marked(var) {
            return Ok(());
        }
        self.open = self.open.saturating_add((place >= start) as usize);
        self.mark(trail, code)
    }

    /// Marks the literals of a clause beside one. The answer is false where another is not false.
    pub fn mark_clause(
        &mut self,
        trail: &Trail,
        codes: &[u32],
        apart: Option<u32>,
        start: usize,
    ) -> Result<bool, Spent>
        requires stamps { AreStamps self.old (length trail.now.values.items) }
        requires listed { AreListed self.old trail.now }
        requires trail { IsTrail trail.now }
        ensures stamps { OnOk result (AreStamps self.new (length trail.now.values.items)) }
        ensures listed { OnOk result (AreListed self.new trail.now) }
        ensures more { OnOk result (MarksMore self.old self.new) }
        ensures covered { IfOk result (λ r. IsTrue r → (k : ℕ) → k < length codes.now → (apart ≡ Some (slice_index codes.now k)) ⊎ IsCovered trail.now self.new (slice_index codes.now k)) }
    {
        for code in codes {
            if is_same(apart, *code) {
                continue;
            }
            if !trail.is_false(*code) {
                return Ok(false);
            }
            self.cover(trail, *code, start)?;
        }
        Ok(true)
    }

    /// The last place below `end` whose variable is marked.
    pub fn last_marked(&self, trail: &Trail, end: usize) -> Option<usize>
        requires trail { IsTrail trail.now }
        requires some { 0 < self.now.stamp }
        requires within { end ≤ trail.now.len }
        ensures { MatchOption result ((i : ℕ) → i < end → IsMarked self.now (code_at trail.now i / 2) → ⊥) (λ place. place < end) }
    {
        let mut place = end;
        while place > 0 {
            place -= 1;
            if self.is_marked(trail.codes[place] as usize / 2) {
                return Some(place);
            }
        }
        None
    }
}
