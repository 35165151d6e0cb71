ghost use Rattle.std.specs.Prelude.{◌≡◌, ◌+◌, ◌-◌, ◌*◌, ◌/◌, ◌%◌, ◌<◌, ◌≤◌, ◌^◌, ◌↔◌, ℕ, length, IsTrue, IfOk, OnOk, MatchOption, slice_index, slice_index_or};
ghost use Rattle.dai_trail.specs.Trail.{value_in, IsDecision, IsTrueIn, IsFalseIn, IsFreeIn, IsOpenIn, IsTrail, Enters, CutsTo, Widens, ForgetsReasons, rank_of};

use crate::codes::negation;
use dai_base::Spent;
use std::alloc::Global;

/// The reason of a literal that was decided.
pub const DECISION: usize = usize::MAX;

/// The reason of a literal that follows from no single clause.
pub const FLIPPED: usize = usize::MAX - 1;

/// The value of a literal that is true.
pub const TRUE: u8 = 1;

/// The value of a literal that is false.
pub const FALSE: u8 = 0;

/// The value of a variable that has none.
pub const FREE: u8 = 2;

/// The literals that are true now, in the order in which they became so, each with its reason. A literal
/// is twice its variable, and 1 more where it is positive.
#[derive(Drop)]
pub struct Trail {
    /// By variable: 0 where it is false, 1 where it is true, else `FREE`.
    pub values: Vec<u8>,
    /// By variable: the place of its literal.
    pub places: Vec<usize>,
    /// The literals; those from `len` on are left over.
    pub codes: Vec<u32>,
    /// By place: the clause that the literal follows from, `FLIPPED` or `DECISION`.
    pub reasons: Vec<usize>,
    /// How many literals there are.
    pub len: usize,
    /// The first literal whose consequences were not looked at.
    pub head: usize,
    /// How many of the first literals are known to follow from the formula alone.
    pub root: usize,
    /// No variable below this one is free.
    pub next: usize,
    /// By literal: `TRUE`, `FALSE` or `FREE`. It only guides.
    pub hints: Vec<u8>,
}

/// Writes down the value of a literal.
fn hint(hints: &mut Vec<u8>, code: u32, value: u8) {
    let number = code as usize;
    if number < hints.len() {
        hints[number] = value;
    }
}

impl Trail {
    /// The trail over no variable. Takes no memory.
    pub fn new(alloc: Global) -> Trail
        ensures trail { IsTrail result }
        ensures empty { result.len ≡ 0 }
        ensures room { length result.values.items ≡ 0 }
    {
        Trail {
            values: Vec::new(alloc),
            places: Vec::new(alloc),
            codes: Vec::new(alloc),
            reasons: Vec::new(alloc),
            len: 0,
            head: 0,
            root: 0,
            next: 0,
            hints: Vec::new(alloc),
        }
    }

    /// Makes room for this many variables; the new ones are free.
    pub fn fit(&mut self, vars: usize) -> Result<(), Spent>
        requires trail { IsTrail self.old }
        requires more { length self.old.values.items ≤ vars }
        ensures trail { OnOk result (IsTrail self.new) }
        ensures room { OnOk result (length self.new.values.items ≡ vars) }
        ensures same { OnOk result (Widens self.old self.new) }
    {
        while self.values.len() < vars {
            self.values.push(FREE)?;
            self.places.push(0)?;
            self.codes.push(0)?;
            self.reasons.push(0)?;
            self.hints.push(FREE)?;
            self.hints.push(FREE)?;
        }
        Ok(())
    }

    /// The value that a literal seems to have: `TRUE`, `FALSE` or `FREE`.
    pub fn glance(&self, code: u32) -> u8
        ensures { result ≡ slice_index_or self.now.hints.items code TRUE }
    {
        match self.hints.get(code as usize) {
            Some(value) => *value,
            None => TRUE,
        }
    }

    /// Whether the literal is true.
    pub fn is_true(&self, code: u32) -> bool
        ensures { IsTrue result ↔ IsTrueIn self.now code }
    {
        match self.values.get(code as usize / 2) {
            Some(value) => *value as u32 == code % 2,
            None => false,
        }
    }

    /// Whether the literal is false.
    pub fn is_false(&self, code: u32) -> bool
        ensures { IsTrue result ↔ IsFalseIn self.now code }
    {
        match self.values.get(code as usize / 2) {
            Some(value) => *value as u32 + code % 2 == 1,
            None => false,
        }
    }

    /// Whether the literal's variable is below the count and has no value.
    pub fn is_free(&self, code: u32) -> bool
        ensures { IsTrue result ↔ IsFreeIn self.now code }
    {
        match self.values.get(code as usize / 2) {
            Some(value) => *value >= FREE,
            None => false,
        }
    }

    /// Whether a variable is below the count and has no value.
    pub fn is_open(&self, var: usize) -> bool
        ensures { IsTrue result ↔ IsOpenIn self.now var }
    {
        match self.values.get(var) {
            Some(value) => *value >= FREE,
            None => false,
        }
    }

    /// Makes the literal of a free variable true.
    pub fn assign(&mut self, code: u32, reason: usize)
        requires trail { IsTrail self.old }
        requires free { IsFreeIn self.old code }
        ensures trail { IsTrail self.new }
        ensures enters { Enters self.old self.new code reason }
        ensures falls { rank_of self.new < rank_of self.old }
    {
        let var = code as usize / 2;
        let place = self.len;
        self.values[var] = (code % 2) as u8;
        self.places[var] = place;
        self.codes[place] = code;
        self.reasons[place] = reason;
        self.len = place + 1;
        hint(&mut self.hints, code, TRUE);
        hint(&mut self.hints, negation(code), FALSE);
    }

    /// Takes the last literal away.
    fn pop(&mut self)
        requires trail { IsTrail self.old }
        requires above { self.old.root < self.old.len }
        ensures trail { IsTrail self.new }
        ensures cuts { CutsTo self.old self.new (self.old.len - 1) }
        ensures root { self.new.root ≡ self.old.root }
    {
        let place = self.len - 1;
        self.len = place;
        let code = self.codes[place];
        let var = code as usize / 2;
        self.values[var] = FREE;
        self.next = self.next.min(var);
        hint(&mut self.hints, code, FREE);
        hint(&mut self.hints, negation(code), FREE);
    }

    /// Takes the literals from a decision on away.
    pub fn cut(&mut self, place: usize)
        requires trail { IsTrail self.old }
        requires within { place < self.old.len }
        requires decision { IsDecision self.old place }
        ensures trail { IsTrail self.new }
        ensures cuts { CutsTo self.old self.new place }
        ensures root { self.new.root ≡ self.old.root }
    {
        while self.len > place {
            self.pop();
        }
        self.head = place;
    }

    /// Takes all decisions and what came after them away.
    pub fn restart(&mut self)
        requires { IsTrail self.old }
        ensures trail { IsTrail self.new }
        ensures within { self.new.len ≤ self.old.len }
        ensures cuts { CutsTo self.old self.new self.new.len }
        ensures none { (i : ℕ) → i < self.new.len → IsDecision self.new i → ⊥ }
    {
        self.settle_root();
        let root = self.root;
        if root < self.len {
            self.cut(root);
        }
    }

    /// Lets the literal at a place have no reason any more, unless it is a decision.
    fn forget_reason(&mut self, place: usize)
        requires trail { IsTrail self.old }
        requires within { place < self.old.len }
        ensures trail { IsTrail self.new }
        ensures forgets { ForgetsReasons self.old self.new }
        ensures here { FLIPPED ≤ slice_index self.new.reasons.items place }
        ensures others { (i : ℕ) → FLIPPED ≤ slice_index self.old.reasons.items i → FLIPPED ≤ slice_index self.new.reasons.items i }
    {
        if self.reasons[place] == DECISION {
            return;
        }
        self.reasons[place] = FLIPPED;
    }

    /// Lets no literal but decisions have a reason any more.
    pub fn forget_reasons(&mut self)
        requires { IsTrail self.old }
        ensures trail { IsTrail self.new }
        ensures forgets { ForgetsReasons self.old self.new }
        ensures none { (i : ℕ) → i < self.new.len → FLIPPED ≤ slice_index self.new.reasons.items i }
    {
        for place in 0..self.len {
            self.forget_reason(place);
        }
    }

    /// The first free variable.
    pub fn first_free(&mut self) -> Option<usize>
        requires { IsTrail self.old }
        ensures trail { IsTrail self.new }
        ensures same { CutsTo self.old self.new self.old.len }
        ensures values { self.new.values.items ≡ self.old.values.items }
        ensures answer { MatchOption result ((u : ℕ) → u < length self.old.values.items → value_in self.new u < 2) (λ v. IsOpenIn self.new v × ((u : ℕ) → u < v → value_in self.new u < 2)) }
    {
        while self.next < self.values.len() {
            if self.values[self.next] >= FREE {
                return Some(self.next);
            }
            self.next += 1;
        }
        None
    }

    /// Raises the root to the first decision.
    pub fn settle_root(&mut self)
        requires { IsTrail self.old }
        ensures trail { IsTrail self.new }
        ensures same { CutsTo self.old self.new self.old.len }
        ensures values { self.new.values.items ≡ self.old.values.items }
        ensures head { self.new.head ≡ self.old.head }
        ensures stop { self.new.root < self.new.len → IsDecision self.new self.new.root }
    {
        while self.root < self.len && self.reasons[self.root] != DECISION {
            self.root += 1;
        }
    }

    /// The place of the last decision.
    pub fn last_decision(&self) -> Option<usize>
        requires { IsTrail self.now }
        ensures found { MatchOption result ((i : ℕ) → i < self.now.len → IsDecision self.now i → ⊥) (λ p. (p < self.now.len) × IsDecision self.now p × ((i : ℕ) → p < i → i < self.now.len → IsDecision self.now i → ⊥)) }
    {
        let mut place = self.len;
        while place > 0 {
            place -= 1;
            if self.reasons[place] == DECISION {
                return Some(place);
            }
        }
        None
    }
}
