ghost use Rattle.std.specs.Prelude.{◌≡◌, ◌<◌, ◌≤◌, ℕ, false, length, IsTrue, MatchOption, slice_index};
ghost use Rattle.dai_trail.specs.Trail.{IsTrail, IsTrueIn, IsDecision};
ghost use Rattle.dai_sat.specs.Under.{IsDecidedFrom, IsUnder, IsPast, IsWanted};

use dai_trail::trail::Trail;

/// The assumptions of a question, and how far they stand on the trail.
#[derive(Drop)]
pub(crate) struct Asked {
    /// The assumptions as numbers.
    pub codes: Vec<u32>,
    /// Each decision below this place is an assumption, and where one stands behind it, all assumptions
    /// are true below it.
    pub floor: usize,
    /// The first assumption that wasn't true at the last look. It only guides.
    pub from: usize,
}

/// The number of the first assumption from a number on that is not true.
fn unmet_from(trail: &Trail, codes: &[u32], start: usize) -> Option<usize>
    ensures { MatchOption result ((k : ℕ) → start ≤ k → k < length codes.now → IsTrueIn trail.now (slice_index codes.now k)) (λ k. (k < length codes.now) × (IsTrueIn trail.now (slice_index codes.now k) → ⊥)) }
{
    for number in start..codes.len() {
        if !trail.is_true(codes[number]) {
            return Some(number);
        }
    }
    None
}

/// Whether a decision stands at a place or behind it.
fn is_decided_from(trail: &Trail, floor: usize) -> bool
    requires { IsTrail trail.now }
    ensures found { IsTrue result → IsDecidedFrom trail.now floor }
    ensures none { (result ≡ false) → (i : ℕ) → floor ≤ i → i < trail.now.len → IsDecision trail.now i → ⊥ }
{
    match trail.last_decision() {
        Some(place) => place >= floor,
        None => false,
    }
}

/// The number of an assumption that is not true, if there is one.
fn unmet(trail: &Trail, codes: &[u32], from: usize) -> Option<usize>
    ensures { MatchOption result ((k : ℕ) → k < length codes.now → IsTrueIn trail.now (slice_index codes.now k)) (λ k. (k < length codes.now) × (IsTrueIn trail.now (slice_index codes.now k) → ⊥)) }
{
    match unmet_from(trail, codes, from) {
        Some(number) => Some(number),
        None => unmet_from(trail, codes, 0),
    }
}

impl Asked {
    /// The number of an assumption that is not true; none where all are true.
    pub(crate) fn next(&mut self, trail: &Trail) -> Option<usize>
        requires trail { IsTrail trail.now }
        requires under { IsUnder self.old.codes.items self.old.floor trail.now }
        ensures codes { self.new.codes.items ≡ self.old.codes.items }
        ensures answer { MatchOption result (IsPast self.old.codes.items self.new.floor trail.now) (IsWanted self.old.codes.items self.new.floor trail.now) }
    {
        if is_decided_from(trail, self.floor) {
            return None;
        }
        match unmet(trail, self.codes.as_slice(), self.from) {
            Some(number) => {
                self.from = number;
                self.floor = trail.values.len();
                Some(number)
            }
            None => {
                self.from = 0;
                self.floor = trail.len;
                None
            }
        }
    }
}
