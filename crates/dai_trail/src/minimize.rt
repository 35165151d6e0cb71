ghost use Rattle.std.specs.Prelude.{◌≡◌, ◌/◌, ◌<◌, ◌⊎◌, ℕ, length, IsTrue, slice_index};
ghost use Rattle.dai_trail.specs.Trail.{IsSound};
ghost use Rattle.dai_trail.specs.Marks.{AreMarks, IsCoveredBeside, IsRedundantAt};

use crate::clauses::clause;
use crate::cnf::Cnf;
use crate::lists::Lists;
use crate::marks::Marks;
use crate::trail::Trail;

/// Whether a literal is false, and marked or so by the formula alone, and of another variable than `apart`.
fn is_covered(trail: &Trail, marks: &Marks, code: u32, apart: u32) -> bool
    requires { 0 < marks.now.stamp }
    ensures { IsTrue result → IsCoveredBeside trail.now marks.now apart code }
{
    let var = code as usize / 2;
    if code / 2 == apart / 2 || !trail.is_false(code) {
        return false;
    }
    if marks.is_marked(var) {
        return true;
    }
    match trail.places.get(var) {
        Some(place) => *place < trail.root,
        None => false,
    }
}

/// Whether each literal of a clause is covered, but `apart`.
fn are_covered(trail: &Trail, marks: &Marks, codes: &[u32], apart: u32) -> bool
    requires { 0 < marks.now.stamp }
    ensures { IsTrue result → (k : ℕ) → k < length codes.now → (slice_index codes.now k ≡ apart) ⊎ IsCoveredBeside trail.now marks.now apart (slice_index codes.now k) }
{
    for code in codes {
        if *code != apart && !is_covered(trail, marks, *code, apart) {
            return false;
        }
    }
    true
}

/// Whether the literal at a place follows from other marked ones by its reason alone.
fn is_redundant(cnf: &Cnf, learned: &Lists<u32>, trail: &Trail, marks: &Marks, place: usize) -> bool
    requires sound { IsSound cnf.now learned.now trail.now }
    requires stamp { 0 < marks.now.stamp }
    requires within { place < trail.now.len }
    ensures { IsTrue result → IsRedundantAt cnf.now trail.now marks.now place }
{
    let reason = trail.reasons[place];
    let Some(codes) = clause(cnf, learned, reason) else {
        return false;
    };
    are_covered(trail, marks, codes, trail.codes[place])
}

/// Takes the mark of a variable away, where its literal is redundant and another than that at `last`.
fn unmark_redundant(
    cnf: &Cnf,
    learned: &Lists<u32>,
    trail: &Trail,
    marks: &mut Marks,
    var: usize,
    last: usize,
)
    requires sound { IsSound cnf.now learned.now trail.now }
    requires marks { AreMarks cnf.now trail.now marks.old }
    ensures marks { AreMarks cnf.now trail.now marks.new }
    ensures named { marks.new.named.items ≡ marks.old.named.items }
{
    let Some(place) = trail.places.get(var).copied() else {
        return;
    };
    if place == last || place >= trail.len || !marks.is_marked(var) {
        return;
    }
    if !is_redundant(cnf, learned, trail, marks, place) {
        return;
    }
    marks.unmark(trail.codes[place] as usize / 2);
}

/// Takes the marks of literals away that follow from other marked ones by a single clause, so that a shorter
/// clause is learned (Sörensson and Biere, 2009). The literal at `last` keeps its mark.
pub fn minimize(cnf: &Cnf, learned: &Lists<u32>, trail: &Trail, marks: &mut Marks, last: usize)
    requires sound { IsSound cnf.now learned.now trail.now }
    requires marks { AreMarks cnf.now trail.now marks.old }
    ensures marks { AreMarks cnf.now trail.now marks.new }
    ensures named { marks.new.named.items ≡ marks.old.named.items }
{
    for number in 0..marks.marked.len() {
        let Some(code) = marks.marked.get(number).copied() else {
            return;
        };
        unmark_redundant(cnf, learned, trail, marks, code as usize / 2, last);
    }
}
