ghost use Rattle.std.specs.Prelude.{◌≡◌, ◌/◌, ◌<◌, ◌⊎◌, [], length, IsTrue, IfOk, OnOk};
ghost use Rattle.dai_trail.specs.Trail.{IsSound, IsTrail};
ghost use Rattle.dai_trail.specs.Marks.{IsMarked, AreStamps, AreMarks, IsImplied};
ghost use Rattle.dai_trail.specs.Conflicts.{IsResolution};

use crate::clauses::clause;
use crate::cnf::Cnf;
use crate::codes::negation;
use crate::lists::Lists;
use crate::marks::Marks;
use crate::trail::Trail;
use crate::uses::Uses;
use dai_base::Spent;

/// What is left of a conflict when it was resolved with reasons.
pub enum Resolved {
    /// A literal has no clause as its reason.
    Stuck,
    /// No literal: the formula has no model.
    Refuted,
    /// The first unique implication point, at this place (Marques-Silva and Sakallah, 1996).
    At(usize),
}

/// Replaces a marked literal by the other literals of its reason. The answer is false where it has none.
pub fn resolve_at(
    cnf: &Cnf,
    learned: &Lists<u32>,
    trail: &Trail,
    marks: &mut Marks,
    uses: &mut Uses,
    place: usize,
    start: usize,
) -> Result<bool, Spent>
    requires sound { IsSound cnf.now learned.now trail.now }
    requires marks { AreMarks cnf.now trail.now marks.old }
    requires within { place < trail.now.len }
    ensures stamps { OnOk result (AreStamps marks.new (length trail.now.values.items)) }
    ensures marks { IfOk result (λ r. IsTrue r → AreMarks cnf.now trail.now marks.new) }
    ensures named { OnOk result (marks.new.named.items ≡ marks.old.named.items) }
{
    let reason = trail.reasons[place];
    let Some(codes) = clause(cnf, learned, reason) else {
        return Ok(false);
    };
    uses.note(cnf, reason);
    let code = trail.codes[place];
    marks.unmark(code as usize / 2);
    marks.mark_clause(trail, codes, Some(code), start)
}

/// Marks the literals of a clause that has only false ones.
fn begin(
    cnf: &Cnf,
    learned: &Lists<u32>,
    trail: &Trail,
    marks: &mut Marks,
    uses: &mut Uses,
    conflict: usize,
    start: usize,
) -> Result<bool, Spent>
    requires sound { IsSound cnf.now learned.now trail.now }
    requires stamps { AreStamps marks.old (length trail.now.values.items) }
    ensures stamps { OnOk result (AreStamps marks.new (length trail.now.values.items)) }
    ensures marks { IfOk result (λ r. IsTrue r → AreMarks cnf.now trail.now marks.new) }
    ensures named { IfOk result (λ r. IsTrue r → marks.new.named.items ≡ []) }
{
    let Some(codes) = clause(cnf, learned, conflict) else {
        return Ok(false);
    };
    if !marks.restart() {
        return Ok(false);
    }
    uses.note(cnf, conflict);
    marks.mark_clause(trail, codes, None, start)
}

/// Resolves a clause that has only false literals with reasons, from the end of the trail down, until one
/// literal since the last decision, which stands at `start`, is left.
pub fn resolve(
    cnf: &Cnf,
    learned: &Lists<u32>,
    trail: &Trail,
    marks: &mut Marks,
    uses: &mut Uses,
    conflict: usize,
    start: usize,
) -> Result<Resolved, Spent>
    requires sound { IsSound cnf.now learned.now trail.now }
    requires stamps { AreStamps marks.old (length trail.now.values.items) }
    ensures stamps { OnOk result (AreStamps marks.new (length trail.now.values.items)) }
    ensures left { IfOk result (IsResolution cnf.now trail.now marks.new) }
{
    if !begin(cnf, learned, trail, marks, uses, conflict, start)? {
        return Ok(Resolved::Stuck);
    }
    let mut end = trail.len;
    while let Some(place) = marks.last_marked(trail, end) {
        if marks.open <= 1 {
            return Ok(Resolved::At(place));
        }
        if !resolve_at(cnf, learned, trail, marks, uses, place, start)? {
            return Ok(Resolved::Stuck);
        }
        end = place;
    }
    match marks.last_marked(trail, trail.len) {
        Some(_) => Ok(Resolved::Stuck),
        None => Ok(Resolved::Refuted),
    }
}

/// Whether a literal that was marked is still marked, and of another variable than the last one.
fn is_kept(marks: &Marks, code: u32, last: u32) -> bool
    requires { 0 < marks.now.stamp }
    ensures { IsMarked marks.now (code / 2) → (code / 2 ≡ last / 2) ⊎ IsTrue result }
{
    code / 2 != last / 2 && marks.is_marked(code as usize / 2)
}

/// The clause of the negated marked literals, the one at `place` first.
pub fn learn(
    cnf: &Cnf,
    trail: &Trail,
    marks: &Marks,
    place: usize,
    learned: &mut Vec<u32>,
) -> Result<(), Spent>
    requires trail { IsTrail trail.now }
    requires marks { AreMarks cnf.now trail.now marks.now }
    requires unnamed { marks.now.named.items ≡ [] }
    requires within { place < trail.now.len }
    ensures { OnOk result (IsImplied cnf.now learned.new.items) }
{
    learned.clear();
    let last = trail.codes[place];
    learned.push(negation(last))?;
    for code in &marks.marked {
        if is_kept(marks, *code, last) {
            learned.push(*code)?;
        }
    }
    Ok(())
}
