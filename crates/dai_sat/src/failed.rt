ghost use Rattle.std.specs.Prelude.{◌≡◌, ◌<◌, map, length, IsTrue, IfOk, OnOk, slice_index};
ghost use Rattle.dai_trail.specs.Codes.{lit_of as coded_literal};
ghost use Rattle.dai_trail.specs.Trail.{IsSound, IsFalseIn};
ghost use Rattle.dai_trail.specs.Marks.{AreStamps, AreMarks};
ghost use Rattle.dai_sat.specs.Under.{AreDecisionsAsked, AreNames, AreFailed, IsFailure};

use dai_base::Spent;
use dai_trail::analysis::resolve_at;
use dai_trail::cnf::{Cnf, Lit};
use dai_trail::codes::lit_of;
use dai_trail::lists::Lists;
use dai_trail::marks::Marks;
use dai_trail::trail::{DECISION, Trail};
use dai_trail::uses::Uses;
use std::alloc::Global;

/// Names the false assumption, and marks its variable.
fn begin(
    cnf: &Cnf,
    learned: &Lists<u32>,
    trail: &Trail,
    marks: &mut Marks,
    code: u32,
) -> Result<bool, Spent>
    requires sound { IsSound cnf.now learned.now trail.now }
    requires stamps { AreStamps marks.old (length trail.now.values.items) }
    requires lost { IsFalseIn trail.now code }
    ensures stamps { OnOk result (AreStamps marks.new (length trail.now.values.items)) }
    ensures marks { IfOk result (λ r. IsTrue r → AreMarks cnf.now trail.now marks.new) }
    ensures names { IfOk result (λ r. IsTrue r → AreNames trail.now code marks.new.named.items) }
{
    if !marks.restart() {
        return Ok(false);
    }
    marks.name(code)?;
    marks.cover(trail, code, trail.len)?;
    Ok(true)
}

/// Replaces the marked literal at a place: a decision is named, another gives way to the others of its
/// reason. The answer is false where it has none.
fn explain(
    cnf: &Cnf,
    learned: &Lists<u32>,
    trail: &Trail,
    marks: &mut Marks,
    uses: &mut Uses,
    code: u32,
    place: usize,
) -> Result<bool, Spent>
    requires sound { IsSound cnf.now learned.now trail.now }
    requires marks { AreMarks cnf.now trail.now marks.old }
    requires names { AreNames trail.now code marks.old.named.items }
    requires within { place < trail.now.len }
    ensures stamps { OnOk result (AreStamps marks.new (length trail.now.values.items)) }
    ensures marks { IfOk result (λ r. IsTrue r → AreMarks cnf.now trail.now marks.new) }
    ensures names { IfOk result (λ r. IsTrue r → AreNames trail.now code marks.new.named.items) }
{
    if trail.reasons[place] != DECISION {
        return resolve_at(cnf, learned, trail, marks, uses, place, trail.len);
    }
    marks.name(trail.codes[place])?;
    Ok(true)
}

/// Names, beside an assumption that is false, the decisions that it is false by (Eén and Sörensson, 2003).
/// The answer is false where a literal on the way has no clause as its reason.
fn name_decisions(
    cnf: &Cnf,
    learned: &Lists<u32>,
    trail: &Trail,
    marks: &mut Marks,
    uses: &mut Uses,
    code: u32,
) -> Result<bool, Spent>
    requires sound { IsSound cnf.now learned.now trail.now }
    requires stamps { AreStamps marks.old (length trail.now.values.items) }
    requires lost { IsFalseIn trail.now code }
    ensures stamps { OnOk result (AreStamps marks.new (length trail.now.values.items)) }
    ensures names { IfOk result (λ r. IsTrue r → AreFailed cnf.now trail.now code marks.new.named.items) }
{
    if !begin(cnf, learned, trail, marks, code)? {
        return Ok(false);
    }
    let mut end = trail.len;
    while let Some(place) = marks.last_marked(trail, end) {
        if !explain(cnf, learned, trail, marks, uses, code, place)? {
            return Ok(false);
        }
        end = place;
    }
    Ok(marks.last_marked(trail, trail.len).is_none())
}

/// The literals of numbers.
fn lits_of(alloc: Global, codes: &[u32]) -> Result<Vec<Lit>, Spent>
    ensures { IfOk result (λ v. v.items ≡ map coded_literal codes.now) }
{
    let mut lits = Vec::new(alloc);
    for code in codes {
        lits.push(lit_of(*code))?;
    }
    Ok(lits)
}

/// Assumptions that no model of the formula meets, where one of them is false by decisions on others.
pub(crate) fn failed(
    alloc: Global,
    cnf: &Cnf,
    learned: &Lists<u32>,
    trail: &Trail,
    marks: &mut Marks,
    uses: &mut Uses,
    asked: &[u32],
    number: usize,
) -> Result<Vec<Lit>, Spent>
    requires sound { IsSound cnf.now learned.now trail.now }
    requires stamps { AreStamps marks.old (length trail.now.values.items) }
    requires within { number < length asked.now }
    requires lost { IsFalseIn trail.now (slice_index asked.now number) }
    requires decisions { AreDecisionsAsked asked.now trail.now }
    ensures stamps { OnOk result (AreStamps marks.new (length trail.now.values.items)) }
    ensures failure { IfOk result (λ v. IsFailure cnf.now asked.now v.items) }
{
    if name_decisions(cnf, learned, trail, marks, uses, asked[number])? {
        return lits_of(alloc, marks.named.as_slice());
    }
    lits_of(alloc, asked)
}
