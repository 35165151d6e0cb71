ghost use Rattle.std.specs.Prelude.{◌≡◌, ◌<◌, ◌≤◌, ◌^◌, ℕ, length, IsTrue, IfOk, OnOk};
ghost use Rattle.dai_trail.specs.Formula.{IsContradiction};
ghost use Rattle.dai_trail.specs.Trail.{IsSound, KeepsDecisions, IsRefuted, IsDecision};
ghost use Rattle.dai_trail.specs.Marks.{AreStamps};

use crate::desk::Desk;
use dai_base::Spent;
use dai_trail::cnf::Cnf;
use dai_trail::lists::Lists;
use dai_trail::propagation::{are_others_false, follow};
use dai_trail::trail::Trail;
use dai_trail::watches::Watches;
use std::alloc::Global;

/// The clauses of a formula that the solver has names for.
const MOST_CLAUSES: usize = 0x7fff_ffff;

/// Two literals of a clause to watch, which are not false where there are such. It only guides.
fn watched(trail: &Trail, codes: &[u32]) -> (u32, u32)
    requires { 0 < length codes.now }
{
    let first = match codes.iter().find(|code| !trail.is_false(**code)) {
        Some(code) => *code,
        None => codes[0],
    };
    match codes
        .iter()
        .find(|code| **code != first && !trail.is_false(**code))
    {
        Some(code) => (first, *code),
        None => (
            first,
            codes
                .iter()
                .find(|code| **code != first)
                .copied()
                .unwrap_or(first),
        ),
    }
}

/// Enters the clause of a number, and makes its literal true where the others are false. The answer is true
/// where it has only false literals.
fn enter(
    cnf: &Cnf,
    learned: &Lists<u32>,
    watches: &mut Watches,
    trail: &mut Trail,
    number: usize,
) -> Result<bool, Spent>
    requires sound { IsSound cnf.now learned.now trail.old }
    requires within { number < length cnf.now.clauses }
    requires name { number < 2 ^ 32 }
    ensures sound { OnOk result (IsSound cnf.now learned.now trail.new) }
    ensures kept { OnOk result (KeepsDecisions trail.old trail.new) }
    ensures conflict { IfOk result (λ r. IsTrue r → IsRefuted cnf.now trail.new) }
{
    let codes = cnf.clause(number);
    if codes.is_empty() {
        return Ok(true);
    }
    let (first, second) = watched(trail, codes);
    watches.enter_given(codes, first, second)?;
    if !are_others_false(trail, codes, first) {
        return Ok(false);
    }
    Ok(follow(cnf, learned, trail, number, codes, first))
}

/// Enters the clauses of the formula that were not entered yet. The answer is true where one has only false
/// literals.
fn enter_all(
    cnf: &Cnf,
    learned: &Lists<u32>,
    watches: &mut Watches,
    trail: &mut Trail,
) -> Result<bool, Spent>
    requires sound { IsSound cnf.now learned.now trail.old }
    ensures sound { OnOk result (IsSound cnf.now learned.now trail.new) }
    ensures kept { OnOk result (KeepsDecisions trail.old trail.new) }
    ensures conflict { IfOk result (λ r. IsTrue r → IsRefuted cnf.now trail.new) }
{
    for number in watches.entered()..cnf.clause_count() {
        if number >= MOST_CLAUSES {
            return Err(Spent);
        }
        if enter(cnf, learned, watches, trail, number)? {
            return Ok(true);
        }
    }
    Ok(false)
}

/// Goes back to before the first decision, makes room for new variables, and enters new clauses. The answer is
/// true where the formula has no model.
pub(crate) fn prepare(
    alloc: Global,
    cnf: &Cnf,
    learned: &Lists<u32>,
    desk: &mut Desk,
    trail: &mut Trail,
) -> Result<bool, Spent>
    requires sound { IsSound cnf.now learned.now trail.old }
    requires stamps { AreStamps desk.old.marks (length trail.old.values.items) }
    requires room { length trail.old.values.items ≤ cnf.now.vars }
    ensures sound { OnOk result (IsSound cnf.now learned.now trail.new) }
    ensures stamps { OnOk result (AreStamps desk.new.marks (length trail.new.values.items)) }
    ensures room { OnOk result (length trail.new.values.items ≡ cnf.now.vars) }
    ensures start { OnOk result ((i : ℕ) → i < trail.new.len → IsDecision trail.new i → ⊥) }
    ensures none { IfOk result (λ r. IsTrue r → IsContradiction cnf.now) }
{
    let vars = cnf.vars();
    desk.release_all(trail)?;
    trail.restart();
    trail.fit(vars)?;
    desk.watches.fit(alloc, vars)?;
    desk.marks.fit(vars)?;
    let refuted = enter_all(cnf, learned, &mut desk.watches, trail)?;
    Ok(refuted)
}
