ghost use Rattle.std.specs.Prelude.{◌≡◌, ◌<◌, ◌≤◌, [], length, IsTrue, IfOk, OnOk, false};
ghost use Rattle.dai_trail.specs.Formula.{IsContradiction};
ghost use Rattle.dai_trail.specs.Trail.{IsSound, KeepsDecisions, IsRefuted, IsFreeIn, Enters, rank_of};
ghost use Rattle.dai_trail.specs.Marks.{AreStamps, AreMarks};
ghost use Rattle.dai_sat.specs.Answers.{IsMoveOf};

use crate::desk::Desk;
use dai_base::Spent;
use dai_trail::analysis::{Resolved, learn, resolve};
use dai_trail::backjump::{flip, is_unit_at, jump, target_of};
use dai_trail::cnf::Cnf;
use dai_trail::lists::Lists;
use dai_trail::minimize::minimize;
use dai_trail::propagation::propagate;
use dai_trail::trail::{DECISION, Trail};
use std::alloc::Global;

/// What a step of the search came to.
pub(crate) enum Move {
    /// A conflict was answered.
    Again,
    /// Nothing follows any more.
    Quiet,
    /// The formula has no model.
    Unsat,
}

/// Turns the last decision round, and lets go of the variables that came after it. The answer is false where
/// the formula has no model.
pub(crate) fn turn(
    cnf: &Cnf,
    learned: &Lists<u32>,
    desk: &mut Desk,
    trail: &mut Trail,
) -> Result<bool, Spent>
    requires sound { IsSound cnf.now learned.now trail.old }
    requires refuted { IsRefuted cnf.now trail.old }
    ensures sound { OnOk result (IsSound cnf.now learned.now trail.new) }
    ensures marks { desk.new.marks ≡ desk.old.marks }
    ensures kept { OnOk result (KeepsDecisions trail.old trail.new) }
    ensures rank { IfOk result (λ r. IsTrue r → rank_of trail.new < rank_of trail.old) }
    ensures none { IfOk result (λ r. (r ≡ false) → IsContradiction cnf.now) }
{
    desk.release_last(trail)?;
    Ok(flip(cnf, learned, trail))
}

/// Learns the clause of the marked literals and goes back by it, or turns the last decision round. The
/// answer is false where the formula has no model.
fn learn_and_jump(
    cnf: &Cnf,
    learned: &mut Lists<u32>,
    desk: &mut Desk,
    trail: &mut Trail,
    place: usize,
) -> Result<bool, Spent>
    requires sound { IsSound cnf.now learned.old trail.old }
    requires refuted { IsRefuted cnf.now trail.old }
    requires marks { AreMarks cnf.now trail.old desk.old.marks }
    requires unnamed { desk.old.marks.named.items ≡ [] }
    requires within { place < trail.old.len }
    ensures sound { OnOk result (IsSound cnf.now learned.new trail.new) }
    ensures stamps { OnOk result (AreStamps desk.new.marks (length trail.old.values.items)) }
    ensures kept { OnOk result (KeepsDecisions trail.old trail.new) }
    ensures rank { IfOk result (λ r. IsTrue r → rank_of trail.new < rank_of trail.old) }
    ensures none { IfOk result (λ r. (r ≡ false) → IsContradiction cnf.now) }
{
    minimize(cnf, learned, trail, &mut desk.marks, place);
    learn(cnf, trail, &desk.marks, place, &mut desk.draft)?;
    let codes = desk.draft.as_slice();
    let target = target_of(trail, desk.levels.as_slice(), codes);
    if !is_unit_at(trail, codes, target.place) {
        return turn(cnf, learned, desk, trail);
    }
    let glue = desk.uses.glue(trail, desk.levels.as_slice(), codes)?;
    desk.order.release(trail, target.place)?;
    jump(cnf, learned, &mut desk.watches, trail, codes, target)?;
    desk.uses.enter(glue)?;
    Ok(true)
}

/// Learns a clause from a conflict and goes back by it, or turns the last decision round. The answer is
/// false where the formula has no model.
fn recover(
    cnf: &Cnf,
    learned: &mut Lists<u32>,
    desk: &mut Desk,
    trail: &mut Trail,
    conflict: usize,
) -> Result<bool, Spent>
    requires sound { IsSound cnf.now learned.old trail.old }
    requires refuted { IsRefuted cnf.now trail.old }
    requires stamps { AreStamps desk.old.marks (length trail.old.values.items) }
    ensures sound { OnOk result (IsSound cnf.now learned.new trail.new) }
    ensures stamps { OnOk result (AreStamps desk.new.marks (length trail.old.values.items)) }
    ensures kept { OnOk result (KeepsDecisions trail.old trail.new) }
    ensures rank { IfOk result (λ r. IsTrue r → rank_of trail.new < rank_of trail.old) }
    ensures none { IfOk result (λ r. (r ≡ false) → IsContradiction cnf.now) }
{
    let Some(start) = desk.levels.last().copied() else {
        return turn(cnf, learned, desk, trail);
    };
    let left = resolve(
        cnf,
        learned,
        trail,
        &mut desk.marks,
        &mut desk.uses,
        conflict,
        start,
    )?;
    desk.order.bump_all(desk.marks.marked.as_slice());
    match left {
        Resolved::Refuted => Ok(false),
        Resolved::Stuck => turn(cnf, learned, desk, trail),
        Resolved::At(place) => learn_and_jump(cnf, learned, desk, trail, place),
    }
}

/// Propagates, and answers a conflict where there is one.
pub(crate) fn advance(
    alloc: Global,
    cnf: &Cnf,
    learned: &mut Lists<u32>,
    desk: &mut Desk,
    trail: &mut Trail,
) -> Result<Move, Spent>
    requires sound { IsSound cnf.now learned.old trail.old }
    requires stamps { AreStamps desk.old.marks (length trail.old.values.items) }
    ensures sound { OnOk result (IsSound cnf.now learned.new trail.new) }
    ensures stamps { OnOk result (AreStamps desk.new.marks (length trail.old.values.items)) }
    ensures kept { OnOk result (KeepsDecisions trail.old trail.new) }
    ensures step { IfOk result (IsMoveOf cnf.now trail.old trail.new) }
{
    let head = trail.head;
    let conflict = propagate(alloc, cnf, learned, &mut desk.watches, trail)?;
    let count = trail.head.saturating_sub(head) as u64;
    desk.propagations = desk.propagations.saturating_add(count);
    let Some(conflict) = conflict else {
        return Ok(Move::Quiet);
    };
    if !recover(cnf, learned, desk, trail, conflict)? {
        return Ok(Move::Unsat);
    }
    desk.drop_levels(trail.len);
    Ok(Move::Again)
}

/// Makes a free literal true as a decision.
pub(crate) fn decide(
    cnf: &Cnf,
    learned: &Lists<u32>,
    levels: &mut Vec<usize>,
    trail: &mut Trail,
    code: u32,
) -> Result<(), Spent>
    requires sound { IsSound cnf.now learned.now trail.old }
    requires free { IsFreeIn trail.old code }
    ensures sound { OnOk result (IsSound cnf.now learned.now trail.new) }
    ensures enters { OnOk result (Enters trail.old trail.new code DECISION) }
    ensures rank { OnOk result (rank_of trail.new < rank_of trail.old) }
{
    trail.settle_root();
    levels.push(trail.len)?;
    trail.assign(code, DECISION);
    Ok(())
}
