ghost use Rattle.std.specs.Prelude.{◌≡◌, ◌<◌, ◌≤◌, ◌⊎◌, false, ℕ, length, IsTrue, IfOk, IfSome, OnOk};
ghost use Rattle.std.specs.List.{Contains};
ghost use Rattle.dai_trail.specs.Formula.{IsContradiction};
ghost use Rattle.dai_trail.specs.Trail.{IsTrail, IsSound, KeepsDecisions, IsRefuted, rank_of};
ghost use Rattle.dai_trail.specs.Marks.{IsImplied, IsUnitAt, AreFalseBelow};

use crate::clauses::learned_name;
use crate::cnf::Cnf;
use crate::codes::negation;
use crate::lists::Lists;
use crate::trail::{DECISION, FLIPPED, Trail};
use crate::watches::Watches;
use dai_base::Spent;

/// Where a learned clause sends the trail back to.
#[derive(Clone, Copy)]
pub struct Target {
    /// The place of the decision that goes.
    pub place: usize,
    /// The literal that is watched beside the first.
    pub second: u32,
}

/// The literal of the clause, but for the first, that was assigned last, with its place.
fn last_assigned(trail: &Trail, learned: &[u32]) -> Option<(usize, u32)>
    ensures { IfSome result (λ last. Contains learned.now last.1) }
{
    let mut last: Option<(usize, u32)> = None;
    for (number, code) in learned.iter().enumerate() {
        let Some(place) = trail.places.get(*code as usize / 2).copied() else {
            continue;
        };
        if number > 0 && last.is_none_or(|found| place > found.0) {
            last = Some((place, *code));
        }
    }
    last
}

/// The decision after the last literal of the clause but the first, or the end of the trail, and that literal.
/// Which decision it is only guides.
pub fn target_of(trail: &Trail, levels: &[usize], learned: &[u32]) -> Target
    ensures place { (result.place ≡ trail.now.len) ⊎ Contains levels.now result.place }
    ensures second { (result.second ≡ 0) ⊎ Contains learned.now result.second }
{
    let (above, second) = match last_assigned(trail, learned) {
        Some((last, code)) => (levels.partition_point(|level| *level <= last), code),
        None => (0, 0),
    };
    match levels.get(above) {
        Some(level) => Target {
            place: *level,
            second,
        },
        None => Target {
            place: trail.len,
            second,
        },
    }
}

/// Whether each of the literals is false by a literal below the place.
fn are_false_below(trail: &Trail, codes: &[u32], place: usize) -> bool
    ensures { IsTrue result → AreFalseBelow trail.now codes.now place }
{
    for code in codes {
        if !trail.is_false(*code) {
            return false;
        }
        match trail.places.get(*code as usize / 2) {
            Some(at) if *at < place => {}
            _ => return false,
        }
    }
    true
}

/// Whether a decision stands at the place, and back there the first literal of the clause is free and
/// its others are false.
pub fn is_unit_at(trail: &Trail, codes: &[u32], place: usize) -> bool
    requires { IsTrail trail.now }
    ensures { IsTrue result → IsUnitAt trail.now codes.now place }
{
    if codes.is_empty() || place >= trail.len || trail.reasons[place] != DECISION {
        return false;
    }
    let first = codes[0];
    if !trail.is_false(first) {
        return false;
    }
    let at = trail.places[first as usize / 2];
    at >= place && are_false_below(trail, &codes[1..], place)
}

/// Goes back to a place where the clause has one free literal, its first, and makes that one true. The
/// clause is learned.
pub fn jump(
    cnf: &Cnf,
    learned: &mut Lists<u32>,
    watches: &mut Watches,
    trail: &mut Trail,
    codes: &[u32],
    target: Target,
) -> Result<(), Spent>
    requires sound { IsSound cnf.now learned.old trail.old }
    requires implied { IsImplied cnf.now codes.now }
    requires unit { IsUnitAt trail.old codes.now target.place }
    ensures sound { OnOk result (IsSound cnf.now learned.new trail.new) }
    ensures kept { OnOk result (KeepsDecisions trail.old trail.new) }
    ensures rank { OnOk result (rank_of trail.new < rank_of trail.old) }
{
    let first = codes[0];
    let name = learned_name(learned.len());
    learned.add(codes)?;
    watches.enter_learned(codes, first, target.second)?;
    trail.cut(target.place);
    trail.assign(first, name);
    Ok(())
}

/// Turns the last decision round, where no model makes each literal of the trail true. Without a decision
/// the formula has no model, and the answer is false.
pub fn flip(cnf: &Cnf, learned: &Lists<u32>, trail: &mut Trail) -> bool
    requires sound { IsSound cnf.now learned.now trail.old }
    requires refuted { IsRefuted cnf.now trail.old }
    ensures sound { IsSound cnf.now learned.now trail.new }
    ensures kept { KeepsDecisions trail.old trail.new }
    ensures rank { IsTrue result → rank_of trail.new < rank_of trail.old }
    ensures none { (result ≡ false) → IsContradiction cnf.now }
{
    let Some(place) = trail.last_decision() else {
        return false;
    };
    let code = trail.codes[place];
    trail.cut(place);
    trail.assign(negation(code), FLIPPED);
    true
}
