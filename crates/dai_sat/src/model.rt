ghost use Rattle.std.specs.Prelude.{◌≡◌, ◌<◌, ◌==◌, ℕ, map, length, IsTrue, IfOk, MatchOption, ◌↔◌};
ghost use Rattle.std.specs.List.{Any};
ghost use Rattle.dai_trail.specs.Trail.{IsSound, IsTrueIn, IsRefuted, IsFullModel, MeetsClauses, MissesClause, value_in};

use dai_base::Spent;
use dai_trail::cnf::Cnf;
use dai_trail::lists::Lists;
use dai_trail::trail::Trail;
use std::alloc::Global;

/// The values of all variables.
fn bits_of(alloc: Global, trail: &Trail) -> Result<Vec<bool>, Spent>
    ensures { IfOk result (λ v. v.items ≡ map (λ x. x == 1) trail.now.values.items) }
{
    let mut bits = Vec::new(alloc);
    for value in &trail.values {
        bits.push(*value == 1)?;
    }
    Ok(bits)
}

/// Whether some literal of a clause is true.
fn is_met(trail: &Trail, codes: &[u32]) -> bool
    ensures { IsTrue result ↔ Any (IsTrueIn trail.now) codes.now }
{
    codes.iter().any(|code| trail.is_true(*code))
}

/// The first clause with no true literal.
fn first_unmet(cnf: &Cnf, trail: &Trail) -> Option<usize>
    ensures { MatchOption result (MeetsClauses cnf.now trail.now) (MissesClause cnf.now trail.now) }
{
    for number in 0..cnf.clause_count() {
        if !is_met(trail, cnf.clause(number)) {
            return Some(number);
        }
    }
    None
}

/// The model that a trail of all variables is, where each clause is met.
pub(crate) fn full_model(
    alloc: Global,
    cnf: &Cnf,
    learned: &Lists<u32>,
    trail: &Trail,
) -> Result<Option<Vec<bool>>, Spent>
    requires sound { IsSound cnf.now learned.now trail.now }
    requires room { length trail.now.values.items ≡ cnf.now.vars }
    requires whole { (u : ℕ) → u < length trail.now.values.items → value_in trail.now u < 2 }
    ensures { IfOk result (λ r. MatchOption r (IsRefuted cnf.now trail.now) (λ v. IsFullModel cnf.now trail.now v.items)) }
{
    match first_unmet(cnf, trail) {
        Some(_) => Ok(None),
        None => Ok(Some(bits_of(alloc, trail)?)),
    }
}
