ghost use Rattle.std.specs.Prelude.{◌≡◌, ◌+◌, ◌<◌, ◌≤◌, ◌^◌, length, IfSome, MatchOption};
ghost use Rattle.dai_trail.specs.Trail.{AreImplied};
ghost use Rattle.dai_trail.specs.Marks.{IsImplied};

use crate::cnf::Cnf;
use crate::lists::Lists;

/// The name of the first learned clause. Clauses of the formula are named by their numbers, upwards from 0,
/// and learned ones downwards from here, so that a name stays while both grow.
const FIRST_LEARNED: usize = u32::MAX as usize;

/// The name of a learned clause, by its number.
pub fn learned_name(number: usize) -> usize
    ensures { result < 2 ^ 32 }
{
    FIRST_LEARNED.saturating_sub(number)
}

/// The number of a learned clause, by its name. A clause of the formula has none.
pub fn learned_number(cnf: &Cnf, name: usize) -> Option<usize>
    ensures given { name < length cnf.now.clauses → result ≡ None }
    ensures learned { length cnf.now.clauses ≤ name → MatchOption result (2 ^ 32 ≤ name) (λ number. number + name + 1 ≡ 2 ^ 32) }
{
    if name < cnf.clause_count() {
        None
    } else {
        FIRST_LEARNED.checked_sub(name)
    }
}

/// The clause of a name, where there is one.
pub fn clause<'a>(cnf: &'a Cnf, learned: &'a Lists<u32>, name: usize) -> Option<&'a [u32]>
    requires { AreImplied cnf.now learned.now }
    ensures { IfSome result (λ codes. IsImplied cnf.now codes.now) }
{
    if name < cnf.clause_count() {
        return Some(cnf.clause(name));
    }
    let number = FIRST_LEARNED.checked_sub(name)?;
    if number < learned.len() {
        Some(learned.list(number))
    } else {
        None
    }
}
