ghost use Rattle.std.specs.Prelude.{◌≡◌, ◌<◌, ◌≤◌, ◌⊎◌, ◌^◌, ℕ, length, IsTrue, IfOk, IfNone, IfSome, slice_index};
ghost use Rattle.dai_trail.specs.Trail.{IsFalseIn, IsSound, KeepsDecisions, IsRefuted, rank_of};
ghost use Rattle.dai_trail.specs.Marks.{IsImplied};
ghost use Rattle.dai_trail.specs.Conflicts.{RefutesOnConflict};

use crate::clauses::clause;
use crate::cnf::Cnf;
use crate::codes::negation;
use crate::lists::Lists;
use crate::trail::{TRUE, Trail};
use crate::watches::{Turn, Watch, Watches};
use dai_base::Spent;
use std::alloc::Global;

/// What the look at a clause came to.
enum Look {
    /// It stays where it is, and this literal of it is worth a look first.
    Stays(u32),
    /// It watches another literal now.
    Moved,
    /// All literals of the clause of this name are false.
    Conflict(usize),
}

/// Whether a literal is `apart` or false. Both are looked at, since which holds can't be foreseen.
fn is_apart_or_false(trail: &Trail, code: u32, apart: u32) -> bool
    ensures { IsTrue result → (code ≡ apart) ⊎ IsFalseIn trail.now code }
{
    let same = code == apart;
    same | trail.is_false(code)
}

/// Whether both hold.
fn both(first: bool, second: bool) -> bool
    ensures first { IsTrue result → IsTrue first }
    ensures second { IsTrue result → IsTrue second }
{
    first & second
}

/// Whether each literal of a clause other than `apart` is false.
pub fn are_others_false(trail: &Trail, codes: &[u32], apart: u32) -> bool
    ensures { IsTrue result → (k : ℕ) → k < length codes.now → (slice_index codes.now k ≡ apart) ⊎ IsFalseIn trail.now (slice_index codes.now k) }
{
    let mut fine = true;
    for code in codes {
        fine = both(fine, is_apart_or_false(trail, *code, apart));
    }
    fine
}

/// Makes a literal true that follows from a clause whose other literals are false. The answer is true where
/// it is false too.
pub fn follow(
    cnf: &Cnf,
    learned: &Lists<u32>,
    trail: &mut Trail,
    name: usize,
    codes: &[u32],
    code: u32,
) -> bool
    requires sound { IsSound cnf.now learned.now trail.old }
    requires implied { IsImplied cnf.now codes.now }
    requires others { (k : ℕ) → k < length codes.now → (slice_index codes.now k ≡ code) ⊎ IsFalseIn trail.old (slice_index codes.now k) }
    requires clause { name < 2 ^ 32 }
    ensures sound { IsSound cnf.now learned.now trail.new }
    ensures kept { KeepsDecisions trail.old trail.new }
    ensures rank { rank_of trail.new ≤ rank_of trail.old }
    ensures head { trail.new.head ≡ trail.old.head }
    ensures conflict { IsTrue result → IsRefuted cnf.now trail.new }
{
    if trail.is_free(code) {
        trail.assign(code, name);
        return false;
    }
    trail.is_false(code)
}

/// Makes a literal true, where the other literals of the clause of a name are false. The answer is true where
/// it is false too.
fn infer(cnf: &Cnf, learned: &Lists<u32>, trail: &mut Trail, name: u32, code: u32) -> bool
    requires { IsSound cnf.now learned.now trail.old }
    ensures sound { IsSound cnf.now learned.now trail.new }
    ensures kept { KeepsDecisions trail.old trail.new }
    ensures rank { rank_of trail.new ≤ rank_of trail.old }
    ensures head { trail.new.head ≡ trail.old.head }
    ensures conflict { IsTrue result → IsRefuted cnf.now trail.new }
{
    let Some(codes) = clause(cnf, learned, name as usize) else {
        return false;
    };
    if !are_others_false(trail, codes, code) {
        return false;
    }
    follow(cnf, learned, trail, name as usize, codes, code)
}

/// Looks at each clause of two or three literals that has a literal which became false. The answer is the name
/// of one that has only false literals.
fn look_at_shorts(
    cnf: &Cnf,
    learned: &Lists<u32>,
    watches: &Watches,
    trail: &mut Trail,
    code: u32,
) -> Option<usize>
    requires { IsSound cnf.now learned.now trail.old }
    ensures sound { IsSound cnf.now learned.now trail.new }
    ensures kept { KeepsDecisions trail.old trail.new }
    ensures rank { rank_of trail.new ≤ rank_of trail.old }
    ensures head { trail.new.head ≡ trail.old.head }
    ensures conflict { IfSome result (λ _. IsRefuted cnf.now trail.new) }
{
    for short in watches.shorts(code) {
        let Some(unit) = short.unit(trail) else {
            continue;
        };
        if infer(cnf, learned, trail, short.clause, unit) {
            return Some(short.clause as usize);
        }
    }
    None
}

/// Looks at a clause one of whose watched literals became false.
fn look_at(
    cnf: &Cnf,
    learned: &Lists<u32>,
    watches: &mut Watches,
    trail: &mut Trail,
    watch: Watch,
    code: u32,
) -> Result<Look, Spent>
    requires { IsSound cnf.now learned.now trail.old }
    ensures sound { IsSound cnf.now learned.now trail.new }
    ensures kept { KeepsDecisions trail.old trail.new }
    ensures rank { rank_of trail.new ≤ rank_of trail.old }
    ensures head { trail.new.head ≡ trail.old.head }
    ensures conflict { IfOk result (RefutesOnConflict cnf.now trail.new) }
{
    match watches.turn(trail, watch, code)? {
        Turn::Stays(blocker) => Ok(Look::Stays(blocker)),
        Turn::Moved => Ok(Look::Moved),
        Turn::Unit(name, other) => {
            if infer(cnf, learned, trail, name, other) {
                return Ok(Look::Conflict(name as usize));
            }
            Ok(Look::Stays(other))
        }
    }
}

/// Looks at each clause of more than three literals that watches a literal which became false. The answer is
/// the name of one that has only false literals.
fn look_at_watches(
    alloc: Global,
    cnf: &Cnf,
    learned: &Lists<u32>,
    watches: &mut Watches,
    trail: &mut Trail,
    code: u32,
) -> Result<Option<usize>, Spent>
    requires { IsSound cnf.now learned.now trail.old }
    ensures sound { IsSound cnf.now learned.now trail.new }
    ensures kept { KeepsDecisions trail.old trail.new }
    ensures rank { rank_of trail.new ≤ rank_of trail.old }
    ensures head { trail.new.head ≡ trail.old.head }
    ensures conflict { IfOk result (λ r. IfSome r (λ _. IsRefuted cnf.now trail.new)) }
{
    let mut list = watches.take(alloc, code);
    let mut at = 0;
    while at < list.len() {
        let watch = list[at];
        if trail.glance(watch.blocker) == TRUE {
            at += 1;
            continue;
        }
        match look_at(cnf, learned, watches, trail, watch, code)? {
            Look::Stays(blocker) => {
                list[at] = Watch {
                    place: watch.place,
                    blocker,
                };
                at += 1;
            }
            Look::Moved => {
                let _ = list.swap_remove(at);
            }
            Look::Conflict(name) => {
                watches.put(code, list);
                return Ok(Some(name));
            }
        }
    }
    watches.put(code, list);
    Ok(None)
}

/// Looks at each clause that may have a single literal left since a literal became false. The answer is the
/// name of one that has only false literals.
fn look_at_all(
    alloc: Global,
    cnf: &Cnf,
    learned: &Lists<u32>,
    watches: &mut Watches,
    trail: &mut Trail,
    code: u32,
) -> Result<Option<usize>, Spent>
    requires { IsSound cnf.now learned.now trail.old }
    ensures sound { IsSound cnf.now learned.now trail.new }
    ensures kept { KeepsDecisions trail.old trail.new }
    ensures rank { rank_of trail.new ≤ rank_of trail.old }
    ensures head { trail.new.head ≡ trail.old.head }
    ensures conflict { IfOk result (λ r. IfSome r (λ _. IsRefuted cnf.now trail.new)) }
{
    if let Some(name) = look_at_shorts(cnf, learned, watches, trail, code) {
        return Ok(Some(name));
    }
    look_at_watches(alloc, cnf, learned, watches, trail, code)
}

/// Makes true what follows from the literals of the trail by single clauses, until there is no more or a
/// clause has only false literals; that one's name is the answer then.
pub fn propagate(
    alloc: Global,
    cnf: &Cnf,
    learned: &Lists<u32>,
    watches: &mut Watches,
    trail: &mut Trail,
) -> Result<Option<usize>, Spent>
    requires { IsSound cnf.now learned.now trail.old }
    ensures sound { IsSound cnf.now learned.now trail.new }
    ensures kept { KeepsDecisions trail.old trail.new }
    ensures rank { rank_of trail.new ≤ rank_of trail.old }
    ensures conflict { IfOk result (λ r. IfSome r (λ _. IsRefuted cnf.now trail.new)) }
    // Without a conflict each literal of the trail was looked at.
    ensures whole { IfOk result (λ r. IfNone r (trail.new.len ≤ trail.new.head)) }
{
    while trail.head < trail.len {
        let code = trail.codes[trail.head];
        trail.head += 1;
        let found = look_at_all(alloc, cnf, learned, watches, trail, negation(code))?;
        if found.is_some() {
            return Ok(found);
        }
    }
    Ok(None)
}
