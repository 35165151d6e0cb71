ghost use Rattle.std.specs.Prelude.{◌≡◌, ◌<◌, ◌≤◌, ℕ, OnOk, slice_index};
ghost use Rattle.dai_trail.specs.Trail.{IsSound, ForgetsReasons, KeepsDecisions};
ghost use Rattle.dai_sat.specs.Under.{effort};

use crate::desk::Desk;
use dai_base::Spent;
use dai_trail::cnf::Cnf;
use dai_trail::lists::Lists;
use dai_trail::trail::{FLIPPED, Trail};
use std::alloc::Global;

/// The conflicts of the shortest span without a restart.
const UNIT: u64 = 64;

/// How long the search goes on without a restart. The spans are those of Luby, Sinclair and Zuckerman
/// (1993), by Knuth's reluctant doubling.
#[derive(Drop)]
pub(crate) struct Pace {
    /// How many restarts there were. There is none after the last number.
    pub restarts: u64,
    /// The conflicts that are left of the span.
    pub left: u64,
    /// The place in the sequence, and its term.
    pub place: u64,
    pub term: u64,
}

impl Pace {
    /// The first span.
    pub(crate) fn new() -> Pace
        ensures { result.restarts ≡ 0 }
    {
        Pace {
            restarts: 0,
            left: UNIT,
            place: 1,
            term: 1,
        }
    }

    /// Goes on to the next span.
    fn next_span(&mut self)
        ensures { self.new.restarts ≡ self.old.restarts }
    {
        if self.place & self.place.wrapping_neg() == self.term {
            self.place = self.place.saturating_add(1);
            self.term = 1;
        } else {
            self.term = self.term.saturating_mul(2);
        }
        self.left = self.term.saturating_mul(UNIT);
    }
}

/// Lets the learned clauses go that were used least of late. No clause is a reason then.
fn sweep(
    alloc: Global,
    cnf: &Cnf,
    learned: &mut Lists<u32>,
    desk: &mut Desk,
    trail: &Trail,
) -> Result<(), Spent>
    requires sound { IsSound cnf.now learned.old trail.now }
    requires unneeded { (i : ℕ) → i < trail.now.len → FLIPPED ≤ slice_index trail.now.reasons.items i }
    ensures sound { OnOk result (IsSound cnf.now learned.new trail.now) }
    ensures marks { desk.new.marks ≡ desk.old.marks }
{
    let (uses, since) = desk.uses.take(alloc)?;
    let pairs = desk.watches.drop_learned(alloc, cnf)?;
    let mut kept = Lists::new(alloc);
    for number in 0..learned.len() {
        let (Some(entry), Some(pair)) = (uses.get(number), pairs.get(number)) else {
            continue;
        };
        let codes = learned.list(number);
        if !entry.stays(since) || codes.iter().any(|code| trail.is_true(*code)) {
            continue;
        }
        kept.add(codes)?;
        desk.watches.enter_learned(codes, pair.first, pair.second)?;
        desk.uses.keep(*entry)?;
    }
    *learned = kept;
    Ok(())
}

/// Where there are many learned clauses, lets go of those that were used least of late. The trail has no
/// decision then, so that no reason is asked for any more.
pub(crate) fn let_go(
    alloc: Global,
    cnf: &Cnf,
    learned: &mut Lists<u32>,
    desk: &mut Desk,
    trail: &mut Trail,
) -> Result<(), Spent>
    requires { IsSound cnf.now learned.old trail.old }
    ensures sound { OnOk result (IsSound cnf.now learned.new trail.new) }
    ensures marks { desk.new.marks ≡ desk.old.marks }
    ensures forgets { OnOk result (ForgetsReasons trail.old trail.new) }
{
    if !desk.uses.is_full() {
        return Ok(());
    }
    trail.forget_reasons();
    sweep(alloc, cnf, learned, desk, trail)?;
    Ok(())
}

/// After a conflict: where the span is over, goes back to before the first decision, and lets learned
/// clauses go where there are many.
pub(crate) fn rest(
    alloc: Global,
    cnf: &Cnf,
    learned: &mut Lists<u32>,
    desk: &mut Desk,
    trail: &mut Trail,
    pace: &mut Pace,
) -> Result<(), Spent>
    requires sound { IsSound cnf.now learned.old trail.old }
    ensures sound { OnOk result (IsSound cnf.now learned.new trail.new) }
    ensures marks { desk.new.marks ≡ desk.old.marks }
    ensures kept { OnOk result (KeepsDecisions trail.old trail.new) }
    ensures effort { OnOk result (effort pace.new.restarts trail.new ≤ effort pace.old.restarts trail.old) }
{
    pace.left = pace.left.saturating_sub(1);
    if pace.left > 0 || pace.restarts == u64::MAX {
        return Ok(());
    }
    pace.restarts += 1;
    pace.next_span();
    desk.release_all(trail)?;
    trail.restart();
    let_go(alloc, cnf, learned, desk, trail)?;
    Ok(())
}
