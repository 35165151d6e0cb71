//! From an antichain down to the answer.
ghost use Rattle.std.specs.Prelude.{◌≡◌, ◌<◌, ◌≤◌, ℕ, List, [], true, false, length, slice_index_or, IfOk, OnOk};
ghost use Rattle.dai_model.specs.Clause as Model;
ghost use Rattle.dai_model.specs.Template.{Bounds};
ghost use Rattle.dai_model.specs.Protocol.{Protocol as Meaning};
ghost use Rattle.dai_logic.specs.Protocols.{protocol_of};
ghost use Rattle.dai_template.specs.Lists.{clauses_of};
ghost use Rattle.dai_order.specs.Antichains.{IsAntichain, IsAntichainOf};
ghost use Rattle.dai_template.specs.Spaces.{clause_of};
ghost use Rattle.dai_weaken.specs.Weakening.{IsStart, IsLeft, IsDownTo, IsWithoutStruck, IsWithout, IsMemberOf, IsPlaceIn, AreInside, IsStill};

use crate::judge::Judge;
use crate::rounds::{Round, Strike, ask_each};
use dai_base::Spent;
use dai_logic::Protocol;
use dai_order::Antichain;
use dai_template::{Clause, Space};
use std::alloc::Global;
use std::cmp::Ordering;

/// What is left of an antichain, and the strikes that felled the others, in order.
#[derive(Drop)]
pub struct Weakened {
    pub kept: Antichain,
    pub strikes: Vec<Strike>,
}

/// Goes down from the antichain `start` to the answer: round by round, each clause that is refuted is replaced by its
/// immediate weakenings, until a round refutes none (after Houdini, Flanagan and Leino 2001, over the antichain of
/// DistAI, Yao et al. 2021). `start` stands for every clause of the greatest inductive set over the judge's class.
///
/// `Spent` is want of memory.
pub fn greatest<J: Judge>(
    alloc: Global,
    judge: &mut J,
    protocol: &Protocol,
    space: &Space,
    start: Antichain,
) -> Result<Weakened, Spent>
    requires judge { J.judges judge.old (protocol_of protocol.now) }
    requires start { (B : Bounds) × IsStart (J.class judge.old) (protocol_of protocol.now) B space.now start.clauses.items }
    ensures answer { IfOk result (λ w. (B : Bounds) → IsStart (J.class judge.old) (protocol_of protocol.now) B space.now start.clauses.items → IsLeft (J.class judge.old) (protocol_of protocol.now) B space.now (clauses_of space.now start.clauses.items) w.kept.clauses.items w.strikes.items) }
    ensures judge { J.judges judge.new (protocol_of protocol.now) }
    ensures same { J.class judge.new ≡ J.class judge.old }
{
    let mut weakened = Weakened {
        kept: start,
        strikes: Vec::new(alloc),
    };
    for _round in 0..u64::MAX {
        let fell = weakened.round(alloc, judge, protocol, space)?;
        if !fell {
            return Ok(weakened);
        }
    }
    Err(Spent)
}

impl Weakened {
    /// One round. It answers whether any clause fell.
    fn round<J: Judge>(
        &mut self,
        alloc: Global,
        judge: &mut J,
        protocol: &Protocol,
        space: &Space,
    ) -> Result<bool, Spent>
        requires judge { J.judges judge.old (protocol_of protocol.now) }
        requires antichain { (B : Bounds) × IsAntichain (protocol_of protocol.now) B space.now self.old.kept.clauses.items }
        ensures down { OnOk result ((B : Bounds) (start : List Model.Clause) → IsDownTo (J.class judge.old) (protocol_of protocol.now) B space.now start self.old.kept.clauses.items self.old.strikes.items → IsDownTo (J.class judge.old) (protocol_of protocol.now) B space.now start self.new.kept.clauses.items self.new.strikes.items) }
        ensures still { IfOk result (λ fell. fell ≡ false → IsStill (J.class judge.old) (protocol_of protocol.now) (clauses_of space.now self.new.kept.clauses.items)) }
        ensures judge { J.judges judge.new (protocol_of protocol.now) }
        ensures same { J.class judge.new ≡ J.class judge.old }
    {
        let premises = judge.prepare(protocol, space, self.kept.clauses())?;
        let Round { flags, strikes } = ask_each(
            alloc,
            judge,
            protocol,
            space,
            &premises,
            self.kept.clauses(),
        )?;
        if strikes.is_empty() {
            return Ok(false);
        }
        remove_struck(alloc, space, &flags, &mut self.kept)?;
        let mut strikes = strikes;
        self.strikes.append(&mut strikes)?;
        Ok(true)
    }
}

/// Takes the members away that the flags name.
fn remove_struck(
    alloc: Global,
    space: &Space,
    flags: &[bool],
    kept: &mut Antichain,
) -> Result<(), Spent>
    requires antichain { IsAntichainOf space.now kept.old.clauses.items }
    requires long { length flags.now ≡ length kept.old.clauses.items }
    ensures { OnOk result ((P : Meaning) (B : Bounds) → IsAntichain P B space.now kept.old.clauses.items → IsWithoutStruck P B space.now kept.old.clauses.items flags.now (length flags.now) kept.new.clauses.items) }
{
    let members = copied(alloc, kept.clauses())?;
    for (place, clause) in members.iter().enumerate() {
        remove_if(alloc, space, flags[place], clause, kept)?;
    }
    Ok(())
}

/// Takes the member away, if it is struck.
fn remove_if(
    alloc: Global,
    space: &Space,
    struck: bool,
    clause: &Clause,
    kept: &mut Antichain,
) -> Result<(), Spent>
    requires member { struck ≡ true → IsMemberOf space.now kept.old.clauses.items clause.now }
    ensures struck { OnOk result (struck ≡ true → (P : Meaning) (B : Bounds) → IsAntichain P B space.now kept.old.clauses.items → IsWithout P B space.now kept.old.clauses.items (clause_of space.now clause.now) kept.new.clauses.items) }
    ensures other { OnOk result (struck ≡ false → kept.new.clauses.items ≡ kept.old.clauses.items) }
{
    if !struck {
        return Ok(());
    }
    match place_in(space, clause, kept.clauses()) {
        Some(place) => kept.remove_and_weaken(alloc, space, place),
        None => unreachable!(),
    }
}

/// The place at which the clause stands.
fn place_in(space: &Space, clause: &Clause, clauses: &[Clause]) -> Option<usize>
    requires clause { clause.now.shape < length space.now.shapes.items }
    requires clauses { AreInside space.now clauses.now }
    ensures { IsPlaceIn space.now clauses.now clause.now result }
{
    for (place, other) in clauses.iter().enumerate() {
        if space.compare(other, clause) == Ordering::Equal {
            return Some(place);
        }
    }
    None
}

/// Copies of the clauses.
fn copied(alloc: Global, clauses: &[Clause]) -> Result<Vec<Clause>, Spent>
    ensures { IfOk result (λ copies. copies.items ≡ clauses.now) }
{
    let mut copies = Vec::with_capacity(alloc, clauses.len())?;
    for clause in clauses {
        copies.push(clause.copy())?;
    }
    Ok(copies)
}
