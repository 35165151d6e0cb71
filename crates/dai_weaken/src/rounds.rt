//! One round of questions.
ghost use Rattle.std.specs.Prelude.{◌≡◌, ◌+◌, ◌<◌, ◌⊎◌, ◌↔◌, ℕ, List, false, true, length, slice_index_or, IfOk, OnOk};
ghost use Rattle.dai_model.specs.Clause as Model;
ghost use Rattle.dai_model.specs.Classes.{Class};
ghost use Rattle.dai_logic.specs.Protocols.{protocol_of};
ghost use Rattle.dai_logic.specs.Tables.{Fits};
ghost use Rattle.dai_template.specs.Spaces.{clause_of, IsAskedOf};
ghost use Rattle.dai_template.specs.Lists.{clauses_of};
ghost use Rattle.dai_weaken.specs.Judging.{Answers};
ghost use Rattle.dai_weaken.specs.Questions.{IsGoal, ArePremises};
ghost use Rattle.dai_weaken.specs.Strikes.{AreRoundStrikes, AreEachOnce, IsStruckList, AreStruckAfter, IsStruckOr};

use crate::judge::{Counterexample, Judge};
use dai_base::Spent;
use dai_logic::{Protocol, Structure};
use dai_template::{Clause, Space};
use std::alloc::Global;

/// A counterexample with the clauses that it strikes: those that its state after doesn't meet.
#[derive(Drop)]
pub struct Strike {
    pub by: Counterexample,
    pub clauses: Vec<Clause>,
}

/// Asks of each clause whether it holds at first and after each action, from states that meet the premises. A
/// counterexample strikes all clauses that its state after doesn't meet, and those aren't asked any more.
pub(crate) fn ask_each<J: Judge>(
    alloc: Global,
    judge: &mut J,
    protocol: &Protocol,
    space: &Space,
    premises: &J::Premises,
    members: &[Clause],
) -> Result<Round, Spent>
    requires judge { J.judges judge.old (protocol_of protocol.now) }
    requires premises { (I : List Model.Clause) × J.prepared judge.old premises.now (protocol_of protocol.now) I }
    requires members { ArePremises (protocol_of protocol.now) space.now members.now }
    requires once { AreEachOnce space.now members.now }
    ensures strikes { IfOk result (λ round. (I : List Model.Clause) → J.prepared judge.old premises.now (protocol_of protocol.now) I → AreRoundStrikes (J.class judge.old) (protocol_of protocol.now) I space.now members.now round.flags.items round.strikes.items) }
    ensures judge { J.judges judge.new (protocol_of protocol.now) }
    ensures same { J.class judge.new ≡ J.class judge.old }
    ensures premises { (premises : J.Premises) (I : List Model.Clause) → J.prepared judge.old premises (protocol_of protocol.now) I → J.prepared judge.new premises (protocol_of protocol.now) I }
{
    let mut round = Round {
        flags: vec![in alloc; false; members.len()]?,
        strikes: Vec::new(alloc),
    };
    for place in 0..members.len() {
        round.ask(alloc, judge, protocol, space, premises, members, place)?;
    }
    Ok(round)
}

/// A round: which members are struck, and by what.
#[derive(Drop)]
pub(crate) struct Round {
    pub flags: Vec<bool>,
    pub strikes: Vec<Strike>,
}

impl Round {
    ghost use Rattle.dai_weaken.specs.Strikes.{AreEachOnce, IsRoundTo};

    /// Asks of the member at this place, if it isn't struck yet.
    fn ask<J: Judge>(
        &mut self,
        alloc: Global,
        judge: &mut J,
        protocol: &Protocol,
        space: &Space,
        premises: &J::Premises,
        members: &[Clause],
        place: usize,
    ) -> Result<(), Spent>
        requires judge { J.judges judge.old (protocol_of protocol.now) }
        requires premises { (I : List Model.Clause) × J.prepared judge.old premises.now (protocol_of protocol.now) I }
        requires members { ArePremises (protocol_of protocol.now) space.now members.now }
        requires once { AreEachOnce space.now members.now }
        requires inside { place < length members.now }
        requires long { length self.old.flags.items ≡ length members.now }
        ensures asked { OnOk result ((I : List Model.Clause) → J.prepared judge.old premises.now (protocol_of protocol.now) I → IsRoundTo (J.class judge.old) (protocol_of protocol.now) I space.now members.now place self.old.flags.items self.old.strikes.items → IsRoundTo (J.class judge.old) (protocol_of protocol.now) I space.now members.now (place + 1) self.new.flags.items self.new.strikes.items) }
        ensures long { OnOk result (length self.new.flags.items ≡ length members.now) }
        ensures judge { J.judges judge.new (protocol_of protocol.now) }
        ensures same { J.class judge.new ≡ J.class judge.old }
        ensures premises { (premises : J.Premises) (I : List Model.Clause) → J.prepared judge.old premises (protocol_of protocol.now) I → J.prepared judge.new premises (protocol_of protocol.now) I }
    {
        if self.flags[place] {
            return Ok(());
        }
        let Some(by) = question(judge, protocol, space, premises, &members[place])? else {
            return Ok(());
        };
        let clauses = struck_by(alloc, space, &by.after, members, &mut self.flags)?;
        self.strikes.push(Strike { by, clauses })?;
        Ok(())
    }
}

/// What refutes the clause, if anything does.
fn question<J: Judge>(
    judge: &mut J,
    protocol: &Protocol,
    space: &Space,
    premises: &J::Premises,
    goal: &Clause,
) -> Result<Option<Counterexample>, Spent>
    requires judge { J.judges judge.old (protocol_of protocol.now) }
    requires premises { (I : List Model.Clause) × J.prepared judge.old premises.now (protocol_of protocol.now) I }
    requires goal { IsGoal (protocol_of protocol.now) space.now goal.now }
    ensures answer { IfOk result (λ answer. (I : List Model.Clause) → J.prepared judge.old premises.now (protocol_of protocol.now) I → Answers (J.class judge.old) (protocol_of protocol.now) I (clause_of space.now goal.now) answer) }
    ensures judge { J.judges judge.new (protocol_of protocol.now) }
    ensures same { J.class judge.new ≡ J.class judge.old }
    ensures premises { (premises : J.Premises) (I : List Model.Clause) → J.prepared judge.old premises (protocol_of protocol.now) I → J.prepared judge.new premises (protocol_of protocol.now) I }
{
    if let Some(first) = judge.initiation(protocol, space, goal)? {
        return Ok(Some(first));
    }
    for number in 0..protocol.actions.len() {
        if let Some(later) = judge.consecution(protocol, space, premises, number as u8, goal)? {
            return Ok(Some(later));
        }
    }
    Ok(None)
}

/// Strikes each clause that isn't struck yet and that the state doesn't meet. It answers those.
fn struck_by(
    alloc: Global,
    space: &Space,
    state: &Structure,
    members: &[Clause],
    struck: &mut Vec<bool>,
) -> Result<Vec<Clause>, Spent>
    requires members { IsStruckList space.now state.now members.now }
    requires long { length struck.old.items ≡ length members.now }
    ensures long { OnOk result (length struck.new.items ≡ length members.now) }
    ensures struck { IfOk result (λ clauses. AreStruckAfter space.now state.now members.now struck.old.items struck.new.items clauses.items) }
{
    let mut clauses = Vec::new(alloc);
    for (place, clause) in members.iter().enumerate() {
        strike_if_broken(space, state, clause, place, struck, &mut clauses)?;
    }
    Ok(clauses)
}

/// Strikes the member of this place, where it isn't struck yet and the state doesn't meet it.
fn strike_if_broken(
    space: &Space,
    state: &Structure,
    clause: &Clause,
    place: usize,
    struck: &mut Vec<bool>,
    clauses: &mut Vec<Clause>,
) -> Result<(), Spent>
    requires asked { IsAskedOf space.now clause.now state.now }
    requires inside { place < length struck.old.items }
    ensures { OnOk result (IsStruckOr space.now state.now clause.now place struck.old.items struck.new.items clauses.old.items clauses.new.items) }
{
    if struck[place] || space.meets(state, clause) {
        return Ok(());
    }
    struck[place] = true;
    clauses.push(clause.copy())?;
    Ok(())
}
