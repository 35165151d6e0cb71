//! Which invariants don't follow.
ghost use Rattle.std.specs.Prelude.{◌≡◌, IfOk, OnOk, List};
ghost use Rattle.dai_model.specs.Clause as Model;
ghost use Rattle.dai_model.specs.Template.{Bounds};
ghost use Rattle.dai_model.specs.Answer.{AreMissing};
ghost use Rattle.dai_model.specs.WellSorted.{IsWellSorted, closed_scope};
ghost use Rattle.dai_logic.specs.Protocols.{protocol_of};
ghost use Rattle.dai_logic.specs.Trees.{formula_of};
ghost use Rattle.dai_weaken.specs.Weakening.{IsAnswered};
ghost use Rattle.dai_weaken.specs.Judging.{Follows};
ghost use Rattle.dai_weaken.specs.Missing.{AddsMissing};

use crate::judge::Judge;
use dai_base::Spent;
use dai_logic::{Formula, Protocol};
use dai_order::Antichain;
use dai_template::Space;
use std::alloc::Global;

/// The numbers of the invariants that don't follow from the clauses that are left, in the order of the file.
pub fn missing<J: Judge>(
    alloc: Global,
    judge: &mut J,
    protocol: &Protocol,
    space: &Space,
    kept: &Antichain,
) -> Result<Vec<u32>, Spent>
    requires judge { J.judges judge.old (protocol_of protocol.now) }
    requires answered { (B : Bounds) × IsAnswered (J.class judge.old) (protocol_of protocol.now) B space.now kept.now.clauses.items }
    ensures missing { IfOk result (λ numbers. (B : Bounds) → IsAnswered (J.class judge.old) (protocol_of protocol.now) B space.now kept.now.clauses.items → AreMissing (J.class judge.old) (protocol_of protocol.now) B numbers.items) }
    ensures judge { J.judges judge.new (protocol_of protocol.now) }
    ensures same { J.class judge.new ≡ J.class judge.old }
{
    let premises = judge.prepare(protocol, space, kept.clauses())?;
    let mut numbers = Vec::new(alloc);
    for (number, invariant) in protocol.invariants.iter().enumerate() {
        let number = number as u32;
        add_missing(
            judge,
            protocol,
            &premises,
            number,
            &invariant.body,
            &mut numbers,
        )?;
    }
    Ok(numbers)
}

/// Adds the number of the formula, if it doesn't follow from the premises.
fn add_missing<J: Judge>(
    judge: &mut J,
    protocol: &Protocol,
    premises: &J::Premises,
    number: u32,
    formula: &Formula,
    numbers: &mut Vec<u32>,
) -> Result<(), Spent>
    requires judge { J.judges judge.old (protocol_of protocol.now) }
    requires premises { (I : List Model.Clause) × J.prepared judge.old premises.now (protocol_of protocol.now) I }
    requires closed { IsWellSorted (protocol_of protocol.now) closed_scope (formula_of formula.now) }
    ensures added { OnOk result ((I : List Model.Clause) → J.prepared judge.old premises.now (protocol_of protocol.now) I → AddsMissing (Follows (J.class judge.old) (protocol_of protocol.now) I (formula_of formula.now)) number numbers.old.items numbers.new.items) }
    ensures judge { J.judges judge.new (protocol_of protocol.now) }
    ensures same { J.class judge.new ≡ J.class judge.old }
    ensures premises { (premises : J.Premises) (I : List Model.Clause) → J.prepared judge.old premises (protocol_of protocol.now) I → J.prepared judge.new premises (protocol_of protocol.now) I }
{
    if judge.entailed(protocol, premises, formula)? {
        return Ok(());
    }
    numbers.push(number)?;
    Ok(())
}
