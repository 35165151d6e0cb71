//! Transitions that were shown, as answers to new questions.
ghost use Rattle.std.specs.Prelude.{◌≡◌, List, true, map, IfOk, IfSome};
ghost use Rattle.std.specs.List.{All};
ghost use Rattle.dai_model.specs.Classes.{Class};
ghost use Rattle.dai_model.specs.Protocol.{Protocol as Meaning};
ghost use Rattle.dai_model.specs.Clause as Model;
ghost use Rattle.dai_model.specs.WellSorted.{IsWellSorted, closed_scope};
ghost use Rattle.dai_logic.specs.Protocols.{protocol_of};
ghost use Rattle.dai_logic.specs.Trees.{formula_of};
ghost use Rattle.dai_template.specs.Spaces.{clause_of};
ghost use Rattle.dai_weaken.specs.Judging.{IsTransition};
ghost use Rattle.dai_weaken.specs.Questions.{IsGoal};
ghost use Rattle.dai_judge.specs.Premises.{AreFormulasOf};
ghost use Rattle.dai_judge.specs.Memory.{Breaks, IsCopyOf};

use crate::premises::Premises;
use dai_base::Spent;
use dai_ground::finding::first_unmet;
use dai_logic::{BlockId, Protocol, copy};
use dai_template::{Clause, Space};
use dai_weaken::Counterexample;
use std::alloc::Global;

/// What is asked: by which block a structure that meets the premises leads to one that breaks the goal.
#[derive(Drop)]
pub(crate) struct Question<'a> {
    pub alloc: Global,
    pub protocol: &'a Protocol,
    pub space: &'a Space,
    pub block: BlockId,
    pub premises: &'a Premises,
    pub goal: &'a Clause,
}

/// A copy of the counterexample.
pub(crate) fn copied(alloc: Global, x: &Counterexample) -> Result<Counterexample, Spent>
    ensures { IfOk result (IsCopyOf x.now) }
{
    Ok(Counterexample {
        block: x.block,
        before: copy(alloc, &x.before)?,
        args: Vec::from_slice(alloc, &x.args)?,
        choices: Vec::from_slice(alloc, &x.choices)?,
        after: copy(alloc, &x.after)?,
    })
}

/// Whether the transition answers the question.
fn answers(question: &Question, x: &Counterexample) -> Result<bool, Spent>
    requires transition { (C : Class) × IsTransition C (protocol_of question.now.protocol.now) x.now }
    requires goal { IsGoal (protocol_of question.now.protocol.now) question.now.space.now question.now.goal.now }
    requires premises { All (IsWellSorted (protocol_of question.now.protocol.now) closed_scope) (map formula_of question.now.premises.now.formulas.items) }
    ensures { IfOk result (λ told. told ≡ true → (C : Class) (I : List Model.Clause) → IsTransition C (protocol_of question.now.protocol.now) x.now → AreFormulasOf (protocol_of question.now.protocol.now) I (map formula_of question.now.premises.now.formulas.items) → Breaks C (protocol_of question.now.protocol.now) question.now.block I (clause_of question.now.space.now question.now.goal.now) x.now) }
{
    if x.block != question.block {
        return Ok(false);
    }
    if question.space.meets(&x.after, question.goal) {
        return Ok(false);
    }
    let unmet = first_unmet(
        question.alloc,
        question.protocol,
        question.premises.formulas.as_slice(),
        &x.before,
    )?;
    Ok(unmet.is_none())
}

/// A transition of those that were shown that answers the question.
pub(crate) fn recall(
    question: &Question,
    shown: &[Counterexample],
) -> Result<Option<Counterexample>, Spent>
    requires transitions { (C : Class) × All (IsTransition C (protocol_of question.now.protocol.now)) shown.now }
    requires goal { IsGoal (protocol_of question.now.protocol.now) question.now.space.now question.now.goal.now }
    requires premises { All (IsWellSorted (protocol_of question.now.protocol.now) closed_scope) (map formula_of question.now.premises.now.formulas.items) }
    ensures { IfOk result (λ answer. IfSome answer (λ x. (C : Class) (I : List Model.Clause) → All (IsTransition C (protocol_of question.now.protocol.now)) shown.now → AreFormulasOf (protocol_of question.now.protocol.now) I (map formula_of question.now.premises.now.formulas.items) → Breaks C (protocol_of question.now.protocol.now) question.now.block I (clause_of question.now.space.now question.now.goal.now) x)) }
{
    for x in shown {
        if answers(question, x)? {
            return Ok(Some(copied(question.alloc, x)?));
        }
    }
    Ok(None)
}
