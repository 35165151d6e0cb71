//! Questions with premises.
ghost use Rattle.std.specs.Prelude.{◌<◌, ◌≡◌, ℕ, List, IfOk, length, map};
ghost use Rattle.std.specs.List.{All};
ghost use Rattle.dai_model.specs.Formula as Model;
ghost use Rattle.dai_model.specs.WellSorted.{IsWellSorted, closed_scope};
ghost use Rattle.dai_logic.specs.Protocols.{protocol_of};
ghost use Rattle.dai_logic.specs.Trees.{formula_of};
ghost use Rattle.dai_ground.specs.Asking.{IsKnown, block_asked};
ghost use Rattle.dai_ground.specs.Answers.{IsAnswerTo};
ghost use Rattle.dai_ground.specs.Turns.{IsTurn, IsOpenQuestion};

use crate::finding::first_unmet;
use crate::found::{Answer, Found};
use crate::question::ground_wide;
use crate::solving::{Solved, solve};
use crate::wide::Wide;
use dai_base::Spent;
use dai_logic::{BlockId, Formula, Protocol};
use std::alloc::Global;

/// Nothing is found with the premises so far; or something that meets all premises; or the question with the premise
/// of this number.
#[derive(Drop)]
enum Turn {
    Done,
    Shown(Found),
    Again(usize, Wide),
}

/// One turn: a model of the clauses is decoded, and where the structure doesn't meet a premise, the clauses get it.
fn take_turn(
    alloc: Global,
    protocol: &Protocol,
    block: Option<BlockId>,
    premises: &[Formula],
    wide: Wide,
) -> Result<Turn, Spent>
    requires known { IsKnown (protocol_of protocol.now) block }
    requires premises { All (IsWellSorted (protocol_of protocol.now) closed_scope) (map formula_of premises.now) }
    requires question { (used : List Model.Formula) × (f : Model.Formula) × (sizes : List ℕ) × IsOpenQuestion (protocol_of protocol.now) (block_asked (protocol_of protocol.now) block) used f sizes wide }
    ensures { IfOk result (λ t. (used : List Model.Formula) (f : Model.Formula) (sizes : List ℕ) → IsOpenQuestion (protocol_of protocol.now) (block_asked (protocol_of protocol.now) block) used f sizes wide → IsTurn (protocol_of protocol.now) (block_asked (protocol_of protocol.now) block) (map formula_of premises.now) used f sizes t) }
{
    let Wide {
        cnf,
        bits,
        frame,
        picture,
    } = wide;
    let Solved { cnf, model } = solve(alloc, cnf)?;
    let Some(model) = model else {
        return Ok(Turn::Done);
    };
    let mut wide = Wide {
        cnf,
        bits,
        frame,
        picture,
    };
    let found = wide.decode(alloc, protocol, block, model.as_slice())?;
    match first_unmet(alloc, protocol, premises, &found.before)? {
        None => Ok(Turn::Shown(found)),
        Some(number) => {
            wide.add(alloc, protocol, &premises[number])?;
            Ok(Turn::Again(number, wide))
        }
    }
}

/// Looks, among all structures with at most so many elements of each type, for one that meets the axioms and the
/// premises and from which the block leads to one in which the formula is false; without a block, for one in which it
/// is false. `Holds` comes exactly where there is no such structure, and then there is none either that meets the
/// premises of the numbers which it names. The formulas are closed. There is one size of at least 1 for each type.
///
/// A premise is grounded once a structure that doesn't meet it has been shown.
///
/// # Errors
/// `Spent` where memory is wanting, and where there are too many variables or clauses for a formula.
pub fn ask(
    alloc: Global,
    protocol: &Protocol,
    block: Option<BlockId>,
    premises: &[Formula],
    broken: &Formula,
    sizes: &[u16],
) -> Result<Answer, Spent>
    requires known { IsKnown (protocol_of protocol.now) block }
    requires premises { All (IsWellSorted (protocol_of protocol.now) closed_scope) (map formula_of premises.now) }
    requires closed { IsWellSorted (protocol_of protocol.now) closed_scope (formula_of broken.now) }
    requires one_each { length sizes.now ≡ length (protocol_of protocol.now).sorts }
    requires inhabited { All (λ n. 0 < n) sizes.now }
    ensures { IfOk result (IsAnswerTo (protocol_of protocol.now) (block_asked (protocol_of protocol.now) block) (map formula_of premises.now) (formula_of broken.now) sizes.now) }
{
    let mut wide = ground_wide(alloc, protocol, block, Some(broken), sizes)?;
    let mut used = Vec::new(alloc);
    for _turn in 0..u64::MAX {
        match take_turn(alloc, protocol, block, premises, wide)? {
            Turn::Done => return Ok(Answer::Holds(used)),
            Turn::Shown(found) => return Ok(Answer::Broken(found)),
            Turn::Again(number, next) => {
                used.push(number)?;
                wide = next;
            }
        }
    }
    Err(Spent)
}
