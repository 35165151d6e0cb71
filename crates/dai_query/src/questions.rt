//! Questions about structures of all sizes.
ghost use Rattle.std.specs.Prelude.{◌≡◌, ◌<◌, [], Some, None, IfOk, length, map, slice_get};
ghost use Rattle.std.specs.List.{All};
ghost use Rattle.dai_model.specs.Protocol.{Action as Meaning};
ghost use Rattle.dai_model.specs.Sizes.{needed_for_block, needed_for_implied};
ghost use Rattle.dai_model.specs.Classes.{all_sizes};
ghost use Rattle.dai_cut.specs.Small.{AreEnough, IsTrueAfter, IsTrueAtFirst, IsTrueGiven, IsUniversalClaim, bound_counts};
ghost use Rattle.dai_logic.specs.Protocols.{protocol_of};
ghost use Rattle.dai_logic.specs.Trees.{formula_of};
ghost use Rattle.dai_query.specs.Verdicts.{Decides, IsRefutation, verdict_of};

use crate::verdict::Verdict;
use dai_base::Spent;
use dai_ground::asking::ask;
use dai_ground::found::Answer;
use dai_logic::{BlockId, Formula, Protocol};
use std::alloc::Global;

/// Whether the goal is true in every initial state, at every size. It is closed and universal in force, and each type
/// is given at least the size that the question needs.
///
/// # Errors
/// `Spent` where memory is wanting, and where there are too many variables or clauses for a formula.
pub fn initiation(
    alloc: Global,
    protocol: &Protocol,
    sizes: &[u16],
    goal: &Formula,
) -> Result<Verdict, Spent>
    requires goal { IsUniversalClaim (protocol_of protocol.now) (formula_of goal.now) }
    requires enough { let P = protocol_of protocol.now in AreEnough P (needed_for_block P P.init (bound_counts P (formula_of goal.now))) sizes.now }
    ensures { let P = protocol_of protocol.now in
        IfOk result (Decides (IsTrueAtFirst all_sizes P (formula_of goal.now)) (IsRefutation P (Some P.init) [] (formula_of goal.now))) }
{
    let premises = Vec::new(alloc);
    let init = Some(BlockId::Init);
    let answer = ask(alloc, protocol, init, &premises, goal, sizes)?;
    Ok(verdict(answer))
}

/// Whether each step by the action of this number, at every size, leads from a structure that meets the axioms and the
/// premises to one in which the goal is true. Premises and goal are closed and universal in force, and each type is
/// given at least the size that the question needs.
///
/// # Errors
/// `Spent` where memory is wanting, and where there are too many variables or clauses for a formula.
pub fn consecution(
    alloc: Global,
    protocol: &Protocol,
    action: u8,
    sizes: &[u16],
    premises: &[Formula],
    goal: &Formula,
) -> Result<Verdict, Spent>
    requires action { action < length (protocol_of protocol.now).actions }
    requires premises { All (IsUniversalClaim (protocol_of protocol.now)) (map formula_of premises.now) }
    requires goal { IsUniversalClaim (protocol_of protocol.now) (formula_of goal.now) }
    requires enough { (exported : Meaning) → slice_get (protocol_of protocol.now).actions action ≡ Some exported → let P = protocol_of protocol.now in AreEnough P (needed_for_block P exported.block (bound_counts P (formula_of goal.now))) sizes.now }
    ensures { IfOk result (λ verdict. (exported : Meaning) → slice_get (protocol_of protocol.now).actions action ≡ Some exported →
        let P = protocol_of protocol.now in
        Decides (IsTrueAfter all_sizes P (map formula_of premises.now) exported.block (formula_of goal.now)) (IsRefutation P (Some exported.block) (map formula_of premises.now) (formula_of goal.now)) verdict) }
{
    let by_action = Some(BlockId::Act(action));
    let answer = ask(alloc, protocol, by_action, premises, goal, sizes)?;
    Ok(verdict(answer))
}

/// Whether the goal is true, at every size, in each structure that meets the axioms and the premises. Premises and goal
/// are closed and universal in force, and each type is given at least the size that the question needs.
///
/// # Errors
/// `Spent` where memory is wanting, and where there are too many variables or clauses for a formula.
pub fn implied(
    alloc: Global,
    protocol: &Protocol,
    sizes: &[u16],
    premises: &[Formula],
    goal: &Formula,
) -> Result<Verdict, Spent>
    requires premises { All (IsUniversalClaim (protocol_of protocol.now)) (map formula_of premises.now) }
    requires goal { IsUniversalClaim (protocol_of protocol.now) (formula_of goal.now) }
    requires enough { let P = protocol_of protocol.now in AreEnough P (needed_for_implied P (bound_counts P (formula_of goal.now))) sizes.now }
    ensures { let P = protocol_of protocol.now in
        IfOk result (Decides (IsTrueGiven all_sizes P (map formula_of premises.now) (formula_of goal.now)) (IsRefutation P None (map formula_of premises.now) (formula_of goal.now))) }
{
    let answer = ask(alloc, protocol, None, premises, goal, sizes)?;
    Ok(verdict(answer))
}

/// What an answer at enough sizes says of all.
fn verdict(answer: Answer) -> Verdict
    ensures { result ≡ verdict_of answer }
{
    match answer {
        Answer::Holds(_) => Verdict::Proved,
        Answer::Broken(found) => Verdict::Counter(found),
    }
}
