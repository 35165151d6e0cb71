//! The rounds and the questions of a way down.
ghost use Rattle.std.specs.Prelude.{◌≡◌, ◌≤◌, length, vec_len};
ghost use Rattle.std.specs.List.{All};
ghost use Rattle.dai_logic.specs.Protocols.{protocol_of};
ghost use Rattle.dai_model.specs.Template.{Bounds};
ghost use Rattle.dai_table.specs.Flags.{IsTableOf};
ghost use Rattle.dai_template.specs.Spaces.{IsSpaceOf};

use crate::counted::Counted;
use dai_base::Spent;
use dai_inquiry::by_block::Tally as SolverTally;
use dai_judge::SizedJudge;
use dai_logic::Protocol;
use dai_query::bounds;
use dai_table::{MOST_FLAGS, TruthTable};
use dai_template::{Space, SpaceError};
use dai_weaken::{everything, greatest};
use std::alloc::Global;

/// How many rounds there were, how many questions in all, and what they took where the solver was asked.
#[derive(Clone, Copy)]
pub struct Tally {
    pub rounds: u64,
    pub questions: u64,
    pub solver: Option<SolverTally>,
}

/// The tally of the way down from the one clause that is below all others, where clauses have at most so many
/// variables of each type and so many literals. `None` where a limit of the space is passed.
///
/// The judge is the one that `infer` asks: the truth table where there is no type and there are at most ten flags,
/// and else the solver.
pub fn tally_of(
    alloc: Global,
    protocol: &Protocol,
    vars: &[u8],
    literals: u8,
) -> Result<Option<Tally>, Spent>
    requires each { length vars.now ≡ vec_len protocol.now.sorts }
    requires variables { All (λ bound. bound ≤ 4) vars.now }
    requires literals { literals ≤ 8 }
{
    match Space::new(alloc, protocol, vars, literals) {
        Ok(space) => {
            if protocol.sorts.is_empty() && protocol.relations.len() <= MOST_FLAGS {
                return Ok(Some(tabulated(alloc, protocol, &space)?));
            }
            Ok(Some(solved(alloc, protocol, &space, vars)?))
        }
        Err(SpaceError::Spent) => Err(Spent),
        Err(_) => Ok(None),
    }
}

/// The tally of the way down by the truth table.
fn tabulated(alloc: Global, protocol: &Protocol, space: &Space) -> Result<Tally, Spent>
    requires table { IsTableOf (protocol_of protocol.now) }
    requires space { (B : Bounds) × IsSpaceOf (protocol_of protocol.now) B space.now }
{
    let mut counted = Counted::new(TruthTable::new(alloc, protocol)?);
    let start = everything(alloc, space)?;
    let _weakened = greatest(alloc, &mut counted, protocol, space, start)?;
    Ok(Tally {
        rounds: counted.rounds,
        questions: counted.questions,
        solver: None,
    })
}

/// The tally of the way down by the solver.
fn solved(alloc: Global, protocol: &Protocol, space: &Space, vars: &[u8]) -> Result<Tally, Spent>
    requires each { length vars.now ≡ vec_len protocol.now.sorts }
    requires space { (B : Bounds) × IsSpaceOf (protocol_of protocol.now) B space.now }
{
    let sizes = bounds(alloc, protocol, vars)?;
    let mut counted = Counted::new(SizedJudge::new(alloc, &sizes)?);
    let start = everything(alloc, space)?;
    let _weakened = greatest(alloc, &mut counted, protocol, space, start)?;
    let solver = counted.judge.tally()?;
    Ok(Tally {
        rounds: counted.rounds,
        questions: counted.questions,
        solver: Some(solver),
    })
}
