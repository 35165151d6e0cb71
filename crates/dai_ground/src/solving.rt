//! Models of clauses, by the solver.
ghost use Rattle.std.specs.Prelude.{◌≡◌, [], IfOk};
ghost use Rattle.dai_trail.specs.Formula.{Formula};
ghost use Rattle.dai_sat.specs.Under.{IsOutcomeOf};
ghost use Rattle.dai_ground.specs.Turns.{IsSolution};

use dai_base::Spent;
use dai_sat::{Outcome, Solver};
use dai_trail::Cnf;
use std::alloc::Global;

/// Clauses, and an assignment that meets them, if there is one.
#[derive(Drop)]
pub(crate) struct Solved {
    pub cnf: Cnf,
    pub model: Option<Vec<bool>>,
}

/// The model of an outcome, if it is one.
fn model_of(outcome: Outcome) -> Option<Vec<bool>>
    ensures { (clauses : Formula) → IsOutcomeOf clauses [] outcome → IsSolution clauses result }
{
    match outcome {
        Outcome::Model(model) => Some(model),
        Outcome::Unsat(_) => None,
    }
}

/// Looks for an assignment that meets the clauses.
pub(crate) fn solve(alloc: Global, cnf: Cnf) -> Result<Solved, Spent>
    ensures same { IfOk result (λ s. s.cnf ≡ cnf) }
    ensures model { IfOk result (λ s. IsSolution cnf s.model) }
{
    let mut solver = Solver::new(alloc, cnf);
    let outcome = solver.solve_under(&[])?;
    let cnf = solver.into_formula();
    Ok(Solved {
        cnf,
        model: model_of(outcome),
    })
}
