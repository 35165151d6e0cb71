ghost use Rattle.std.specs.Prelude.{◌≡◌, IfOk};
ghost use Rattle.dai_dimacs.specs.Pieces.{lines};
ghost use Rattle.dai_dimacs.specs.Reports.{IsLeastAnswerTo, IsAnyAnswerTo};
ghost use Rattle.dai_dimacs.specs.Judgements.{IsRight};

use crate::read::{Reading, read};
use crate::report::{Report, report_of};
use dai_base::Spent;
use dai_sat::{Answer, Cnf, Guide, Outcome, Solved, Solver, solve_counted};
use std::alloc::Global;

/// A formula that was read, and the report on it.
#[derive(Drop)]
pub struct Judgement {
    pub cnf: Cnf,
    pub report: Report,
}

/// What a file comes to: its judgement, or the number of the line that is wrong.
#[derive(Drop)]
pub enum Verdict {
    Judged(Judgement),
    Malformed(usize),
}

/// Reads a file and reports the least model of its formula, where a false variable counts as less, or that
/// there is none.
pub fn judge(alloc: Global, bytes: &[u8]) -> Result<Verdict, Spent>
    ensures { IfOk result (IsRight IsLeastAnswerTo (lines bytes.now)) }
{
    match read(alloc, bytes)? {
        Reading::Malformed(line) => Ok(Verdict::Malformed(line)),
        Reading::Formula(cnf) => {
            let solved = solve_counted(alloc, &cnf, &Guide::new(cnf.vars(), |_| false))?;
            let report = report_of(alloc, &solved)?;
            Ok(Verdict::Judged(Judgement { cnf, report }))
        }
    }
}

/// Any model of the solver's formula, or that there is none.
fn solve_any(solver: &mut Solver) -> Result<Solved, Spent>
    ensures same { solver.new ≡ solver.old }
    ensures answer { IfOk result (λ s. IsAnyAnswerTo solver.old s.answer) }
{
    let answer = match solver.solve_under(&[])? {
        Outcome::Model(bits) => Answer::Model(bits),
        Outcome::Unsat(_) => Answer::Unsat,
    };
    Ok(Solved {
        answer,
        propagations: solver.propagations(),
    })
}

/// Reads a file and reports any model of its formula, or that there is none.
pub fn judge_any(alloc: Global, bytes: &[u8]) -> Result<Verdict, Spent>
    ensures { IfOk result (IsRight IsAnyAnswerTo (lines bytes.now)) }
{
    match read(alloc, bytes)? {
        Reading::Malformed(line) => Ok(Verdict::Malformed(line)),
        Reading::Formula(cnf) => {
            let mut solver = Solver::new(alloc, cnf);
            let solved = solve_any(&mut solver)?;
            let report = report_of(alloc, &solved)?;
            Ok(Verdict::Judged(Judgement {
                cnf: solver.into_formula(),
                report,
            }))
        }
    }
}
