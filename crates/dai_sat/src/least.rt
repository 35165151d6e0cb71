ghost use Rattle.std.specs.Prelude.{◌≡◌, ◌<◌, ◌≤◌, ℕ, length, IfOk, OnOk};
ghost use Rattle.dai_trail.specs.Trail.{IsSound, KeepsDecisions, IsGuided, IsOrdered, value_in, rank_of};
ghost use Rattle.dai_trail.specs.Marks.{AreStamps};
ghost use Rattle.dai_sat.specs.Answers.{IsAnswerTo, IsStepOf};

use crate::answer::Answer;
use crate::desk::Desk;
use crate::entry::prepare;
use crate::guide::Guide;
use crate::model::full_model;
use crate::step::{Move, advance, decide, turn};
use dai_base::Spent;
use dai_trail::cnf::Cnf;
use dai_trail::codes::{MOST_VARS, code_of};
use dai_trail::lists::Lists;
use dai_trail::trail::Trail;
use std::alloc::Global;

/// Gives the first free variable its preferred value.
fn prefer<F: Fn(usize) -> bool>(
    cnf: &Cnf,
    learned: &Lists<u32>,
    guide: &Guide<F>,
    levels: &mut Vec<usize>,
    trail: &mut Trail,
    var: usize,
) -> Result<(), Spent>
    requires callable { F.pre guide.now.phase var }
    requires sound { IsSound cnf.now learned.now trail.old }
    requires guided { IsGuided (λ v b. F.post guide.now.phase v b) trail.old }
    requires ordered { IsOrdered trail.old }
    requires most { length trail.old.values.items ≤ MOST_VARS }
    requires within { var < length trail.old.values.items }
    requires free { 2 ≤ value_in trail.old var }
    requires first { (u : ℕ) → u < var → value_in trail.old u < 2 }
    ensures sound { OnOk result (IsSound cnf.now learned.now trail.new) }
    ensures guided { OnOk result (IsGuided (λ v b. F.post guide.now.phase v b) trail.new) }
    ensures ordered { OnOk result (IsOrdered trail.new) }
    ensures room { OnOk result (length trail.new.values.items ≡ length trail.old.values.items) }
    ensures rank { OnOk result (rank_of trail.new < rank_of trail.old) }
{
    let code = code_of(var, guide.prefers(var));
    decide(cnf, learned, levels, trail, code)?;
    Ok(())
}

/// What the next step of the search for the least model is.
enum Step {
    /// The conflict was answered.
    Again,
    /// The first free variable wants a value.
    Decide(usize),
    /// All variables have a value, and each clause is met.
    Found(Vec<bool>),
    /// The formula has no model.
    Unsat,
}

/// Propagates, answers a conflict where there is one, and looks for the first free variable otherwise.
fn next_step(
    alloc: Global,
    cnf: &Cnf,
    learned: &mut Lists<u32>,
    desk: &mut Desk,
    trail: &mut Trail,
) -> Result<Step, Spent>
    requires sound { IsSound cnf.now learned.old trail.old }
    requires stamps { AreStamps desk.old.marks (length trail.old.values.items) }
    requires room { length trail.old.values.items ≡ cnf.now.vars }
    ensures sound { OnOk result (IsSound cnf.now learned.new trail.new) }
    ensures stamps { OnOk result (AreStamps desk.new.marks (length trail.old.values.items)) }
    ensures kept { OnOk result (KeepsDecisions trail.old trail.new) }
    ensures step { IfOk result (IsStepOf cnf.now trail.old trail.new) }
{
    match advance(alloc, cnf, learned, desk, trail)? {
        Move::Again => {
            desk.uses.thin(cnf, &mut desk.watches);
            return Ok(Step::Again);
        }
        Move::Unsat => return Ok(Step::Unsat),
        Move::Quiet => {}
    }
    if let Some(var) = trail.first_free() {
        return Ok(Step::Decide(var));
    }
    if let Some(bits) = full_model(alloc, cnf, learned, trail)? {
        return Ok(Step::Found(bits));
    }
    if turn(cnf, learned, desk, trail)? {
        Ok(Step::Again)
    } else {
        Ok(Step::Unsat)
    }
}

/// An answer, and how many literals were propagated for it.
#[derive(Drop)]
pub struct Solved {
    pub answer: Answer,
    pub propagations: u64,
}

/// Looks for the least model of the formula under the preferences of the guide, as `solve` does, and counts
/// its work. No clause speaks of the count.
///
/// # Errors
/// `Spent` where memory is wanting; the tables have room for 2^31 - 1 variables and clauses.
pub fn solve_counted<F: Fn(usize) -> bool>(
    alloc: Global,
    cnf: &Cnf,
    guide: &Guide<F>,
) -> Result<Solved, Spent>
    requires count { guide.now.count ≡ cnf.now.vars }
    requires callable { (v : ℕ) → v < guide.now.count → F.pre guide.now.phase v }
    ensures { IfOk result (λ s. IsAnswerTo cnf.now (λ v b. F.post guide.now.phase v b) s.answer) }
{
    if cnf.vars() > MOST_VARS {
        return Err(Spent);
    }
    let mut learned = Lists::new(alloc);
    let mut trail = Trail::new(alloc);
    let mut desk = Desk::new(alloc);
    if prepare(alloc, cnf, &learned, &mut desk, &mut trail)? {
        return Ok(Solved {
            answer: Answer::Unsat,
            propagations: 0,
        });
    }
    loop {
        match next_step(alloc, cnf, &mut learned, &mut desk, &mut trail)? {
            Step::Again => {}
            Step::Decide(var) => prefer(cnf, &learned, guide, &mut desk.levels, &mut trail, var)?,
            Step::Found(bits) => {
                return Ok(Solved {
                    answer: Answer::Model(bits),
                    propagations: desk.propagations,
                });
            }
            Step::Unsat => {
                return Ok(Solved {
                    answer: Answer::Unsat,
                    propagations: desk.propagations,
                });
            }
        }
    }
}

/// Looks for the least model of the formula under the preferences of the guide: `Model` with the
/// assignment that meets each clause and, compared with any other, has the preferred value at the first
/// variable where the two differ; `Unsat` exactly where no assignment meets the clauses. It decides the
/// first free variable, learns from each conflict and never restarts (Marques-Silva and Sakallah, 1996).
///
/// # Errors
/// `Spent` where memory is wanting; the tables have room for 2^31 - 1 variables and clauses.
pub fn solve<F: Fn(usize) -> bool>(
    alloc: Global,
    cnf: &Cnf,
    guide: &Guide<F>,
) -> Result<Answer, Spent>
    requires count { guide.now.count ≡ cnf.now.vars }
    requires callable { (v : ℕ) → v < guide.now.count → F.pre guide.now.phase v }
    ensures { IfOk result (IsAnswerTo cnf.now (λ v b. F.post guide.now.phase v b)) }
{
    Ok(solve_counted(alloc, cnf, guide)?.answer)
}
