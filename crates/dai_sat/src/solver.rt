ghost use Rattle.std.specs.Prelude.{◌≡◌, ◌+◌, ◌<◌, ◌≤◌, ◌^◌, ◌++◌, ◌∷◌, [], IfOk, OnOk, OnErr};
ghost use Rattle.dai_trail.specs.Formula.{IsBelow, formula_of};
ghost use Rattle.dai_sat.specs.Under.{IsOutcomeOf};

use crate::answer::Outcome;
use crate::desk::Desk;
use crate::question::answer_under;
use dai_base::Spent;
use dai_trail::cnf::{Cnf, Lit};
use dai_trail::lists::Lists;
use dai_trail::trail::Trail;
use std::alloc::Global;
use std::marker::Model;

/// A solver that is asked again and again: clauses are added at any time, what it learned stays, and each
/// question has assumptions of its own. A contract sees its formula alone.
#[derive(Drop)]
pub struct Solver {
    alloc: Global,
    cnf: Cnf,
    learned: Lists<u32>,
    trail: Trail,
    desk: Desk,
    /// Whether the formula was found to have no model.
    refuted: bool,
}

impl Model for Solver {
    ghost use Rattle.dai_trail.specs.Formula.{Formula};
    ghost use Rattle.dai_sat.specs.Under.{IsReady};

    ghost Value = { Formula };

    ghost view = { λ s. s.cnf };

    ghost invariant = { λ s. IsReady s.cnf s.learned s.trail s.desk.marks s.refuted };
}

impl Solver {
    /// The solver of a formula, which may grow. Takes no memory.
    pub fn new(alloc: Global, cnf: Cnf) -> Solver
        ensures { result ≡ cnf }
    {
        Solver {
            alloc,
            cnf,
            learned: Lists::new(alloc),
            trail: Trail::new(alloc),
            desk: Desk::new(alloc),
            refuted: false,
        }
    }

    /// The formula.
    pub fn formula(&self) -> &Cnf
        ensures { result.now ≡ self.now }
    {
        &self.cnf
    }

    /// The formula, without the solver.
    pub fn into_formula(self) -> Cnf
        ensures { result ≡ self }
    {
        self.cnf
    }

    /// How many literals were propagated so far. No clause speaks of it.
    pub fn propagations(&self) -> u64 {
        self.desk.propagations
    }

    /// Adds a variable and answers its number. Takes no memory.
    pub fn grow(&mut self) -> usize
        requires { self.old.vars + 1 < 2 ^ 64 }
        ensures answer { result ≡ self.old.vars }
        ensures grown { self.new ≡ formula_of (self.old.vars + 1) self.old.clauses }
    {
        self.cnf.grow()
    }

    /// Adds a clause, as `Cnf::add` does.
    ///
    /// # Errors
    /// `Spent` as `Cnf::add` has it. The value is then as it was.
    pub fn add(&mut self, lits: &[Lit]) -> Result<(), Spent>
        requires { IsBelow self.old.vars lits.now }
        ensures ok { OnOk result (self.new ≡ formula_of self.old.vars (self.old.clauses ++ lits.now ∷ [])) }
        ensures err { OnErr result (self.new ≡ self.old) }
    {
        self.cnf.add(lits)
    }

    /// Looks for an assignment that meets all clauses and all assumptions: `Model` with any such one, and
    /// `Unsat` exactly where there is none, with some of the assumptions with which alone there is none. It
    /// decides the assumptions first (Eén and Sörensson, 2003), then the most active variable, learns from
    /// each conflict, and restarts fewer than 2^64 times.
    ///
    /// # Errors
    /// `Spent` where memory is wanting; the tables have room for 2^31 - 1 variables and clauses. The formula
    /// is then as it was, and what was learned is forgotten.
    pub fn solve_under(&mut self, assumptions: &[Lit]) -> Result<Outcome, Spent>
        requires { IsBelow self.old.vars assumptions.now }
        ensures same { self.new ≡ self.old }
        ensures answer { IfOk result (IsOutcomeOf self.old assumptions.now) }
    {
        let answer = answer_under(
            self.alloc,
            &self.cnf,
            &mut self.learned,
            &mut self.desk,
            &mut self.trail,
            &mut self.refuted,
            assumptions,
        );
        if answer.is_err() {
            self.learned = Lists::new(self.alloc);
            self.desk = Desk::new(self.alloc);
            self.trail = Trail::new(self.alloc);
            self.refuted = false;
        }
        answer
    }
}
