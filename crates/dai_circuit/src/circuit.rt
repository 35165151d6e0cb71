ghost use Rattle.std.specs.Prelude.{◌≡◌, ◌+◌, ◌<◌, ◌++◌, ◌∷◌, [], List, Bool, true, false, IfOk, OnOk, OnErr};
ghost use Rattle.dai_trail.specs.Formula.{Formula, IsBelow, AreMetBy, formula_of, value_at};
ghost use Rattle.dai_trail.specs.declared.cnf.Lit.{Lit};
ghost use Rattle.dai_sat.specs.Under.{IsOutcomeOf};
ghost use Rattle.dai_circuit.specs.declared.bit.Bit.{Bit};
ghost use Rattle.dai_circuit.specs.Circuits.{AreBitsBelow, IsBitBelow, IsBitFor, Extends, Defines, Adds, Requires, IsTied, IsOver, bit_value, lit_value, same_value, all_value, any_value, all_true, variable, IsSolved, AreLiteralsOf};

use crate::bit::{Bit, opposite};
use crate::parts::{converse, has_known, literals, marked, negations, variables_of};
use dai_base::Spent;
use dai_sat::{Outcome, Solver};
use dai_trail::codes::MOST_VARS;
use dai_trail::{Cnf, Lit};
use std::alloc::Global;
use std::marker::Model;

/// What a question came to.
#[derive(Drop)]
pub enum Solved {
    /// An assignment of all variables that meets the formula and in which the bits are true.
    Model(Vec<bool>),
    /// Of each of the bits whether it is in a core: no assignment that meets the formula makes all bits of the core true.
    Core(Vec<bool>),
}

/// What an outcome says of the bits.
fn told_by(alloc: Global, vars: usize, parts: &[Bit], outcome: Outcome) -> Result<Solved, Spent>
    requires { (f : Formula) × (lits : List Lit) × (f.vars ≡ vars) × AreBitsBelow vars parts.now × AreLiteralsOf parts.now lits × IsOutcomeOf f lits outcome }
    ensures { IfOk result (λ answer. (f : Formula) (lits : List Lit) → IsOver f → AreBitsBelow f.vars parts.now → AreLiteralsOf parts.now lits → IsOutcomeOf f lits outcome → IsSolved f parts.now answer) }
{
    match outcome {
        Outcome::Model(model) => Ok(Solved::Model(model)),
        Outcome::Unsat(names) => {
            let marks = variables_of(alloc, vars, names.as_slice())?;
            Ok(Solved::Core(marked(alloc, parts, marks.as_slice())?))
        }
    }
}

/// A formula in conjunctive form that grows by definitions. A contract sees the formula. It is asked for models by one
/// solver, which keeps what it learned.
///
/// Each operation answers `Spent` where memory is wanting, where the formula would have more than 2^31 - 1
/// variables, and where its clauses together would have 2^32 literals. Definitions that were begun then stay,
/// which constrain nothing.
#[derive(Drop)]
pub struct Circuit {
    solver: Solver,
    alloc: Global,
}

impl Model for Circuit {
    ghost use Rattle.dai_trail.specs.Formula.{Formula};
    ghost use Rattle.dai_circuit.specs.Circuits.{IsOver};

    ghost Value = { Formula };

    ghost view = { λ c. c.solver };

    ghost invariant = { λ c. IsOver c.solver };
}

impl Circuit {
    /// The circuit with no variable and no clause. Takes no memory.
    pub fn new(alloc: Global) -> Circuit
        ensures { result ≡ formula_of 0 [] }
    {
        Circuit::over(alloc, Cnf::new(alloc, 0))
    }

    /// The formula of the circuit.
    pub fn formula(&self) -> &Cnf
        ensures { result.now ≡ self.now }
    {
        self.solver.formula()
    }

    /// The circuit of a formula, which may grow. Takes no memory.
    pub fn over(alloc: Global, cnf: Cnf) -> Circuit
        requires { IsOver cnf }
        ensures { result ≡ cnf }
    {
        Circuit {
            solver: Solver::new(alloc, cnf),
            alloc,
        }
    }

    /// The formula, without the circuit.
    pub fn into_formula(self) -> Cnf
        ensures same { result ≡ self }
        ensures over { IsOver result }
    {
        self.solver.into_formula()
    }

    /// Looks for an assignment that meets the formula and in which all these bits are true. A core comes exactly where
    /// there is none; it is what the solver's proof used of the bits.
    ///
    /// # Errors
    /// `Spent` where memory is wanting. The formula is as it was in each case.
    pub fn solve_under(&mut self, parts: &[Bit]) -> Result<Solved, Spent>
        requires { AreBitsBelow self.old.vars parts.now }
        ensures same { self.new ≡ self.old }
        ensures answer { IfOk result (IsSolved self.old parts.now) }
    {
        if has_known(parts, false) {
            return Ok(Solved::Core(marked(self.alloc, parts, &[])?));
        }
        let lits = literals(self.alloc, parts)?;
        let outcome = self.solver.solve_under(lits.as_slice())?;
        told_by(self.alloc, self.solver.formula().vars(), parts, outcome)
    }

    /// A new variable, which is free.
    fn fresh(&mut self) -> Result<usize, Spent>
        ensures ok { IfOk result (λ var. (var ≡ self.old.vars) × (self.new ≡ formula_of (self.old.vars + 1) self.old.clauses)) }
        ensures err { OnErr result (self.new ≡ self.old) }
        ensures over { IsOver self.old }
    {
        if self.solver.formula().vars() >= MOST_VARS {
            return Err(Spent);
        }
        Ok(self.solver.grow())
    }

    /// Adds a clause.
    fn add(&mut self, lits: &[Lit]) -> Result<(), Spent>
        requires { IsBelow self.old.vars lits.now }
        ensures ok { OnOk result (self.new ≡ formula_of self.old.vars (self.old.clauses ++ lits.now ∷ [])) }
        ensures err { OnErr result (self.new ≡ self.old) }
    {
        self.solver.add(lits)
    }

    /// The bit of a new variable, which is free.
    pub fn input(&mut self) -> Result<Bit, Spent>
        ensures ok { IfOk result (λ bit. (bit ≡ Bit.Is (variable self.old.vars)) × (self.new ≡ formula_of (self.old.vars + 1) self.old.clauses)) }
        ensures err { OnErr result (self.new ≡ self.old) }
        ensures extends { Extends self.old self.new }
    {
        let var = self.fresh()?;
        Ok(Bit::Is(Lit {
            var,
            positive: true,
        }))
    }

    /// Adds that a variable implies each literal.
    fn imply_each(&mut self, var: usize, lits: &[Lit]) -> Result<(), Spent>
        requires var { var < self.old.vars }
        requires lits { IsBelow self.old.vars lits.now }
        ensures adds { Adds self.old self.new (λ bits. value_at bits var ≡ all_true lits.now bits) }
        ensures ok { OnOk result ((bits : List Bool) → AreMetBy self.new bits → value_at bits var ≡ true → all_true lits.now bits ≡ true) }
    {
        for lit in lits {
            self.add(&[
                Lit {
                    var,
                    positive: false,
                },
                *lit,
            ])?;
        }
        Ok(())
    }

    /// Adds that all literals together imply a variable.
    fn imply_back(&mut self, var: usize, lits: &[Lit]) -> Result<(), Spent>
        requires var { var < self.old.vars }
        requires lits { IsBelow self.old.vars lits.now }
        ensures adds { Adds self.old self.new (λ bits. value_at bits var ≡ all_true lits.now bits) }
        ensures ok { OnOk result ((bits : List Bool) → AreMetBy self.new bits → all_true lits.now bits ≡ true → value_at bits var ≡ true) }
    {
        let clause = converse(self.alloc, var, lits)?;
        self.add(clause.as_slice())
    }

    /// Adds that a variable is true exactly where all literals are.
    fn tie_all(&mut self, var: usize, lits: &[Lit]) -> Result<(), Spent>
        requires var { var < self.old.vars }
        requires lits { IsBelow self.old.vars lits.now }
        ensures adds { Adds self.old self.new (λ bits. value_at bits var ≡ all_true lits.now bits) }
        ensures ok { OnOk result ((bits : List Bool) → AreMetBy self.new bits → value_at bits var ≡ all_true lits.now bits) }
    {
        self.imply_each(var, lits)?;
        self.imply_back(var, lits)
    }

    /// A new variable that is true exactly where all literals are.
    fn define_all(&mut self, lits: &[Lit]) -> Result<Bit, Spent>
        requires { IsBelow self.old.vars lits.now }
        ensures { Defines self.old self.new result (all_true lits.now) }
    {
        let var = self.fresh()?;
        self.tie_all(var, lits)?;
        Ok(Bit::Is(Lit {
            var,
            positive: true,
        }))
    }

    /// The bit that is true where all literals are.
    fn all_literals(&mut self, lits: &[Lit]) -> Result<Bit, Spent>
        requires { IsBelow self.old.vars lits.now }
        ensures { Defines self.old self.new result (all_true lits.now) }
    {
        match lits {
            [] => Ok(Bit::Known(true)),
            [lit] => Ok(Bit::Is(*lit)),
            _ => self.define_all(lits),
        }
    }

    /// The bit that is true where all these are; with none it is true.
    pub fn all(&mut self, parts: &[Bit]) -> Result<Bit, Spent>
        requires { AreBitsBelow self.old.vars parts.now }
        ensures { Defines self.old self.new result (all_value parts.now) }
    {
        if has_known(parts, false) {
            return Ok(Bit::Known(false));
        }
        let lits = literals(self.alloc, parts)?;
        self.all_literals(lits.as_slice())
    }

    /// The bit that is true where some of these is; with none it is false.
    pub fn any(&mut self, parts: &[Bit]) -> Result<Bit, Spent>
        requires { AreBitsBelow self.old.vars parts.now }
        ensures { Defines self.old self.new result (any_value parts.now) }
    {
        let negated = negations(self.alloc, parts)?;
        let none = self.all(negated.as_slice())?;
        Ok(none.negation())
    }

    /// Adds that a variable has the value of a literal unless another literal is true.
    fn tie_unless(&mut self, guard: Lit, var: usize, other: Lit) -> Result<(), Spent>
        requires guard { guard.var < self.old.vars }
        requires var { var < self.old.vars }
        requires other { other.var < self.old.vars }
        ensures adds { Adds self.old self.new (IsTied guard var other) }
        ensures ok { OnOk result ((bits : List Bool) → AreMetBy self.new bits → IsTied guard var other bits) }
    {
        let yes = Lit {
            var,
            positive: true,
        };
        self.add(&[guard, opposite(yes), other])?;
        self.add(&[guard, yes, opposite(other)])
    }

    /// Adds that a variable is true exactly where two literals have the same value.
    fn tie_same(&mut self, var: usize, first: Lit, second: Lit) -> Result<(), Spent>
        requires var { var < self.old.vars }
        requires first { first.var < self.old.vars }
        requires second { second.var < self.old.vars }
        ensures adds { Adds self.old self.new (λ bits. value_at bits var ≡ same_value (lit_value bits first) (lit_value bits second)) }
        ensures ok { OnOk result ((bits : List Bool) → AreMetBy self.new bits → value_at bits var ≡ same_value (lit_value bits first) (lit_value bits second)) }
    {
        self.tie_unless(opposite(first), var, second)?;
        self.tie_unless(first, var, opposite(second))
    }

    /// The bit that is true where two literals have the same value.
    fn same_literals(&mut self, first: Lit, second: Lit) -> Result<Bit, Spent>
        requires first { first.var < self.old.vars }
        requires second { second.var < self.old.vars }
        ensures { Defines self.old self.new result (λ bits. same_value (lit_value bits first) (lit_value bits second)) }
    {
        if first.var == second.var {
            return Ok(Bit::Known(first.positive == second.positive));
        }
        let var = self.fresh()?;
        self.tie_same(var, first, second)?;
        Ok(Bit::Is(Lit {
            var,
            positive: true,
        }))
    }

    /// The bit that is true where a literal and a bit have the same value.
    fn same_as_literal(&mut self, first: Lit, second: Bit) -> Result<Bit, Spent>
        requires first { first.var < self.old.vars }
        requires second { IsBitBelow self.old.vars second }
        ensures { Defines self.old self.new result (λ bits. same_value (lit_value bits first) (bit_value bits second)) }
    {
        match second {
            Bit::Known(value) => Ok(Bit::Is(first).signed(value)),
            Bit::Is(lit) => self.same_literals(first, lit),
        }
    }

    /// The bit that is true where two have the same value.
    pub fn same(&mut self, first: Bit, second: Bit) -> Result<Bit, Spent>
        requires first { IsBitBelow self.old.vars first }
        requires second { IsBitBelow self.old.vars second }
        ensures { Defines self.old self.new result (λ bits. same_value (bit_value bits first) (bit_value bits second)) }
    {
        match first {
            Bit::Known(value) => Ok(second.signed(value)),
            Bit::Is(lit) => self.same_as_literal(lit, second),
        }
    }

    /// Adds that some of these bits is true; with none the formula has no model any more.
    pub fn require(&mut self, parts: &[Bit]) -> Result<(), Spent>
        requires { AreBitsBelow self.old.vars parts.now }
        ensures ok { OnOk result (Requires self.old self.new parts.now) }
        ensures err { OnErr result (self.new ≡ self.old) }
    {
        if has_known(parts, true) {
            return Ok(());
        }
        let clause = literals(self.alloc, parts)?;
        self.add(clause.as_slice())
    }
}
