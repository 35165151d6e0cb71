ghost use Rattle.std.specs.Prelude.{◌≡◌, ◌+◌, ◌<◌, ◌^◌, ◌++◌, ◌∷◌, [], length, OnOk, OnErr};
ghost use Rattle.dai_trail.specs.Formula.{IsBelow, formula_of};

use crate::codes::encode;
use crate::lists::Lists;
use dai_base::Spent;
use std::alloc::Global;
use std::marker::Model;

/// A variable that is wanted true, or false.
#[derive(Clone, Copy, Debug, PartialEq, Eq)]
pub struct Lit {
    pub var: usize,
    pub positive: bool,
}

/// A formula in conjunctive form. A contract sees its number of variables and the list of its clauses,
/// each a list of literals.
#[derive(Drop)]
pub struct Cnf {
    count: usize,
    /// The literals of each clause as numbers.
    lists: Lists<u32>,
    /// The clause that is being added.
    draft: Vec<u32>,
}

impl Model for Cnf {
    ghost use Rattle.std.specs.Prelude.{map};
    ghost use Rattle.dai_trail.specs.Formula.{Formula, formula_of};
    ghost use Rattle.dai_trail.specs.Codes.{lit_of, AreBelow};

    ghost Value = { Formula };

    ghost view = { λ c. formula_of c.count (map (map lit_of) c.lists) };

    ghost invariant = { λ c. AreBelow c.count c.lists };
}

impl Cnf {
    ghost use Rattle.dai_trail.specs.Codes.{AreCodesOf};

    /// The formula of this many variables with no clause. Takes no memory.
    pub fn new(alloc: Global, vars: usize) -> Cnf
        ensures { result ≡ formula_of vars [] }
    {
        Cnf {
            count: vars,
            lists: Lists::new(alloc),
            draft: Vec::new(alloc),
        }
    }

    /// Adds a variable and answers its number. Takes no memory.
    pub fn grow(&mut self) -> usize
        requires { self.old.vars + 1 < 2 ^ 64 }
        ensures answer { result ≡ self.old.vars }
        ensures grown { self.new ≡ formula_of (self.old.vars + 1) self.old.clauses }
    {
        let var = self.count;
        self.count += 1;
        var
    }

    /// Adds a clause: any list of literals, also an empty one, one with a literal twice, or one with a
    /// literal and its negation.
    ///
    /// # Errors
    /// `Spent` where memory is wanting, where a variable's number is 2^31 - 1 or more, and where all
    /// clauses together would have 2^32 literals. The value is then as it was.
    pub fn add(&mut self, lits: &[Lit]) -> Result<(), Spent>
        requires { IsBelow self.old.vars lits.now }
        ensures ok { OnOk result (self.new ≡ formula_of self.old.vars (self.old.clauses ++ lits.now ∷ [])) }
        ensures err { OnErr result (self.new ≡ self.old) }
    {
        encode(lits, &mut self.draft)?;
        self.lists.add(self.draft.as_slice())?;
        Ok(())
    }

    /// The number of variables.
    pub fn vars(&self) -> usize
        ensures { result ≡ self.now.vars }
    {
        self.count
    }

    /// The number of clauses.
    pub fn clause_count(&self) -> usize
        ensures { result ≡ length self.now.clauses }
    {
        self.lists.len()
    }

    /// The literals of a clause as numbers.
    pub fn clause(&self, number: usize) -> &[u32]
        requires { number < length self.now.clauses }
        ensures { AreCodesOf self.now number result.now }
    {
        self.lists.list(number)
    }
}
