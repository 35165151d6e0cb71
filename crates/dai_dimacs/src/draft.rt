//! The formula that is being read.
ghost use Rattle.std.specs.Prelude.{◌≡◌, ◌∷◌, [], IfOk, OnOk};
ghost use Rattle.dai_trail.specs.Formula.{IsBelow};
ghost use Rattle.dai_dimacs.specs.Pieces.{words};
ghost use Rattle.dai_dimacs.specs.Drafts.{Takes};

use crate::pieces::first_word;
use crate::tokens::{Token, token_of};
use dai_base::Spent;
use dai_sat::{Cnf, Lit};

/// The formula that is being read.
#[derive(Drop)]
pub struct Draft {
    pub cnf: Cnf,
    /// How many clauses are still to come.
    pub missing: usize,
    /// The clause that has no end yet.
    pub clause: Vec<Lit>,
}

impl Draft {
    /// Takes the next word of the clauses. The answer is false where it can't stand there.
    fn take(&mut self, word: &[u8]) -> Result<bool, Spent>
        requires { IsBelow self.old.cnf.vars self.old.clause.items }
        ensures takes { IfOk result (Takes (word.now ∷ []) self.old self.new) }
        ensures vars { OnOk result (self.new.cnf.vars ≡ self.old.cnf.vars) }
        ensures below { OnOk result (IsBelow self.new.cnf.vars self.new.clause.items) }
    {
        if self.missing == 0 {
            return Ok(false);
        }
        match token_of(word) {
            None => Ok(false),
            Some(Token::End) => {
                self.cnf.add(self.clause.as_slice())?;
                self.clause.clear();
                self.missing -= 1;
                Ok(true)
            }
            Some(Token::Literal(lit)) => {
                if lit.var >= self.cnf.vars() {
                    return Ok(false);
                }
                self.clause.push(lit)?;
                Ok(true)
            }
        }
    }

    /// Takes the words of a line. The answer is false where one of them can't stand there.
    pub fn take_line(&mut self, line: &[u8]) -> Result<bool, Spent>
        requires { IsBelow self.old.cnf.vars self.old.clause.items }
        ensures takes { IfOk result (Takes (words line.now) self.old self.new) }
        ensures vars { OnOk result (self.new.cnf.vars ≡ self.old.cnf.vars) }
        ensures below { OnOk result (IsBelow self.new.cnf.vars self.new.clause.items) }
    {
        let mut text = line;
        while let Some((word, rest)) = first_word(text) {
            if !self.take(word)? {
                return Ok(false);
            }
            text = rest;
        }
        Ok(true)
    }
}
