//! Statements of a block.
ghost use Rattle.std.specs.Prelude.{◌≡◌, ◌+◌, ◌++◌, ◌≤◌, [], ℕ, List, map, length, OnOk, IfOk};
ghost use Rattle.dai_syntax.specs.Trees.{statement_of as tree_of, statements_of as trees_of};
ghost use Rattle.dai_logic.specs.Trees.{statements_of};
ghost use Rattle.dai_rules.specs.Views.{context_of};
ghost use Rattle.dai_sorts.specs.Scopes.{with_terms, choices_from, parameters_from, binder_type};
ghost use Rattle.dai_sorts.specs.Statements.{locals_of, locals_in, Directs, DirectEach};
ghost use Rattle.dai_sorts.specs.Readers.{scope_of, Writes};
ghost use Rattle.dai_sorts.specs.Sound.{IsSound, AreSound};

use crate::reader::Reader;
use dai_base::Spent;
use dai_logic::{Step, Term};
use dai_rules::judge::{Role, type_of};
use dai_syntax::{Binder, Stat};

impl<'a> Reader<'a> {
    /// Adds what a statement does to the code, and the types of its locals to those of the block.
    #[cycle(statement)]
    fn statement(
        &mut self,
        stat: &'a Stat,
        locals: &mut Vec<u8>,
        code: &mut Vec<Step>,
    ) -> Result<(), Spent>
        requires sound { IsSound (context_of self.old.judge) (tree_of stat.now) }
        requires few { length locals.old.items + length (locals_of (tree_of stat.now)) ≤ 256 }
        ensures { OnOk result (Writes (λ next cs. Directs (scope_of self.old) next (tree_of stat.now) cs) (locals_of (tree_of stat.now)) locals.old locals.new code.old code.new self.old self.new) }
    {
        match stat {
            Stat::Require { body } => {
                let body = self.sentence(Role::Requirement, body)?;
                code.push(Step::Require { body })?;
                Ok(())
            }
            Stat::Assign { name, args, body } => {
                let update = self.update(name, args, body)?;
                code.push(update)?;
                Ok(())
            }
            Stat::Cond { cond, yes, no } => {
                let cond = self.sentence(Role::Value(&[]), cond)?;
                let mut first = Vec::new(self.alloc);
                self.statements(yes, locals, &mut first)?;
                let mut second = Vec::new(self.alloc);
                self.statements(no, locals, &mut second)?;
                code.push(Step::Cond {
                    cond,
                    yes: first,
                    no: second,
                })?;
                Ok(())
            }
            Stat::Local { binders, body } => {
                let outside = self.judge.depth();
                let terms = self.term_count();
                self.enter_locals(locals, binders)?;
                self.statements(body, locals, code)?;
                self.leave(outside, terms);
                Ok(())
            }
        }
    }

    /// Adds what statements do.
    #[cycle(statement)]
    pub fn statements(
        &mut self,
        stats: &'a [Stat],
        locals: &mut Vec<u8>,
        code: &mut Vec<Step>,
    ) -> Result<(), Spent>
        requires sound { AreSound (context_of self.old.judge) (trees_of stats.now) }
        requires few { length locals.old.items + length (locals_in (trees_of stats.now)) ≤ 256 }
        ensures { OnOk result (Writes (λ next cs. DirectEach (scope_of self.old) next (trees_of stats.now) cs) (locals_in (trees_of stats.now)) locals.old locals.new code.old code.new self.old self.new) }
    {
        for stat in stats {
            self.statement(stat, locals, code)?;
        }
        Ok(())
    }

    /// Locals come into scope, and their types to those of the block.
    fn enter_locals(&mut self, locals: &mut Vec<u8>, binders: &'a [Binder]) -> Result<(), Spent>
        requires { length locals.old.items + length binders.now ≤ 256 }
        ensures scope { OnOk result (scope_of self.new ≡ with_terms (scope_of self.old) binders.now (choices_from (length locals.old.items) binders.now)) }
        ensures locals { OnOk result (locals.new.items ≡ locals.old.items ++ map (binder_type (context_of self.old.judge).declarations) binders.now) }
    {
        for binder in binders {
            self.terms.push(Term::Loc(locals.len() as u8))?;
            self.judge.inside.push(binder)?;
            locals.push(self.sort(type_of(binder)))?;
        }
        Ok(())
    }

    /// Parameters come into scope. It answers their types.
    pub fn enter_parameters(&mut self, binders: &'a [Binder]) -> Result<Vec<u8>, Spent>
        requires { length binders.now ≤ 256 }
        ensures scope { OnOk result (scope_of self.new ≡ with_terms (scope_of self.old) binders.now (parameters_from 0 binders.now)) }
        ensures types { IfOk result (λ types. types.items ≡ map (binder_type (context_of self.old.judge).declarations) binders.now) }
    {
        let mut types = Vec::new(self.alloc);
        for binder in binders {
            self.terms.push(Term::Par(types.len() as u8))?;
            self.judge.inside.push(binder)?;
            types.push(self.sort(type_of(binder)))?;
        }
        Ok(types)
    }

    /// Behind a block: only so many parameters and locals, with so many terms, are in scope.
    pub fn leave(&mut self, outside: usize, terms: usize)
        ensures { (binders : _) (own : _) (outer : _) → scope_of self.old ≡ with_terms outer binders own → outside ≡ length outer.context.inside → terms ≡ length outer.terms → scope_of self.new ≡ outer }
    {
        self.judge.inside.truncate(outside);
        self.terms.truncate(terms);
    }
}
