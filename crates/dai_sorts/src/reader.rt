//! What names stand for, where a formula or a statement stands.
ghost use Rattle.std.specs.Prelude.{◌≡◌, ◌++◌, ℕ, List, map, length, OnOk, IfOk};
ghost use Rattle.std.specs.Option.{option_map};
ghost use Rattle.dai_syntax.specs.declared.tree.Binder.{Binder as TreeBinder};
ghost use Rattle.dai_logic.specs.Trees.{term_of};
ghost use Rattle.dai_sorts.specs.Counts.{counts_of, counts_before, AreCounts};
ghost use Rattle.dai_sorts.specs.Scopes.{type_number, relation_number, individual_number, symbol_term, term_among};
ghost use Rattle.dai_syntax.specs.Trees.{declaration_of};
ghost use Rattle.std.proofs.Props.{props};

use crate::numbers::{Counts, Numbers};
use dai_base::Spent;
use dai_logic::Term;
use dai_rules::judge::{Judge, is_named};
use dai_syntax::{Binder, Name};
use std::alloc::Global;

/// The numbers of names, and the parameters and locals in scope with the terms that they stand for. The judge
/// finds what a name stands for, and the types of variables.
#[derive(Drop)]
pub struct Reader<'a> {
    pub alloc: Global,
    pub judge: Judge<'a>,
    pub numbers: Numbers,
    pub terms: Vec<Term>,
    pub ghost counted: { AreCounts (map declaration_of judge.globals.now.decls.now) numbers.before.items numbers.all } by { Prim.hlevel props },
}

impl<'a> Reader<'a> {
    ghost use Rattle.dai_rules.specs.Views.{context_of, view_of};
    ghost use Rattle.dai_sorts.specs.Readers.{scope_of, fresh_view};

    /// From now on the reader stands in the declaration of this place.
    pub fn stand_at(&mut self, here: usize)
        ensures { scope_of self.new ≡ record { context = record (context_of self.old.judge) { here = here }; terms = (scope_of self.old).terms } }
    {
        self.judge.here = here;
    }

    /// How many of each kind stand before the first declaration of the name.
    fn before(&self, name: &Name) -> Counts
        ensures { counts_of result ≡ counts_before (context_of self.now.judge).declarations name.now.text }
    {
        match self.judge.globals.place(name) {
            Some(place) => self.numbers.before[place],
            None => self.numbers.all,
        }
    }

    /// The number of the type of this name.
    pub fn sort(&self, name: &Name) -> u8
        ensures { result ≡ type_number (context_of self.now.judge).declarations name.now.text }
    {
        self.before(name).sorts
    }

    /// The number of the relation of this name.
    pub fn relation(&self, name: &Name) -> u8
        ensures { result ≡ relation_number (context_of self.now.judge).declarations name.now.text }
    {
        self.before(name).relations
    }

    /// The number of the individual of this name.
    pub fn individual(&self, name: &Name) -> u8
        ensures { result ≡ individual_number (context_of self.now.judge).declarations name.now.text }
    {
        self.before(name).individuals
    }

    /// The term of the parameter or local of this name in scope.
    fn local(&self, name: &Name) -> Option<Term>
        ensures { option_map term_of result ≡ term_among (scope_of self.now).context.inside (scope_of self.now).terms name.now.text }
    {
        for (number, binder) in self.judge.inside.iter().enumerate() {
            if is_named(binder, name) {
                return self.terms.get(number).copied();
            }
        }
        None
    }

    /// What a name that stands as a term stands for.
    pub fn symbol(&self, name: &Name) -> Term
        ensures { term_of result ≡ symbol_term (scope_of self.now) name.now.text }
    {
        match self.local(name) {
            Some(term) => {
                if self.judge.is_declared_by(name) {
                    Term::Ind(self.individual(name))
                } else {
                    term
                }
            }
            None => Term::Ind(self.individual(name)),
        }
    }

    /// How many terms the parameters and locals in scope stand for.
    pub fn term_count(&self) -> usize
        ensures { result ≡ length (scope_of self.now).terms }
    {
        self.terms.len()
    }

    /// A judge that stands where the reader does, and has seen no formula.
    pub fn fresh(&self) -> Result<Judge<'a>, Spent>
        ensures { IfOk result (λ judge. view_of judge ≡ fresh_view (context_of self.now.judge)) }
    {
        let mut judge = Judge::new(self.alloc, self.judge.globals);
        judge.begin();
        judge.here = self.judge.here;
        for binder in &self.judge.inside {
            judge.inside.push(*binder)?;
        }
        Ok(judge)
    }
}
