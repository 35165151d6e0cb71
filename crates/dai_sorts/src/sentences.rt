//! Whole formulas, and updates.
ghost use Rattle.std.specs.Prelude.{◌≡◌, ◌≢◌, ◌≤◌, true, [], map, length, OnOk, IfOk};
ghost use Rattle.dai_syntax.specs.Trees.{formula_of as tree_of, declaration_of};
ghost use Rattle.dai_logic.specs.Trees.{formula_of, statement_of};
ghost use Rattle.dai_rules.specs.Names.{a_relation, an_individual, kind_in};
ghost use Rattle.dai_rules.specs.Naming.{no_variables, after_terms, after_formula};
ghost use Rattle.dai_rules.specs.Rules.{is_bare_name};
ghost use Rattle.dai_rules.specs.Kinds.{kind_value};
ghost use Rattle.dai_rules.specs.Sites.{sentence_sites, sentence_output, update_sites, update_output};
ghost use Rattle.dai_rules.specs.Views.{context_of, role_in};
ghost use Rattle.dai_sorts.specs.Formulas.{AreTypes, IsSentence};
ghost use Rattle.dai_sorts.specs.Statements.{UpdatesRelation, UpdatesIndividual, IsUpdate};
ghost use Rattle.dai_sorts.specs.Readers.{scope_of};
ghost use Rattle.dai_sorts.specs.Sound.{AreUnbroken};
ghost use Rattle.dai_syntax.specs.declared.tree.Binder.{Binder as TreeBinder};
ghost use Rattle.std.specs.Prelude.{List};

use crate::formulas::{formula, quantified, terms};
use crate::reader::Reader;
use crate::types::types_of;
use dai_base::Spent;
use dai_logic::{Formula, Step};
use dai_rules::globals::Kind;
use dai_rules::judge::{Force, Role};
use dai_rules::variables::Naming;
use dai_syntax::{Arg, Form, Name};

impl<'a> Reader<'a> {
    /// An axiom, an invariant, a requirement or a condition. Its free variables become outermost universal ones.
    pub fn sentence(&self, role: Role<'a>, form: &'a Form) -> Result<Formula, Spent>
        requires { AreUnbroken (sentence_sites (context_of self.now.judge) (role_in (context_of self.now.judge) role) (tree_of form.now)) }
        ensures { IfOk result (λ f. IsSentence (scope_of self.now) (role_in (context_of self.now.judge) role.entry) (tree_of form.now) (formula_of f)) }
    {
        let types = self.types(role, form)?;
        let mut naming = Naming::new(self.alloc);
        let body = formula(self, &types, &mut naming, form)?;
        quantified(self.alloc, true, &types, &naming.free, body)
    }

    /// The types of the variables of a whole formula.
    fn types(&self, role: Role<'a>, form: &'a Form) -> Result<Vec<u8>, Spent>
        requires { AreUnbroken (sentence_sites (context_of self.now.judge) (role_in (context_of self.now.judge) role) (tree_of form.now)) }
        ensures { IfOk result (λ types. AreTypes (context_of self.now.judge).declarations (after_formula no_variables (tree_of form.now)).variables (sentence_output (context_of self.now.judge) (role_in (context_of self.now.judge) role.entry) (tree_of form.now)).uses types.items) }
    {
        let mut judge = self.fresh()?;
        judge.formula(role, Force::outermost(), form)?;
        types_of(self, &judge)
    }

    /// The types of the variables of an update and its right side.
    fn update_types(
        &self,
        kind: Kind<'a>,
        name: &Name,
        args: &'a [Arg],
        form: &'a Form,
    ) -> Result<Vec<u8>, Spent>
        requires kind { kind_value kind ≡ kind_in (context_of self.now.judge) name.now.text }
        requires unbroken { AreUnbroken (update_sites (context_of self.now.judge) name.now args.now (tree_of form.now)) }
        ensures { IfOk result (λ types. AreTypes (context_of self.now.judge).declarations (after_formula (after_terms no_variables args.now) (tree_of form.now)).variables (update_output (context_of self.now.judge) name.now args.now (tree_of form.now)).uses types.items) }
    {
        let role = Role::Value(args);
        let mut judge = self.fresh()?;
        judge.terms(role, kind.places(), args)?;
        judge.right(role, kind, form)?;
        types_of(self, &judge)
    }

    /// An update.
    pub fn update(&self, name: &'a Name, args: &'a [Arg], form: &'a Form) -> Result<Step, Spent>
        requires { AreUnbroken (update_sites (context_of self.now.judge) name.now args.now (tree_of form.now)) }
        ensures { IfOk result (λ s. IsUpdate (scope_of self.now) (kind_in (context_of self.now.judge) name.now.text) name.now args.now (tree_of form.now) (statement_of s)) }
    {
        let kind = self.judge.kind(name);
        match kind {
            Kind::Relation(_) => self.update_table(kind, name, args, form),
            Kind::Individual(_) => Ok(self.update_value(name, form)),
            Kind::Local(_) => unreachable!(),
            Kind::Neither => unreachable!(),
        }
    }

    /// An update of a relation.
    fn update_table(
        &self,
        kind: Kind<'a>,
        name: &'a Name,
        args: &'a [Arg],
        form: &'a Form,
    ) -> Result<Step, Spent>
        requires kind { kind_value kind ≡ kind_in (context_of self.now.judge) name.now.text }
        requires unbroken { AreUnbroken (update_sites (context_of self.now.judge) name.now args.now (tree_of form.now)) }
        ensures { IfOk result (λ s. UpdatesRelation (scope_of self.now) name.now args.now (tree_of form.now) (statement_of s)) }
    {
        let types = self.update_types(kind, name, args, form)?;
        let mut naming = Naming::new(self.alloc);
        let target = terms(self, &mut naming, args)?;
        let body = formula(self, &types, &mut naming, form)?;
        Ok(Step::SetTable {
            rel: self.relation(name),
            args: target,
            body,
        })
    }

    /// An update of an individual.
    fn update_value(&self, name: &Name, form: &Form) -> Step
        requires { is_bare_name (tree_of form.now) ≡ true }
        ensures { UpdatesIndividual (scope_of self.now) name.now (tree_of form.now) (statement_of result) }
    {
        match form {
            Form::Atom { name: to, .. } => Step::SetValue {
                ind: self.individual(name),
                to: self.symbol(to),
            },
            Form::Truth { .. } => unreachable!(),
            Form::Compare { .. } => unreachable!(),
            Form::Not { .. } => unreachable!(),
            Form::All { .. } => unreachable!(),
            Form::Any { .. } => unreachable!(),
            Form::Implies { .. } => unreachable!(),
            Form::Same { .. } => unreachable!(),
            Form::Quant { .. } => unreachable!(),
        }
    }
}
