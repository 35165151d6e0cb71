//! The judge at a formula, or an update with its right side, as a whole.
ghost use Rattle.std.specs.Prelude.{◌≡◌, ◌∷◌, [], ◌++◌, List, drop, length, map, OnOk, IfOk};
ghost use Rattle.std.specs.List.{flat_map};
ghost use Rattle.dai_syntax.specs.declared.tree.Name.{Name};
ghost use Rattle.dai_syntax.specs.Trees.{formula_of};
ghost use Rattle.dai_rules.specs.Names.{kind_in};
ghost use Rattle.dai_rules.specs.Naming.{after_formula};
ghost use Rattle.dai_rules.specs.Sites.{whole_at, sentence_output, sentence_sites, target_at, arguments_at, argument_at, element_output, right_output, update_output, update_sites};
ghost use Rattle.dai_rules.specs.Rules.{existentials_of, is_bare_name as bare_name};
ghost use Rattle.dai_rules.specs.Types.{Use as TypeUse};
ghost use Rattle.dai_rules.specs.Classes.{type_faults, ordering_faults};
ghost use Rattle.dai_rules.specs.First.{numbered, noting_all};
ghost use Rattle.dai_rules.specs.Ranges.{AreOrderingsWithin};
ghost use Rattle.dai_rules.specs.Labels.{AreLabels, AreUnordered};
ghost use Rattle.dai_rules.specs.Kinds.{kind_value};
ghost use Rattle.dai_rules.specs.declared.judge.Role.TheVariants.{Axiom};
ghost use Rattle.dai_rules.specs.Views.{context_of, view_of, naming_of, use_of, role_in, seen, noted, given, emptied, whole_in, Judges};

use crate::classes::{judge_order, judge_variables, label_of, labels, mark, no_marks, summaries};
use crate::first::{Fault, note};
use crate::globals::Kind;
use crate::judge::{Force, Judge, Role, Use};
use crate::judge_terms::{has_variable, place_of};
use dai_base::Spent;
use dai_syntax::{Arg, Form, Name};

/// The most variables of one formula.
const MOST_VARIABLES: usize = 12;

impl<'a> Judge<'a> {
    /// An axiom, an invariant, a requirement or a condition.
    pub fn sentence(&mut self, role: Role<'a>, form: &'a Form) -> Result<(), Spent>
        ensures { OnOk result (Judges (sentence_sites (context_of self.old) (role_in (context_of self.old) role.entry) (formula_of form.now)) (sentence_output (context_of self.old) (role_in (context_of self.old) role.entry) (formula_of form.now)) self.old self.new) }
    {
        self.begin();
        self.formula(role, Force::outermost(), form)?;
        self.whole(role)
    }

    /// Nothing is known of any variable.
    pub fn begin(&mut self)
        ensures { view_of self.new ≡ emptied (view_of self.old) }
    {
        self.naming.clear();
        self.uses.clear();
        self.orderings.clear();
        self.existentials.clear();
        self.witnesses.clear();
    }

    /// What is told of a whole formula.
    fn whole(&mut self, role: Role<'a>) -> Result<(), Spent>
        requires { AreOrderingsWithin (length (naming_of self.old.naming).variables) (view_of self.old).orderings }
        ensures { OnOk result (view_of self.new ≡ seen (view_of self.old) (whole_at (whole_in role.entry self.old) ∷ [])) }
    {
        self.existentials_beside_free(role);
        self.count_variables();
        self.types()
    }

    /// A requirement with a free variable has no quantifier that is existential in force.
    fn existentials_beside_free(&mut self, role: Role<'a>)
        ensures { view_of self.new ≡ noted (view_of self.old) (numbered 29 (existentials_of (role_in (context_of self.old) role.entry) self.old.naming.free.items self.old.existentials.items)) }
    {
        match role {
            Role::Requirement => {
                if !self.naming.free.is_empty() {
                    note_all(&mut self.first, 29, &self.existentials);
                }
            }
            Role::Axiom => {}
            Role::Invariant => {}
            Role::Value(_) => {}
        }
    }

    /// A formula has at most twelve variables.
    fn count_variables(&mut self)
        ensures { view_of self.new ≡ noted (view_of self.old) (numbered 42 (map (λ (name : Name). name.at) (drop 12 (naming_of self.old.naming).variables))) }
    {
        if self.naming.variables.len() > MOST_VARIABLES {
            note_names(
                &mut self.first,
                42,
                &self.naming.variables[MOST_VARIABLES..],
            );
        }
    }

    /// Each variable has one type, and one that is compared by order has an ordered one.
    fn types(&mut self) -> Result<(), Spent>
        requires { AreOrderingsWithin (length (naming_of self.old.naming).variables) (view_of self.old).orderings }
        ensures { OnOk result (view_of self.new ≡ noted (view_of self.old) (type_faults (whole_in Axiom self.old))) }
    {
        let labels = labels(self.alloc, self.naming.count(), &self.uses)?;
        let summaries = summaries(self.alloc, &labels, &self.uses)?;
        judge_variables(&mut self.first, &self.naming.variables, &labels, &summaries);
        self.judge_orderings(&labels)
    }

    /// A variable that is compared by order has a type with an order.
    fn judge_orderings(&mut self, labels: &[usize]) -> Result<(), Spent>
        requires labels { AreLabels (length labels.now) labels.now }
        requires within { AreOrderingsWithin (length labels.now) (view_of self.old).orderings }
        ensures { OnOk result (view_of self.new ≡ noted (view_of self.old) (flat_map (ordering_faults (whole_in Axiom self.old) labels.now) (view_of self.old).orderings)) }
    {
        if self.orderings.is_empty() {
            return Ok(());
        }
        let unordered = self.unordered(labels)?;
        judge_order(&mut self.first, &self.orderings, labels, &unordered);
        Ok(())
    }

    /// Whether some type of the class with each label has no order.
    fn unordered(&self, labels: &[usize]) -> Result<Vec<bool>, Spent>
        requires { AreLabels (length labels.now) labels.now }
        ensures { IfOk result (λ marks. AreUnordered (context_of self.now).declarations labels.now (view_of self.now).uses marks.items) }
    {
        let mut marks = no_marks(self.alloc, labels.len())?;
        for item in &self.uses {
            self.mark_use(&mut marks, labels, item);
        }
        Ok(marks)
    }

    /// Marks the class of a use of a type without an order.
    fn mark_use(&self, marks: &mut [bool], labels: &[usize], item: &Use<'a>)
        ensures { (uses : List TypeUse) → AreUnordered (context_of self.now).declarations labels.now uses marks.old → AreUnordered (context_of self.now).declarations labels.now (uses ++ use_of item.now ∷ []) marks.new }
    {
        match item {
            Use::Typed { variable, sort } => {
                if self.is_unordered(Some(*sort)) {
                    mark(marks, label_of(labels, *variable));
                }
            }
            Use::Linked { .. } => {}
        }
    }

    /// An update and its right side.
    pub fn update(&mut self, name: &'a Name, args: &'a [Arg], form: &'a Form) -> Result<(), Spent>
        ensures { OnOk result (Judges (update_sites (context_of self.old) name.now args.now (formula_of form.now)) (update_output (context_of self.old) name.now args.now (formula_of form.now)) self.old self.new) }
    {
        self.begin();
        let role = Role::Value(args);
        let kind = self.kind(name);
        self.target(kind, name, args, form);
        self.arguments(args);
        self.terms(role, kind.places(), args)?;
        self.right(role, kind, form)?;
        self.whole(role)
    }

    /// The target of an update.
    fn target(&mut self, kind: Kind<'a>, name: &Name, args: &[Arg], form: &Form)
        requires { kind_value kind ≡ kind_in (context_of self.old) name.now.text }
        ensures { view_of self.new ≡ seen (view_of self.old) (target_at (context_of self.old) name.now args.now (formula_of form.now) ∷ []) }
    {
        let no_name = kind.is_individual() && !is_bare_name(form);
        self.note_if(kind.is_neither(), 22, name.at);
        self.note_if(kind.takes_others(args), 23, name.at);
        self.note_if(no_name, 24, name.at);
        self.note_if(kind.is_local(), 31, name.at);
    }

    /// No variable stands twice among the arguments of a target.
    fn arguments(&mut self, args: &[Arg])
        ensures { view_of self.new ≡ seen (view_of self.old) (arguments_at [] args.now) }
    {
        for (number, arg) in args.iter().enumerate() {
            self.argument(&args[..number], arg);
        }
    }

    fn argument(&mut self, before: &[Arg], arg: &Arg)
        ensures { view_of self.new ≡ seen (view_of self.old) (argument_at before.now arg.now ∷ []) }
    {
        match arg {
            Arg::Variable { name, .. } => {
                let again = has_variable(before, name);
                self.note_if(again, 31, place_of(arg));
            }
            Arg::Symbol { .. } => {}
        }
    }

    /// The right side of an update.
    pub fn right(&mut self, role: Role<'a>, kind: Kind<'a>, form: &'a Form) -> Result<(), Spent>
        ensures { OnOk result (view_of self.new ≡ given (view_of self.old) (right_output (context_of self.old) (role_in (context_of self.old) role.entry) (naming_of self.old.naming) (kind_value kind.entry) (formula_of form.now)) (after_formula (naming_of self.old.naming) (formula_of form.now))) }
    {
        match kind {
            Kind::Individual(sort) => self.right_element(role, sort, form),
            Kind::Relation(_) => self.formula(role, Force::outermost(), form),
            Kind::Local(_) => self.formula(role, Force::outermost(), form),
            Kind::Neither => self.formula(role, Force::outermost(), form),
        }
    }

    /// The right side of an update of an individual of this type stands as a term.
    fn right_element(&mut self, role: Role<'a>, sort: &'a Name, form: &'a Form) -> Result<(), Spent>
        ensures { OnOk result (view_of self.new ≡ given (view_of self.old) (element_output (context_of self.old) (role_in (context_of self.old) role.entry) (naming_of self.old.naming) sort.now (formula_of form.now)) (after_formula (naming_of self.old.naming) (formula_of form.now))) }
    {
        match form {
            Form::Atom { name, args } => {
                self.symbol(role, Some(sort), name);
                self.terms(role, &[], args)
            }
            Form::Truth { .. } => self.formula(role, Force::outermost(), form),
            Form::Compare { .. } => self.formula(role, Force::outermost(), form),
            Form::Not { .. } => self.formula(role, Force::outermost(), form),
            Form::All { .. } => self.formula(role, Force::outermost(), form),
            Form::Any { .. } => self.formula(role, Force::outermost(), form),
            Form::Implies { .. } => self.formula(role, Force::outermost(), form),
            Form::Same { .. } => self.formula(role, Force::outermost(), form),
            Form::Quant { .. } => self.formula(role, Force::outermost(), form),
        }
    }
}

/// Notes the fault of this number at each of these places.
fn note_all(first: &mut Option<Fault>, number: u8, places: &[u32])
    ensures { first.new ≡ noting_all first.old (numbered number places.now) }
{
    for at in places {
        note(first, number, *at);
    }
}

/// Notes the fault of this number at each of these names.
fn note_names(first: &mut Option<Fault>, number: u8, names: &[&Name])
    ensures { first.new ≡ noting_all first.old (numbered number (map (λ (name : Name). name.at) (map (λ x. x.now) names.now))) }
{
    for name in names {
        note(first, number, name.at);
    }
}

/// Whether the formula is a name alone.
fn is_bare_name(form: &Form) -> bool
    ensures { result ≡ bare_name (formula_of form.now) }
{
    match form {
        Form::Atom { args, .. } => args.len() == 0,
        Form::Truth { .. } => false,
        Form::Compare { .. } => false,
        Form::Not { .. } => false,
        Form::All { .. } => false,
        Form::Any { .. } => false,
        Form::Implies { .. } => false,
        Form::Same { .. } => false,
        Form::Quant { .. } => false,
    }
}
