//! The judge at formulas.
ghost use Rattle.std.specs.Prelude.{◌≡◌, ℕ, ◌∷◌, [], ◌++◌, List, not, length, OnOk};
ghost use Rattle.dai_syntax.specs.Trees.{formula_of, formulas_of};
ghost use Rattle.dai_rules.specs.Names.{kind_in};
ghost use Rattle.dai_rules.specs.Naming.{after_terms, after_formula, after_formulas};
ghost use Rattle.dai_rules.specs.Sites.{outermost, negated as negated_force, within_equivalence as under_equivalence_force, within as within_force, is_universal_in, atom_at, atom_output, quantifier_at, quantifier_output, formula_output, formulas_output};
ghost use Rattle.dai_rules.specs.Kinds.{kind_value};
ghost use Rattle.dai_rules.specs.Views.{context_of, view_of, naming_of, force_of, role_in, seen, given, renamed};

use crate::globals::Kind;
use crate::judge::{Force, Judge, Role};
use dai_base::Spent;
use dai_syntax::{Arg, Form, Name};

impl Force {
    /// Where a whole formula stands.
    pub fn outermost() -> Force
        ensures { force_of result ≡ outermost }
    {
        Force {
            even: true,
            inside_universal: false,
            under_equivalence: false,
        }
    }

    fn negated(self) -> Force
        ensures { force_of result ≡ negated_force (force_of self) }
    {
        Force {
            even: !self.even,
            inside_universal: self.inside_universal,
            under_equivalence: self.under_equivalence,
        }
    }

    fn within_equivalence(self) -> Force
        ensures { force_of result ≡ under_equivalence_force (force_of self) }
    {
        Force {
            even: self.even,
            inside_universal: self.inside_universal,
            under_equivalence: true,
        }
    }

    /// Whether a quantifier that stands there is universal in force.
    fn is_universal(self, universal: bool) -> bool
        ensures { result ≡ is_universal_in (force_of self) universal }
    {
        if universal { self.even } else { !self.even }
    }

    fn within(self, universal: bool) -> Force
        ensures { force_of result ≡ within_force (force_of self) universal }
    {
        Force {
            even: self.even,
            inside_universal: self.inside_universal || self.is_universal(universal),
            under_equivalence: self.under_equivalence,
        }
    }
}

impl<'a> Judge<'a> {
    /// A formula, or a part of one.
    #[cycle(formula)]
    pub fn formula(&mut self, role: Role<'a>, force: Force, form: &'a Form) -> Result<(), Spent>
        ensures { OnOk result (view_of self.new ≡ given (view_of self.old) (formula_output (context_of self.old) (role_in (context_of self.old) role.entry) (force_of force) (naming_of self.old.naming) (formula_of form.now)) (after_formula (naming_of self.old.naming) (formula_of form.now))) }
    {
        match form {
            Form::Truth { .. } => Ok(()),
            Form::Atom { name, args } => self.atom(role, name, args),
            Form::Compare { left, op, right } => self.comparison(role, left, *op, right),
            Form::Not { body } => self.formula(role, force.negated(), body),
            Form::All { parts } => self.formulas(role, force, parts),
            Form::Any { parts } => self.formulas(role, force, parts),
            Form::Same { parts } => self.formulas(role, force.within_equivalence(), parts),
            Form::Implies { left, right } => {
                self.formula(role, force.negated(), left)?;
                self.formula(role, force, right)
            }
            Form::Quant {
                universal,
                binders,
                body,
                at,
            } => {
                let outside = self.naming.depth();
                self.quantifier(role, force, *universal, *at)?;
                self.bind(!force.is_universal(*universal), binders)?;
                self.formula(role, force.within(*universal), body)?;
                self.leave(outside);
                Ok(())
            }
        }
    }

    #[cycle(formula)]
    fn formulas(&mut self, role: Role<'a>, force: Force, forms: &'a [Form]) -> Result<(), Spent>
        ensures { OnOk result (view_of self.new ≡ given (view_of self.old) (formulas_output (context_of self.old) (role_in (context_of self.old) role.entry) (force_of force) (naming_of self.old.naming) (formulas_of forms.now)) (after_formulas (naming_of self.old.naming) (formulas_of forms.now))) }
    {
        for form in forms {
            self.formula(role, force, form)?;
        }
        Ok(())
    }

    /// A name with its arguments.
    fn atom(&mut self, role: Role<'a>, name: &Name, args: &'a [Arg]) -> Result<(), Spent>
        ensures { OnOk result (view_of self.new ≡ given (view_of self.old) (atom_output (context_of self.old) (role_in (context_of self.old) role.entry) (naming_of self.old.naming) name.now args.now) (after_terms (naming_of self.old.naming) args.now)) }
    {
        let kind = self.kind(name);
        self.mention(role, kind, name);
        self.stands_as_atom(kind, name, args);
        self.terms(role, kind.places(), args)
    }

    /// What a name that stands as an atom stands for.
    fn stands_as_atom(&mut self, kind: Kind<'a>, name: &Name, args: &[Arg])
        requires { kind_value kind ≡ kind_in (context_of self.old) name.now.text }
        ensures { view_of self.new ≡ seen (view_of self.old) (atom_at (context_of self.old) name.now args.now ∷ []) }
    {
        self.note_if(kind.is_neither(), 22, name.at);
        self.note_if(kind.takes_others(args), 23, name.at);
        self.note_if(kind.sort().is_some(), 24, name.at);
    }

    /// A quantifier.
    fn quantifier(
        &mut self,
        role: Role<'a>,
        force: Force,
        universal: bool,
        at: u32,
    ) -> Result<(), Spent>
        ensures { OnOk result (view_of self.new ≡ given (view_of self.old) (quantifier_output (role_in (context_of self.old) role.entry) (force_of force) universal at) (naming_of self.old.naming)) }
    {
        let existential = !force.is_universal(universal);
        self.stands_in_force(role, force, existential, at);
        if existential {
            self.existentials.push(at)?;
        }
        Ok(())
    }

    /// Whether the quantifier may stand there, by its force.
    fn stands_in_force(&mut self, role: Role<'a>, force: Force, existential: bool, at: u32)
        ensures { (universal : _) → existential ≡ not (is_universal_in (force_of force) universal) → view_of self.new ≡ seen (view_of self.old) (quantifier_at (role_in (context_of self.old) role.entry) (force_of force) universal at ∷ []) }
    {
        match role {
            Role::Axiom => self.note_if(existential || force.under_equivalence, 28, at),
            Role::Invariant => self.note_if(existential || force.under_equivalence, 28, at),
            Role::Requirement => {
                let inside = existential && force.inside_universal;
                self.note_if(inside || force.under_equivalence, 29, at);
            }
            Role::Value(_) => self.note_if(true, 30, at),
        }
    }

    /// Behind a quantifier.
    fn leave(&mut self, outside: usize)
        ensures { (own outer : List ℕ) → (naming_of self.old.naming).bound ≡ own ++ outer → outside ≡ length outer → view_of self.new ≡ renamed (view_of self.old) (record (naming_of self.old.naming) { bound = outer }) }
    {
        self.naming.bound.truncate(outside);
    }
}
