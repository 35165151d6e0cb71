//! The judge at terms, comparisons and the variables of quantifiers.
ghost use Rattle.std.specs.Prelude.{◌≡◌, ◌≤◌, ◌∷◌, [], drop, length, OnOk, IfOk};
ghost use Rattle.std.specs.Option.{option_copied};
ghost use Rattle.std.specs.List.{list_any};
ghost use Rattle.dai_rules.specs.Names.{is_named as named, kind_in};
ghost use Rattle.dai_rules.specs.Naming.{Naming, Binding, number_of, noticed, after_term, after_terms, at_quantifier, entered, with_binding, bound_with};
ghost use Rattle.dai_rules.specs.Sites.{annotated_at, typed_by, variable_at, bound_at, orderings_of, variable_output, term_output, term_number, terms_output, type_beside, links, ordering_of as orderings_at, binder_output, binders_output, comparison_output, compared_at, mention_at, term_at, witness_places, place_of as place_of_term, is_by_order as by_order};
ghost use Rattle.dai_rules.specs.Rules.{differ as types_differ, symbol_type, is_unordered_type, is_variable_of};
ghost use Rattle.dai_rules.specs.Kinds.{kind_value, type_at_place};
ghost use Rattle.dai_rules.specs.Views.{context_of, view_of, naming_of, role_in, seen, given, used, ordered, renamed, witnessed, IsAtQuantifier};

use crate::globals::Kind;
use crate::judge::{Judge, Ordering, Role, Use, is_named, type_of};
use dai_base::Spent;
use dai_syntax::{Arg, Binder, Name, Op};

impl<'a> Judge<'a> {
    /// A name that a formula of this role names.
    pub fn mention(&mut self, role: Role<'a>, kind: Kind<'a>, name: &Name)
        requires { kind_value kind ≡ kind_in (context_of self.old) name.now.text }
        ensures { view_of self.new ≡ seen (view_of self.old) (mention_at (context_of self.old) (role_in (context_of self.old) role.entry) name.now ∷ []) }
    {
        match role {
            Role::Axiom => {
                let assigned = self.globals.is_assigned(name) && kind.is_global();
                self.note_if(assigned, 27, name.at);
            }
            Role::Invariant => {}
            Role::Requirement => {}
            Role::Value(_) => {}
        }
    }

    /// A variable has a type, if there is one.
    fn typed(&mut self, variable: usize, sort: Option<&'a Name>) -> Result<(), Spent>
        ensures { OnOk result (view_of self.new ≡ used (view_of self.old) (typed_by variable (option_copied sort.entry))) }
    {
        match sort {
            Some(sort) => {
                self.uses.push(Use::Typed { variable, sort })?;
                Ok(())
            }
            None => Ok(()),
        }
    }

    /// A type's name where one is given.
    fn annotated(&mut self, sort: &Option<Name>)
        ensures { view_of self.new ≡ seen (view_of self.old) (annotated_at (context_of self.old) sort.now) }
    {
        if let Some(sort) = sort {
            self.sort(sort);
        }
    }

    /// A variable that stands in a formula of this role.
    fn stands(&mut self, role: Role<'a>, name: &Name)
        ensures { view_of self.new ≡ seen (view_of self.old) (variable_at (role_in (context_of self.old) role.entry) name.now ∷ []) }
    {
        match role {
            Role::Value(allowed) => {
                let loose = !has_variable(allowed, name);
                self.note_if(loose, 30, name.at);
            }
            Role::Axiom => {}
            Role::Invariant => {}
            Role::Requirement => {}
        }
    }

    /// The number of the variable at an occurrence.
    fn notice(&mut self, name: &'a Name) -> Result<usize, Spent>
        ensures number { IfOk result (λ n. n ≡ number_of (naming_of self.old.naming) name.now.text) }
        ensures noticed { OnOk result (view_of self.new ≡ renamed (view_of self.old) (noticed (naming_of self.old.naming) name.now)) }
    {
        self.naming.notice(name)
    }

    /// A variable at an occurrence, in a place of this type.
    fn variable(
        &mut self,
        role: Role<'a>,
        expected: Option<&'a Name>,
        name: &'a Name,
        sort: &'a Option<Name>,
    ) -> Result<usize, Spent>
        ensures number { IfOk result (λ n. n ≡ number_of (naming_of self.old.naming) name.now.text) }
        ensures given { OnOk result (view_of self.new ≡ given (view_of self.old) (variable_output (context_of self.old) (role_in (context_of self.old) role.entry) (naming_of self.old.naming) (option_copied expected.entry) name.now sort.now) (noticed (naming_of self.old.naming) name.now)) }
    {
        self.stands(role, name);
        self.annotated(sort);
        let number = self.notice(name)?;
        self.typed(number, sort.as_ref())?;
        self.typed(number, expected)?;
        Ok(number)
    }

    /// A term in a place of this type. The number of a variable is answered.
    pub fn term(
        &mut self,
        role: Role<'a>,
        expected: Option<&'a Name>,
        term: &'a Arg,
    ) -> Result<Option<usize>, Spent>
        ensures number { IfOk result (λ n. n ≡ term_number (naming_of self.old.naming) term.now) }
        ensures given { OnOk result (view_of self.new ≡ given (view_of self.old) (term_output (context_of self.old) (role_in (context_of self.old) role.entry) (naming_of self.old.naming) (option_copied expected.entry) term.now) (after_term (naming_of self.old.naming) term.now)) }
    {
        match term {
            Arg::Variable { name, sort } => Ok(Some(self.variable(role, expected, name, sort)?)),
            Arg::Symbol { name } => {
                self.symbol(role, expected, name);
                Ok(None)
            }
        }
    }

    /// A name that stands as a term.
    pub fn symbol(&mut self, role: Role<'a>, expected: Option<&'a Name>, name: &Name)
        ensures { view_of self.new ≡ seen (view_of self.old) (mention_at (context_of self.old) (role_in (context_of self.old) role.entry) name.now ∷ term_at (context_of self.old) (option_copied expected.entry) name.now ∷ []) }
    {
        let kind = self.kind(name);
        self.mention(role, kind, name);
        self.element(kind, expected, name);
    }

    /// What a name that stands as a term stands for.
    fn element(&mut self, kind: Kind<'a>, expected: Option<&'a Name>, name: &Name)
        requires { kind_value kind ≡ kind_in (context_of self.old) name.now.text }
        ensures { view_of self.new ≡ seen (view_of self.old) (term_at (context_of self.old) (option_copied expected.entry) name.now ∷ []) }
    {
        let wrong = kind.is_relation() || differ(kind.sort(), expected);
        self.note_if(kind.is_neither(), 22, name.at);
        self.note_if(wrong, 24, name.at);
    }

    /// Terms in the places of a relation's arguments. A term past them is in no place.
    pub fn terms(
        &mut self,
        role: Role<'a>,
        places: &'a [Binder],
        terms: &'a [Arg],
    ) -> Result<(), Spent>
        ensures { OnOk result (view_of self.new ≡ given (view_of self.old) (terms_output (context_of self.old) (role_in (context_of self.old) role.entry) (naming_of self.old.naming) places.now terms.now) (after_terms (naming_of self.old.naming) terms.now)) }
    {
        for (number, term) in terms.iter().enumerate() {
            self.term(role, sort_at(places, number), term)?;
        }
        Ok(())
    }

    /// The type of a term that is no variable.
    fn symbol_sort(&self, term: &Arg) -> Option<&'a Name>
        ensures { option_copied result ≡ symbol_type (context_of self.now) term.now }
    {
        match term {
            Arg::Variable { .. } => None,
            Arg::Symbol { name } => self.kind(name).sort(),
        }
    }

    /// The type that a variable has by the other side of its comparison.
    fn sort_beside(&self, term: &Arg, other: &Arg) -> Option<&'a Name>
        ensures { option_copied result ≡ type_beside (context_of self.now) term.now other.now }
    {
        match term {
            Arg::Variable { .. } => self.symbol_sort(other),
            Arg::Symbol { .. } => None,
        }
    }

    /// A comparison.
    pub fn comparison(
        &mut self,
        role: Role<'a>,
        left: &'a Arg,
        op: Op,
        right: &'a Arg,
    ) -> Result<(), Spent>
        ensures { OnOk result (view_of self.new ≡ given (view_of self.old) (comparison_output (context_of self.old) (role_in (context_of self.old) role.entry) (naming_of self.old.naming) left.now op right.now) (after_term (after_term (naming_of self.old.naming) left.now) right.now)) }
    {
        let beside_left = self.sort_beside(left, right);
        let beside_right = self.sort_beside(right, left);
        let one = self.term(role, beside_left, left)?;
        let other = self.term(role, beside_right, right)?;
        self.compared(left, op, right);
        self.link(one, other)?;
        self.order(op, place_of(left), one, other)
    }

    /// The types of two names that are compared.
    fn compared(&mut self, left: &Arg, op: Op, right: &Arg)
        ensures { view_of self.new ≡ seen (view_of self.old) (compared_at (context_of self.old) left.now op right.now ∷ []) }
    {
        let one = self.symbol_sort(left);
        let other = self.symbol_sort(right);
        let unordered = is_by_order(op) && (self.is_unordered(one) || self.is_unordered(other));
        self.note_if(differ(one, other), 24, place_of(right));
        self.note_if(unordered, 26, place_of(left));
    }

    /// Whether it is a type that is declared without an order.
    pub fn is_unordered(&self, sort: Option<&Name>) -> bool
        ensures { result ≡ is_unordered_type (context_of self.now).declarations (option_copied sort.entry) }
    {
        match sort {
            Some(sort) => match self.globals.type_order(sort) {
                Some(ordered) => !ordered,
                None => false,
            },
            None => false,
        }
    }

    /// Two variables that are compared.
    fn link(&mut self, one: Option<usize>, other: Option<usize>) -> Result<(), Spent>
        ensures { OnOk result (view_of self.new ≡ used (view_of self.old) (links one other)) }
    {
        match one {
            Some(left) => match other {
                Some(right) => {
                    self.uses.push(Use::Linked { left, right })?;
                    Ok(())
                }
                None => Ok(()),
            },
            None => Ok(()),
        }
    }

    /// The variables of a comparison, if it is one by order.
    fn order(
        &mut self,
        op: Op,
        at: u32,
        one: Option<usize>,
        other: Option<usize>,
    ) -> Result<(), Spent>
        ensures { OnOk result (view_of self.new ≡ ordered (view_of self.old) (orderings_of op at one other)) }
    {
        if is_by_order(op) {
            self.order_one(at, one)?;
            self.order_one(at, other)
        } else {
            Ok(())
        }
    }

    fn order_one(&mut self, at: u32, number: Option<usize>) -> Result<(), Spent>
        ensures { OnOk result (view_of self.new ≡ ordered (view_of self.old) (orderings_at at number)) }
    {
        match number {
            Some(variable) => {
                self.orderings.push(Ordering { at, variable })?;
                Ok(())
            }
            None => Ok(()),
        }
    }

    /// The variables of a quantifier, which is existential in force or not.
    pub fn bind(&mut self, witness: bool, binders: &'a [Binder]) -> Result<(), Spent>
        ensures { OnOk result (view_of self.new ≡ given (view_of self.old) (binders_output (context_of self.old) witness (at_quantifier (naming_of self.old.naming)) [] binders.now) (entered (naming_of self.old.naming) binders.now)) }
    {
        let start = self.naming.depth();
        for (number, binder) in binders.iter().enumerate() {
            self.bind_one(witness, start, &binders[..number], binder)?;
        }
        Ok(())
    }

    fn bind_one(
        &mut self,
        witness: bool,
        start: usize,
        before: &'a [Binder],
        binder: &'a Binder,
    ) -> Result<(), Spent>
        requires { start ≤ length self.old.naming.bound.items }
        ensures { OnOk result ((n : Naming) (b : Binding) → IsAtQuantifier start n b self.old → view_of self.new ≡ given (view_of self.old) (binder_output (context_of self.old) witness b before.now binder.now) (with_binding n (bound_with b binder.now))) }
    {
        self.bound(before, &binder.name);
        self.annotated(&binder.sort);
        let variable = self.naming.bind(start, binder)?;
        self.typed(variable, binder.sort.as_ref())?;
        self.witness(witness, binder.name.at)
    }

    /// The place of a variable that is existential in force.
    fn witness(&mut self, witness: bool, at: u32) -> Result<(), Spent>
        ensures { OnOk result (view_of self.new ≡ witnessed (view_of self.old) (witness_places witness at)) }
    {
        if witness {
            self.witnesses.push(at)?;
        }
        Ok(())
    }

    /// A variable of a quantifier, beside those that it binds before.
    fn bound(&mut self, before: &[Binder], name: &Name)
        ensures { view_of self.new ≡ seen (view_of self.old) (bound_at before.now name.now ∷ []) }
    {
        let again = has_binder(before, name);
        self.note_if(again, 21, name.at);
    }
}

/// The type of the argument's place of this number.
fn sort_at<'a>(places: &'a [Binder], number: usize) -> Option<&'a Name>
    ensures { option_copied result ≡ type_at_place (drop number places.now) }
{
    match places.get(number) {
        Some(place) => Some(type_of(place)),
        None => None,
    }
}

/// Whether the types have different names.
fn differ(sort: Option<&Name>, other: Option<&Name>) -> bool
    ensures { result ≡ types_differ (option_copied sort.entry) (option_copied other.entry) }
{
    match sort {
        Some(sort) => match other {
            Some(other) => sort.text.as_bytes() != other.text.as_bytes(),
            None => false,
        },
        None => false,
    }
}

/// Whether a variable of this name is among those of a quantifier.
fn has_binder(binders: &[Binder], name: &Name) -> bool
    ensures { result ≡ list_any (named name.now.text) binders.now }
{
    for binder in binders {
        if is_named(binder, name) {
            return true;
        }
    }
    false
}

/// Whether a variable of this name is among the arguments.
pub fn has_variable(args: &[Arg], name: &Name) -> bool
    ensures { result ≡ list_any (is_variable_of name.now.text) args.now }
{
    for arg in args {
        if is_variable(arg, name) {
            return true;
        }
    }
    false
}

fn is_variable(arg: &Arg, wanted: &Name) -> bool
    ensures { result ≡ is_variable_of wanted.now.text arg.now }
{
    match arg {
        Arg::Variable { name, .. } => wanted.text.as_bytes() == name.text.as_bytes(),
        Arg::Symbol { .. } => false,
    }
}

/// Where the term stands.
pub fn place_of(term: &Arg) -> u32
    ensures { result ≡ place_of_term term.now }
{
    match term {
        Arg::Variable { name, .. } => name.at,
        Arg::Symbol { name } => name.at,
    }
}

fn is_by_order(op: Op) -> bool
    ensures { result ≡ by_order op }
{
    match op {
        Op::Equal => false,
        Op::Unequal => false,
        Op::Less => true,
        Op::LessEqual => true,
    }
}
