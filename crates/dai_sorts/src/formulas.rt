//! Formulas, once the types of their variables are known.
ghost use Rattle.std.specs.Prelude.{◌≡◌, ℕ, ◌≤◌, ◌<◌, List, map, drop, length, reverse, slice_index, ◌++◌, OnOk, IfOk};
ghost use Rattle.dai_syntax.specs.Trees.{formula_of as tree_of, formulas_of as trees_of};
ghost use Rattle.std.specs.List.{All};
ghost use Rattle.dai_logic.specs.Trees.{term_of, formula_of, formulas_of};
ghost use Rattle.dai_rules.specs.Naming.{number_of, after_term, after_terms, after_formula, after_formulas, entered};
ghost use Rattle.dai_model.specs.Formula as Model;
ghost use Rattle.dai_rules.specs.Views.{context_of, naming_of};
ghost use Rattle.dai_sorts.specs.Scopes.{relation_number, term_in, terms_in};
ghost use Rattle.dai_sorts.specs.Formulas.{compared as comparison_of, over_one as quantified_by, over as quantified_over, formula_in, formulas_in};
ghost use Rattle.dai_sorts.specs.Readers.{scope_of};

use crate::reader::Reader;
use dai_base::Spent;
use dai_logic::{Formula, Term};
use dai_rules::variables::Naming;
use dai_syntax::{Arg, Binder, Form, Name, Op};
use std::alloc::Global;

/// A term.
fn term<'a>(reader: &Reader<'a>, naming: &mut Naming<'a>, arg: &'a Arg) -> Result<Term, Spent>
    requires { length (after_term (naming_of naming.old) arg.now).variables ≤ 256 }
    ensures meant { IfOk result (λ t. term_of t ≡ term_in (scope_of reader.now) (naming_of naming.old) arg.now) }
    ensures named { OnOk result (naming_of naming.new ≡ after_term (naming_of naming.old) arg.now) }
{
    match arg {
        Arg::Variable { name, .. } => {
            let number = naming.notice(name)?;
            Ok(Term::Var(number as u8))
        }
        Arg::Symbol { name } => Ok(reader.symbol(name)),
    }
}

/// Terms in order.
pub fn terms<'a>(
    reader: &Reader<'a>,
    naming: &mut Naming<'a>,
    args: &'a [Arg],
) -> Result<Vec<Term>, Spent>
    requires { length (after_terms (naming_of naming.old) args.now).variables ≤ 256 }
    ensures meant { IfOk result (λ ts. map term_of ts.items ≡ terms_in (scope_of reader.now) (naming_of naming.old) args.now) }
    ensures named { OnOk result (naming_of naming.new ≡ after_terms (naming_of naming.old) args.now) }
{
    let mut terms = Vec::new(reader.alloc);
    for arg in args {
        terms.push(term(reader, naming, arg)?)?;
    }
    Ok(terms)
}

/// A formula at this naming, where the variables of the whole formula have these types.
#[cycle(formula)]
pub fn formula<'a>(
    reader: &Reader<'a>,
    types: &[u8],
    naming: &mut Naming<'a>,
    form: &'a Form,
) -> Result<Formula, Spent>
    requires { length (after_formula (naming_of naming.old) (tree_of form.now)).variables ≤ 256 }
    ensures meant { IfOk result (λ f. formula_of f ≡ formula_in (scope_of reader.now) types.now (naming_of naming.old) (tree_of form.now)) }
    ensures named { OnOk result (naming_of naming.new ≡ after_formula (naming_of naming.old) (tree_of form.now)) }
{
    let alloc = reader.alloc;
    match form {
        Form::Truth { value } => Ok(Formula::Truth(*value)),
        Form::Atom { name, args } => atom(reader, naming, name, args),
        Form::Compare { left, op, right } => comparison(reader, naming, left, *op, right),
        Form::Not { body } => Ok(Formula::Not(Box::new(
            alloc,
            formula(reader, types, naming, body)?,
        )?)),
        Form::All { parts } => Ok(Formula::All(formulas(reader, types, naming, parts)?)),
        Form::Any { parts } => Ok(Formula::Any(formulas(reader, types, naming, parts)?)),
        Form::Same { parts } => Ok(Formula::Iff(formulas(reader, types, naming, parts)?)),
        Form::Implies { left, right } => {
            let left = Box::new(alloc, formula(reader, types, naming, left)?)?;
            let right = Box::new(alloc, formula(reader, types, naming, right)?)?;
            Ok(Formula::Implies(left, right))
        }
        Form::Quant {
            universal,
            binders,
            body,
            ..
        } => {
            let outside = naming.depth();
            enter(naming, binders)?;
            let body = formula(reader, types, naming, body)?;
            leave(alloc, *universal, types, naming, outside, body)
        }
    }
}

/// Formulas in order.
#[cycle(formula)]
fn formulas<'a>(
    reader: &Reader<'a>,
    types: &[u8],
    naming: &mut Naming<'a>,
    forms: &'a [Form],
) -> Result<Vec<Formula>, Spent>
    requires { length (after_formulas (naming_of naming.old) (trees_of forms.now)).variables ≤ 256 }
    ensures meant { IfOk result (λ fs. formulas_of fs.items ≡ formulas_in (scope_of reader.now) types.now (naming_of naming.old) (trees_of forms.now)) }
    ensures named { OnOk result (naming_of naming.new ≡ after_formulas (naming_of naming.old) (trees_of forms.now)) }
{
    let mut parts = Vec::new(reader.alloc);
    for form in forms {
        parts.push(formula(reader, types, naming, form)?)?;
    }
    Ok(parts)
}

/// A relation with its arguments.
fn atom<'a>(
    reader: &Reader<'a>,
    naming: &mut Naming<'a>,
    name: &Name,
    args: &'a [Arg],
) -> Result<Formula, Spent>
    requires { length (after_terms (naming_of naming.old) args.now).variables ≤ 256 }
    ensures meant { IfOk result (λ f. formula_of f ≡ Model.relates (relation_number (context_of reader.now.judge).declarations name.now.text) (terms_in (scope_of reader.now) (naming_of naming.old) args.now)) }
    ensures named { OnOk result (naming_of naming.new ≡ after_terms (naming_of naming.old) args.now) }
{
    Ok(Formula::Rel {
        rel: reader.relation(name),
        args: terms(reader, naming, args)?,
    })
}

/// A comparison.
fn comparison<'a>(
    reader: &Reader<'a>,
    naming: &mut Naming<'a>,
    left: &'a Arg,
    op: Op,
    right: &'a Arg,
) -> Result<Formula, Spent>
    requires { length (after_term (after_term (naming_of naming.old) left.now) right.now).variables ≤ 256 }
    ensures meant { IfOk result (λ f. formula_of f ≡ comparison_of op (term_in (scope_of reader.now) (naming_of naming.old) left.now) (term_in (scope_of reader.now) (after_term (naming_of naming.old) left.now) right.now)) }
    ensures named { OnOk result (naming_of naming.new ≡ after_term (after_term (naming_of naming.old) left.now) right.now) }
{
    let one = term(reader, naming, left)?;
    let other = term(reader, naming, right)?;
    compared(reader.alloc, op, one, other)
}

/// Two terms that are compared. `a ~= b` is the negation of `a = b`.
fn compared(alloc: Global, op: Op, left: Term, right: Term) -> Result<Formula, Spent>
    ensures { IfOk result (λ f. formula_of f ≡ comparison_of op (term_of left) (term_of right)) }
{
    match op {
        Op::Equal => Ok(Formula::Same { left, right }),
        Op::Unequal => Ok(Formula::Not(Box::new(alloc, Formula::Same { left, right })?)),
        Op::Less => Ok(Formula::Less { left, right }),
        Op::LessEqual => Ok(Formula::LessEq { left, right }),
    }
}

/// Inside a quantifier with these variables.
fn enter<'a>(naming: &mut Naming<'a>, binders: &'a [Binder]) -> Result<(), Spent>
    ensures { OnOk result (naming_of naming.new ≡ entered (naming_of naming.old) binders.now) }
{
    let start = naming.depth();
    for binder in binders {
        naming.bind(start, binder)?;
    }
    Ok(())
}

/// Behind a quantifier whose variables are bound from the place `outside` on: its formula.
fn leave(
    alloc: Global,
    universal: bool,
    types: &[u8],
    naming: &mut Naming<'_>,
    outside: usize,
    body: Formula,
) -> Result<Formula, Spent>
    requires within { outside ≤ length naming.old.bound.items }
    requires few { All (λ v. v < 256) (reverse (drop outside naming.old.bound.items)) }
    ensures meant { (own outer : List ℕ) → (naming_of naming.old).bound ≡ own ++ outer → outside ≡ length outer → IfOk result (λ f. formula_of f ≡ quantified_over universal types.now own (formula_of body)) }
    ensures named { (own outer : List ℕ) → (naming_of naming.old).bound ≡ own ++ outer → outside ≡ length outer → OnOk result (naming_of naming.new ≡ record (naming_of naming.old) { bound = outer }) }
{
    let whole = quantified(alloc, universal, types, &naming.bound[outside..], body)?;
    naming.bound.truncate(outside);
    Ok(whole)
}

/// Quantifiers over these variables, outermost first.
pub fn quantified(
    alloc: Global,
    universal: bool,
    types: &[u8],
    variables: &[usize],
    body: Formula,
) -> Result<Formula, Spent>
    requires { All (λ v. v < 256) (reverse variables.now) }
    ensures { IfOk result (λ f. formula_of f ≡ quantified_over universal types.now (reverse variables.now) (formula_of body)) }
{
    let mut whole = body;
    let mut place = variables.len();
    while place > 0 {
        place -= 1;
        let variable = variables[place];
        whole = over_one(
            alloc,
            universal,
            variable as u8,
            type_at(types, variable),
            whole,
        )?;
    }
    Ok(whole)
}

/// The type of the variable of this number.
fn type_at(types: &[u8], variable: usize) -> u8
    ensures { result ≡ slice_index types.now variable }
{
    types.get(variable).copied().unwrap_or(0)
}

/// A quantifier over a variable of this type.
fn over_one(
    alloc: Global,
    universal: bool,
    var: u8,
    sort: u8,
    body: Formula,
) -> Result<Formula, Spent>
    ensures { IfOk result (λ f. formula_of f ≡ quantified_by universal var sort (formula_of body)) }
{
    let body = Box::new(alloc, body)?;
    if universal {
        Ok(Formula::Forall { var, sort, body })
    } else {
        Ok(Formula::Exists { var, sort, body })
    }
}
