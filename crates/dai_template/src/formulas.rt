//! The formula of a clause: whichever elements its variables stand for, two of one type don't stand as they
//! should, or some literal is true.
ghost use Rattle.std.specs.Prelude.{◌≡◌, ◌<◌, ◌≤◌, ◌+◌, ◌++◌, ◌∷◌, [], length, map, sum, drop, IfOk, OnOk};
ghost use Rattle.std.specs.List.{All};
ghost use Rattle.dai_model.specs.Clause.{Literal, literal_among, numbers_below};
ghost use Rattle.dai_model.proofs.Below.{Each, IsVariableOf, IsAtomOf};
ghost use Rattle.dai_logic.specs.Trees.{formula_of, term_of};
ghost use Rattle.dai_template.specs.Atoms.{variable_of, atom_of};
ghost use Rattle.dai_template.specs.ClauseFormulas as Formulas;
ghost use Rattle.dai_template.specs.ClauseFormulas.{term_at, atom_formula, literal_formula, clash as clash_of, clashes_with, clashes_of, types_from, trees_of, IsWritable};

use crate::clause::{Atom, Clause, Shape};
use crate::shapes::sum_of;
use crate::space::Space;
use dai_base::Spent;
use dai_logic::{Formula, Term};
use std::alloc::Global;

impl Space {
    ghost use Rattle.std.specs.Prelude.{◌↔◌};
    ghost use Rattle.dai_model.specs.Protocol.{Protocol as Meaning};
    ghost use Rattle.dai_model.specs.Structure.{Structure as Model};
    ghost use Rattle.dai_model.specs.Clause.{Meets};
    ghost use Rattle.dai_model.specs.Value.{Satisfies};
    ghost use Rattle.dai_model.specs.Template.{Bounds};
    ghost use Rattle.dai_template.specs.ClauseFormulas.{formula_of_clause};
    ghost use Rattle.dai_template.specs.Spaces.{IsClauseOf, IsClauseOfSpace, clause_of};

    /// A closed formula that is true in exactly the structures that meet the clause. It is universal, with as
    /// many variables of each type as the clause's shape has.
    pub fn formula(&self, alloc: Global, clause: &Clause) -> Result<Formula, Spent>
        requires { IsClauseOfSpace self.now clause.now }
        ensures tree { IfOk result (λ f. (P : Meaning) (B : Bounds) → IsClauseOf P B self.now clause.now → formula_of f ≡ formula_of_clause P (clause_of self.now clause.now)) }
        ensures value { IfOk result (λ f. (P : Meaning) (B : Bounds) (s : Model) → IsClauseOf P B self.now clause.now → (Satisfies s (formula_of f) ↔ Meets P s (clause_of self.now clause.now))) }
    {
        let shape = &self.shapes[clause.shape as usize];
        let mut parts = clashes(alloc, &self.ordered, &shape.counts)?;
        add_literals(alloc, shape, clause.lits.as_slice(), &mut parts)?;
        let sorts = types(alloc, &shape.counts)?;
        for_all(alloc, &sorts, 0, Formula::Any(parts))
    }
}

/// The formula that the body is true of all elements of the types from one on.
fn for_all(alloc: Global, sorts: &[u8], from: usize, body: Formula) -> Result<Formula, Spent>
    requires few { length sorts.now ≤ 32 }
    requires within { from ≤ length sorts.now }
    ensures { IfOk result (λ f. formula_of f ≡ Formulas.for_all (drop from sorts.now) from (formula_of body)) }
{
    if from == sorts.len() {
        return Ok(body);
    }
    let inner = for_all(alloc, sorts, from + 1, body)?;
    Ok(Formula::Forall {
        var: from as u8,
        sort: sorts[from],
        body: Box::new(alloc, inner)?,
    })
}

/// The types of the variables in order.
fn types(alloc: Global, counts: &[u8]) -> Result<Vec<u8>, Spent>
    requires { length counts.now ≤ 8 }
    ensures { IfOk result (λ sorts. sorts.items ≡ types_from 0 counts.now) }
{
    let mut sorts = Vec::new(alloc);
    for (sort, count) in counts.iter().enumerate() {
        add_type(sort as u8, *count, &mut sorts)?;
    }
    Ok(sorts)
}

/// Adds the type, once for each of so many variables.
fn add_type(sort: u8, count: u8, sorts: &mut Vec<u8>) -> Result<(), Spent>
    ensures { OnOk result (sorts.new.items ≡ sorts.old.items ++ map (λ _. sort) (numbers_below count)) }
{
    for _variable in 0..count {
        sorts.push(sort)?;
    }
    Ok(())
}

/// For each two variables of one type, that they don't stand as they should.
fn clashes(alloc: Global, ordered: &[bool], counts: &[u8]) -> Result<Vec<Formula>, Spent>
    requires each { length ordered.now ≡ length counts.now }
    requires few { sum counts.now ≤ 32 }
    ensures { IfOk result (λ parts. trees_of parts.items ≡ Formulas.clashes ordered.now 0 counts.now) }
{
    let mut parts = Vec::new(alloc);
    let mut first = 0;
    for (sort, count) in counts.iter().enumerate() {
        add_clashes(ordered[sort], first, *count, &mut parts)?;
        first += *count;
    }
    Ok(parts)
}

/// Adds the clashes of so many variables of one type, numbered from the first on.
fn add_clashes(ordered: bool, first: u8, count: u8, parts: &mut Vec<Formula>) -> Result<(), Spent>
    requires { first + count ≤ 32 }
    ensures { OnOk result (trees_of parts.new.items ≡ trees_of parts.old.items ++ clashes_of ordered first count) }
{
    for second in 0..count {
        add_clashes_with(ordered, first, second, parts)?;
    }
    Ok(())
}

/// Adds the clashes of the variables of one type that come before this one.
fn add_clashes_with(
    ordered: bool,
    first: u8,
    second: u8,
    parts: &mut Vec<Formula>,
) -> Result<(), Spent>
    requires { first + second < 32 }
    ensures { OnOk result (trees_of parts.new.items ≡ trees_of parts.old.items ++ clashes_with ordered first second) }
{
    for earlier in 0..second {
        parts.push(clash(ordered, first + earlier, first + second))?;
    }
    Ok(())
}

/// That two variables of one type, the first of them earlier, don't stand as they should.
fn clash(ordered: bool, earlier: u8, later: u8) -> Formula
    ensures { formula_of result ≡ clash_of ordered earlier later }
{
    let left = Term::Var(earlier);
    let right = Term::Var(later);
    if ordered {
        Formula::LessEq {
            left: right,
            right: left,
        }
    } else {
        Formula::Same { left, right }
    }
}

/// Adds the formulas of the literals.
fn add_literals(
    alloc: Global,
    shape: &Shape,
    literals: &[u8],
    parts: &mut Vec<Formula>,
) -> Result<(), Spent>
    requires { IsWritable shape.now.counts.items (map atom_of shape.now.atoms.items) literals.now }
    ensures { OnOk result (trees_of parts.new.items ≡ trees_of parts.old.items ++ map (literal_formula shape.now.counts.items) (map (literal_among (map atom_of shape.now.atoms.items)) literals.now)) }
{
    for literal in literals {
        parts.push(signed(alloc, shape, *literal)?)?;
    }
    Ok(())
}

/// The formula of the literal.
fn signed(alloc: Global, shape: &Shape, literal: u8) -> Result<Formula, Spent>
    requires { IsWritable shape.now.counts.items (map atom_of shape.now.atoms.items) (literal ∷ []) }
    ensures { IfOk result (λ f. formula_of f ≡ literal_formula shape.now.counts.items (literal_among (map atom_of shape.now.atoms.items) literal)) }
{
    let positive = atom(alloc, &shape.counts, &shape.atoms[usize::from(literal / 2)])?;
    if literal % 2 == 1 {
        Ok(Formula::Not(Box::new(alloc, positive)?))
    } else {
        Ok(positive)
    }
}

/// The formula of the atom.
fn atom(alloc: Global, counts: &[u8], atom: &Atom) -> Result<Formula, Spent>
    requires short { length counts.now ≤ 8 }
    requires few { sum counts.now ≤ 32 }
    requires inside { IsAtomOf counts.now (atom_of atom.now) }
    ensures { IfOk result (λ f. formula_of f ≡ atom_formula counts.now (atom_of atom.now)) }
{
    match atom {
        Atom::Tuple { rel, vars } => Ok(Formula::Rel {
            rel: *rel,
            args: terms(alloc, counts, vars)?,
        }),
        Atom::IsInd { var, ind } => Ok(Formula::Same {
            left: term(counts, var.0, var.1),
            right: Term::Ind(*ind),
        }),
    }
}

/// The variables' terms.
fn terms(alloc: Global, counts: &[u8], vars: &[(u8, u8)]) -> Result<Vec<Term>, Spent>
    requires short { length counts.now ≤ 8 }
    requires few { sum counts.now ≤ 32 }
    requires inside { Each (IsVariableOf counts.now) (map variable_of vars.now) }
    ensures { IfOk result (λ terms. map term_of terms.items ≡ map (term_at counts.now) (map variable_of vars.now)) }
{
    let mut terms = Vec::with_capacity(alloc, vars.len())?;
    for var in vars {
        terms.push(term(counts, var.0, var.1))?;
    }
    Ok(terms)
}

/// The variable's term: those of the types before are numbered first.
fn term(counts: &[u8], sort: u8, number: u8) -> Term
    requires short { length counts.now ≤ 8 }
    requires few { sum counts.now ≤ 32 }
    requires inside { IsVariableOf counts.now (record { sort = sort; number = number }) }
    ensures { term_of result ≡ term_at counts.now (record { sort = sort; number = number }) }
{
    Term::Var(sum_of(&counts[..usize::from(sort)]) as u8 + number)
}
