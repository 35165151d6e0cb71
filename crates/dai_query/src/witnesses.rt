//! How many variables of a type are existential in force.
ghost use Rattle.std.specs.Prelude.{◌≡◌, ◌≤◌, [], ◌∷◌, length, if◌then◌else◌};
ghost use Rattle.dai_model.specs.Profile.{witnesses, witnesses_of_each, requirements_of, requirements_in, witnesses_in};
ghost use Rattle.dai_model.specs.Sizes.{count_of};
ghost use Rattle.dai_logic.specs.Trees.{formula_of, formulas_of, statement_of, statements_of};

use dai_logic::{Formula, Step};

/// How many variables of the type are existential in force in the formula, where it stands under an even number
/// of negations, or under an odd one.
#[cycle(formulas)]
pub fn in_formula(formula: &Formula, even: bool, sort: usize) -> usize
    requires { length (witnesses even (formula_of formula.now)) ≤ 16 }
    ensures { result ≡ count_of sort (witnesses even (formula_of formula.now)) }
{
    match formula {
        Formula::Not(body) => in_formula(body, !even, sort),
        Formula::All(parts) => in_each(parts, even, sort),
        Formula::Any(parts) => in_each(parts, even, sort),
        Formula::Implies(left, right) => {
            in_formula(left, !even, sort) + in_formula(right, even, sort)
        }
        Formula::Iff(parts) => in_each(parts, even, sort),
        Formula::Forall {
            var: _,
            sort: own,
            body,
        } => { own_count(!even, *own, sort) + in_formula(body, even, sort) }
        Formula::Exists {
            var: _,
            sort: own,
            body,
        } => { own_count(even, *own, sort) + in_formula(body, even, sort) }
        Formula::Truth(_)
        | Formula::Rel { .. }
        | Formula::Same { .. }
        | Formula::Less { .. }
        | Formula::LessEq { .. } => 0,
    }
}

/// The same in each of the formulas.
#[cycle(formulas)]
fn in_each(parts: &[Formula], even: bool, sort: usize) -> usize
    requires { length (witnesses_of_each even (formulas_of parts.now)) ≤ 16 }
    ensures { result ≡ count_of sort (witnesses_of_each even (formulas_of parts.now)) }
{
    let mut count = 0;
    for part in parts {
        count += in_formula(part, even, sort);
    }
    count
}

/// 1 where the variable counts and is of the type, and else 0.
fn own_count(counts: bool, own: u8, sort: usize) -> usize
    ensures { result ≡ count_of sort (if counts then own ∷ [] else []) }
{
    if counts && usize::from(own) == sort {
        1
    } else {
        0
    }
}

/// How many variables of the type are existential in force in the requirements of the statement.
#[cycle(statements)]
fn in_statement(step: &Step, sort: usize) -> usize
    requires { length (witnesses_in (requirements_of (statement_of step.now))) ≤ 16 }
    ensures { result ≡ count_of sort (witnesses_in (requirements_of (statement_of step.now))) }
{
    match step {
        Step::Require { body } => in_formula(body, true, sort),
        Step::SetTable { .. } | Step::SetValue { .. } => 0,
        Step::Cond { cond: _, yes, no } => in_code(yes, sort) + in_code(no, sort),
    }
}

/// The same in each of the statements.
#[cycle(statements)]
pub fn in_code(steps: &[Step], sort: usize) -> usize
    requires { length (witnesses_in (requirements_in (statements_of steps.now))) ≤ 16 }
    ensures { result ≡ count_of sort (witnesses_in (requirements_in (statements_of steps.now))) }
{
    let mut count = 0;
    for step in steps {
        count += in_statement(step, sort);
    }
    count
}
