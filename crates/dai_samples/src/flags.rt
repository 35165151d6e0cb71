//! Two flags of which exactly one is up.
ghost use Rattle.std.specs.Prelude.{◌≡◌, IfOk, codes};
ghost use Rattle.dai_logic.specs.Parts.{action_of, block_of, invariant_of};
ghost use Rattle.dai_logic.specs.Protocols.{protocol_of};
ghost use Rattle.dai_logic.specs.Trees.{formula_of, statement_of};
ghost use Rattle.dai_model.specs.Formula.{negation, conjunction, no_formulas, with_formula};
ghost use Rattle.dai_model.specs.TwoFlags.{flag as flag_of_the_model, set_flag, swap as swap_of_the_model, two_flags as two_flags_of_the_model};

use crate::plain::relation;
use dai_base::{Spent, Text};
use dai_logic::{Action, Block, Formula, Invariant, Protocol, Step};
use std::alloc::Global;

/// The flag of this number.
fn flag(alloc: Global, number: u8) -> Formula
    ensures { formula_of result ≡ flag_of_the_model number }
{
    Formula::Rel {
        rel: number,
        args: Vec::new(alloc),
    }
}

/// Gives the flag a value.
fn set(alloc: Global, number: u8, value: bool) -> Step
    ensures { statement_of result ≡ set_flag number value }
{
    Step::SetTable {
        rel: number,
        args: Vec::new(alloc),
        body: Formula::Truth(value),
    }
}

/// Init: the first is down, and the second up.
fn begin(alloc: Global) -> Result<Block, Spent>
    ensures { IfOk result (λ b. block_of b ≡ two_flags_of_the_model.init) }
{
    Ok(Block {
        params: Vec::new(alloc),
        locals: Vec::new(alloc),
        code: vec![in alloc; set(alloc, 0, false), set(alloc, 1, true)]?,
    })
}

/// The one action: where the first is down, it goes up, and the second down.
fn swap(alloc: Global) -> Result<Action, Spent>
    ensures { IfOk result (λ a. action_of a ≡ swap_of_the_model) }
{
    let asked = Step::Require {
        body: Formula::Not(Box::new(alloc, flag(alloc, 0))?),
    };
    let code = vec![in alloc; asked, set(alloc, 0, true), set(alloc, 1, false)]?;
    Ok(Action {
        name: Text::from_bytes(alloc, b"t")?,
        block: Block {
            params: Vec::new(alloc),
            locals: Vec::new(alloc),
            code,
        },
    })
}

/// The two are both up.
fn both(alloc: Global) -> Result<Formula, Spent>
    ensures { IfOk result (λ f. formula_of f ≡ conjunction (with_formula (flag_of_the_model 0) (with_formula (flag_of_the_model 1) no_formulas))) }
{
    let flags = vec![in alloc; flag(alloc, 0), flag(alloc, 1)]?;
    Ok(Formula::All(flags))
}

/// The two are never both up.
fn apart(alloc: Global) -> Result<Invariant, Spent>
    ensures { IfOk result (λ f. invariant_of f ≡ record { label = codes "excl"; body = negation (conjunction (with_formula (flag_of_the_model 0) (with_formula (flag_of_the_model 1) no_formulas))) }) }
{
    Ok(Invariant {
        label: Text::from_bytes(alloc, b"excl")?,
        body: Formula::Not(Box::new(alloc, both(alloc)?)?),
    })
}

/// Two flags, `a` and `b`. Init lowers the first and raises the second; the one action asks that the first is down, and
/// swaps them; they are never both up.
pub fn two_flags(alloc: Global) -> Result<Protocol, Spent>
    ensures { IfOk result (λ p. protocol_of p ≡ two_flags_of_the_model) }
{
    let relations = vec![in alloc; relation(alloc, b"a", &[])?, relation(alloc, b"b", &[])?]?;
    let init = begin(alloc)?;
    let actions = vec![in alloc; swap(alloc)?]?;
    let invariants = vec![in alloc; apart(alloc)?]?;
    Ok(Protocol {
        sorts: Vec::new(alloc),
        relations,
        individuals: Vec::new(alloc),
        axioms: Vec::new(alloc),
        init,
        actions,
        invariants,
    })
}
