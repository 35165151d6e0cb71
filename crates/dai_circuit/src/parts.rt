ghost use Rattle.std.specs.Prelude.{◌≡◌, ◌∷◌, true, map, IfOk};
ghost use Rattle.std.specs.List.{All, list_any};
ghost use Rattle.dai_trail.specs.Formula.{IsBelow, value_at};
ghost use Rattle.dai_circuit.specs.Circuits.{is_known as is_known_to_be, is_marked as is_over_marked, literals_of, negation_of, opposite as opposite_literal, variable};

use crate::bit::{Bit, opposite};
use dai_base::Spent;
use dai_trail::Lit;
use std::alloc::Global;

/// Whether a bit is known to have a value.
fn is_known(part: Bit, value: bool) -> bool
    ensures { result ≡ is_known_to_be value part }
{
    match part {
        Bit::Known(known) => known == value,
        Bit::Is(_) => false,
    }
}

/// Whether some bit is known to have a value.
pub(crate) fn has_known(parts: &[Bit], value: bool) -> bool
    ensures { result ≡ list_any (is_known_to_be value) parts.now }
{
    for part in parts {
        if is_known(*part, value) {
            return true;
        }
    }
    false
}

/// The literals of the bits that aren't known.
pub(crate) fn literals(alloc: Global, parts: &[Bit]) -> Result<Vec<Lit>, Spent>
    ensures { IfOk result (λ lits. lits.items ≡ literals_of parts.now) }
{
    let mut lits = Vec::new(alloc);
    for part in parts {
        let Bit::Is(lit) = part else {
            continue;
        };
        lits.push(*lit)?;
    }
    Ok(lits)
}

/// The bits with the other values.
pub(crate) fn negations(alloc: Global, parts: &[Bit]) -> Result<Vec<Bit>, Spent>
    ensures { IfOk result (λ bits. bits.items ≡ map negation_of parts.now) }
{
    let mut bits = Vec::new(alloc);
    for part in parts {
        bits.push(part.negation())?;
    }
    Ok(bits)
}

/// The clause that a variable is true where all literals are.
pub(crate) fn converse(alloc: Global, var: usize, lits: &[Lit]) -> Result<Vec<Lit>, Spent>
    ensures { IfOk result (λ clause. clause.items ≡ variable var ∷ map opposite_literal lits.now) }
{
    let mut clause = Vec::new(alloc);
    clause.push(Lit {
        var,
        positive: true,
    })?;
    for lit in lits {
        clause.push(opposite(*lit))?;
    }
    Ok(clause)
}

/// Of each variable below a count whether one of the literals is over it.
pub(crate) fn variables_of(alloc: Global, vars: usize, lits: &[Lit]) -> Result<Vec<bool>, Spent>
    requires { IsBelow vars lits.now }
    ensures { IfOk result (λ marks. All (λ l. value_at marks.items l.var ≡ true) lits.now) }
{
    let mut marks = vec![in alloc; false; vars]?;
    for lit in lits {
        marks[lit.var] = true;
    }
    Ok(marks)
}

/// Whether a bit is known to be false, or that of a variable that is marked.
fn is_marked(part: Bit, marks: &[bool]) -> bool
    ensures { result ≡ is_over_marked marks.now part }
{
    match part {
        Bit::Known(value) => !value,
        Bit::Is(lit) => marks.get(lit.var).copied().unwrap_or(false),
    }
}

/// The same of each of the bits.
pub(crate) fn marked(alloc: Global, parts: &[Bit], marks: &[bool]) -> Result<Vec<bool>, Spent>
    ensures { IfOk result (λ flags. flags.items ≡ map (is_over_marked marks.now) parts.now) }
{
    let mut flags = Vec::new(alloc);
    for part in parts {
        flags.push(is_marked(*part, marks))?;
    }
    Ok(flags)
}
