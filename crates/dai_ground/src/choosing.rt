//! A bit that has the value of one or of another, as a condition is.
ghost use Rattle.std.specs.Prelude.{◌≡◌, true};
ghost use Rattle.dai_circuit.specs.declared.bit.Bit.TheVariants.{Known, Is};
ghost use Rattle.dai_circuit.specs.Circuits.{IsBitBelow, Defines};
ghost use Rattle.dai_ground.specs.Choosing.{choice_value};

use dai_base::Spent;
use dai_circuit::{Bit, Circuit};
use dai_trail::Lit;

/// Whether the two literals are one.
fn is_same_literal(first: Lit, second: Lit) -> bool
    ensures { result ≡ true → first ≡ second }
{
    first.positive == second.positive && first.var == second.var
}

/// Whether the bit is this value.
fn is_value(bit: Bit, value: bool) -> bool
    ensures { result ≡ true → bit ≡ Known value }
{
    match bit {
        Bit::Known(known) => known == value,
        Bit::Is(_) => false,
    }
}

/// Whether the bit is this literal.
fn is_literal(bit: Bit, lit: Lit) -> bool
    ensures { result ≡ true → bit ≡ Is lit }
{
    match bit {
        Bit::Known(_) => false,
        Bit::Is(own) => is_same_literal(own, lit),
    }
}

/// Whether the two are one bit.
fn is_same(first: Bit, second: Bit) -> bool
    ensures { result ≡ true → first ≡ second }
{
    match second {
        Bit::Known(value) => is_value(first, value),
        Bit::Is(lit) => is_literal(first, lit),
    }
}

/// The bit by two implications.
fn choose(circuit: &mut Circuit, condition: Bit, first: Bit, second: Bit) -> Result<Bit, Spent>
    requires condition { IsBitBelow circuit.old.vars condition }
    requires first { IsBitBelow circuit.old.vars first }
    requires second { IsBitBelow circuit.old.vars second }
    ensures { Defines circuit.old circuit.new result (choice_value condition first second) }
{
    let met = circuit.all(&[condition, first])?;
    let unmet = circuit.all(&[condition.negation(), second])?;
    circuit.any(&[met, unmet])
}

/// The bit that has the value of the first where the condition is true, and else that of the second.
pub fn if_then_else(
    circuit: &mut Circuit,
    condition: Bit,
    first: Bit,
    second: Bit,
) -> Result<Bit, Spent>
    requires condition { IsBitBelow circuit.old.vars condition }
    requires first { IsBitBelow circuit.old.vars first }
    requires second { IsBitBelow circuit.old.vars second }
    ensures { Defines circuit.old circuit.new result (choice_value condition first second) }
{
    if is_same(first, second) {
        return Ok(first);
    }
    match condition {
        Bit::Known(true) => Ok(first),
        Bit::Known(false) => Ok(second),
        Bit::Is(_) => choose(circuit, condition, first, second),
    }
}
