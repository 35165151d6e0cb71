//! The bits of formulas. A quantifier is a conjunction or a disjunction over the slots of its type, where each part
//! counts only if its slot is used.
ghost use Rattle.std.specs.Prelude.{◌≡◌, ◌<◌, length, map, slice_index, OnOk, if◌then◌else◌};
ghost use Rattle.dai_model.specs.Formula.{negation, conjunction as conjunction_of, disjunction as disjunction_of, equivalence as equivalence_of, universal, existential};
ghost use Rattle.dai_circuit.specs.Circuits.{IsBitBelow, AreBitsBelow, Defines, bit_value};
ghost use Rattle.dai_logic.specs.Protocols.{protocol_of};
ghost use Rattle.dai_logic.specs.Trees.{formula_of, formulas_of};
ghost use Rattle.dai_picture.specs.Pictures.{rows_of, row_at, bit_at};
ghost use Rattle.dai_ground.specs.Findings.{FindsEach, agreement_of};
ghost use Rattle.dai_ground.specs.Grounding.{IsFormulaIn, AreFormulasIn, IsBodyIn, AreValues, AreSlotValues, Grounds};

use crate::atoms::{compares, relates};
use crate::binding::Binding;
use crate::candidates::{Scene, row};
use crate::comparing::Order;
use dai_base::Spent;
use dai_circuit::{Bit, Circuit};
use dai_logic::Formula;

/// The bit that has the formula's value in each structure that is seen. The binding ends as it began.
#[cycle(ground)]
pub fn ground(
    circuit: &mut Circuit,
    scene: &Scene,
    binding: &mut Binding,
    formula: &Formula,
) -> Result<Bit, Spent>
    requires { IsFormulaIn (protocol_of scene.now.protocol.now) scene.now.frame.now scene.now.picture.now circuit.old.vars binding.old (formula_of formula.now) }
    ensures grounds { Grounds (protocol_of scene.now.protocol.now) scene.now.frame.now scene.now.picture.now binding.old (formula_of formula.now) circuit.old circuit.new result }
    ensures unchanged { OnOk result (binding.new ≡ binding.old) }
{
    match formula {
        Formula::Truth(value) => Ok(Bit::Known(*value)),
        Formula::Rel { rel, args } => relates(circuit, scene, binding, *rel, args),
        Formula::Same { left, right } => {
            compares(circuit, scene, binding, Order::Same, *left, *right)
        }
        Formula::Less { left, right } => {
            compares(circuit, scene, binding, Order::Less, *left, *right)
        }
        Formula::LessEq { left, right } => {
            compares(circuit, scene, binding, Order::LessOrSame, *left, *right)
        }
        Formula::Not(body) => negated(circuit, scene, binding, body),
        Formula::All(parts) => conjunction(circuit, scene, binding, parts),
        Formula::Any(parts) => disjunction(circuit, scene, binding, parts),
        Formula::Implies(left, right) => {
            let premise = ground(circuit, scene, binding, left)?;
            let conclusion = ground(circuit, scene, binding, right)?;
            circuit.any(&[premise.negation(), conclusion])
        }
        Formula::Iff(parts) => equivalence(circuit, scene, binding, parts),
        Formula::Forall { var, sort, body } => {
            for_all(circuit, scene, binding, *var, *sort, body)
        }
        Formula::Exists { var, sort, body } => {
            for_some(circuit, scene, binding, *var, *sort, body)
        }
    }
}

/// The bit of a negation.
#[cycle(ground)]
fn negated(
    circuit: &mut Circuit,
    scene: &Scene,
    binding: &mut Binding,
    body: &Formula,
) -> Result<Bit, Spent>
    requires { IsFormulaIn (protocol_of scene.now.protocol.now) scene.now.frame.now scene.now.picture.now circuit.old.vars binding.old (negation (formula_of body.now)) }
    ensures grounds { Grounds (protocol_of scene.now.protocol.now) scene.now.frame.now scene.now.picture.now binding.old (negation (formula_of body.now)) circuit.old circuit.new result }
    ensures unchanged { OnOk result (binding.new ≡ binding.old) }
{
    Ok(ground(circuit, scene, binding, body)?.negation())
}

/// The bit of a conjunction.
#[cycle(ground)]
fn conjunction(
    circuit: &mut Circuit,
    scene: &Scene,
    binding: &mut Binding,
    parts: &[Formula],
) -> Result<Bit, Spent>
    requires { IsFormulaIn (protocol_of scene.now.protocol.now) scene.now.frame.now scene.now.picture.now circuit.old.vars binding.old (conjunction_of (formulas_of parts.now)) }
    ensures grounds { Grounds (protocol_of scene.now.protocol.now) scene.now.frame.now scene.now.picture.now binding.old (conjunction_of (formulas_of parts.now)) circuit.old circuit.new result }
    ensures unchanged { OnOk result (binding.new ≡ binding.old) }
{
    let bits = ground_each(circuit, scene, binding, parts)?;
    circuit.all(bits.as_slice())
}

/// The bit of a disjunction.
#[cycle(ground)]
fn disjunction(
    circuit: &mut Circuit,
    scene: &Scene,
    binding: &mut Binding,
    parts: &[Formula],
) -> Result<Bit, Spent>
    requires { IsFormulaIn (protocol_of scene.now.protocol.now) scene.now.frame.now scene.now.picture.now circuit.old.vars binding.old (disjunction_of (formulas_of parts.now)) }
    ensures grounds { Grounds (protocol_of scene.now.protocol.now) scene.now.frame.now scene.now.picture.now binding.old (disjunction_of (formulas_of parts.now)) circuit.old circuit.new result }
    ensures unchanged { OnOk result (binding.new ≡ binding.old) }
{
    let bits = ground_each(circuit, scene, binding, parts)?;
    circuit.any(bits.as_slice())
}

/// The bit of a chain of `<->`.
#[cycle(ground)]
fn equivalence(
    circuit: &mut Circuit,
    scene: &Scene,
    binding: &mut Binding,
    parts: &[Formula],
) -> Result<Bit, Spent>
    requires { IsFormulaIn (protocol_of scene.now.protocol.now) scene.now.frame.now scene.now.picture.now circuit.old.vars binding.old (equivalence_of (formulas_of parts.now)) }
    ensures grounds { Grounds (protocol_of scene.now.protocol.now) scene.now.frame.now scene.now.picture.now binding.old (equivalence_of (formulas_of parts.now)) circuit.old circuit.new result }
    ensures unchanged { OnOk result (binding.new ≡ binding.old) }
{
    let bits = ground_each(circuit, scene, binding, parts)?;
    agreement(circuit, bits.as_slice())
}

/// The bit of a formula for all elements of a type.
#[cycle(ground)]
fn for_all(
    circuit: &mut Circuit,
    scene: &Scene,
    binding: &mut Binding,
    var: u8,
    sort: u8,
    body: &Formula,
) -> Result<Bit, Spent>
    requires { IsFormulaIn (protocol_of scene.now.protocol.now) scene.now.frame.now scene.now.picture.now circuit.old.vars binding.old (universal var sort (formula_of body.now)) }
    ensures grounds { Grounds (protocol_of scene.now.protocol.now) scene.now.frame.now scene.now.picture.now binding.old (universal var sort (formula_of body.now)) circuit.old circuit.new result }
    ensures unchanged { OnOk result (binding.new ≡ binding.old) }
{
    let bits = ground_slots(circuit, scene, binding, var, sort, body, true)?;
    circuit.all(bits.as_slice())
}

/// The bit of a formula for some element of a type.
#[cycle(ground)]
fn for_some(
    circuit: &mut Circuit,
    scene: &Scene,
    binding: &mut Binding,
    var: u8,
    sort: u8,
    body: &Formula,
) -> Result<Bit, Spent>
    requires { IsFormulaIn (protocol_of scene.now.protocol.now) scene.now.frame.now scene.now.picture.now circuit.old.vars binding.old (existential var sort (formula_of body.now)) }
    ensures grounds { Grounds (protocol_of scene.now.protocol.now) scene.now.frame.now scene.now.picture.now binding.old (existential var sort (formula_of body.now)) circuit.old circuit.new result }
    ensures unchanged { OnOk result (binding.new ≡ binding.old) }
{
    let bits = ground_slots(circuit, scene, binding, var, sort, body, false)?;
    circuit.any(bits.as_slice())
}

/// The bits of the formulas.
#[cycle(ground)]
fn ground_each(
    circuit: &mut Circuit,
    scene: &Scene,
    binding: &mut Binding,
    formulas: &[Formula],
) -> Result<Vec<Bit>, Spent>
    requires { AreFormulasIn (protocol_of scene.now.protocol.now) scene.now.frame.now scene.now.picture.now circuit.old.vars binding.old (formulas_of formulas.now) }
    ensures grounds { FindsEach (AreValues (protocol_of scene.now.protocol.now) scene.now.frame.now scene.now.picture.now binding.old (formulas_of formulas.now)) circuit.old circuit.new result }
    ensures unchanged { OnOk result (binding.new ≡ binding.old) }
{
    let mut bits = Vec::with_capacity(scene.alloc, formulas.len())?;
    for formula in formulas {
        bits.push(ground(circuit, scene, binding, formula)?)?;
    }
    Ok(bits)
}

/// The bits of the body as its variable stands for one slot of the type after another. A slot that isn't used has
/// the neutral bit.
#[cycle(ground)]
fn ground_slots(
    circuit: &mut Circuit,
    scene: &Scene,
    binding: &mut Binding,
    var: u8,
    sort: u8,
    body: &Formula,
    neutral: bool,
) -> Result<Vec<Bit>, Spent>
    requires { IsBodyIn (protocol_of scene.now.protocol.now) scene.now.frame.now scene.now.picture.now circuit.old.vars binding.old var sort (formula_of body.now) }
    ensures grounds { FindsEach (AreSlotValues (protocol_of scene.now.protocol.now) scene.now.frame.now scene.now.picture.now binding.old var sort (formula_of body.now) neutral (slice_index scene.now.frame.now.slots.items sort)) circuit.old circuit.new result }
    ensures unchanged { OnOk result (binding.new ≡ binding.old) }
{
    let before = binding.slot(var);
    let count = scene.frame.slots[sort as usize];
    let mut bits = Vec::with_capacity(scene.alloc, count as usize)?;
    for slot in 0..count {
        binding.bind(var, slot);
        let value = ground(circuit, scene, binding, body)?;
        bits.push(guarded(circuit, scene, sort, slot, value, neutral)?)?;
    }
    binding.bind(var, before);
    Ok(bits)
}

/// The bit where the slot is used, and else the neutral one.
fn guarded(
    circuit: &mut Circuit,
    scene: &Scene,
    sort: u8,
    slot: u16,
    value: Bit,
    neutral: bool,
) -> Result<Bit, Spent>
    requires used { AreBitsBelow circuit.old.vars (row_at (rows_of scene.now.frame.now.used) sort) }
    requires slot { slot < length (row_at (rows_of scene.now.frame.now.used) sort) }
    requires value { IsBitBelow circuit.old.vars value }
    requires sort { sort < length (rows_of scene.now.frame.now.used) }
    ensures { Defines circuit.old circuit.new result (λ bits. if bit_value bits (bit_at (row_at (rows_of scene.now.frame.now.used) sort) slot) then bit_value bits value else neutral) }
{
    let used = bit(row(&scene.frame.used, sort), slot);
    if neutral {
        circuit.any(&[used.negation(), value])
    } else {
        circuit.all(&[used, value])
    }
}

/// The bit of the slot.
fn bit(row: &[Bit], slot: u16) -> Bit
    requires { slot < length row.now }
    ensures { result ≡ bit_at row.now slot }
{
    row[slot as usize]
}

/// The bit that an even number of these is false.
fn agreement(circuit: &mut Circuit, parts: &[Bit]) -> Result<Bit, Spent>
    requires { AreBitsBelow circuit.old.vars parts.now }
    ensures { Defines circuit.old circuit.new result (λ bits. agreement_of (map (bit_value bits) parts.now)) }
{
    let mut even = Bit::Known(true);
    for part in parts {
        even = circuit.same(even, *part)?;
    }
    Ok(even)
}
