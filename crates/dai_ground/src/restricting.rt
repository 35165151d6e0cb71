//! Clauses that only structures are shown in which closed formulas have a value.
ghost use Rattle.std.specs.Prelude.{◌≡◌, true, map, IfOk, OnOk};
ghost use Rattle.std.specs.List.{All};
ghost use Rattle.std.specs.Option.{option_copied};
ghost use Rattle.dai_model.specs.WellSorted.{IsWellSorted, closed_scope};
ghost use Rattle.dai_model.specs.Value.{Satisfies, SatisfiesAxioms};
ghost use Rattle.dai_logic.specs.Protocols.{protocol_of};
ghost use Rattle.dai_logic.specs.Trees.{formula_of};
ghost use Rattle.dai_circuit.specs.Circuits.{signed as signed_bit, IsOver};
ghost use Rattle.dai_ground.specs.Asking.{RestrictsTo, HasTruth, IsScene, IsBroken, IsClosed, formula_asked};

use crate::binding::Binding;
use crate::candidates::Scene;
use crate::formulas::ground;
use dai_base::Spent;
use dai_circuit::{Bit, Circuit};
use dai_logic::Formula;
use dai_trail::Cnf;

/// The bit that is true where this one has the value.
fn signed(bit: Bit, value: bool) -> Bit
    ensures { result ≡ signed_bit value bit }
{
    if value { bit } else { bit.negation() }
}

/// Adds that the closed formula has the value in each structure that is shown.
pub(crate) fn restrict(
    circuit: &mut Circuit,
    scene: &Scene,
    formula: &Formula,
    value: bool,
) -> Result<(), Spent>
    requires scene { IsScene (protocol_of scene.now.protocol.now) scene.now.frame.now scene.now.picture.now circuit.old.vars }
    requires closed { IsWellSorted (protocol_of scene.now.protocol.now) closed_scope (formula_of formula.now) }
    ensures { OnOk result (RestrictsTo (protocol_of scene.now.protocol.now) scene.now.frame.now scene.now.picture.now (HasTruth (formula_of formula.now) value) circuit.old circuit.new) }
{
    let mut binding = Binding::new();
    let bit = ground(circuit, scene, &mut binding, formula)?;
    circuit.require(&[signed(bit, value)])
}

/// Adds that each structure that is shown meets the closed formulas.
pub(crate) fn restrict_each(
    circuit: &mut Circuit,
    scene: &Scene,
    formulas: &[Formula],
) -> Result<(), Spent>
    requires scene { IsScene (protocol_of scene.now.protocol.now) scene.now.frame.now scene.now.picture.now circuit.old.vars }
    requires closed { All (IsWellSorted (protocol_of scene.now.protocol.now) closed_scope) (map formula_of formulas.now) }
    ensures { OnOk result (RestrictsTo (protocol_of scene.now.protocol.now) scene.now.frame.now scene.now.picture.now (λ s. All (Satisfies s) (map formula_of formulas.now)) circuit.old circuit.new) }
{
    for number in 0..formulas.len() {
        restrict(circuit, scene, &formulas[number], true)?;
    }
    Ok(())
}

/// Adds that each structure that is shown meets the axioms.
pub fn restrict_to_axioms(circuit: &mut Circuit, scene: &Scene) -> Result<(), Spent>
    requires { IsScene (protocol_of scene.now.protocol.now) scene.now.frame.now scene.now.picture.now circuit.old.vars }
    ensures { OnOk result (RestrictsTo (protocol_of scene.now.protocol.now) scene.now.frame.now scene.now.picture.now (SatisfiesAxioms (protocol_of scene.now.protocol.now)) circuit.old circuit.new) }
{
    restrict_each(circuit, scene, scene.protocol.axioms.as_slice())
}

/// Adds that the closed formula, if there is one, is false in each structure that is shown.
pub(crate) fn deny(
    circuit: &mut Circuit,
    scene: &Scene,
    broken: Option<&Formula>,
) -> Result<(), Spent>
    requires scene { IsScene (protocol_of scene.now.protocol.now) scene.now.frame.now scene.now.picture.now circuit.old.vars }
    requires closed { IsClosed (protocol_of scene.now.protocol.now) (formula_asked (option_copied broken)) }
    ensures { OnOk result (RestrictsTo (protocol_of scene.now.protocol.now) scene.now.frame.now scene.now.picture.now (IsBroken (formula_asked (option_copied broken.entry))) circuit.old circuit.new) }
{
    match broken {
        None => Ok(()),
        Some(formula) => restrict(circuit, scene, formula, false),
    }
}

/// Adds to clauses that each structure that is shown meets the closed formula.
pub(crate) fn restricted(scene: &Scene, cnf: Cnf, formula: &Formula) -> Result<Cnf, Spent>
    requires over { IsOver cnf }
    requires scene { IsScene (protocol_of scene.now.protocol.now) scene.now.frame.now scene.now.picture.now cnf.vars }
    requires closed { IsWellSorted (protocol_of scene.now.protocol.now) closed_scope (formula_of formula.now) }
    ensures over { IfOk result (λ new. IsOver new) }
    ensures restricts { IfOk result (λ new. RestrictsTo (protocol_of scene.now.protocol.now) scene.now.frame.now scene.now.picture.now (HasTruth (formula_of formula.now) true) cnf new) }
{
    let mut circuit = Circuit::over(scene.alloc, cnf);
    restrict(&mut circuit, scene, formula, true)?;
    Ok(circuit.into_formula())
}
