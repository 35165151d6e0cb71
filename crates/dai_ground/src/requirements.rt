//! Requirements.
ghost use Rattle.std.specs.Prelude.{◌≡◌, IfOk};
ghost use Rattle.dai_model.specs.Formula.{requirement};
ghost use Rattle.dai_circuit.specs.Circuits.{IsBitBelow, Extends};
ghost use Rattle.dai_logic.specs.Protocols.{protocol_of};
ghost use Rattle.dai_logic.specs.Trees.{formula_of};
ghost use Rattle.dai_ground.specs.Grounding.{IsFormulaIn, Grounds};
ghost use Rattle.dai_ground.specs.Leaving.{IsStatementIn, LeavesStatement, no_binding};

use crate::binding::Binding;
use crate::candidates::Scene;
use crate::formulas::ground;
use dai_base::Spent;
use dai_circuit::{Bit, Circuit};
use dai_logic::Formula;

/// The bit of a formula outside of all quantifiers and targets.
pub fn ground_alone(circuit: &mut Circuit, scene: &Scene, formula: &Formula) -> Result<Bit, Spent>
    requires { IsFormulaIn (protocol_of scene.now.protocol.now) scene.now.frame.now scene.now.picture.now circuit.old.vars no_binding (formula_of formula.now) }
    ensures { Grounds (protocol_of scene.now.protocol.now) scene.now.frame.now scene.now.picture.now no_binding (formula_of formula.now) circuit.old circuit.new result }
{
    let mut binding = Binding::new();
    ground(circuit, scene, &mut binding, formula)
}

/// The bit that there is a structure after the requirement, where `ok` is the bit that there is one before.
pub(crate) fn require(
    circuit: &mut Circuit,
    scene: &Scene,
    formula: &Formula,
    ok: Bit,
) -> Result<Bit, Spent>
    requires statement { IsStatementIn (protocol_of scene.now.protocol.now) scene.now.frame.now scene.now.picture.now circuit.old.vars (requirement (formula_of formula.now)) }
    requires ok { IsBitBelow circuit.old.vars ok }
    ensures extends { Extends circuit.old circuit.new }
    ensures leaves { IfOk result (λ answer. LeavesStatement (protocol_of scene.now.protocol.now) scene.now.frame.now (requirement (formula_of formula.now)) scene.now.picture.now ok circuit.new scene.now.picture.now answer) }
{
    let value = ground_alone(circuit, scene, formula)?;
    circuit.all(&[ok, value])
}
