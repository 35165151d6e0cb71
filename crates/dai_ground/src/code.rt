//! What blocks leave: a picture goes through statements, one after another.
ghost use Rattle.std.specs.Prelude.{◌≡◌, IfOk};
ghost use Rattle.dai_circuit.specs.Circuits.{IsBitBelow, Extends};
ghost use Rattle.dai_logic.specs.Protocols.{protocol_of};
ghost use Rattle.dai_logic.specs.Trees.{statement_of, statements_of};
ghost use Rattle.dai_ground.specs.Leaving.{IsCodeIn, IsStatementIn, LeavesCode, LeavesStatement};

use crate::candidates::Scene;
use crate::merging::{copy, join};
use crate::requirements::{ground_alone, require};
use crate::updates::update_table;
use crate::values::update_value;
use dai_base::Spent;
use dai_circuit::{Bit, Circuit};
use dai_logic::{Protocol, Step};
use dai_picture::{Frame, Picture};
use std::alloc::Global;

/// Lets a picture go through the statements. `ok` is the bit that there is a structure so far; the answer is the bit
/// that there is one after. After an error the picture is of no matter.
#[cycle(run)]
pub fn run(
    circuit: &mut Circuit,
    alloc: Global,
    protocol: &Protocol,
    frame: &Frame,
    picture: &mut Picture,
    code: &[Step],
    ok: Bit,
) -> Result<Bit, Spent>
    requires code { IsCodeIn (protocol_of protocol.now) frame.now picture.old circuit.old.vars (statements_of code.now) }
    requires ok { IsBitBelow circuit.old.vars ok }
    ensures extends { Extends circuit.old circuit.new }
    ensures leaves { IfOk result (λ answer. LeavesCode (protocol_of protocol.now) frame.now (statements_of code.now) picture.old ok circuit.new picture.new answer) }
{
    let mut left = ok;
    for step in code {
        left = run_step(circuit, alloc, protocol, frame, picture, step, left)?;
    }
    Ok(left)
}

#[cycle(run)]
fn run_step(
    circuit: &mut Circuit,
    alloc: Global,
    protocol: &Protocol,
    frame: &Frame,
    picture: &mut Picture,
    step: &Step,
    ok: Bit,
) -> Result<Bit, Spent>
    requires code { IsStatementIn (protocol_of protocol.now) frame.now picture.old circuit.old.vars (statement_of step.now) }
    requires ok { IsBitBelow circuit.old.vars ok }
    ensures extends { Extends circuit.old circuit.new }
    ensures leaves { IfOk result (λ answer. LeavesStatement (protocol_of protocol.now) frame.now (statement_of step.now) picture.old ok circuit.new picture.new answer) }
{
    let scene = Scene {
        alloc,
        protocol,
        frame,
        picture,
    };
    match step {
        Step::Require { body } => require(circuit, &scene, body, ok),
        Step::SetTable { rel, args, body } => {
            update_table(circuit, alloc, protocol, frame, picture, *rel, args, body)?;
            Ok(ok)
        }
        Step::SetValue { ind, to } => {
            update_value(alloc, protocol, frame, picture, *ind, *to)?;
            Ok(ok)
        }
        Step::Cond { cond, yes, no } => {
            let value = ground_alone(circuit, &scene, cond)?;
            let mut other = copy(alloc, picture)?;
            let first = run(circuit, alloc, protocol, frame, picture, yes, ok)?;
            let second = run(circuit, alloc, protocol, frame, &mut other, no, ok)?;
            join(alloc, circuit, value, picture, &other, first, second)
        }
    }
}
