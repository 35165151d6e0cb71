//! Questions as clauses: from which structures does a block lead to one in which a formula is false?
ghost use Rattle.std.specs.Prelude.{◌≡◌, ◌<◌, [], ℕ, Bool, true, false, List, Some, IsSome, IfOk, OnOk, length, map};
ghost use Rattle.std.specs.List.{All};
ghost use Rattle.std.specs.Option.{option_copied};
ghost use Rattle.dai_trail.specs.Formula.{formula_of as clauses_of};
ghost use Rattle.dai_model.specs.Protocol.{Block as CalledBlock};
ghost use Rattle.dai_model.specs.WellSorted.{IsWellSorted, closed_scope};
ghost use Rattle.dai_logic.specs.Protocols.{protocol_of, block_named};
ghost use Rattle.dai_logic.specs.Trees.{formula_of, statements_of};
ghost use Rattle.dai_picture.specs.Pictures.{IsFrame, IsPicture};
ghost use Rattle.dai_picture.specs.Drawing.{AreBefore, AreInOrder};
ghost use Rattle.dai_ground.specs.Questions.{IsDrawn, IsQuestion, IsDecided};
ghost use Rattle.dai_ground.specs.Asking.{Restricts, EachWorld, SomeWorld, Leads, RefutesFrom, IsClosed, IsKnown, formula_asked, block_asked, parameters_asked, choices_asked};

use crate::candidates::Scene;
use crate::code::run;
use crate::merging::copy;
use crate::restricting::{deny, restrict_each, restrict_to_axioms};
use crate::wide::{Grounded, Wide};
use dai_base::Spent;
use dai_circuit::{Bit, Circuit};
use dai_logic::{BlockId, Formula, Protocol, Step};
use dai_picture::draw::{Drawing, draw};
use std::alloc::Global;

/// The statements of the block.
fn code_of(protocol: &Protocol, block: BlockId) -> &[Step]
    requires { IsSome (block_named (protocol_of protocol.now) block) }
    ensures { (called : CalledBlock) → block_named (protocol_of protocol.now) block ≡ Some called → statements_of result.now ≡ called.code }
{
    match block {
        BlockId::Init => &protocol.init.code,
        BlockId::Act(action) => &protocol.actions[action as usize].block.code,
    }
}

/// Adds that the block leads to a structure in which the closed formula, if there is one, is false.
fn lead(
    circuit: &mut Circuit,
    scene: &Scene,
    block: BlockId,
    broken: Option<&Formula>,
) -> Result<(), Spent>
    requires frame { (called : CalledBlock) × (block_named (protocol_of scene.now.protocol.now) block ≡ Some called) × IsFrame (protocol_of scene.now.protocol.now) called.parameters called.choices circuit.old.vars scene.now.frame.now }
    requires picture { IsPicture (protocol_of scene.now.protocol.now) scene.now.frame.now.slots.items circuit.old.vars scene.now.picture.now }
    requires closed { IsClosed (protocol_of scene.now.protocol.now) (formula_asked (option_copied broken)) }
    ensures { OnOk result ((called : CalledBlock) (exact : Bool) → block_named (protocol_of scene.now.protocol.now) block ≡ Some called → Restricts (EachWorld (protocol_of scene.now.protocol.now) called.parameters called.choices exact scene.now.frame.now scene.now.picture.now (Leads (protocol_of scene.now.protocol.now) called (formula_asked (option_copied broken.entry)))) (SomeWorld (protocol_of scene.now.protocol.now) called.parameters called.choices exact scene.now.frame.now scene.now.picture.now (Leads (protocol_of scene.now.protocol.now) called (formula_asked (option_copied broken.entry)))) circuit.old circuit.new) }
{
    let mut after = copy(scene.alloc, scene.picture)?;
    let code = code_of(scene.protocol, block);
    let ok = run(
        circuit,
        scene.alloc,
        scene.protocol,
        scene.frame,
        &mut after,
        code,
        Bit::Known(true),
    )?;
    circuit.require(&[ok])?;
    let left = Scene {
        alloc: scene.alloc,
        protocol: scene.protocol,
        frame: scene.frame,
        picture: &after,
    };
    deny(circuit, &left, broken)
}

/// The types of the block's parameters; without a block there are none.
fn parameters_of(protocol: &Protocol, block: Option<BlockId>) -> &[u8]
    requires { IsKnown (protocol_of protocol.now) block }
    ensures { result.now ≡ parameters_asked (block_asked (protocol_of protocol.now) block) }
{
    match block {
        None => &[],
        Some(BlockId::Init) => &protocol.init.params,
        Some(BlockId::Act(action)) => &protocol.actions[action as usize].block.params,
    }
}

/// The types of the block's locals; without a block there are none.
fn choices_of(protocol: &Protocol, block: Option<BlockId>) -> &[u8]
    requires { IsKnown (protocol_of protocol.now) block }
    ensures { result.now ≡ choices_asked (block_asked (protocol_of protocol.now) block) }
{
    match block {
        None => &[],
        Some(BlockId::Init) => &protocol.init.locals,
        Some(BlockId::Act(action)) => &protocol.actions[action as usize].block.locals,
    }
}

/// Adds that the structure meets the axioms and the closed formulas before, and that the block leads from it to one in
/// which the closed formula, if there is one, is false; without a block, that it is false in the structure itself.
fn pose(
    circuit: &mut Circuit,
    scene: &Scene,
    block: Option<BlockId>,
    before: &[Formula],
    broken: Option<&Formula>,
) -> Result<(), Spent>
    requires known { IsKnown (protocol_of scene.now.protocol.now) block }
    requires frame { IsFrame (protocol_of scene.now.protocol.now) (parameters_asked (block_asked (protocol_of scene.now.protocol.now) block)) (choices_asked (block_asked (protocol_of scene.now.protocol.now) block)) circuit.old.vars scene.now.frame.now }
    requires picture { IsPicture (protocol_of scene.now.protocol.now) scene.now.frame.now.slots.items circuit.old.vars scene.now.picture.now }
    requires before { All (IsWellSorted (protocol_of scene.now.protocol.now) closed_scope) (map formula_of before.now) }
    requires closed { IsClosed (protocol_of scene.now.protocol.now) (formula_asked (option_copied broken)) }
    ensures { OnOk result ((exact : Bool) → Restricts (EachWorld (protocol_of scene.now.protocol.now) (parameters_asked (block_asked (protocol_of scene.now.protocol.now) block)) (choices_asked (block_asked (protocol_of scene.now.protocol.now) block)) exact scene.now.frame.now scene.now.picture.now (RefutesFrom (protocol_of scene.now.protocol.now) (block_asked (protocol_of scene.now.protocol.now) block) (map formula_of before.now) (formula_asked (option_copied broken.entry)))) (SomeWorld (protocol_of scene.now.protocol.now) (parameters_asked (block_asked (protocol_of scene.now.protocol.now) block)) (choices_asked (block_asked (protocol_of scene.now.protocol.now) block)) exact scene.now.frame.now scene.now.picture.now (RefutesFrom (protocol_of scene.now.protocol.now) (block_asked (protocol_of scene.now.protocol.now) block) (map formula_of before.now) (formula_asked (option_copied broken.entry)))) circuit.old circuit.new) }
{
    restrict_to_axioms(circuit, scene)?;
    restrict_each(circuit, scene, before)?;
    match block {
        None => deny(circuit, scene, broken),
        Some(called) => lead(circuit, scene, called, broken),
    }
}

/// The picture of all worlds of the block with at most so many elements of each type, or with exactly so many.
fn drawn(
    alloc: Global,
    circuit: &mut Circuit,
    protocol: &Protocol,
    block: Option<BlockId>,
    sizes: &[u16],
    exact: bool,
) -> Result<Drawing, Spent>
    requires empty { circuit.old ≡ clauses_of 0 [] }
    requires known { IsKnown (protocol_of protocol.now) block }
    requires one_each { length sizes.now ≡ length (protocol_of protocol.now).sorts }
    requires inhabited { All (λ n. 0 < n) sizes.now }
    ensures { IfOk result (IsDrawn (protocol_of protocol.now) (block_asked (protocol_of protocol.now) block) exact sizes.now circuit.new) }
{
    let parameters = parameters_of(protocol, block);
    let choices = choices_of(protocol, block);
    let drawing = draw(alloc, circuit, protocol, parameters, choices, sizes, exact)?;
    Ok(drawing)
}

/// The question over a picture that was drawn, with so many variables at the front.
fn posed(
    mut circuit: Circuit,
    alloc: Global,
    protocol: &Protocol,
    block: Option<BlockId>,
    before: &[Formula],
    broken: Option<&Formula>,
    drawing: Drawing,
    bits: usize,
) -> Result<Wide, Spent>
    requires known { IsKnown (protocol_of protocol.now) block }
    requires drawing { (exact : Bool) × (sizes : List ℕ) × IsDrawn (protocol_of protocol.now) (block_asked (protocol_of protocol.now) block) exact sizes circuit drawing }
    requires before { All (IsWellSorted (protocol_of protocol.now) closed_scope) (map formula_of before.now) }
    requires closed { IsClosed (protocol_of protocol.now) (formula_asked (option_copied broken)) }
    ensures bits { IfOk result (λ q. q.bits ≡ bits) }
    ensures frame { IfOk result (λ q. q.frame ≡ drawing.frame) }
    ensures picture { IfOk result (λ q. q.picture ≡ drawing.picture) }
    ensures question { IfOk result (λ q. (exact : Bool) (sizes : List ℕ) → IsDrawn (protocol_of protocol.now) (block_asked (protocol_of protocol.now) block) exact sizes circuit drawing → IsQuestion (protocol_of protocol.now) (block_asked (protocol_of protocol.now) block) exact sizes (map formula_of before.now) (formula_asked (option_copied broken.entry)) q) }
{
    let Drawing {
        frame,
        picture,
        start: _,
    } = drawing;
    let scene = Scene {
        alloc,
        protocol,
        frame: &frame,
        picture: &picture,
    };
    pose(&mut circuit, &scene, block, before, broken)?;
    Ok(Wide {
        cnf: circuit.into_formula(),
        bits,
        frame,
        picture,
    })
}

/// The question over all sizes up to these, of which there is one of at least 1 for each type: which structures that
/// meet the axioms does the block lead to one in which the closed formula, if there is one, is false? Without a block
/// it is asked of the structure itself. Each assignment that meets the clauses shows such a structure, with arguments
/// and choices, and each of them is shown. A slot of a type is used only where all earlier ones are.
///
/// # Errors
/// `Spent` where memory is wanting, and where there are too many variables or clauses for a formula.
pub fn ground_wide(
    alloc: Global,
    protocol: &Protocol,
    block: Option<BlockId>,
    broken: Option<&Formula>,
    sizes: &[u16],
) -> Result<Wide, Spent>
    requires known { IsKnown (protocol_of protocol.now) block }
    requires one_each { length sizes.now ≡ length (protocol_of protocol.now).sorts }
    requires inhabited { All (λ n. 0 < n) sizes.now }
    requires closed { IsClosed (protocol_of protocol.now) (formula_asked (option_copied broken)) }
    ensures question { IfOk result (IsQuestion (protocol_of protocol.now) (block_asked (protocol_of protocol.now) block) false sizes.now [] (formula_asked (option_copied broken.entry))) }
    ensures decided { IfOk result (IsDecided (protocol_of protocol.now) (block_asked (protocol_of protocol.now) block)) }
{
    let mut circuit = Circuit::new(alloc);
    let drawing = drawn(alloc, &mut circuit, protocol, block, sizes, false)?;
    let bits = circuit.formula().vars();
    let wide = posed(circuit, alloc, protocol, block, &[], broken, drawing, bits)?;
    Ok(wide)
}

/// The question at exactly these sizes, of which there is one of at least 1 for each type: which structures that meet
/// the axioms and the closed formulas before does the block lead to one in which the closed formula, if there is one, is
/// false? Without a block it is asked of the structure itself. Each assignment that meets the clauses shows such a
/// structure, with arguments and choices, and each of them is shown. The variables at the front are, in this order, the
/// truth values of each relation's tuples in lexicographic order, a bit for each element that an individual may be, and
/// the same of each local; those of the parameters come after them.
///
/// # Errors
/// `Spent` where memory is wanting, and where there are too many variables or clauses for a formula.
pub fn ground(
    alloc: Global,
    protocol: &Protocol,
    block: Option<BlockId>,
    before: &[Formula],
    broken: Option<&Formula>,
    sizes: &[u16],
) -> Result<Grounded, Spent>
    requires known { IsKnown (protocol_of protocol.now) block }
    requires one_each { length sizes.now ≡ length (protocol_of protocol.now).sorts }
    requires inhabited { All (λ n. 0 < n) sizes.now }
    requires before { All (IsWellSorted (protocol_of protocol.now) closed_scope) (map formula_of before.now) }
    requires closed { IsClosed (protocol_of protocol.now) (formula_asked (option_copied broken)) }
    ensures question { IfOk result (IsQuestion (protocol_of protocol.now) (block_asked (protocol_of protocol.now) block) true sizes.now (map formula_of before.now) (formula_asked (option_copied broken.entry))) }
    ensures front { IfOk result (λ q. AreBefore (protocol_of protocol.now) (choices_asked (block_asked (protocol_of protocol.now) block)) q.bits q.frame q.picture) }
    ensures order { IfOk result (λ q. AreInOrder 0 q.bits q.frame q.picture) }
{
    let mut circuit = Circuit::new(alloc);
    let drawing = drawn(alloc, &mut circuit, protocol, block, sizes, true)?;
    let bits = drawing.start;
    let grounded = posed(
        circuit, alloc, protocol, block, before, broken, drawing, bits,
    )?;
    Ok(grounded)
}
