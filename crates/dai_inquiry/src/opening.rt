//! A block becomes clauses.
ghost use Rattle.std.specs.Prelude.{◌≡◌, ◌+◌, ◌<◌, ◌≤◌, true, false, Some, IsSome, IfOk, OnOk, OnErr, length};
ghost use Rattle.std.specs.List.{All};
ghost use Rattle.dai_model.specs.Protocol.{Block as CalledBlock};
ghost use Rattle.dai_model.specs.WellSorted.{IsWellSortedBlock};
ghost use Rattle.dai_logic.specs.Protocols.{protocol_of, block_named};
ghost use Rattle.dai_logic.specs.Parts.{block_of};
ghost use Rattle.dai_logic.specs.Trees.{statements_of};
ghost use Rattle.dai_picture.specs.Pictures.{IsFrame, IsPicture};
ghost use Rattle.dai_inquiry.specs.Inquiries.{Follows, IsInquiry, IsFresh};

use crate::inquiry::{Inquiry, Pictures};
use crate::truths::Truths;
use dai_base::Spent;
use dai_circuit::{Bit, Circuit};
use dai_ground::candidates::Scene;
use dai_ground::code::run;
use dai_ground::merging::copy;
use dai_ground::restricting::restrict_to_axioms;
use dai_logic::{Block, BlockId, Protocol, Step};
use dai_picture::Picture;
use dai_picture::draw::{Drawing, draw};
use std::alloc::Global;

/// The block of this name.
fn called(protocol: &Protocol, block: BlockId) -> &Block
    requires { IsSome (block_named (protocol_of protocol.now) block) }
    ensures { (called : CalledBlock) → block_named (protocol_of protocol.now) block ≡ Some called → block_of result.now ≡ called }
{
    match block {
        BlockId::Init => &protocol.init,
        BlockId::Act(action) => &protocol.actions[action as usize].block,
    }
}

/// Adds that the structure meets the axioms and that the statements leave a structure, and answers the picture of this.
fn follow(circuit: &mut Circuit, scene: &Scene, code: &[Step]) -> Result<Picture, Spent>
    requires { (called : CalledBlock) × (statements_of code.now ≡ called.code) × IsWellSortedBlock (protocol_of scene.now.protocol.now) called × IsFrame (protocol_of scene.now.protocol.now) called.parameters called.choices circuit.old.vars scene.now.frame.now × IsPicture (protocol_of scene.now.protocol.now) scene.now.frame.now.slots.items circuit.old.vars scene.now.picture.now }
    ensures { IfOk result (λ after. (called : CalledBlock) → statements_of code.now ≡ called.code → IsWellSortedBlock (protocol_of scene.now.protocol.now) called → IsFrame (protocol_of scene.now.protocol.now) called.parameters called.choices circuit.old.vars scene.now.frame.now → Follows (protocol_of scene.now.protocol.now) called scene.now.frame.now scene.now.picture.now circuit.old circuit.new after) }
{
    restrict_to_axioms(circuit, scene)?;
    let mut after = copy(scene.alloc, scene.picture)?;
    let ok = run(
        circuit,
        scene.alloc,
        scene.protocol,
        scene.frame,
        &mut after,
        code,
        Bit::Known(true),
    )?;
    circuit.require(&[ok])?;
    Ok(after)
}

impl Inquiry {
    /// The inquiry of a block over the structures with at most so many elements of each type, of which there is one
    /// size of at least 1 each.
    ///
    /// # Errors
    /// `Spent` where memory is wanting, and where there are too many variables or clauses for a formula.
    pub fn open(
        alloc: Global,
        protocol: &Protocol,
        block: BlockId,
        sizes: &[u16],
    ) -> Result<Inquiry, Spent>
        requires known { IsSome (block_named (protocol_of protocol.now) block) }
        requires one_each { length sizes.now ≡ length (protocol_of protocol.now).sorts }
        requires inhabited { All (λ n. 0 < n) sizes.now }
        ensures block { IfOk result (λ q. q.block ≡ block) }
        ensures is_open { IfOk result (IsInquiry (protocol_of protocol.now) sizes.now) }
        ensures fresh { IfOk result IsFresh }
    {
        let mut circuit = Circuit::new(alloc);
        let called = called(protocol, block);
        let drawing = draw(
            alloc,
            &mut circuit,
            protocol,
            &called.params,
            &called.locals,
            sizes,
            false,
        )?;
        let Drawing {
            frame,
            picture,
            start: _,
        } = drawing;
        let scene = Scene {
            alloc,
            protocol,
            frame: &frame,
            picture: &picture,
        };
        let after = follow(&mut circuit, &scene, &called.code)?;
        Ok(Inquiry {
            alloc,
            block,
            circuit,
            pictures: Pictures {
                frame,
                before: picture,
                after,
            },
            premises: Truths::new(alloc),
            goals: Truths::new(alloc),
            goal_vars: 0,
            calls: 0,
            clauses_before: 0,
        })
    }

    /// Whether the goals brought at least half of the variables.
    pub(crate) fn is_mostly_goals(&self) -> bool
        ensures grown { result ≡ true → self.now.circuit.vars ≤ self.now.goal_vars + self.now.goal_vars + 1 }
        ensures small { result ≡ false → self.now.goal_vars + self.now.goal_vars + 1 < self.now.circuit.vars }
    {
        self.circuit.formula().vars() / 2 <= self.goal_vars
    }

    /// The most clauses that there were at once, by this inquiry and by those that it took the place of.
    pub(crate) fn most_clauses(&self) -> usize
        ensures { length self.now.circuit.clauses ≤ result }
    {
        self.clauses_before
            .max(self.circuit.formula().clause_count())
    }

    /// Begins anew with the block's clauses alone.
    ///
    /// # Errors
    /// As `open`; the inquiry is as it was then.
    pub(crate) fn reopen(&mut self, protocol: &Protocol, sizes: &[u16]) -> Result<(), Spent>
        requires inquiry { IsInquiry (protocol_of protocol.now) sizes.now self.old }
        requires one_each { length sizes.now ≡ length (protocol_of protocol.now).sorts }
        requires inhabited { All (λ n. 0 < n) sizes.now }
        ensures inquiry { IsInquiry (protocol_of protocol.now) sizes.now self.new }
        ensures block { self.new.block ≡ self.old.block }
        ensures fresh { OnOk result (IsFresh self.new) }
        ensures err { OnErr result (self.new ≡ self.old) }
    {
        let Inquiry {
            alloc: _,
            block: _,
            circuit,
            pictures,
            premises,
            goals,
            goal_vars,
            calls: _,
            clauses_before: _,
        } = Inquiry::open(self.alloc, protocol, self.block, sizes)?;
        self.clauses_before = self.most_clauses();
        self.circuit = circuit;
        self.pictures = pictures;
        self.premises = premises;
        self.goals = goals;
        self.goal_vars = goal_vars;
        Ok(())
    }
}
