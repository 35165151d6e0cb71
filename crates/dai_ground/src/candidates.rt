//! The slots that a term may stand for.
ghost use Rattle.std.specs.Prelude.{◌≡◌, ◌<◌, ◌∷◌, [], ℕ, true, length, IfOk};
ghost use Rattle.dai_logic.specs.Protocols.{protocol_of};
ghost use Rattle.dai_logic.specs.Trees.{term_of};
ghost use Rattle.dai_picture.specs.Pictures.{rows_of, row_at};
ghost use Rattle.dai_ground.specs.Grounding.{IsTermIn, AreCandidates};
ghost use Rattle.dai_ground.specs.Rows.{numbered};
ghost use Rattle.dai_circuit.specs.declared.bit.Bit.TheVariants.{Known};

use crate::binding::Binding;
use dai_base::Spent;
use dai_circuit::Bit;
use dai_logic::{Protocol, Term};
use dai_picture::{Frame, Picture};
use std::alloc::Global;

/// A slot, and whether the term stands for it.
#[derive(Clone, Copy)]
pub struct Candidate {
    pub slot: usize,
    pub bit: Bit,
}

/// What formulas are grounded in: the protocol, a frame, and a picture in it.
#[derive(Drop)]
pub struct Scene<'a> {
    pub alloc: Global,
    pub protocol: &'a Protocol,
    pub frame: &'a Frame,
    pub picture: &'a Picture,
}

/// The row of this number.
pub(crate) fn row(rows: &Vec<Vec<Bit>>, number: u8) -> &[Bit]
    requires { number < length (rows_of rows.now) }
    ensures { result.now ≡ row_at (rows_of rows.now) number }
{
    &rows[number as usize]
}

/// Each slot with its bit of the row.
fn slots_of(alloc: Global, row: &[Bit]) -> Result<Vec<Candidate>, Spent>
    ensures { IfOk result (λ candidates. candidates.items ≡ numbered 0 row.now) }
{
    let mut candidates = Vec::with_capacity(alloc, row.len())?;
    for (slot, bit) in row.iter().enumerate() {
        candidates.push(Candidate { slot, bit: *bit })?;
    }
    Ok(candidates)
}

/// The one slot.
fn only(alloc: Global, slot: usize) -> Result<Vec<Candidate>, Spent>
    ensures { IfOk result (λ candidates. candidates.items ≡ numbered slot (Known true ∷ [])) }
{
    let mut candidates = Vec::with_capacity(alloc, 1)?;
    candidates.push(Candidate {
        slot,
        bit: Bit::Known(true),
    })?;
    Ok(candidates)
}

/// The slots that the term may stand for.
pub(crate) fn candidates(
    scene: &Scene,
    binding: &Binding,
    term: Term,
) -> Result<Vec<Candidate>, Spent>
    requires { (count : ℕ) × (sort : ℕ) × IsTermIn (protocol_of scene.now.protocol.now) scene.now.frame.now scene.now.picture.now count binding.now (term_of term) sort }
    ensures { IfOk result (λ candidates. (count sort : ℕ) → IsTermIn (protocol_of scene.now.protocol.now) scene.now.frame.now scene.now.picture.now count binding.now (term_of term) sort → AreCandidates (protocol_of scene.now.protocol.now) scene.now.frame.now scene.now.picture.now count binding.now (term_of term) sort candidates.items) }
{
    match term {
        Term::Var(var) => only(scene.alloc, binding.slot(var) as usize),
        Term::Ind(ind) => slots_of(scene.alloc, row(&scene.picture.values, ind)),
        Term::Par(par) => slots_of(scene.alloc, row(&scene.frame.arguments, par)),
        Term::Loc(loc) => slots_of(scene.alloc, row(&scene.frame.choices, loc)),
    }
}
