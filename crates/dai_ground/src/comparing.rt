//! The bits of equations and inequalities.
ghost use Rattle.std.specs.Prelude.{◌≡◌};
ghost use Rattle.dai_ground.specs.Atoms.{compares, AreOver, IsComparedWith, IsComparison};
ghost use Rattle.dai_ground.specs.Findings.{Finds};

use crate::candidates::Candidate;
use dai_base::Spent;
use dai_circuit::{Bit, Circuit};
use std::alloc::Global;

/// How two elements are compared.
#[derive(Clone, Copy)]
pub enum Order {
    Same,
    Less,
    LessOrSame,
}

impl Order {
    /// Whether the slots compare so.
    fn holds(self, left: usize, right: usize) -> bool
        ensures { result ≡ compares self left right }
    {
        match self {
            Order::Same => left == right,
            Order::Less => left < right,
            Order::LessOrSame => left <= right,
        }
    }
}

/// The bit that is true where the slot compares so with what the candidates stand for.
fn compare_slot(
    alloc: Global,
    circuit: &mut Circuit,
    order: Order,
    left: usize,
    right: &[Candidate],
) -> Result<Bit, Spent>
    requires { AreOver circuit.old.vars right.now }
    ensures { Finds (IsComparedWith order left right.now) circuit.old circuit.new result }
{
    let mut parts = Vec::new(alloc);
    for candidate in right {
        if order.holds(left, candidate.slot) {
            parts.push(candidate.bit)?;
        }
    }
    circuit.any(parts.as_slice())
}

/// The bit that is true where what the candidates on the left stand for compares so with what those on the right
/// do.
pub(crate) fn compare(
    alloc: Global,
    circuit: &mut Circuit,
    order: Order,
    left: &[Candidate],
    right: &[Candidate],
) -> Result<Bit, Spent>
    requires left { AreOver circuit.old.vars left.now }
    requires right { AreOver circuit.old.vars right.now }
    ensures { Finds (IsComparison order left.now right.now) circuit.old circuit.new result }
{
    let mut parts = Vec::with_capacity(alloc, left.len())?;
    for candidate in left {
        let compared = compare_slot(alloc, circuit, order, candidate.slot, right)?;
        parts.push(circuit.all(&[candidate.bit, compared])?)?;
    }
    circuit.any(parts.as_slice())
}
