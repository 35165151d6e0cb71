//! The bits of atoms: a relation of a tuple of terms, and two terms that are compared.
ghost use Rattle.std.specs.Prelude.{◌≡◌, ℕ, List, Some, IsSome, IfOk, map, slice_get};
ghost use Rattle.dai_model.specs.Protocol.{Relation};
ghost use Rattle.dai_model.specs.Formula.{relates as relates_of, same, less, less_or_same};
ghost use Rattle.dai_logic.specs.Protocols.{protocol_of};
ghost use Rattle.dai_logic.specs.Trees.{term_of};
ghost use Rattle.dai_ground.specs.Atoms.{comparison_of, columns_of, AreColumns};
ghost use Rattle.dai_ground.specs.Grounding.{IsFormulaIn, AreTermsIn, Grounds};

use crate::binding::Binding;
use crate::candidates::{Candidate, Scene, candidates, row};
use crate::comparing::{Order, compare};
use crate::lookup::{Lookup, look_up};
use dai_base::Spent;
use dai_circuit::{Bit, Circuit};
use dai_logic::{Protocol, Term};

/// The bit of two terms that are compared.
pub(crate) fn compares(
    circuit: &mut Circuit,
    scene: &Scene,
    binding: &Binding,
    order: Order,
    left: Term,
    right: Term,
) -> Result<Bit, Spent>
    requires { IsFormulaIn (protocol_of scene.now.protocol.now) scene.now.frame.now scene.now.picture.now circuit.old.vars binding.now (comparison_of order (term_of left) (term_of right)) }
    ensures { Grounds (protocol_of scene.now.protocol.now) scene.now.frame.now scene.now.picture.now binding.now (comparison_of order (term_of left) (term_of right)) circuit.old circuit.new result }
{
    let first = candidates(scene, binding, left)?;
    let second = candidates(scene, binding, right)?;
    compare(
        scene.alloc,
        circuit,
        order,
        first.as_slice(),
        second.as_slice(),
    )
}

/// The types of the relation's arguments.
pub(crate) fn sorts_of(protocol: &Protocol, rel: u8) -> &[u8]
    requires { IsSome (slice_get (protocol_of protocol.now).relations rel) }
    ensures { (R : Relation) → slice_get (protocol_of protocol.now).relations rel ≡ Some R → result.now ≡ R.arguments }
{
    &protocol.relations[rel as usize].args
}

/// The slots that each term may stand for.
fn columns(scene: &Scene, binding: &Binding, terms: &[Term]) -> Result<Vec<Vec<Candidate>>, Spent>
    requires { (count : ℕ) × (sorts : List ℕ) × AreTermsIn (protocol_of scene.now.protocol.now) scene.now.frame.now scene.now.picture.now count binding.now (map term_of terms.now) sorts }
    ensures { IfOk result (λ columns. (count : ℕ) (sorts : List ℕ) → AreTermsIn (protocol_of scene.now.protocol.now) scene.now.frame.now scene.now.picture.now count binding.now (map term_of terms.now) sorts → AreColumns (protocol_of scene.now.protocol.now) scene.now.frame.now scene.now.picture.now count binding.now (map term_of terms.now) sorts (columns_of columns.items)) }
{
    let mut columns = Vec::with_capacity(scene.alloc, terms.len())?;
    for term in terms {
        columns.push(candidates(scene, binding, *term)?)?;
    }
    Ok(columns)
}

/// The bit of the relation of the terms' tuple.
pub(crate) fn relates(
    circuit: &mut Circuit,
    scene: &Scene,
    binding: &Binding,
    rel: u8,
    terms: &[Term],
) -> Result<Bit, Spent>
    requires { IsFormulaIn (protocol_of scene.now.protocol.now) scene.now.frame.now scene.now.picture.now circuit.old.vars binding.now (relates_of rel (map term_of terms.now)) }
    ensures { Grounds (protocol_of scene.now.protocol.now) scene.now.frame.now scene.now.picture.now binding.now (relates_of rel (map term_of terms.now)) circuit.old circuit.new result }
{
    let columns = columns(scene, binding, terms)?;
    let lookup = Lookup {
        alloc: scene.alloc,
        slots: scene.frame.slots.as_slice(),
        sorts: sorts_of(scene.protocol, rel),
        table: row(&scene.picture.tables, rel),
        columns: columns.as_slice(),
    };
    look_up(circuit, &lookup, 0, 0)
}
