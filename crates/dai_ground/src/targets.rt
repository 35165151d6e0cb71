//! Targets of updates: whether a tuple of slots matches, and what the target's variables stand for there.
ghost use Rattle.std.specs.Prelude.{◌≡◌, ◌∷◌, ℕ, List, length, map, IfOk, IsTrue};
ghost use Rattle.dai_model.specs.Formula.{Term as ModelTerm};
ghost use Rattle.dai_model.specs.Structure.{is_tuple};
ghost use Rattle.dai_model.specs.Execution.{bind_target};
ghost use Rattle.dai_logic.specs.Protocols.{protocol_of};
ghost use Rattle.dai_logic.specs.Trees.{term_of, formula_of};
ghost use Rattle.dai_ground.specs.Findings.{Finds};
ghost use Rattle.dai_ground.specs.Grounding.{environment};
ghost use Rattle.dai_ground.specs.Updating.{IsUpdateIn, IsTargetTerm, IsSeenAt, match_bit as match_bit_of, match_bits as match_bits_of, matches_at, value_there};

use crate::binding::Binding;
use crate::candidates::Scene;
use crate::formulas::ground;
use crate::values::standing_row;
use dai_base::Spent;
use dai_circuit::{Bit, Circuit};
use dai_logic::{Formula, Term};

/// An update of a relation with these types, whose target and formula these are.
#[derive(Drop)]
pub(crate) struct Update<'a> {
    pub sorts: &'a [u8],
    pub target: &'a [Term],
    pub body: &'a Formula,
}

/// The bit that the term is a variable or stands for the slot.
fn match_bit(scene: &Scene, term: Term, slot: u16) -> Bit
    requires { (count : ℕ) × (sort : ℕ) × IsTargetTerm (protocol_of scene.now.protocol.now) scene.now.frame.now scene.now.picture.now count (term_of term) sort slot }
    ensures { result ≡ match_bit_of scene.now.frame.now scene.now.picture.now (term_of term) slot }
{
    match term {
        Term::Var(_) => Bit::Known(true),
        _ => standing_row(scene, term)[slot as usize],
    }
}

/// The bits of each term of the target.
fn match_bits(scene: &Scene, update: &Update, tuple: &[u16]) -> Result<Vec<Bit>, Spent>
    requires update { (count : ℕ) × IsUpdateIn (protocol_of scene.now.protocol.now) scene.now.frame.now scene.now.picture.now count (map term_of update.now.target.now) update.now.sorts.now (formula_of update.now.body.now) }
    requires tuple { IsTrue (is_tuple scene.now.frame.now.slots.items update.now.sorts.now tuple.now) }
    ensures { IfOk result (λ bits. bits.items ≡ match_bits_of scene.now.frame.now scene.now.picture.now (map term_of update.now.target.now) tuple.now) }
{
    let mut bits = Vec::with_capacity(scene.alloc, tuple.len())?;
    for place in 0..update.target.len() {
        bits.push(match_bit(scene, update.target[place], tuple[place]))?;
    }
    Ok(bits)
}

/// The bit that the target matches the tuple.
pub(crate) fn matching(
    circuit: &mut Circuit,
    scene: &Scene,
    update: &Update,
    tuple: &[u16],
) -> Result<Bit, Spent>
    requires update { IsUpdateIn (protocol_of scene.now.protocol.now) scene.now.frame.now scene.now.picture.now circuit.old.vars (map term_of update.now.target.now) update.now.sorts.now (formula_of update.now.body.now) }
    requires tuple { IsTrue (is_tuple scene.now.frame.now.slots.items update.now.sorts.now tuple.now) }
    ensures { Finds (IsSeenAt (protocol_of scene.now.protocol.now) scene.now.frame.now scene.now.picture.now (map term_of update.now.target.now) update.now.sorts.now (formula_of update.now.body.now) tuple.now (matches_at (map term_of update.now.target.now) tuple.now)) circuit.old circuit.new result }
{
    let bits = match_bits(scene, update, tuple)?;
    circuit.all(bits.as_slice())
}

/// Lets the term stand for the slot, if it is a variable.
fn bind_term(binding: &mut Binding, term: Term, slot: u16)
    requires { length binding.old ≡ 256 }
    ensures long { length binding.new ≡ 256 }
    ensures bound { (arguments choices : List ℕ) (ts : List ModelTerm) (es : List ℕ) → bind_target (environment binding.new arguments choices) ts es ≡ bind_target (environment binding.old arguments choices) (term_of term ∷ ts) (slot ∷ es) }
{
    if let Term::Var(var) = term {
        binding.bind(var, slot);
    }
}

/// Lets the variables of the target stand for the slots at their places.
fn bind_all(binding: &mut Binding, target: &[Term], tuple: &[u16])
    requires long { length binding.old ≡ 256 }
    requires each { length target.now ≡ length tuple.now }
    ensures { (arguments choices : List ℕ) → environment binding.new arguments choices ≡ bind_target (environment binding.old arguments choices) (map term_of target.now) tuple.now }
{
    for place in 0..target.len() {
        bind_term(binding, target[place], tuple[place]);
    }
}

/// The bit of the update's formula where the target's variables stand for the slots at their places.
pub(crate) fn body_bit(
    circuit: &mut Circuit,
    scene: &Scene,
    update: &Update,
    tuple: &[u16],
) -> Result<Bit, Spent>
    requires update { IsUpdateIn (protocol_of scene.now.protocol.now) scene.now.frame.now scene.now.picture.now circuit.old.vars (map term_of update.now.target.now) update.now.sorts.now (formula_of update.now.body.now) }
    requires tuple { IsTrue (is_tuple scene.now.frame.now.slots.items update.now.sorts.now tuple.now) }
    ensures { Finds (IsSeenAt (protocol_of scene.now.protocol.now) scene.now.frame.now scene.now.picture.now (map term_of update.now.target.now) update.now.sorts.now (formula_of update.now.body.now) tuple.now (value_there (map term_of update.now.target.now) tuple.now (formula_of update.now.body.now))) circuit.old circuit.new result }
{
    let mut binding = Binding::new();
    bind_all(&mut binding, update.target, tuple);
    ground(circuit, scene, &mut binding, update.body)
}
