//! Updates of individuals.
ghost use Rattle.std.specs.Prelude.{◌≡◌, ℕ, IfOk, OnOk};
ghost use Rattle.dai_model.specs.Formula.{update_individual};
ghost use Rattle.dai_circuit.specs.Circuits.{IsBitBelow};
ghost use Rattle.dai_logic.specs.Protocols.{protocol_of};
ghost use Rattle.dai_logic.specs.Trees.{term_of};
ghost use Rattle.dai_trail.specs.Formula as Clauses;
ghost use Rattle.dai_circuit.specs.declared.bit.Bit.{Bit as BitOf};
ghost use Rattle.dai_ground.specs.Leaving.{IsFixedIn, IsStatementIn, LeavesStatement, standing};

use crate::candidates::{Scene, row};
use dai_base::Spent;
use dai_circuit::Bit;
use dai_logic::{Protocol, Term};
use dai_picture::{Frame, Picture};
use std::alloc::Global;

/// The row of what the term stands for, which is no variable.
pub(crate) fn standing_row<'a>(scene: &'a Scene, term: Term) -> &'a [Bit]
    requires { (count : ℕ) × (sort : ℕ) × IsFixedIn (protocol_of scene.now.protocol.now) scene.now.frame.now scene.now.picture.now count (term_of term) sort }
    ensures { result.now ≡ standing scene.now.frame.now scene.now.picture.now (term_of term) }
{
    match term {
        Term::Var(_) => &[],
        Term::Ind(ind) => row(&scene.picture.values, ind),
        Term::Par(par) => row(&scene.frame.arguments, par),
        Term::Loc(loc) => row(&scene.frame.choices, loc),
    }
}

/// A copy of the row of what the term stands for.
fn new_row(scene: &Scene, term: Term) -> Result<Vec<Bit>, Spent>
    requires { (count : ℕ) × (sort : ℕ) × IsFixedIn (protocol_of scene.now.protocol.now) scene.now.frame.now scene.now.picture.now count (term_of term) sort }
    ensures { IfOk result (λ row. row.items ≡ standing scene.now.frame.now scene.now.picture.now (term_of term)) }
{
    Ok(Vec::from_slice(scene.alloc, standing_row(scene, term))?)
}

/// Lets the individual stand for what the term stands for.
pub(crate) fn update_value(
    alloc: Global,
    protocol: &Protocol,
    frame: &Frame,
    picture: &mut Picture,
    ind: u8,
    to: Term,
) -> Result<(), Spent>
    requires { (count : ℕ) × IsStatementIn (protocol_of protocol.now) frame.now picture.old count (update_individual ind (term_of to)) }
    ensures { OnOk result ((clauses : Clauses.Formula) (ok : BitOf) → IsStatementIn (protocol_of protocol.now) frame.now picture.old clauses.vars (update_individual ind (term_of to)) → IsBitBelow clauses.vars ok → LeavesStatement (protocol_of protocol.now) frame.now (update_individual ind (term_of to)) picture.old ok clauses picture.new ok) }
{
    let row = new_row(
        &Scene {
            alloc,
            protocol,
            frame,
            picture,
        },
        to,
    )?;
    picture.values[ind as usize] = row;
    Ok(())
}
