//! The atoms of a shape.
ghost use Rattle.std.specs.Prelude.{◌≡◌, ◌<◌, ◌≤◌, ◌+◌, ◌^◌, ◌++◌, ◌∷◌, [], map, length, vec_len, slice_index, IfOk, OnOk};
ghost use Rattle.std.specs.List.{All, zip};
ghost use Rattle.dai_model.specs.Clause.{atoms_of as atoms_of_shape, relation_atoms, individual_atoms, variables_of};
ghost use Rattle.dai_logic.specs.Parts.{relation_of, individual_of};
ghost use Rattle.dai_logic.specs.Protocols.{protocol_of};
ghost use Rattle.dai_template.specs.Atoms.{atom_of};

use crate::clause::Atom;
use crate::tuples::tuples_below;
use dai_base::Spent;
use dai_logic::{IndInfo, Protocol, RelInfo};
use std::alloc::Global;

/// The atoms over so many variables of each type: for each relation its tuples of variables in lexicographic
/// order, then for each individual its equations.
pub fn atoms_of(alloc: Global, protocol: &Protocol, counts: &[u8]) -> Result<Vec<Atom>, Spent>
    requires { length counts.now ≡ vec_len protocol.now.sorts }
    ensures { IfOk result (λ atoms. map atom_of atoms.items ≡ atoms_of_shape (protocol_of protocol.now) counts.now) }
{
    let mut atoms = Vec::new(alloc);
    for (number, relation) in protocol.relations.iter().enumerate() {
        add_tuples(alloc, number as u8, relation, counts, &mut atoms)?;
    }
    for (number, individual) in protocol.individuals.iter().enumerate() {
        add_equations(number as u8, individual, counts, &mut atoms)?;
    }
    Ok(atoms)
}

/// Adds the tuples of the relation of this number.
fn add_tuples(
    alloc: Global,
    number: u8,
    relation: &RelInfo,
    counts: &[u8],
    atoms: &mut Vec<Atom>,
) -> Result<(), Spent>
    requires { All (λ sort. sort < length counts.now) relation.now.args.items }
    ensures { OnOk result (map atom_of atoms.new.items ≡ map atom_of atoms.old.items ++ relation_atoms counts.now (number, relation_of relation.now)) }
{
    let limits = limits_of(alloc, &relation.args, counts)?;
    let tuples = tuples_below(alloc, &limits)?;
    for tuple in &tuples {
        let vars = variables(alloc, &relation.args, tuple)?;
        atoms.push(Atom::Tuple { rel: number, vars })?;
    }
    Ok(())
}

/// How many variables there are of each of the types.
fn limits_of(alloc: Global, sorts: &[u8], counts: &[u8]) -> Result<Vec<u8>, Spent>
    requires { All (λ sort. sort < length counts.now) sorts.now }
    ensures { IfOk result (λ limits. limits.items ≡ map (slice_index counts.now) sorts.now) }
{
    let mut limits = Vec::with_capacity(alloc, sorts.len())?;
    for sort in sorts {
        limits.push(counts[usize::from(*sort)])?;
    }
    Ok(limits)
}

/// The variables of these types with these numbers.
fn variables(alloc: Global, sorts: &[u8], numbers: &[u8]) -> Result<Vec<(u8, u8)>, Spent>
    ensures { IfOk result (λ vars. vars.items ≡ zip sorts.now numbers.now) }
{
    Ok(
        sorts
            .iter()
            .copied()
            .zip(numbers.iter().copied())
            .collect(alloc)?,
    )
}

/// Adds the equations of the individual of this number.
fn add_equations(
    number: u8,
    individual: &IndInfo,
    counts: &[u8],
    atoms: &mut Vec<Atom>,
) -> Result<(), Spent>
    requires { individual.now.sort < length counts.now }
    ensures { OnOk result (map atom_of atoms.new.items ≡ map atom_of atoms.old.items ++ individual_atoms counts.now (number, individual_of individual.now)) }
{
    for variable in 0..counts[usize::from(individual.sort)] {
        atoms.push(Atom::IsInd {
            var: (individual.sort, variable),
            ind: number,
        })?;
    }
    Ok(())
}
