//! The sizes that every question about a protocol needs.
ghost use Rattle.std.specs.Prelude.{◌≡◌, ◌≤◌, ◌<◌, ◌+◌, ◌^◌, length, max, vec_len, IfOk, count_by, nat_eq};
ghost use Rattle.dai_model.specs.Profile.{IsUniversalSentence, requirements_in, witnesses_in};
ghost use Rattle.dai_model.specs.Sizes.{count_of, block_count, individual_count, invariant_count, most_in_a_block, most_in_an_invariant, size_bounds};
ghost use Rattle.dai_logic.specs.declared.protocol.IndInfo.{IndInfo};
ghost use Rattle.dai_logic.specs.Parts.{block_of, invariant_of};
ghost use Rattle.dai_logic.specs.Protocols.{protocol_of};
ghost use Rattle.dai_logic.specs.Trees.{statements_of};

use crate::witnesses::{in_code, in_formula};
use dai_base::Spent;
use dai_logic::{Block, IndInfo, Invariant, Protocol};
use std::alloc::Global;

/// For each type the size up to which the questions about clauses with at most so many variables, and about the
/// invariants, are decided: at least an element for each of its individuals, of a block's parameters, choices
/// and witnesses, and of the variables. `vars` has one number for each type.
pub fn bounds(alloc: Global, protocol: &Protocol, vars: &[u8]) -> Result<Vec<u16>, Spent>
    requires { length vars.now ≡ vec_len protocol.now.sorts }
    ensures { IfOk result (λ sizes. sizes.items ≡ size_bounds (protocol_of protocol.now) vars.now) }
{
    let mut sizes = Vec::with_capacity(alloc, vars.len())?;
    for (sort, variables) in vars.iter().enumerate() {
        sizes.push(bound(protocol, *variables, sort))?;
    }
    Ok(sizes)
}

/// The bound of one type.
fn bound(protocol: &Protocol, variables: u8, sort: usize) -> u16
    ensures { let P = protocol_of protocol.now in
        result ≡ max (individual_count P sort + most_in_a_block P sort + variables) (max (individual_count P sort + most_in_an_invariant P sort) 1) }
{
    let individuals = individuals(protocol, sort);
    let for_blocks = individuals + in_a_block(protocol, sort) + usize::from(variables);
    let for_invariants = individuals + in_an_invariant(protocol, sort);
    for_blocks.max(for_invariants.max(1)) as u16
}

/// How many individuals are of the type.
fn individuals(protocol: &Protocol, sort: usize) -> usize
    ensures count { result ≡ individual_count (protocol_of protocol.now) sort }
    ensures few { result ≤ 16 }
{
    individuals_of(&protocol.individuals, sort)
}

/// How many of the individuals are of the type.
fn individuals_of(individuals: &[IndInfo], sort: usize) -> usize
    ensures count { result ≡ count_by (λ (i : IndInfo). nat_eq i.sort sort) individuals.now }
    ensures few { result ≤ length individuals.now }
{
    individuals
        .iter()
        .filter(|individual| usize::from(individual.sort) == sort)
        .count()
}

/// The most that a block has of the type.
fn in_a_block(protocol: &Protocol, sort: usize) -> usize
    ensures most { result ≡ most_in_a_block (protocol_of protocol.now) sort }
    ensures few { result ≤ 28 }
{
    let mut most = in_block(&protocol.init, sort);
    for action in &protocol.actions {
        most = most.max(in_block(&action.block, sort));
    }
    most
}

/// How many parameters, choices and witnesses of the block are of the type.
fn in_block(block: &Block, sort: usize) -> usize
    requires parameters { length block.now.params.items ≤ 6 }
    requires choices { length block.now.locals.items ≤ 6 }
    requires witnesses { length (witnesses_in (requirements_in (statements_of block.now.code.items))) ≤ 16 }
    ensures count { result ≡ block_count sort (block_of block.now) }
    ensures few { result ≤ 28 }
{
    of_sort(&block.params, sort) + of_sort(&block.locals, sort) + in_code(&block.code, sort)
}

/// How many of the types are this one.
fn of_sort(sorts: &[u8], sort: usize) -> usize
    ensures count { result ≡ count_of sort sorts.now }
    ensures few { result ≤ length sorts.now }
{
    sorts
        .iter()
        .filter(|own| usize::from(**own) == sort)
        .count()
}

/// The most that an invariant has of the type.
fn in_an_invariant(protocol: &Protocol, sort: usize) -> usize
    ensures most { result ≡ most_in_an_invariant (protocol_of protocol.now) sort }
    ensures few { result ≤ 12 }
{
    let mut most = 0;
    for invariant in &protocol.invariants {
        most = most.max(in_invariant(invariant, sort));
    }
    most
}

/// How many variables of the invariant are of the type. It is universal, so those are its variables that are
/// existential in force under an odd number of negations.
fn in_invariant(invariant: &Invariant, sort: usize) -> usize
    requires { ∥ IsUniversalSentence (invariant_of invariant.now).body ∥₁ }
    ensures count { result ≡ invariant_count sort (invariant_of invariant.now) }
    ensures few { result ≤ 12 }
{
    in_formula(&invariant.body, false, sort)
}
