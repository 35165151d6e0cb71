//! How many atoms and clauses there are.
ghost use Rattle.std.specs.Prelude.{◌≡◌, ◌≤◌, ◌<◌, ◌+◌, ◌*◌, ◌^◌, length, map, vec_len, slice_index, sum_by, IfOk};
ghost use Rattle.std.specs.List.{All};
ghost use Rattle.dai_model.specs.Protocol.{Individual};
ghost use Rattle.dai_model.specs.Clause.{atoms_of, numbers_below};
ghost use Rattle.dai_model.specs.Limits.{product, tuples_at};
ghost use Rattle.dai_model.specs.Shapes.{clause_count as clauses_over};
ghost use Rattle.dai_logic.specs.Protocols.{protocol_of};
ghost use Rattle.dai_template.specs.Atoms.{lists_of};

use dai_base::Spent;
use dai_logic::Protocol;
use std::alloc::Global;

/// How many atoms there are over so many variables of each type.
pub fn atom_count(protocol: &Protocol, counts: &[u8]) -> u64
    requires { length counts.now ≡ vec_len protocol.now.sorts }
    ensures { result ≡ length (atoms_of (protocol_of protocol.now) counts.now) }
{
    tuples_of_all(protocol, counts) + equations_of_all(protocol, counts)
}

/// How many tuples of variables all relations have.
fn tuples_of_all(protocol: &Protocol, counts: &[u8]) -> u64
    requires { length counts.now ≡ vec_len protocol.now.sorts }
    ensures count { result ≡ sum_by (tuples_at counts.now) (protocol_of protocol.now).relations }
    ensures fits { result ≤ 64 * 2 ^ 40 }
{
    let mut total = 0;
    for relation in &protocol.relations {
        total += tuples(&relation.args, counts);
    }
    total
}

/// How many equations all individuals have.
fn equations_of_all(protocol: &Protocol, counts: &[u8]) -> u64
    requires { length counts.now ≡ vec_len protocol.now.sorts }
    ensures count { result ≡ sum_by (λ (I : Individual). slice_index counts.now I.sort) (protocol_of protocol.now).individuals }
    ensures fits { result ≤ 16 * 2 ^ 8 }
{
    let mut total = 0;
    for individual in &protocol.individuals {
        total += count_at(counts, individual.sort);
    }
    total
}

/// How many variables there are of the type.
fn count_at(counts: &[u8], sort: u8) -> u64
    requires { sort < length counts.now }
    ensures is { result ≡ slice_index counts.now sort }
    ensures fits { result < 2 ^ 8 }
{
    u64::from(counts[usize::from(sort)])
}

/// How many tuples of variables there are of these types.
fn tuples(sorts: &[u8], counts: &[u8]) -> u64
    requires few { length sorts.now ≤ 5 }
    requires inside { All (λ sort. sort < length counts.now) sorts.now }
    ensures count { result ≡ product (map (slice_index counts.now) sorts.now) }
    ensures fits { result ≤ 2 ^ 40 }
{
    let mut total: u64 = 1;
    for sort in sorts {
        total *= count_at(counts, *sort);
    }
    total
}

/// How many clauses there are with so many variables of each type, in one of the ways, and at most so many
/// literals. No way has more than 64 atoms.
pub fn template_count(
    alloc: Global,
    protocol: &Protocol,
    ways: &[Vec<u8>],
    lits: u8,
) -> Result<u128, Spent>
    requires literals { lits ≤ 8 }
    requires ways { All (λ counts. length counts ≡ vec_len protocol.now.sorts) (lists_of ways.now) }
    requires atoms { All (λ counts. length (atoms_of (protocol_of protocol.now) counts) ≤ 64) (lists_of ways.now) }
    requires few { length ways.now ≤ 2 ^ 20 }
    ensures { IfOk result (λ count. count ≡ sum_by (λ counts. clauses_over lits (length (atoms_of (protocol_of protocol.now) counts))) (lists_of ways.now)) }
{
    let clauses = clause_counts(alloc, lits)?;
    let mut total = 0;
    for counts in ways {
        total += clauses[atom_count(protocol, counts) as usize];
    }
    Ok(total)
}

/// For each number of atoms from 0 to 64, how many clauses with at most so many literals there are over them. One
/// atom more adds twice the clauses with one literal less.
pub(crate) fn clause_counts(alloc: Global, lits: u8) -> Result<Vec<u128>, Spent>
    requires { lits ≤ 8 }
    ensures { IfOk result (λ counts. counts.items ≡ map (clauses_over lits) (numbers_below 65)) }
{
    let mut counts = vec![in alloc; 1u128; 65]?;
    for _literals in 0..lits {
        let mut more = Vec::with_capacity(alloc, 65)?;
        let mut clauses: u128 = 1;
        for fewer in &counts {
            more.push(clauses)?;
            clauses += 2 * *fewer;
        }
        counts = more;
    }
    Ok(counts)
}
