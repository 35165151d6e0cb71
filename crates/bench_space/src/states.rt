//! Random structures.
ghost use Rattle.std.specs.Prelude.{◌≡◌, ◌≤◌, [], map, length, vec_len, IfOk};
ghost use Rattle.std.specs.List.{All};
ghost use Rattle.dai_logic.specs.Counts.{tuple_count};
ghost use Rattle.dai_logic.specs.Protocols.{protocol_of, arguments_in};
ghost use Rattle.dai_logic.specs.Strides.{rows_of};
ghost use Rattle.dai_logic.specs.Tables.{Fits};
ghost use Rattle.bench_space.specs.Trials.{table_lengths};

use dai_base::Spent;
use dai_logic::{Layout, Protocol, Structure};
use std::alloc::Global;

/// How many elements each type has.
pub const SIZE: u16 = 4;

/// The generator's next state, by a linear congruence (Lehmer 1951, with Knuth's constants for 64 bits).
fn next(state: u64) -> u64 {
    state
        .wrapping_mul(6_364_136_223_846_793_005)
        .wrapping_add(1_442_695_040_888_963_407)
}

/// Random truth values, so many.
fn random_table(alloc: Global, count: usize, state: &mut u64) -> Result<Vec<bool>, Spent>
    ensures { IfOk result (λ table. length table.items ≡ count) }
{
    let mut table = Vec::with_capacity(alloc, count)?;
    for _ in 0..count {
        *state = next(*state);
        table.push(*state >> 63 == 1)?;
    }
    Ok(table)
}

/// A random table for each relation.
fn random_tables(alloc: Global, layout: &Layout, state: &mut u64) -> Result<Vec<Vec<bool>>, Spent>
    requires { length (rows_of layout.now.sorts) ≤ 64 }
    ensures { IfOk result (λ tables. table_lengths tables ≡ map (tuple_count layout.now.sizes.items) (rows_of layout.now.sorts)) }
{
    let mut tables = Vec::with_capacity(alloc, layout.sorts.len())?;
    for relation in 0..layout.sorts.len() {
        let table = random_table(alloc, layout.count(relation as u8), state)?;
        tables.push(table)?;
    }
    Ok(tables)
}

/// A random structure of the layout's sizes, without individuals.
fn random_state(alloc: Global, layout: &Layout, state: &mut u64) -> Result<Structure, Spent>
    requires { length (rows_of layout.now.sorts) ≤ 64 }
    ensures sizes { IfOk result (λ s. s.sizes.items ≡ layout.now.sizes.items) }
    ensures tables { IfOk result (λ s. table_lengths s.tables ≡ map (tuple_count layout.now.sizes.items) (rows_of layout.now.sorts)) }
    ensures values { IfOk result (λ s. s.values.items ≡ []) }
{
    Ok(Structure {
        sizes: Vec::from_slice(alloc, &layout.sizes)?,
        tables: random_tables(alloc, layout, state)?,
        values: Vec::new(alloc),
    })
}

/// So many random structures with four elements of each type, of a protocol without individuals.
pub fn random_states(
    alloc: Global,
    protocol: &Protocol,
    count: usize,
) -> Result<Vec<Structure>, Spent>
    requires { vec_len protocol.now.individuals ≡ 0 }
    ensures { IfOk result (λ states. All (Fits (protocol_of protocol.now)) states.items) }
{
    let sizes = vec![in alloc; SIZE; protocol.sorts.len()]?;
    let layout = Layout::of(alloc, protocol, &sizes)?;
    let mut states = Vec::with_capacity(alloc, count)?;
    let mut state = 1;
    for _ in 0..count {
        let made = random_state(alloc, &layout, &mut state)?;
        states.push(made)?;
    }
    Ok(states)
}
