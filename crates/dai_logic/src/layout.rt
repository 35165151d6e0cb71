//! The numbers of tuples, by strides that are computed once.
ghost use Rattle.std.specs.Prelude.{◌≡◌, ◌/◌, ◌<◌, [], length, slice_index_or, IfOk, IsTrue};
ghost use Rattle.std.specs.List.{All};
ghost use Rattle.dai_model.specs.Structure.{is_tuple};
ghost use Rattle.dai_logic.specs.Counts.{tuple_count, tuple_place, tuple_at};
ghost use Rattle.dai_logic.specs.Strides.{counts_of, rows_of, AreNumbered, AreStrides};
ghost use Rattle.dai_logic.specs.Protocols.{protocol_of, arguments_in};

use crate::protocol::Protocol;
use dai_base::Spent;
use std::alloc::Global;

/// Where each tuple of each relation stands in the relation's table, at given sizes. The tuples are in
/// lexicographic order.
#[derive(Drop)]
pub struct Layout {
    pub sizes: Vec<u16>,
    /// The types of each relation's arguments.
    pub sorts: Vec<Vec<u8>>,
    /// How many tuples there are of each relation's types from each argument on, and 1 behind the last.
    pub counts: Vec<Vec<usize>>,
    pub ghost strides: { AreStrides sizes.items (rows_of sorts) (rows_of counts) },
}

/// How many tuples there are of these types.

fn count_tuples(sizes: &[u16], sorts: &[u8]) -> usize
    requires { AreNumbered sizes.now sorts.now }
    ensures { result ≡ tuple_count sizes.now sorts.now }
{
    let mut count = 1;
    for sort in sorts {
        count *= sizes[*sort as usize] as usize;
    }
    count
}

/// How many tuples there are of these types from each one on, and 1 behind the last.

fn count_each(alloc: Global, sizes: &[u16], sorts: &[u8]) -> Result<Vec<usize>, Spent>
    requires { AreNumbered sizes.now sorts.now }
    ensures { IfOk result (λ counts. counts.items ≡ counts_of sizes.now sorts.now) }
{
    let mut counts = Vec::with_capacity(alloc, sorts.len())?;
    let mut count = count_tuples(sizes, sorts);
    for sort in sorts {
        counts.push(count)?;
        count /= sizes[*sort as usize] as usize;
    }
    counts.push(count)?;
    Ok(counts)
}

impl Layout {
    /// The layout of the protocol's relations at these sizes. Each size is at least 1, and each relation has
    /// fewer than 2^64 tuples.
    pub fn of(alloc: Global, protocol: &Protocol, sizes: &[u16]) -> Result<Layout, Spent>
        requires { All (AreNumbered sizes.now) (arguments_in (protocol_of protocol.now)) }
        ensures sizes { IfOk result (λ layout. layout.sizes.items ≡ sizes.now) }
        ensures sorts { IfOk result (λ layout. rows_of layout.sorts ≡ arguments_in (protocol_of protocol.now)) }
    {
        let mut sorts = Vec::with_capacity(alloc, protocol.relations.len())?;
        let mut counts = Vec::with_capacity(alloc, protocol.relations.len())?;
        for relation in &protocol.relations {
            let arguments = relation.args.as_slice();
            sorts.push(Vec::from_slice(alloc, arguments)?)?;
            counts.push(count_each(alloc, sizes, arguments)?)?;
        }
        Ok(Layout {
            sizes: Vec::from_slice(alloc, sizes)?,
            sorts,
            counts,
        })
    }

    /// How many tuples the relation may have.
    pub fn count(&self, rel: u8) -> usize
        requires { rel < length (rows_of self.now.sorts) }
        ensures { result ≡ tuple_count self.now.sizes.items (slice_index_or (rows_of self.now.sorts) rel []) }
    {
        self.row(rel)[0]
    }

    /// The place of the tuple in the relation's table.
    pub fn place(&self, rel: u8, tuple: &[u16]) -> usize
        requires known { rel < length (rows_of self.now.sorts) }
        requires tuple { IsTrue (is_tuple self.now.sizes.items (slice_index_or (rows_of self.now.sorts) rel []) tuple.now) }
        ensures { result ≡ tuple_place self.now.sizes.items (slice_index_or (rows_of self.now.sorts) rel []) tuple.now }
    {
        let counts = self.row(rel);
        let mut place = 0;
        for (argument, element) in tuple.iter().enumerate() {
            place += *element as usize * counts[argument + 1];
        }
        place
    }

    /// Writes the tuple at the place of the relation's table.
    pub fn read(&self, rel: u8, place: usize, tuple: &mut [u16])
        requires known { rel < length (rows_of self.now.sorts) }
        requires inside { place < tuple_count self.now.sizes.items (slice_index_or (rows_of self.now.sorts) rel []) }
        requires room { length tuple.old ≡ length (slice_index_or (rows_of self.now.sorts) rel []) }
        ensures { tuple.new ≡ tuple_at self.now.sizes.items (slice_index_or (rows_of self.now.sorts) rel []) place }
    {
        let counts = self.row(rel);
        let sorts = self.sorts[rel as usize].as_slice();
        let mut rest = place;
        for argument in 0..tuple.len() {
            let size = self.sizes[sorts[argument] as usize];
            let behind = counts[argument + 1];
            tuple[argument] = quotient(rest, behind, size);
            rest %= behind;
        }
    }

    /// How many tuples there are of the relation's types from each argument on, and 1 behind the last.
    fn row(&self, rel: u8) -> &[usize]
        requires { rel < length (rows_of self.now.sorts) }
        ensures { result.now ≡ counts_of self.now.sizes.items (slice_index_or (rows_of self.now.sorts) rel []) }
    {
        &self.counts[rel as usize]
    }
}

/// The element of a type of this size whose tuples begin there.
fn quotient(rest: usize, behind: usize, size: u16) -> u16
    requires some { 0 < behind }
    requires element { rest / behind < size }
    ensures { result ≡ rest / behind }
{
    (rest / behind) as u16
}
