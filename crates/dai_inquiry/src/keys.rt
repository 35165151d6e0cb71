//! Clauses apart from any space.
ghost use Rattle.std.specs.Prelude.{◌≡◌, IsTrue, IfOk};
ghost use Rattle.dai_inquiry.specs.Keys.{clause_in};

use dai_base::Spent;
use std::alloc::Global;

/// The numbers of a clause's variables, one for each of so many types, and behind them its literals.
#[derive(Drop)]
pub struct Key {
    pub types: usize,
    pub bytes: Vec<u8>,
}

/// A copy of the key.
pub fn copy(alloc: Global, key: &Key) -> Result<Key, Spent>
    ensures { IfOk result (λ copied. clause_in copied ≡ clause_in key.now) }
{
    Ok(Key {
        types: key.types,
        bytes: Vec::from_slice(alloc, &key.bytes)?,
    })
}

/// Whether the keys stand for one clause.
pub fn is_same(first: &Key, second: &Key) -> bool
    ensures { IsTrue result → clause_in first.now ≡ clause_in second.now }
{
    first.types == second.types && first.bytes.as_slice() == second.bytes.as_slice()
}
