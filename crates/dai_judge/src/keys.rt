//! The keys of a space's clauses.
ghost use Rattle.std.specs.Prelude.{◌≡◌, ◌<◌, length, IfOk};
ghost use Rattle.dai_template.specs.Spaces.{clause_of};
ghost use Rattle.dai_inquiry.specs.Keys.{clause_in};

use dai_base::Spent;
use dai_inquiry::keys::Key;
use dai_template::{Clause, Space};
use std::alloc::Global;

/// The key of the clause.
pub(crate) fn key_of(alloc: Global, space: &Space, clause: &Clause) -> Result<Key, Spent>
    requires { clause.now.shape < length space.now.shapes.items }
    ensures { IfOk result (λ key. clause_in key ≡ clause_of space.now clause.now) }
{
    let counts = &space.shapes[clause.shape as usize].counts;
    let mut bytes = Vec::from_slice(alloc, counts)?;
    bytes.extend_from_slice(clause.lits.as_slice())?;
    Ok(Key {
        types: counts.len(),
        bytes,
    })
}
