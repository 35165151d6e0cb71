//! Room in which blocks are executed.
ghost use Rattle.std.specs.Prelude.{IfOk};
ghost use Rattle.dai_logic.specs.Execution.{IsRoom};

use crate::copying::{copy, copy_tables};
use crate::structure::Structure;
use dai_base::Spent;
use std::alloc::Global;

/// The structure after, and a spare table for each relation. It is made once and serves for every structure of
/// the same sizes.
#[derive(Drop)]
pub struct Workspace {
    pub after: Structure,
    pub spare: Vec<Vec<bool>>,
}

impl Workspace {
    /// Room to execute blocks from structures of the sizes of this one.
    pub fn new(alloc: Global, s: &Structure) -> Result<Workspace, Spent>
        ensures { IfOk result (IsRoom s.now) }
    {
        Ok(Workspace {
            after: copy(alloc, s)?,
            spare: copy_tables(alloc, &s.tables)?,
        })
    }
}
