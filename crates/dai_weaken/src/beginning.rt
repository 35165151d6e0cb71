//! Where the descent begins when nothing is known.
ghost use Rattle.std.specs.Prelude.{IfOk};
ghost use Rattle.dai_model.specs.Classes.{Class};
ghost use Rattle.dai_model.specs.Protocol.{Protocol};
ghost use Rattle.dai_model.specs.Template.{Bounds};
ghost use Rattle.dai_template.specs.Spaces.{IsSpaceOf};
ghost use Rattle.dai_weaken.specs.Weakening.{IsStart};

use dai_base::Spent;
use dai_order::Antichain;
use dai_template::{Clause, Space};
use std::alloc::Global;

/// The antichain of the one clause that is below all others: that of no variable and no literal. It stands for every
/// clause of the space.
pub fn everything(alloc: Global, space: &Space) -> Result<Antichain, Spent>
    requires { (P : Protocol) × (B : Bounds) × IsSpaceOf P B space.now }
    ensures { IfOk result (λ antichain. (C : Class) (P : Protocol) (B : Bounds) → IsSpaceOf P B space.now → IsStart C P B space.now antichain.clauses.items) }
{
    let mut clauses = Vec::new(alloc);
    clauses.push(Clause::empty(0))?;
    Antichain::of(alloc, space, &clauses)
}
