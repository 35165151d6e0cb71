//! The clauses next above a clause.
ghost use Rattle.std.specs.Prelude.{◌<◌, IfOk};
ghost use Rattle.dai_model.specs.Protocol.{Protocol};
ghost use Rattle.dai_model.specs.Template.{Bounds};
ghost use Rattle.dai_model.specs.Weakening.{IsImmediateWeakening};
ghost use Rattle.dai_template.specs.Spaces.{IsClauseOf, IsClauseOfSpace, clause_of};
ghost use Rattle.dai_model.specs.Clause as Model;
ghost use Rattle.dai_template.specs.Lists.{clauses_of, IsPart};
ghost use Rattle.dai_order.specs.Forms.{HasFormAmong};

use crate::literals::add_with_literal;
use crate::variables::add_with_variable;
use dai_base::Spent;
use dai_template::{Clause, Space};
use std::alloc::Global;

/// The canonical forms of the clause's immediate weakenings within the space, each once, in print order: the
/// clauses with one literal or one variable more that it is below. Each immediate weakening has its form there.
pub fn weakenings(alloc: Global, space: &Space, clause: &Clause) -> Result<Vec<Clause>, Spent>
    requires { IsClauseOfSpace space.now clause.now }
    ensures exactly { IfOk result (λ weaker. (P : Protocol) (B : Bounds) → IsClauseOf P B space.now clause.now → IsPart P B space.now (IsImmediateWeakening P B (clause_of space.now clause.now)) weaker.items) }
    ensures each { IfOk result (λ weaker. (P : Protocol) (B : Bounds) → IsClauseOf P B space.now clause.now → (d : Model.Clause) → IsImmediateWeakening P B (clause_of space.now clause.now) d → HasFormAmong P (clauses_of space.now weaker.items) d) }
{
    let mut weaker = Vec::new(alloc);
    add_with_literal(space, clause, &mut weaker)?;
    for sort in 0..space.orders().len() as u8 {
        add_with_variable(space, clause, sort, &mut weaker)?;
    }
    Ok(weaker)
}
