//! Antichains: what is left of a set of clauses that is closed upward.
ghost use Rattle.std.specs.Prelude.{◌≡◌, ◌<◌, length, IfOk, OnOk, OnErr, true, false, slice_index_or};
ghost use Rattle.dai_model.specs.Protocol.{Protocol};
ghost use Rattle.dai_model.specs.Template.{Bounds};
ghost use Rattle.dai_template.specs.Spaces.{IsSpaceOf, IsClauseOf, clause_of};
ghost use Rattle.dai_template.specs.Lists.{clauses_of};
ghost use Rattle.dai_order.specs.Forms.{AreForms, IsBesideForms};
ghost use Rattle.dai_order.specs.Antichains.{StandsFor, IsAntichain, AreClauses, AreClausesOf, StandForSame, HasEntered, HaveEntered, AreBesideForms, AreFormsOf, member_at};
ghost use Rattle.dai_model.proofs.Below.{Each};

use crate::forms::add_form;
use crate::parts::is_above_one;
use crate::weakening::weakenings;
use dai_base::Spent;
use dai_template::{Clause, Space};
use std::alloc::Global;

/// Canonical clauses of a space in print order, none of them below another. They stand for all clauses of the
/// space above one of them.
#[derive(Drop)]
pub struct Antichain {
    clauses: Vec<Clause>,
}

impl Antichain {
    ghost use Rattle.dai_order.specs.Antichains.{IsAntichainOf, StandForOthers};

    /// The minimal ones of the clauses' canonical forms, each once: the antichain that stands for the same clauses
    /// of the space.
    pub fn of(alloc: Global, space: &Space, clauses: &[Clause]) -> Result<Antichain, Spent>
        requires { AreClausesOf space.now clauses.now }
        ensures antichain { IfOk result (λ antichain. (P : Protocol) (B : Bounds) → AreClauses P B space.now clauses.now → IsAntichain P B space.now antichain.clauses.items) }
        ensures same { IfOk result (λ antichain. (P : Protocol) (B : Bounds) → AreClauses P B space.now clauses.now → StandForSame P B (clauses_of space.now clauses.now) (clauses_of space.now antichain.clauses.items)) }
    {
        let forms = canonical_forms(alloc, space, clauses)?;
        let mut minimal = Vec::new(alloc);
        enter_each(space, &forms, &mut minimal)?;
        Ok(Antichain { clauses: minimal })
    }

    /// The clauses.
    pub fn clauses(&self) -> &[Clause]
        ensures { result.now ≡ self.now.clauses.items }
    {
        self.clauses.as_slice()
    }

    /// Takes the clause at this place away, and puts in its immediate weakenings that no other member is below.
    /// The antichain then stands for the same clauses without the renamings of that one. It stays as it is where
    /// memory is spent.
    pub fn remove_and_weaken(
        &mut self,
        alloc: Global,
        space: &Space,
        at: usize,
    ) -> Result<(), Spent>
        requires antichain { IsAntichainOf space.now self.old.clauses.items }
        requires inside { at < length self.old.clauses.items }
        ensures antichain { OnOk result ((P : Protocol) (B : Bounds) → IsAntichain P B space.now self.old.clauses.items → IsAntichain P B space.now self.new.clauses.items) }
        ensures others { OnOk result ((P : Protocol) (B : Bounds) → IsAntichain P B space.now self.old.clauses.items → StandForOthers P B (clauses_of space.now self.old.clauses.items) (member_at space.now self.old.clauses.items at) (clauses_of space.now self.new.clauses.items)) }
        ensures spent { OnErr result (self.new.clauses.items ≡ self.old.clauses.items) }
    {
        let weaker = weakenings(alloc, space, &self.clauses[at])?;
        let mut clauses = copied(alloc, &self.clauses)?;
        let _gone = clauses.remove(at);
        enter_each(space, &weaker, &mut clauses)?;
        self.clauses = clauses;
        Ok(())
    }
}

/// The canonical forms of the clauses, each once, in print order.
fn canonical_forms(alloc: Global, space: &Space, clauses: &[Clause]) -> Result<Vec<Clause>, Spent>
    requires { AreClausesOf space.now clauses.now }
    ensures { IfOk result (λ forms. (P : Protocol) (B : Bounds) → AreClauses P B space.now clauses.now → AreFormsOf P B space.now clauses.now forms.items) }
{
    let mut forms = Vec::new(alloc);
    for clause in clauses {
        add_form(space, clause, &mut forms)?;
    }
    Ok(forms)
}

/// Copies of the clauses.
fn copied(alloc: Global, clauses: &[Clause]) -> Result<Vec<Clause>, Spent>
    ensures { IfOk result (λ copies. copies.items ≡ clauses.now) }
{
    let mut copies = Vec::with_capacity(alloc, clauses.len())?;
    for clause in clauses {
        copies.push(clause.copy())?;
    }
    Ok(copies)
}

/// Puts the canonical forms of the clauses into the list one after the other, each if no member is below it by then.
fn enter_each(space: &Space, clauses: &[Clause], list: &mut Vec<Clause>) -> Result<(), Spent>
    requires { AreBesideForms space.now clauses.now list.old.items }
    ensures { OnOk result ((P : Protocol) (B : Bounds) → Each (IsClauseOf P B space.now) clauses.now → AreForms P B space.now list.old.items → HaveEntered P B space.now clauses.now list.old.items list.new.items) }
{
    for clause in clauses {
        enter(space, clause, list)?;
    }
    Ok(())
}

/// Puts the clause's canonical form into the list, if no member is below the clause.
fn enter(space: &Space, clause: &Clause, list: &mut Vec<Clause>) -> Result<(), Spent>
    requires { IsBesideForms space.now clause.now list.old.items }
    ensures { OnOk result ((P : Protocol) (B : Bounds) → IsClauseOf P B space.now clause.now → AreForms P B space.now list.old.items → HasEntered P B space.now (clause_of space.now clause.now) list.old.items list.new.items) }
{
    if !is_above_one(space, clause, list) {
        add_form(space, clause, list)?;
    }
    Ok(())
}
