//! The template space of a protocol.
ghost use Rattle.std.specs.Prelude.{◌≡◌, ◌≤◌, ◌<◌, length, map, IfOk};
ghost use Rattle.dai_model.specs.Protocol.{Sort};
ghost use Rattle.dai_logic.specs.Parts.{sort_of};

use crate::clause::{Clause, Shape};
use crate::counting::{atom_count, template_count};
use crate::shapes::{counts_within, in_print_order, sum_of};
use dai_base::Spent;
use dai_logic::{Protocol, SortInfo};
use std::alloc::{AllocError, AllocFailed, Global};
use std::cmp::Ordering;

/// The clauses of all shapes within the bounds on variables, with at most so many literals. Shapes stand in
/// print order.
#[derive(Drop)]
pub struct Space {
    pub shapes: Vec<Shape>,
    pub lits: u8,
    /// Which of the protocol's types are ordered.
    pub(crate) ordered: Vec<bool>,
}

/// Why there is no space: it is past a limit.
#[derive(Clone, Copy, Debug, PartialEq, Eq)]
pub enum SpaceError {
    /// The largest shape has more than 64 atoms.
    Atoms { count: u64 },
    /// The clauses are more than 200,000.
    Templates { count: u128 },
    /// Want of memory.
    Spent,
}

impl From<AllocError> for SpaceError {
    ghost use Rattle.dai_template.specs.declared.space.SpaceError.TheVariants.{Spent};

    ghost from_gives = { λ _ error. error ≡ Spent };

    fn from(_error: AllocError) -> SpaceError {
        SpaceError::Spent
    }
}

impl<T: Drop> From<AllocFailed<T>> for SpaceError {
    ghost use Rattle.dai_template.specs.declared.space.SpaceError.TheVariants.{Spent};

    ghost from_gives = { λ _ error. error ≡ Spent };

    fn from(_error: AllocFailed<T>) -> SpaceError {
        SpaceError::Spent
    }
}

impl From<Spent> for SpaceError {
    ghost use Rattle.dai_template.specs.declared.space.SpaceError.TheVariants as Errors;

    ghost from_gives = { λ _ error. error ≡ Errors.Spent };

    fn from(_error: Spent) -> SpaceError {
        SpaceError::Spent
    }
}

/// Which of the types are ordered.
fn orders(alloc: Global, sorts: &[SortInfo]) -> Result<Vec<bool>, Spent>
    ensures { IfOk result (λ orders. orders.items ≡ map (λ (T : Sort). T.ordered) (map sort_of sorts.now)) }
{
    let mut orders = Vec::with_capacity(alloc, sorts.len())?;
    for sort in sorts {
        orders.push(sort.ordered)?;
    }
    Ok(orders)
}

/// The most atoms of a shape, and the most clauses of a space.
const MOST_ATOMS: u64 = 64;

const MOST_TEMPLATES: u128 = 200_000;

impl Space {
    ghost use Rattle.std.specs.Prelude.{OnOk, IfErr, vec_len, []};
    ghost use Rattle.std.specs.List.{All};
    ghost use Rattle.dai_logic.specs.Protocols.{protocol_of};
    ghost use Rattle.dai_model.specs.Protocol.{Protocol as Meaning};
    ghost use Rattle.dai_model.specs.Template.{Bounds};
    ghost use Rattle.dai_model.specs.Subsumption.{print_order};
    ghost use Rattle.dai_template.specs.Spaces.{IsSpaceOf, IsWithinLimits, IsSpaceError, clause_of};

    /// The space of the protocol with at most so many variables of each type and so many literals. `vars` has one
    /// bound for each type.
    ///
    /// `Atoms` comes exactly where the largest shape has more than 64 atoms, and otherwise `Templates` exactly
    /// where the clauses of all shapes are more than 200,000, each with its count.
    pub fn new(
        alloc: Global,
        protocol: &Protocol,
        vars: &[u8],
        lits: u8,
    ) -> Result<Space, SpaceError>
        requires each { length vars.now ≡ vec_len protocol.now.sorts }
        requires variables { All (λ bound. bound ≤ 4) vars.now }
        requires literals { lits ≤ 8 }
        ensures space { IfOk result (IsSpaceOf (protocol_of protocol.now) (record { variables = vars.now; literals = lits })) }
        ensures within { OnOk result (IsWithinLimits (protocol_of protocol.now) (record { variables = vars.now; literals = lits })) }
        ensures refused { IfErr result (IsSpaceError (protocol_of protocol.now) (record { variables = vars.now; literals = lits })) }
    {
        let atoms = atom_count(protocol, vars);
        if atoms > MOST_ATOMS {
            return Err(SpaceError::Atoms { count: atoms });
        }
        let ways = counts_within(alloc, vars)?;
        let templates = template_count(alloc, protocol, &ways, lits)?;
        if templates > MOST_TEMPLATES {
            return Err(SpaceError::Templates { count: templates });
        }
        let shapes = in_print_order(alloc, protocol, &ways, sum_of(vars))?;
        Ok(Space {
            shapes,
            lits,
            ordered: orders(alloc, &protocol.sorts)?,
        })
    }

    /// Which of the protocol's types are ordered, one for each type.
    pub fn orders(&self) -> &[bool]
        ensures { result.now ≡ self.now.ordered.items }
    {
        &self.ordered
    }

    /// Print order: by the number of variables, the counts, the number of literals and then the literals. Shapes
    /// stand in print order, so their numbers decide first.
    pub fn compare(&self, left: &Clause, right: &Clause) -> Ordering
        requires left { left.now.shape < length self.now.shapes.items }
        requires right { right.now.shape < length self.now.shapes.items }
        ensures { (P : Meaning) (B : Bounds) → IsSpaceOf P B self.now → result ≡ print_order (clause_of self.now left.now) (clause_of self.now right.now) }
    {
        let shapes = left.shape.cmp(&right.shape);
        let numbers = left.lits.len().cmp(&right.lits.len());
        let literals = left.lits.as_slice().cmp(right.lits.as_slice());
        shapes.then(numbers).then(literals)
    }

    /// The space of a protocol that declares no type, without limits: one shape, without variables, whose atoms are
    /// the relations in order.
    pub fn of_flags(alloc: Global, protocol: &Protocol, lits: u8) -> Result<Space, Spent>
        requires no_types { (protocol_of protocol.now).sorts ≡ [] }
        requires literals { lits ≤ 8 }
        ensures { IfOk result (IsSpaceOf (protocol_of protocol.now) (record { variables = []; literals = lits })) }
    {
        let ways = counts_within(alloc, &[])?;
        let shapes = in_print_order(alloc, protocol, &ways, 0)?;
        Ok(Space {
            shapes,
            lits,
            ordered: Vec::new(alloc),
        })
    }
}
