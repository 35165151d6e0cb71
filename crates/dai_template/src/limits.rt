//! The counts that are held against the limits of a space.
ghost use Rattle.std.specs.Prelude.{◌≡◌, ◌≤◌, length, vec_len, IfOk};
ghost use Rattle.std.specs.List.{All};
ghost use Rattle.dai_logic.specs.Protocols.{protocol_of};
ghost use Rattle.dai_model.specs.Limits.{atom_count as atoms_of_all};
ghost use Rattle.dai_model.specs.Shapes.{template_count as templates_of_all};

use crate::counting::{atom_count, template_count};
use crate::shapes::counts_within;
use dai_base::Spent;
use dai_logic::Protocol;
use std::alloc::Global;

/// The atoms of the largest shape with at most so many variables of each type.
pub fn atoms_within(protocol: &Protocol, vars: &[u8]) -> u64
    requires { length vars.now ≡ vec_len protocol.now.sorts }
    ensures { result ≡ atoms_of_all (protocol_of protocol.now) (record { variables = vars.now; literals = 0 }) }
{
    atom_count(protocol, vars)
}

/// The clauses of all shapes with at most so many variables of each type, and so many literals.
pub fn templates_within(
    alloc: Global,
    protocol: &Protocol,
    vars: &[u8],
    lits: u8,
) -> Result<u128, Spent>
    requires each { length vars.now ≡ vec_len protocol.now.sorts }
    requires variables { All (λ bound. bound ≤ 4) vars.now }
    requires literals { lits ≤ 8 }
    requires atoms { atoms_of_all (protocol_of protocol.now) (record { variables = vars.now; literals = lits }) ≤ 64 }
    ensures { IfOk result (λ count. count ≡ templates_of_all (protocol_of protocol.now) (record { variables = vars.now; literals = lits })) }
{
    let ways = counts_within(alloc, vars)?;
    template_count(alloc, protocol, &ways, lits)
}
