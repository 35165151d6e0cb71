//! The bounds on variables, type by type.
ghost use Rattle.std.specs.Prelude.{◌≡◌, false, true, map, IfOk, IfErr};
ghost use Rattle.dai_base.specs.declared.fault.Fault.TheVariants.{Words};
ghost use Rattle.std.specs.List.{list_any};
ghost use Rattle.dai_logic.specs.declared.protocol.SortInfo.{SortInfo};
ghost use Rattle.dai_logic.specs.Protocols.{protocol_of};
ghost use Rattle.dai_model.specs.Protocol.{Sort};
ghost use Rattle.dai_words.specs.Readings.{choices_of};
ghost use Rattle.dai_top.specs.Bounds.{same_name, bound_of as bound_for, bounds_of, has_type as has_the_type, names_unknown};
ghost use Rattle.dai_top.specs.Stops.{IsFaultThat};

use crate::stop::Stop;
use dai_base::{Fault, Spent, Text};
use dai_logic::{Protocol, SortInfo};
use dai_words::Settings;
use std::alloc::Global;

/// The bound of a type that no word names.
const DEFAULT: u8 = 2;

/// The bound of each type, or the fault of a name that is no type.
pub fn bounds(alloc: Global, settings: &Settings, protocol: &Protocol) -> Result<Vec<u8>, Stop>
    ensures bounds { IfOk result (λ v. (v.items ≡ (bounds_of (protocol_of protocol.now) (choices_of settings.now)).variables) × (names_unknown (protocol_of protocol.now) (choices_of settings.now) ≡ false)) }
    ensures unknown { IfErr result (IsFaultThat (λ f. (f ≡ Words 3 settings.now.vars_word) × (names_unknown (protocol_of protocol.now) (choices_of settings.now) ≡ true))) }
{
    if names_no_type(settings, protocol) {
        return Err(Stop::Fault(Fault::Words {
            number: 3,
            word: settings.vars_word,
        }));
    }
    Ok(bound_each(alloc, &settings.vars, protocol)?)
}

/// Whether some bound is given for a name that is no type.
fn names_no_type(settings: &Settings, protocol: &Protocol) -> bool
    ensures { result ≡ names_unknown (protocol_of protocol.now) (choices_of settings.now) }
{
    settings
        .vars
        .iter()
        .any(|bound| !has_type(protocol, bound.0.as_bytes()))
}

/// Whether the protocol has a type of the name.
fn has_type(protocol: &Protocol, name: &[u8]) -> bool
    ensures { result ≡ has_the_type (protocol_of protocol.now) name.now }
{
    are_named(&protocol.sorts, name)
}

fn are_named(sorts: &[SortInfo], name: &[u8]) -> bool
    ensures { result ≡ list_any (λ (s : SortInfo). same_name name.now s.name) sorts.now }
{
    sorts.iter().any(|sort| name == sort.name.as_bytes())
}

/// The bound of each type.
fn bound_each(alloc: Global, given: &[(Text, u8)], protocol: &Protocol) -> Result<Vec<u8>, Spent>
    ensures { IfOk result (λ v. v.items ≡ map (λ (T : Sort). bound_for given.now T.name) (protocol_of protocol.now).sorts) }
{
    Ok(bound_all(alloc, given, &protocol.sorts)?)
}

fn bound_all(alloc: Global, given: &[(Text, u8)], sorts: &[SortInfo]) -> Result<Vec<u8>, Spent>
    ensures { IfOk result (λ v. v.items ≡ map (λ (s : SortInfo). bound_for given.now s.name) sorts.now) }
{
    let mut bounds = Vec::with_capacity(alloc, sorts.len())?;
    for sort in sorts {
        bounds.push(bound_of(given, sort.name.as_bytes()))?;
    }
    Ok(bounds)
}

/// The bound that is given for the type, or else the default.
fn bound_of(given: &[(Text, u8)], name: &[u8]) -> u8
    ensures { result ≡ bound_for given.now name.now }
{
    for bound in given {
        if name == bound.0.as_bytes() {
            return bound.1;
        }
    }
    DEFAULT
}
