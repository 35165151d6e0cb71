//! Names of types, relations, individuals and variables.
ghost use Rattle.std.specs.Prelude.{◌≡◌, ◌∷◌, [], ◌++◌, IfOk, true};
ghost use Rattle.dai_model.specs.Report.{sort_name as sort_name_of, is_ordered as is_ordered_in, relation_name as relation_name_of, individual_name as individual_name_of, capitalized as capital, variable_text as variable_text_of, binder_text as binder_text_of};
ghost use Rattle.dai_logic.specs.Protocols.{protocol_of};
ghost use Rattle.dai_template.specs.Atoms.{variable_of};

use dai_base::Spent;
use dai_logic::Protocol;
use std::alloc::Global;

/// The name of the type of this number.
pub fn sort_name(protocol: &Protocol, sort: u8) -> &[u8]
    ensures { result.now ≡ sort_name_of (protocol_of protocol.now) sort }
{
    match protocol.sorts.get(usize::from(sort)) {
        Some(found) => found.name.as_bytes(),
        None => b"",
    }
}

/// Whether the type of this number has an order.
pub fn is_ordered(protocol: &Protocol, sort: u8) -> bool
    ensures { result ≡ is_ordered_in (protocol_of protocol.now) sort }
{
    match protocol.sorts.get(usize::from(sort)) {
        Some(found) => found.ordered,
        None => false,
    }
}

/// The name of the relation of this number.
pub fn relation_name(protocol: &Protocol, relation: u8) -> &[u8]
    ensures { result.now ≡ relation_name_of (protocol_of protocol.now) relation }
{
    match protocol.relations.get(usize::from(relation)) {
        Some(found) => found.name.as_bytes(),
        None => b"",
    }
}

/// The name of the individual of this number.
pub fn individual_name(protocol: &Protocol, individual: u8) -> &[u8]
    ensures { result.now ≡ individual_name_of (protocol_of protocol.now) individual }
{
    match protocol.individuals.get(usize::from(individual)) {
        Some(found) => found.name.as_bytes(),
        None => b"",
    }
}

/// The name with its first letter made a capital.
fn capitalized(alloc: Global, name: &[u8]) -> Result<Vec<u8>, Spent>
    ensures { IfOk result (λ text. text.items ≡ capital name.now) }
{
    let mut text = Vec::from_slice(alloc, name)?;
    if let Some(first) = name.first() {
        text[0] = first.to_ascii_uppercase();
    }
    Ok(text)
}

/// The variable: its type's name with a capital, and its number from 1.
pub fn variable_text(alloc: Global, protocol: &Protocol, var: (u8, u8)) -> Result<Vec<u8>, Spent>
    ensures { IfOk result (λ text. text.items ≡ variable_text_of (protocol_of protocol.now) (variable_of var)) }
{
    let mut text = capitalized(alloc, sort_name(protocol, var.0))?;
    let number = u32::from(var.1) + 1;
    let digits = format!(in alloc; "{number}")?;
    text.extend_from_slice(digits.as_bytes())?;
    Ok(text)
}

/// The variable with its type.
pub fn binder_text(alloc: Global, protocol: &Protocol, var: (u8, u8)) -> Result<Vec<u8>, Spent>
    ensures { IfOk result (λ text. text.items ≡ binder_text_of (protocol_of protocol.now) (variable_of var)) }
{
    let mut text = variable_text(alloc, protocol, var)?;
    text.extend_from_slice(b":")?;
    text.extend_from_slice(sort_name(protocol, var.0))?;
    Ok(text)
}
