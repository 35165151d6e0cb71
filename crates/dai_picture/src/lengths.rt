//! How long the rows of a picture are.
ghost use Rattle.std.specs.Prelude.{◌≡◌, ◌<◌, length, map, IfOk, IfSome};
ghost use Rattle.std.specs.List.{All};
ghost use Rattle.dai_model.specs.Protocol.{Individual};
ghost use Rattle.dai_logic.specs.Counts.{tuple_count};
ghost use Rattle.dai_logic.specs.Protocols.{protocol_of, arguments_in};
ghost use Rattle.dai_picture.specs.Pictures.{slots_of_each};

use dai_base::Spent;
use dai_logic::protocol::Protocol;
use std::alloc::Global;

/// How many tuples of slots there are of these types, if the number fits.
fn count_tuples(slots: &[u16], sorts: &[u8]) -> Option<usize>
    requires { All (λ sort. sort < length slots.now) sorts.now }
    ensures { IfSome result (λ count. count ≡ tuple_count slots.now sorts.now) }
{
    let mut count: usize = 1;
    for sort in sorts {
        count = count.checked_mul(slots[*sort as usize] as usize)?;
    }
    Some(count)
}

/// How many tuples of slots each relation has.
pub(crate) fn tables(alloc: Global, protocol: &Protocol, slots: &[u16]) -> Result<Vec<usize>, Spent>
    requires { length slots.now ≡ length (protocol_of protocol.now).sorts }
    ensures { IfOk result (λ lengths. lengths.items ≡ map (tuple_count slots.now) (arguments_in (protocol_of protocol.now))) }
{
    let mut lengths = Vec::new(alloc);
    for relation in &protocol.relations {
        let Some(count) = count_tuples(slots, relation.args.as_slice()) else {
            return Err(Spent);
        };
        lengths.push(count)?;
    }
    Ok(lengths)
}

/// The number of slots of each type.
pub(crate) fn whole(alloc: Global, slots: &[u16]) -> Result<Vec<usize>, Spent>
    ensures { IfOk result (λ lengths. lengths.items ≡ slots.now) }
{
    let mut lengths = Vec::new(alloc);
    for many in slots {
        lengths.push(*many as usize)?;
    }
    Ok(lengths)
}

/// The number of slots of each of these types.
pub(crate) fn each(alloc: Global, slots: &[u16], sorts: &[u8]) -> Result<Vec<usize>, Spent>
    requires { All (λ sort. sort < length slots.now) sorts.now }
    ensures { IfOk result (λ lengths. lengths.items ≡ slots_of_each slots.now sorts.now) }
{
    let mut lengths = Vec::new(alloc);
    for sort in sorts {
        lengths.push(slots[*sort as usize] as usize)?;
    }
    Ok(lengths)
}

/// The type of each individual.
pub(crate) fn individual_sorts(alloc: Global, protocol: &Protocol) -> Result<Vec<u8>, Spent>
    ensures { IfOk result (λ sorts. sorts.items ≡ map (λ (I : Individual). I.sort) (protocol_of protocol.now).individuals) }
{
    let mut sorts = Vec::new(alloc);
    for individual in &protocol.individuals {
        sorts.push(individual.sort)?;
    }
    Ok(sorts)
}
