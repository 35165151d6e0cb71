//! Lists of numbers below limits.
ghost use Rattle.std.specs.Prelude.{◌≡◌, ◌<◌, ◌+◌, ◌^◌, ◌++◌, ◌∷◌, [], map, length, IfOk, OnOk};
ghost use Rattle.std.specs.List.{flat_map};
ghost use Rattle.dai_model.specs.Clause.{numbers_below};
ghost use Rattle.dai_model.specs.Shapes.{tuples_below as tuples_of};
ghost use Rattle.dai_template.specs.Atoms.{lists_of};

use dai_base::Spent;
use std::alloc::Global;

/// Every list of numbers, one below each limit, in lexicographic order.
pub fn tuples_below(alloc: Global, limits: &[u8]) -> Result<Vec<Vec<u8>>, Spent>
    ensures { IfOk result (λ tuples. lists_of tuples.items ≡ tuples_of limits.now) }
{
    let mut tuples = vec![in alloc; Vec::new(alloc)]?;
    for limit in limits {
        tuples = with_ends(alloc, &tuples, *limit)?;
    }
    Ok(tuples)
}

/// Each of the lists with each number below the limit at its end.
fn with_ends(alloc: Global, lists: &[Vec<u8>], limit: u8) -> Result<Vec<Vec<u8>>, Spent>
    ensures { IfOk result (λ longer. lists_of longer.items ≡ flat_map (λ list. map (λ n. list ++ n ∷ []) (numbers_below limit)) (lists_of lists.now)) }
{
    let mut longer = Vec::new(alloc);
    for list in lists {
        add_ends(alloc, list, limit, &mut longer)?;
    }
    Ok(longer)
}

/// Adds the list with each number below the limit at its end.
fn add_ends(alloc: Global, list: &[u8], limit: u8, longer: &mut Vec<Vec<u8>>) -> Result<(), Spent>
    ensures { OnOk result (lists_of longer.new.items ≡ lists_of longer.old.items ++ map (λ n. list.now ++ n ∷ []) (numbers_below limit)) }
{
    for end in 0..limit {
        longer.push(with_end(alloc, list, end)?)?;
    }
    Ok(())
}

/// The list with the number at its end.
fn with_end(alloc: Global, list: &[u8], end: u8) -> Result<Vec<u8>, Spent>
    ensures { IfOk result (λ longer. longer.items ≡ list.now ++ end ∷ []) }
{
    let mut longer = Vec::from_slice(alloc, list)?;
    longer.push(end)?;
    Ok(longer)
}
