//! States of flags: a truth value for each flag.
ghost use Rattle.std.specs.Prelude.{◌≡◌, ◌<◌, ◌*◌, ◌∷◌, [], Bool, length, map, IfOk};
ghost use Rattle.std.specs.List.{All, list_any, flat_map};
ghost use Rattle.dai_model.specs.Protocol.{Protocol as Meaning};
ghost use Rattle.dai_logic.specs.Tables.{tables_of, bits_of, structure_of};
ghost use Rattle.dai_table.specs.Flags.{IsFlags, alone, state, holds_in, with_either, valuations as valuations_of};
ghost use Rattle.std.specs.Prelude.{Vec as Flags};
ghost use Rattle.std.specs.declared.alloc.Global.{Global as Heap};

use dai_base::Spent;
use dai_logic::Structure;
use dai_template::Clause;
use std::alloc::Global;

/// Every list of so many truth values.
pub fn valuations(alloc: Global, flags: usize) -> Result<Vec<Vec<bool>>, Spent>
    ensures { IfOk result (λ all. bits_of all ≡ valuations_of flags) }
{
    let mut all = Vec::new(alloc);
    all.push(Vec::new(alloc))?;
    for _flag in 0..flags {
        all = with_one_more(alloc, &all)?;
    }
    Ok(all)
}

/// Each list with one value more in front, false and true.
fn with_one_more(alloc: Global, shorter: &[Vec<bool>]) -> Result<Vec<Vec<bool>>, Spent>
    ensures { IfOk result (λ all. bits_of all ≡ flat_map with_either (map (λ (v : Flags Bool Heap). v.items) shorter.now)) }
{
    let mut all = Vec::new(alloc);
    for rest in shorter {
        all.push(in_front(alloc, false, rest)?)?;
        all.push(in_front(alloc, true, rest)?)?;
    }
    Ok(all)
}

/// One value more, in front.
fn in_front(alloc: Global, first: bool, rest: &[bool]) -> Result<Vec<bool>, Spent>
    ensures { IfOk result (λ flags. flags.items ≡ first ∷ rest.now) }
{
    let mut flags = Vec::new(alloc);
    flags.push(first)?;
    flags.extend_from_slice(rest)?;
    Ok(flags)
}

/// The structure in which the flags have these values.
pub fn structure(alloc: Global, flags: &[bool]) -> Result<Structure, Spent>
    ensures sizes { IfOk result (λ s. s.sizes.items ≡ []) }
    ensures tables { IfOk result (λ s. tables_of s ≡ map alone flags.now) }
    ensures values { IfOk result (λ s. s.values.items ≡ []) }
{
    let mut tables = Vec::with_capacity(alloc, flags.len())?;
    for flag in flags {
        let mut table = Vec::new(alloc);
        table.push(*flag)?;
        tables.push(table)?;
    }
    Ok(Structure {
        sizes: Vec::new(alloc),
        tables,
        values: Vec::new(alloc),
    })
}

/// The values of the flags in the structure.
pub fn flags_of(alloc: Global, s: &Structure) -> Result<Vec<bool>, Spent>
    requires { (P : Meaning) × IsFlags P s.now }
    ensures state { IfOk result (λ flags. (P : Meaning) → IsFlags P s.now → state P flags.items ≡ structure_of P s.now) }
    ensures long { IfOk result (λ flags. (P : Meaning) → IsFlags P s.now → length flags.items ≡ length P.relations) }
{
    let mut flags = Vec::with_capacity(alloc, s.tables.len())?;
    for table in &s.tables {
        flags.push(table[0])?;
    }
    Ok(flags)
}

/// Whether some literal of the clause is true where the flags have these values.
pub fn is_met(flags: &[bool], clause: &Clause) -> bool
    requires { All (λ l. l < 2 * length flags.now) clause.now.lits.items }
    ensures { result ≡ list_any (holds_in flags.now) clause.now.lits.items }
{
    for literal in clause.lits.as_slice() {
        if is_true(flags, *literal) {
            return true;
        }
    }
    false
}

/// Whether the literal is true where the flags have these values.
fn is_true(flags: &[bool], literal: u8) -> bool
    requires { literal < 2 * length flags.now }
    ensures { result ≡ holds_in flags.now literal }
{
    let value = flags[usize::from(literal / 2)];
    if literal % 2 == 1 { !value } else { value }
}
