//! Copies of structures.
ghost use Rattle.std.specs.Prelude.{◌≡◌, length, IfOk};
ghost use Rattle.dai_logic.specs.Tables.{bits_of, IsCopy, IsAlike, AreAsLong};

use crate::structure::Structure;
use dai_base::Spent;
use std::alloc::Global;

/// A structure with the same sizes, tables and values.
pub fn copy(alloc: Global, s: &Structure) -> Result<Structure, Spent>
    ensures { IfOk result (IsCopy s.now) }
{
    Ok(Structure {
        sizes: Vec::from_slice(alloc, s.sizes.as_slice())?,
        tables: copy_tables(alloc, &s.tables)?,
        values: Vec::from_slice(alloc, s.values.as_slice())?,
    })
}

/// Tables with the same values.
pub(crate) fn copy_tables(alloc: Global, tables: &Vec<Vec<bool>>) -> Result<Vec<Vec<bool>>, Spent>
    ensures { IfOk result (λ copied. bits_of copied ≡ bits_of tables.now) }
{
    let mut copied = Vec::with_capacity(alloc, tables.len())?;
    for table in tables {
        copied.push(Vec::from_slice(alloc, table.as_slice())?)?;
    }
    Ok(copied)
}

/// Writes the structure over one that has as many sizes, tables and values.
pub(crate) fn copy_into(s: &Structure, to: &mut Structure)
    requires { IsAlike s.now to.old }
    ensures { IsCopy s.now to.new }
{
    copy_numbers(&s.sizes, &mut to.sizes);
    copy_tables_into(&s.tables, &mut to.tables);
    copy_numbers(&s.values, &mut to.values);
}

fn copy_numbers(from: &Vec<u16>, to: &mut Vec<u16>)
    requires { length to.old.items ≡ length from.now.items }
    ensures { to.new.items ≡ from.now.items }
{
    to.as_mut_slice().copy_from_slice(from.as_slice());
}

fn copy_table(from: &Vec<bool>, to: &mut Vec<bool>)
    requires { length to.old.items ≡ length from.now.items }
    ensures { to.new.items ≡ from.now.items }
{
    to.as_mut_slice().copy_from_slice(from.as_slice());
}

fn copy_tables_into(from: &Vec<Vec<bool>>, to: &mut Vec<Vec<bool>>)
    requires { AreAsLong (bits_of to.old) (bits_of from.now) }
    ensures { bits_of to.new ≡ bits_of from.now }
{
    for number in 0..from.len() {
        copy_table(&from[number], &mut to[number]);
    }
}
