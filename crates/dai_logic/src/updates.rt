//! Updates: a whole relation, or an individual.
ghost use Rattle.std.specs.Prelude.{◌≡◌, ◌+◌, ◌*◌, ◌^◌, ◌<◌, ◌≤◌, [], length, map, drop, slice_index_or, IsSome, slice_get, Some};
ghost use Rattle.dai_model.specs.Protocol.{Relation};
ghost use Rattle.dai_model.specs.Formula.{update_relation, update_individual};
ghost use Rattle.dai_model.specs.Execution.{after_relation, after_individual};
ghost use Rattle.dai_logic.specs.Trees.{term_of, formula_of};
ghost use Rattle.dai_logic.specs.Protocols.{protocol_of};
ghost use Rattle.dai_logic.specs.Environments.{environment_of};
ghost use Rattle.dai_logic.specs.Tables.{structure_of, tables_of, bits_of, tuple_count, Fits, IsWritable, IsWritten, IsRunnableStatement, AreAsLong};

use crate::environment::Env;
use crate::places::{element_of, sorts_of, table_of};
use crate::protocol::{Formula, Protocol, Term};
use crate::structure::Structure;
use crate::values::eval;
use std::mem;

/// An update `r(target) := body`, with the types of the relation's arguments.
#[derive(Drop)]
struct Update<'a> {
    protocol: &'a Protocol,
    sorts: &'a [u8],
    target: &'a [Term],
    body: &'a Formula,
}

/// Writes, at each tuple that the update reaches, the value of its body in `s`. The tuples are those that begin
/// with `number` elements whose place, among as many, is `first`.
fn write(
    update: &Update,
    number: usize,
    first: usize,
    s: &Structure,
    env: &mut Env,
    table: &mut [bool],
)
    requires fits { Fits (protocol_of update.now.protocol.now) s.now }
    requires target { IsWritable (protocol_of update.now.protocol.now) s.now.sizes.items (environment_of env.old) (drop number (map term_of update.now.target.now)) (drop number update.now.sorts.now) (formula_of update.now.body.now) }
    requires number { number ≤ length update.now.target.now }
    requires short { length table.old < 2 ^ 64 }
    requires room { first * tuple_count s.now.sizes.items (drop number update.now.sorts.now) + tuple_count s.now.sizes.items (drop number update.now.sorts.now) ≤ length table.old }
    ensures written { IsWritten (structure_of (protocol_of update.now.protocol.now) s.now) (environment_of env.old) (drop number (map term_of update.now.target.now)) (drop number update.now.sorts.now) (formula_of update.now.body.now) first table.old table.new }
    ensures unchanged { env.new ≡ env.old }
{
    if number == update.target.len() {
        table[first] = eval(update.protocol, update.body, s, env);
        return;
    }
    let size = s.sizes[update.sorts[number] as usize];
    let base = first * size as usize;
    let term = update.target[number];
    if let Term::Var(var) = term {
        let before = env.variable(var);
        for element in 0..size {
            env.bind(var, element);
            write(update, number + 1, base + element as usize, s, env, table);
        }
        env.bind(var, before);
        return;
    }
    let element = element_of(term, s, env);
    write(update, number + 1, base + element as usize, s, env, table);
}

/// Writes the relation's table as it is after the update. All is read from the structure before.
fn write_table(
    protocol: &Protocol,
    rel: u8,
    target: &[Term],
    body: &Formula,
    s: &Structure,
    env: &mut Env,
    table: &mut [bool],
)
    requires fits { Fits (protocol_of protocol.now) s.now }
    requires statement { IsRunnableStatement (protocol_of protocol.now) s.now.sizes.items (environment_of env.old) (update_relation rel (map term_of target.now) (formula_of body.now)) }
    requires room { length table.old ≡ length (slice_index_or (tables_of s.now) rel []) }
    ensures written { (R : Relation) → slice_get (protocol_of protocol.now).relations rel ≡ Some R → IsWritten (structure_of (protocol_of protocol.now) s.now) (environment_of env.old) (map term_of target.now) R.arguments (formula_of body.now) 0 (slice_index_or (tables_of s.now) rel []) table.new }
    ensures unchanged { env.new ≡ env.old }
{
    table.copy_from_slice(table_of(s, rel));
    let update = Update {
        protocol,
        sorts: sorts_of(protocol, rel),
        target,
        body,
    };
    write(&update, 0, 0, s, env, table);
}

/// Gives the relation the value of the body at each tuple that the target reaches, all read from the structure
/// before. `spare` has a table as long as each of the structure's, and the values in it are of no matter.
pub(crate) fn update_table(
    protocol: &Protocol,
    rel: u8,
    target: &[Term],
    body: &Formula,
    s: &mut Structure,
    spare: &mut Vec<Vec<bool>>,
    env: &mut Env,
)
    requires fits { Fits (protocol_of protocol.now) s.old }
    requires spare { AreAsLong (bits_of spare.old) (tables_of s.old) }
    requires statement { IsRunnableStatement (protocol_of protocol.now) s.old.sizes.items (environment_of env.old) (update_relation rel (map term_of target.now) (formula_of body.now)) }
    ensures after { structure_of (protocol_of protocol.now) s.new ≡ after_relation (protocol_of protocol.now) (structure_of (protocol_of protocol.now) s.old) (environment_of env.old) rel (map term_of target.now) (formula_of body.now) }
    ensures fits { Fits (protocol_of protocol.now) s.new }
    ensures sizes { s.new.sizes.items ≡ s.old.sizes.items }
    ensures spare { AreAsLong (bits_of spare.new) (tables_of s.new) }
    ensures unchanged { env.new ≡ env.old }
{
    let table = &mut spare[rel as usize];
    write_table(protocol, rel, target, body, s, env, table.as_mut_slice());
    mem::swap(&mut s.tables[rel as usize], table);
}

/// Gives the individual the element that the term stands for in the structure before.
pub(crate) fn update_value(protocol: &Protocol, ind: u8, to: Term, s: &mut Structure, env: &Env)
    requires fits { Fits (protocol_of protocol.now) s.old }
    requires statement { IsRunnableStatement (protocol_of protocol.now) s.old.sizes.items (environment_of env.now) (update_individual ind (term_of to)) }
    ensures after { structure_of (protocol_of protocol.now) s.new ≡ after_individual (structure_of (protocol_of protocol.now) s.old) (environment_of env.now) ind (term_of to) }
    ensures fits { Fits (protocol_of protocol.now) s.new }
    ensures sizes { s.new.sizes.items ≡ s.old.sizes.items }
    ensures tables { tables_of s.new ≡ tables_of s.old }
{
    let element = element_of(to, s, env);
    s.values[ind as usize] = element;
}
