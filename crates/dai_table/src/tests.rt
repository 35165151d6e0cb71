ghost use Rattle.std.specs.Prelude.{◌<◌, ◌≤◌, length, IfOk};
ghost use Rattle.std.specs.List.{All};
ghost use Rattle.dai_logic.specs.Protocols.{protocol_of};
ghost use Rattle.dai_model.specs.Protocol.{Protocol as Meaning};
ghost use Rattle.dai_model.specs.Template.{Bounds};
ghost use Rattle.dai_table.specs.Answers.{IsTableFor};
ghost use Rattle.dai_table.specs.Flags.{IsTableOf};
ghost use Rattle.dai_template.specs.Spaces.{IsClauseOf};
ghost use Rattle.dai_template.specs.declared.space.Space.{Space as SpaceOfClauses};
ghost use Rattle.dai_weaken.specs.Questions.{ArePremises};

use crate::table::{MOST_FLAGS, TruthTable};
use dai_base::Spent;
use dai_logic::Protocol;
use dai_samples::two_flags;
use dai_template::{Clause, Space};
use dai_weaken::{Judge, everything, greatest, missing};
use std::alloc::Global;
use std::test::Fail;

/// The list of the clause alone.
fn alone(alloc: Global, clause: &Clause) -> Result<Vec<Clause>, Spent>
    ensures { IfOk result (λ one. (P : Meaning) (B : Bounds) (space : SpaceOfClauses) → IsClauseOf P B space clause.now → ArePremises P space one.items) }
{
    Ok(vec![in alloc; clause.copy()]?)
}

/// Whether the clause holds at first, and whether the first action keeps it.
fn holds(
    alloc: Global,
    protocol: &Protocol,
    space: &Space,
    table: &mut TruthTable,
    clause: &Clause,
) -> Result<(bool, bool), Spent>
    requires table { IsTableFor (protocol_of protocol.now) table.old }
    requires clause { (B : Bounds) × IsClauseOf (protocol_of protocol.now) B space.now clause.now }
    requires action { 0 < length (protocol_of protocol.now).actions }
    ensures { IsTableFor (protocol_of protocol.now) table.new }
{
    let at_first = table.initiation(protocol, space, clause)?.is_none();
    let premises = table.prepare(protocol, space, &alone(alloc, clause)?)?;
    let after = table.consecution(protocol, space, &premises, 0, clause)?;
    Ok((at_first, after.is_none()))
}

/// The same of each of the clauses.
fn each_holds(
    alloc: Global,
    protocol: &Protocol,
    space: &Space,
    table: &mut TruthTable,
    clauses: &[Clause],
) -> Result<Vec<(bool, bool)>, Spent>
    requires table { IsTableFor (protocol_of protocol.now) table.old }
    requires clauses { (B : Bounds) × All (IsClauseOf (protocol_of protocol.now) B space.now) clauses.now }
    requires action { 0 < length (protocol_of protocol.now).actions }
{
    let mut all = Vec::new(alloc);
    for clause in clauses {
        all.push(holds(alloc, protocol, space, table, clause)?)?;
    }
    Ok(all)
}

/// The same of each clause of at most two literals.
fn all_hold(alloc: Global, protocol: &Protocol) -> Result<Vec<(bool, bool)>, Spent>
    requires table { IsTableOf (protocol_of protocol.now) }
    requires action { 0 < length (protocol_of protocol.now).actions }
{
    let space = Space::of_flags(alloc, protocol, 2)?;
    let mut table = TruthTable::new(alloc, protocol)?;
    let clauses = space.all(alloc)?;
    each_holds(alloc, protocol, &space, &mut table, &clauses)
}

/// How many clauses are left with at most so many literals, and how many invariants don't follow from them.
fn left(alloc: Global, protocol: &Protocol, most: u8) -> Result<(usize, usize), Spent>
    requires table { IsTableOf (protocol_of protocol.now) }
    requires few { most ≤ 8 }
{
    let space = Space::of_flags(alloc, protocol, most)?;
    let mut table = TruthTable::new(alloc, protocol)?;
    let start = everything(alloc, &space)?;
    let weakened = greatest(alloc, &mut table, protocol, &space, start)?;
    let missing = missing(alloc, &mut table, protocol, &space, &weakened.kept)?;
    Ok((weakened.kept.clauses().len(), missing.len()))
}

/// What init and the action do to each clause of at most two literals over the two flags, alone: `false`, `a`, `~a`,
/// `b`, `~b`, `a | b`, `a | ~b`, `~a | b`, `~a | ~b`.
const HOLDS: [(bool, bool); 9] = [
    (false, true),
    (false, true),
    (true, false),
    (true, false),
    (false, true),
    (true, true),
    (false, true),
    (true, false),
    (true, true),
];

#[test]
fn questions_about_two_flags(rt: HostRuntime) -> Result<(), Fail> {
    let alloc = rt.alloc();
    let protocol = two_flags(alloc)?;
    if !protocol.sorts.is_empty()
        || protocol.relations.len() > MOST_FLAGS
        || protocol.actions.is_empty()
    {
        return Err("no table".into());
    }
    let told = all_hold(alloc, &protocol)?;
    assert_eq!(rt; told.as_slice(), HOLDS.as_slice());
    Ok(())
}

/// With two literals `a | b` and `~a | ~b` are left, and the invariant follows. With one literal nothing is left, and
/// it doesn't.
#[test]
fn down_to_the_answer(rt: HostRuntime) -> Result<(), Fail> {
    let alloc = rt.alloc();
    let protocol = two_flags(alloc)?;
    if !protocol.sorts.is_empty() || protocol.relations.len() > MOST_FLAGS {
        return Err("no table".into());
    }
    assert_eq!(rt; left(alloc, &protocol, 2)?, (2, 0));
    assert_eq!(rt; left(alloc, &protocol, 1)?, (0, 1));
    Ok(())
}
