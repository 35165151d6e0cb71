ghost use Rattle.std.specs.Prelude.{◌≡◌, ◌<◌, ◌≤◌, [], length, vec_len, IfOk};
ghost use Rattle.std.specs.List.{All};
ghost use Rattle.dai_model.specs.Protocol.{Protocol as Meaning};
ghost use Rattle.dai_model.specs.Template.{Bounds};
ghost use Rattle.dai_model.specs.WellSorted.{IsWellSorted, closed_scope};
ghost use Rattle.dai_logic.specs.Protocols.{protocol_of};
ghost use Rattle.dai_logic.specs.Trees.{formula_of};
ghost use Rattle.dai_template.specs.Spaces.{IsSpaceOf, IsClauseOf};
ghost use Rattle.dai_template.specs.declared.space.Space.{Space as SpaceOfClauses};
ghost use Rattle.dai_weaken.specs.Questions.{ArePremises};
ghost use Rattle.dai_judge.specs.Premises.{AreSizesFor};
ghost use Rattle.dai_judge.specs.Ready.{IsReady};

use crate::sized::SizedJudge;
use dai_base::Spent;
use dai_logic::{Formula, Protocol, Structure};
use dai_samples::{locks, two_flags};
use dai_template::{Clause, Space};
use dai_weaken::Judge;
use std::alloc::Global;
use std::test::Fail;

/// The list of the clause alone.
fn alone(alloc: Global, clause: &Clause) -> Result<Vec<Clause>, Spent>
    ensures { IfOk result (λ one. (P : Meaning) (B : Bounds) (space : SpaceOfClauses) → IsClauseOf P B space clause.now → ArePremises P space one.items) }
{
    Ok(vec![in alloc; clause.copy()]?)
}

/// Whether the clause holds at first, whether the first action keeps it, and whether the formula follows from it.
fn told(
    alloc: Global,
    protocol: &Protocol,
    space: &Space,
    judge: &mut SizedJudge,
    clause: &Clause,
    formula: &Formula,
) -> Result<(bool, bool, bool), Spent>
    requires judge { IsReady (protocol_of protocol.now) judge.old }
    requires clause { (B : Bounds) × IsClauseOf (protocol_of protocol.now) B space.now clause.now }
    requires action { 0 < length (protocol_of protocol.now).actions }
    requires closed { IsWellSorted (protocol_of protocol.now) closed_scope (formula_of formula.now) }
    ensures { IsReady (protocol_of protocol.now) judge.new }
{
    let at_first = judge.initiation(protocol, space, clause)?.is_none();
    let premises = judge.prepare(protocol, space, &alone(alloc, clause)?)?;
    let after = judge
        .consecution(protocol, space, &premises, 0, clause)?
        .is_none();
    let follows = judge.entailed(protocol, &premises, formula)?;
    Ok((at_first, after, follows))
}

/// The same of each of the clauses.
fn each_told(
    alloc: Global,
    protocol: &Protocol,
    space: &Space,
    judge: &mut SizedJudge,
    clauses: &[Clause],
    formula: &Formula,
) -> Result<Vec<(bool, bool, bool)>, Spent>
    requires judge { IsReady (protocol_of protocol.now) judge.old }
    requires clauses { (B : Bounds) × All (IsClauseOf (protocol_of protocol.now) B space.now) clauses.now }
    requires action { 0 < length (protocol_of protocol.now).actions }
    requires closed { IsWellSorted (protocol_of protocol.now) closed_scope (formula_of formula.now) }
{
    let mut all = Vec::new(alloc);
    for clause in clauses {
        all.push(told(alloc, protocol, space, judge, clause, formula)?)?;
    }
    Ok(all)
}

/// The same of each clause of at most two flags, and of the first invariant.
fn all_told(alloc: Global, protocol: &Protocol) -> Result<Vec<(bool, bool, bool)>, Spent>
    requires no_types { (protocol_of protocol.now).sorts ≡ [] }
    requires action { 0 < length (protocol_of protocol.now).actions }
    requires invariant { 0 < length (protocol_of protocol.now).invariants }
{
    let space = Space::of_flags(alloc, protocol, 2)?;
    let mut judge = SizedJudge::new(alloc, &[])?;
    let clauses = space.all(alloc)?;
    let formula = &protocol.invariants[0].body;
    each_told(alloc, protocol, &space, &mut judge, &clauses, formula)
}

/// What init and the action do to each clause of at most two literals over the two flags, alone, and whether the two
/// are never both up where it is met: `false`, `a`, `~a`, `b`, `~b`, `a | b`, `a | ~b`, `~a | b`, `~a | ~b`.
const TOLD: [(bool, bool, bool); 9] = [
    (false, true, true),
    (false, true, false),
    (true, false, true),
    (true, false, false),
    (false, true, true),
    (true, true, false),
    (false, true, false),
    (true, false, false),
    (true, true, true),
];

#[test]
fn questions_about_two_flags(rt: HostRuntime) -> Result<(), Fail> {
    let alloc = rt.alloc();
    let protocol = two_flags(alloc)?;
    if !protocol.sorts.is_empty() || protocol.actions.is_empty() || protocol.invariants.is_empty() {
        return Err("no flags".into());
    }
    let told = all_told(alloc, &protocol)?;
    assert_eq!(rt; told.as_slice(), TOLD.as_slice());
    Ok(())
}

/// Of each of the clauses, whether it holds of all structures of these sizes at first.
fn hold_at_first(
    alloc: Global,
    protocol: &Protocol,
    space: &Space,
    clauses: &[Clause],
    sizes: &[u16],
) -> Result<Vec<bool>, Spent>
    requires sizes { AreSizesFor (protocol_of protocol.now) sizes.now }
    requires clauses { (B : Bounds) × All (IsClauseOf (protocol_of protocol.now) B space.now) clauses.now }
{
    let mut judge = SizedJudge::new(alloc, sizes)?;
    let mut all = Vec::new(alloc);
    for clause in clauses {
        all.push(judge.initiation(protocol, space, clause)?.is_none())?;
    }
    Ok(all)
}

/// Of each of the clauses, whether it is over two variables of the first type.
fn over_two(alloc: Global, space: &Space, clauses: &[Clause]) -> Result<Vec<bool>, Spent> {
    let mut all = Vec::new(alloc);
    for clause in clauses {
        let count = match space.shapes.get(clause.shape as usize) {
            None => None,
            Some(shape) => shape.counts.first().copied(),
        };
        all.push(count == Some(2))?;
    }
    Ok(all)
}

/// The space of the protocol with clauses of at most one literal.
fn space_of(alloc: Global, protocol: &Protocol, vars: &[u8]) -> Result<Space, Fail>
    requires each { length vars.now ≡ vec_len protocol.now.sorts }
    requires few { All (λ bound. bound ≤ 4) vars.now }
    ensures { IfOk result (IsSpaceOf (protocol_of protocol.now) (record { variables = vars.now; literals = 1 })) }
{
    match Space::new(alloc, protocol, vars, 1) {
        Ok(space) => Ok(space),
        Err(_) => Err("no space".into()),
    }
}

/// Nothing happens, so every structure is initial. One client is no two clients, so with one client exactly the clauses
/// about two of them hold; with two clients none holds.
#[test]
fn sizes_decide(rt: HostRuntime) -> Result<(), Fail> {
    let alloc = rt.alloc();
    let protocol = locks(alloc)?;
    let space = space_of(alloc, &protocol, &[2, 1])?;
    let clauses = space.all(alloc)?;
    let small = hold_at_first(alloc, &protocol, &space, &clauses, &[1, 1])?;
    let large = hold_at_first(alloc, &protocol, &space, &clauses, &[2, 1])?;
    let two = over_two(alloc, &space, &clauses)?;
    assert_eq!(rt; small.as_slice(), two.as_slice());
    assert!(rt; small.contains(&true));
    assert!(rt; !large.contains(&true));
    Ok(())
}

/// The values of the flags.
fn flags(alloc: Global, state: &Structure) -> Result<Vec<bool>, Spent> {
    let mut all = Vec::new(alloc);
    for table in &state.tables {
        all.push(table.first().copied().unwrap_or(false))?;
    }
    Ok(all)
}

/// The flags after init that break `a`, and those after the first action that break `~a`.
fn broken(alloc: Global, protocol: &Protocol) -> Result<Option<(Vec<bool>, Vec<bool>)>, Spent>
    requires no_types { (protocol_of protocol.now).sorts ≡ [] }
    requires action { 0 < length (protocol_of protocol.now).actions }
{
    let space = Space::of_flags(alloc, protocol, 2)?;
    let mut judge = SizedJudge::new(alloc, &[])?;
    let clauses = space.all(alloc)?;
    if clauses.len() < 3 {
        return Ok(None);
    }
    let first = judge.initiation(protocol, &space, &clauses[1])?;
    let premises = judge.prepare(protocol, &space, &[])?;
    let later = judge.consecution(protocol, &space, &premises, 0, &clauses[2])?;
    match (first, later) {
        (Some(x), Some(y)) => Ok(Some((flags(alloc, &x.after)?, flags(alloc, &y.after)?))),
        _ => Ok(None),
    }
}

/// After init the second flag is up, and after the action the first.
#[test]
fn counterexamples_of_two_flags(rt: HostRuntime) -> Result<(), Fail> {
    let alloc = rt.alloc();
    let protocol = two_flags(alloc)?;
    if !protocol.sorts.is_empty() || protocol.actions.is_empty() {
        return Err("no flags".into());
    }
    let (first, later) = broken(alloc, &protocol)?.ok_or("nothing is broken")?;
    assert_eq!(rt; first.as_slice(), [false, true].as_slice());
    assert_eq!(rt; later.as_slice(), [true, false].as_slice());
    Ok(())
}
