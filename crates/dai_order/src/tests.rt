ghost use Rattle.std.specs.Prelude.{◌≡◌, ◌<◌, ◌≤◌, length, IfOk, IfSome, OnOk, vec_len};
ghost use Rattle.std.specs.List.{All};
ghost use Rattle.dai_template.specs.Spaces.{IsSpace};
ghost use Rattle.dai_order.specs.Antichains.{IsAntichainOf};
ghost use Rattle.dai_order.specs.Samples.{AreAll};

use crate::antichain::Antichain;
use crate::subsumption::subsumes;
use crate::weakening::weakenings;
use dai_base::{Spent, Text};
use dai_logic::{Block, Protocol, RelInfo, SortInfo};
use dai_template::{Clause, Space};
use std::alloc::Global;
use std::test::Fail;

/// Two flags, `a` and `b`.
fn flags(alloc: Global) -> Result<Protocol, Spent>
    ensures { IfOk result (λ p. vec_len p.sorts ≡ 0) }
{
    let a = RelInfo {
        name: Text::from_bytes(alloc, b"a")?,
        args: Vec::new(alloc),
    };
    let b = RelInfo {
        name: Text::from_bytes(alloc, b"b")?,
        args: Vec::new(alloc),
    };
    let relations = vec![in alloc; a, b]?;
    let init = Block {
        params: Vec::new(alloc),
        locals: Vec::new(alloc),
        code: Vec::new(alloc),
    };
    Ok(Protocol {
        sorts: Vec::new(alloc),
        relations,
        individuals: Vec::new(alloc),
        axioms: Vec::new(alloc),
        init,
        actions: Vec::new(alloc),
        invariants: Vec::new(alloc),
    })
}

/// Clients, servers, links between them, and the semaphores of servers.
fn lock(alloc: Global) -> Result<Protocol, Spent>
    ensures { IfOk result (λ p. vec_len p.sorts ≡ 2) }
{
    let client = SortInfo {
        name: Text::from_bytes(alloc, b"client")?,
        ordered: false,
    };
    let server = SortInfo {
        name: Text::from_bytes(alloc, b"server")?,
        ordered: false,
    };
    let link = RelInfo {
        name: Text::from_bytes(alloc, b"link")?,
        args: vec![in alloc; 0, 1]?,
    };
    let semaphore = RelInfo {
        name: Text::from_bytes(alloc, b"semaphore")?,
        args: vec![in alloc; 1]?,
    };
    let sorts = vec![in alloc; client, server]?;
    let relations = vec![in alloc; link, semaphore]?;
    let init = Block {
        params: Vec::new(alloc),
        locals: Vec::new(alloc),
        code: Vec::new(alloc),
    };
    Ok(Protocol {
        sorts,
        relations,
        individuals: Vec::new(alloc),
        axioms: Vec::new(alloc),
        init,
        actions: Vec::new(alloc),
        invariants: Vec::new(alloc),
    })
}

/// An ordered type, and a relation over it.
fn down(alloc: Global) -> Result<Protocol, Spent>
    ensures { IfOk result (λ p. vec_len p.sorts ≡ 1) }
{
    let n = SortInfo {
        name: Text::from_bytes(alloc, b"n")?,
        ordered: true,
    };
    let p = RelInfo {
        name: Text::from_bytes(alloc, b"p")?,
        args: vec![in alloc; 0]?,
    };
    let sorts = vec![in alloc; n]?;
    let relations = vec![in alloc; p]?;
    let init = Block {
        params: Vec::new(alloc),
        locals: Vec::new(alloc),
        code: Vec::new(alloc),
    };
    Ok(Protocol {
        sorts,
        relations,
        individuals: Vec::new(alloc),
        axioms: Vec::new(alloc),
        init,
        actions: Vec::new(alloc),
        invariants: Vec::new(alloc),
    })
}

/// The space of the protocol with clauses of two literals.
fn space_of(alloc: Global, protocol: &Protocol, vars: &[u8]) -> Result<Space, Fail>
    requires each { length vars.now ≡ vec_len protocol.now.sorts }
    requires few { All (λ bound. bound ≤ 4) vars.now }
    ensures { IfOk result IsSpace }
{
    match Space::new(alloc, protocol, vars, 2) {
        Ok(space) => Ok(space),
        Err(_) => Err("no space".into()),
    }
}

/// Its canonical clauses.
fn all(alloc: Global, space: &Space) -> Result<Vec<Clause>, Spent>
    requires { IsSpace space.now }
    ensures { IfOk result (λ clauses. AreAll space.now clauses.items) }
{
    Ok(space.all(alloc)?)
}

/// Whether the clause is the one of these literals over the shape.
fn is_clause(clause: &Clause, shape: u32, literals: &[u8]) -> bool {
    clause.shape == shape && clause.lits.as_slice() == literals
}

/// The place of this clause in the list.
fn place(clauses: &[Clause], shape: u32, literals: &[u8]) -> Option<usize>
    ensures { IfSome result (λ place. place < length clauses.now) }
{
    for place in 0..clauses.len() {
        if is_clause(&clauses[place], shape, literals) {
            return Some(place);
        }
    }
    None
}

/// Whether the clauses are these, by the numbers of their shapes and their literals.
fn are_clauses(clauses: &[Clause], shapes: &[u32], literals: &[&[u8]]) -> bool {
    if clauses.len() != shapes.len() || clauses.len() != literals.len() {
        return false;
    }
    for place in 0..clauses.len() {
        if !is_clause(&clauses[place], shapes[place], literals[place]) {
            return false;
        }
    }
    true
}

/// Whether the one clause of the space is below the other.
fn is_below(
    space: &Space,
    clauses: &[Clause],
    shapes: [u32; 2],
    left: &[u8],
    right: &[u8],
) -> Option<bool>
    requires { AreAll space.now clauses.now }
{
    let [first, second] = shapes;
    let below = place(clauses, first, left)?;
    let above = place(clauses, second, right)?;
    Some(subsumes(space, &clauses[below], &clauses[above]))
}

#[test]
fn clauses_below_others(rt: HostRuntime) -> Result<(), Fail> {
    let alloc = rt.alloc();
    // Without variables the literals decide.
    let space = space_of(alloc, &flags(alloc)?, &[])?;
    let clauses = all(alloc, &space)?;
    assert!(rt; is_below(&space, &clauses, [0, 0], &[], &[1]) == Some(true));
    assert!(rt; is_below(&space, &clauses, [0, 0], &[1], &[1, 2]) == Some(true));
    assert!(rt; is_below(&space, &clauses, [0, 0], &[1], &[0, 2]) == Some(false));
    assert!(rt; is_below(&space, &clauses, [0, 0], &[1, 2], &[1]) == Some(false));
    // Two clients stay two.
    let space = space_of(alloc, &lock(alloc)?, &[2, 1])?;
    let clauses = all(alloc, &space)?;
    assert!(rt; is_below(&space, &clauses, [3, 5], &[1], &[1, 3]) == Some(true));
    assert!(rt; is_below(&space, &clauses, [5, 3], &[1, 3], &[1]) == Some(false));
    assert!(rt; is_below(&space, &clauses, [1, 5], &[1], &[0, 5]) == Some(true));
    // Variables of an ordered type stay in order.
    let space = space_of(alloc, &down(alloc)?, &[2])?;
    let clauses = all(alloc, &space)?;
    assert!(rt; is_below(&space, &clauses, [1, 2], &[0], &[1, 2]) == Some(true));
    assert!(rt; is_below(&space, &clauses, [2, 2], &[0, 3], &[1, 2]) == Some(false));
    Ok(())
}

/// Whether the weakenings of this clause are those.
fn has_weakenings(
    alloc: Global,
    space: &Space,
    shape: u32,
    literals: &[u8],
    shapes: &[u32],
    weaker: &[&[u8]],
) -> Result<bool, Spent>
    requires { IsSpace space.now }
{
    let clauses = all(alloc, space)?;
    match place(&clauses, shape, literals) {
        Some(place) => {
            let found = weakenings(alloc, space, &clauses[place])?;
            Ok(are_clauses(&found, shapes, weaker))
        }
        None => Ok(false),
    }
}

#[test]
fn weakenings_of_clauses(rt: HostRuntime) -> Result<(), Fail> {
    let alloc = rt.alloc();
    let space = space_of(alloc, &flags(alloc)?, &[])?;
    let four: [&[u8]; 4] = [&[0], &[1], &[2], &[3]];
    assert!(rt; has_weakenings(alloc, &space, 0, &[], &[0; 4], &four)?);
    // One client more; a second server would be past the bound.
    let space = space_of(alloc, &lock(alloc)?, &[2, 1])?;
    let one: [&[u8]; 1] = [&[3]];
    assert!(rt; has_weakenings(alloc, &space, 1, &[1], &[3], &one)?);
    // A variable more before or after.
    let space = space_of(alloc, &down(alloc)?, &[2])?;
    let two: [&[u8]; 2] = [&[0], &[2]];
    assert!(rt; has_weakenings(alloc, &space, 1, &[0], &[2, 2], &two)?);
    assert!(rt; has_weakenings(alloc, &space, 2, &[0, 3], &[], &[])?);
    Ok(())
}

/// Takes the member at the place away, if there is one.
fn remove(alloc: Global, space: &Space, antichain: &mut Antichain, at: usize) -> Result<(), Spent>
    requires { IsAntichainOf space.now antichain.old.clauses.items }
    ensures { OnOk result (IsAntichainOf space.now antichain.new.clauses.items) }
{
    if at < antichain.clauses().len() {
        antichain.remove_and_weaken(alloc, space, at)?;
    }
    Ok(())
}

/// The antichain of all clauses of the space.
fn antichain_of_all(alloc: Global, space: &Space) -> Result<Antichain, Spent>
    requires { IsSpace space.now }
    ensures { IfOk result (λ antichain. IsAntichainOf space.now antichain.clauses.items) }
{
    let clauses = all(alloc, space)?;
    Ok(Antichain::of(alloc, space, &clauses)?)
}

/// The least clause goes, and what is next above it, one by one.
#[test]
fn antichain_of_flags(rt: HostRuntime) -> Result<(), Fail> {
    let alloc = rt.alloc();
    let space = space_of(alloc, &flags(alloc)?, &[])?;
    let mut antichain = antichain_of_all(alloc, &space)?;
    let least: [&[u8]; 1] = [&[]];
    assert!(rt; are_clauses(antichain.clauses(), &[0], &least));
    remove(alloc, &space, &mut antichain, 0)?;
    let singles: [&[u8]; 4] = [&[0], &[1], &[2], &[3]];
    assert!(rt; are_clauses(antichain.clauses(), &[0; 4], &singles));
    remove(alloc, &space, &mut antichain, 0)?;
    let rest: [&[u8]; 3] = [&[1], &[2], &[3]];
    assert!(rt; are_clauses(antichain.clauses(), &[0; 3], &rest));
    remove(alloc, &space, &mut antichain, 1)?;
    let pair: [&[u8]; 3] = [&[1], &[3], &[0, 2]];
    assert!(rt; are_clauses(antichain.clauses(), &[0; 3], &pair));
    Ok(())
}

#[test]
fn antichain_of_an_ordered_type(rt: HostRuntime) -> Result<(), Fail> {
    let alloc = rt.alloc();
    let space = space_of(alloc, &down(alloc)?, &[2])?;
    let mut antichain = antichain_of_all(alloc, &space)?;
    remove(alloc, &space, &mut antichain, 0)?;
    remove(alloc, &space, &mut antichain, 0)?;
    let singles: [&[u8]; 3] = [&[0], &[1], &[]];
    assert!(rt; are_clauses(antichain.clauses(), &[1, 1, 2], &singles));
    remove(alloc, &space, &mut antichain, 0)?;
    let rest: [&[u8]; 2] = [&[1], &[]];
    assert!(rt; are_clauses(antichain.clauses(), &[1, 2], &rest));
    Ok(())
}
