ghost use Rattle.std.specs.Prelude.{◌≡◌, ◌∷◌, [], false, IsTrue, IfOk, map, length};
ghost use Rattle.dai_trail.specs.Codes.{lit_of as literal_of};
ghost use Rattle.dai_trail.specs.Formula.{IsMetBy, AreMetBy, IsTrueAt};
ghost use Rattle.dai_logic.specs.Parts.{sort_of, relation_of, individual_of};
ghost use Rattle.dai_logic.specs.Protocols.{protocol_of};
ghost use Rattle.dai_picture.specs.Samples.{pairs as pairs_of_the_model};

use crate::decode::{Decoded, decode};
use crate::draw::draw;
use dai_base::{Spent, Text};
use dai_circuit::Circuit;
use dai_logic::{Block, IndInfo, Protocol, RelInfo, SortInfo};
use dai_trail::codes::lit_of;
use dai_trail::{Cnf, Lit};
use std::alloc::Global;
use std::test::Fail;

fn sort(alloc: Global, name: &[u8]) -> Result<SortInfo, Spent>
    ensures { IfOk result (λ s. sort_of s ≡ record { name = name.now; ordered = false }) }
{
    Ok(SortInfo {
        name: Text::from_bytes(alloc, name)?,
        ordered: false,
    })
}

fn relation(alloc: Global, name: &[u8], args: &[u8]) -> Result<RelInfo, Spent>
    ensures { IfOk result (λ r. relation_of r ≡ record { name = name.now; arguments = args.now }) }
{
    Ok(RelInfo {
        name: Text::from_bytes(alloc, name)?,
        args: Vec::from_slice(alloc, args)?,
    })
}

fn individual(alloc: Global, name: &[u8], sort: u8) -> Result<IndInfo, Spent>
    ensures { IfOk result (λ i. individual_of i ≡ record { name = name.now; sort = sort }) }
{
    Ok(IndInfo {
        name: Text::from_bytes(alloc, name)?,
        sort,
    })
}

/// Two types, a relation between them and an individual of the second.
fn pairs(alloc: Global) -> Result<Protocol, Spent>
    ensures { IfOk result (λ p. protocol_of p ≡ pairs_of_the_model) }
{
    let sorts = vec![in alloc; sort(alloc, b"a")?, sort(alloc, b"b")?]?;
    let relations = vec![in alloc; relation(alloc, b"r", &[0, 1])?]?;
    let individuals = vec![in alloc; individual(alloc, b"c", 1)?]?;
    Ok(Protocol {
        sorts,
        relations,
        individuals,
        axioms: Vec::new(alloc),
        init: Block {
            params: Vec::new(alloc),
            locals: Vec::new(alloc),
            code: Vec::new(alloc),
        },
        actions: Vec::new(alloc),
        invariants: Vec::new(alloc),
    })
}

fn is_true(lit: Lit, values: &[bool]) -> bool
    ensures { IsTrue result → IsTrueAt values.now lit }
{
    values.get(lit.var).copied().unwrap_or(false) == lit.positive
}

/// Whether some literal of the clause is true.
fn is_met(clause: &[u32], values: &[bool]) -> bool
    ensures { IsTrue result → IsMetBy (map literal_of clause.now) values.now }
{
    for code in clause {
        if is_true(lit_of(*code), values) {
            return true;
        }
    }
    false
}

fn are_met(cnf: &Cnf, values: &[bool]) -> bool
    ensures { IsTrue result → AreMetBy cnf.now values.now }
{
    for number in 0..cnf.clause_count() {
        if !is_met(cnf.clause(number), values) {
            return false;
        }
    }
    true
}

/// The next assignment in lexicographic order, and after the last one the first.
fn next(alloc: Global, values: &[bool]) -> Result<Vec<bool>, Spent>
    ensures { IfOk result (λ more. length more.items ≡ length values.now) }
{
    let mut more = Vec::new(alloc);
    for (place, value) in values.iter().enumerate() {
        let mut is_last = true;
        for behind in &values[place + 1..] {
            is_last &= *behind;
        }
        more.push(*value ^ is_last)?;
    }
    Ok(more)
}

fn digit(number: u16) -> u8 {
    if number == 0 {
        b'0'
    } else if number == 1 {
        b'1'
    } else {
        b'2'
    }
}

/// The size of the second type, the first table, the first value and the first argument, as digits.
fn describe(text: &mut Vec<u8>, decoded: &Decoded) -> Result<(), Spent> {
    let structure = &decoded.structure;
    text.push(digit(structure.sizes.get(1).copied().unwrap_or(0)))?;
    if let Some(table) = structure.tables.get(0) {
        for holds in table {
            text.push(if *holds { b'1' } else { b'0' })?;
        }
    }
    text.push(digit(structure.values.get(0).copied().unwrap_or(9)))?;
    text.push(digit(decoded.args.get(0).copied().unwrap_or(9)))?;
    text.push(b' ')?;
    Ok(())
}

/// What the first so many assignments show that meet the clauses, with one slot of the first type and two of
/// the second, and one parameter.
fn worlds(alloc: Global, exact: bool, many: u32) -> Result<Vec<u8>, Spent> {
    let protocol = pairs(alloc)?;
    let mut circuit = Circuit::new(alloc);
    let drawing = draw(alloc, &mut circuit, &protocol, &[1], &[], &[1, 2], exact)?;
    let formula = circuit.formula();
    let mut values = vec![in alloc; false; formula.vars()]?;
    let mut text = Vec::new(alloc);
    for _ in 0..many {
        if are_met(formula, values.as_slice()) {
            let decoded = decode(
                alloc,
                &protocol,
                &drawing.frame,
                &drawing.picture,
                values.as_slice(),
            )?;
            describe(&mut text, &decoded)?;
        }
        values = next(alloc, values.as_slice())?;
    }
    Ok(text)
}

#[test]
fn at_most_two(rt: HostRuntime) -> Result<(), Fail> {
    let text = worlds(rt.alloc(), false, 128)?;
    assert!(rt;
        text.as_slice()
            == "1000 1000 1100 1100 20011 20010 20001 20000 20111 20110 20101 20100 21011 21010 21001 21000 21111 21110 21101 21100 ".as_bytes()
    );
    Ok(())
}

#[test]
fn exactly_two(rt: HostRuntime) -> Result<(), Fail> {
    let text = worlds(rt.alloc(), true, 64)?;
    assert!(rt;
        text.as_slice()
            == "20011 20010 20001 20000 20111 20110 20101 20100 21011 21010 21001 21000 21111 21110 21101 21100 ".as_bytes()
    );
    Ok(())
}
