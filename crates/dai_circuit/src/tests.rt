ghost use Rattle.std.specs.Prelude.{IsTrue};
ghost use Rattle.dai_circuit.specs.Circuits.{AreBitsBelow, IsBitBelow};

use super::*;
use dai_base::Spent;
use dai_trail::codes::lit_of;
use dai_trail::{Cnf, Lit};
use std::alloc::Global;
use std::test::Fail;

/// The operation that a row of the table tests.
#[derive(Clone, Copy, Debug, PartialEq, Eq)]
enum Operation {
    All,
    Any,
    Same,
    Require,
}

/// Whether a bit's variable is below a count.
fn is_below(part: Bit, count: usize) -> bool
    ensures { IsTrue result → IsBitBelow count part }
{
    match part {
        Bit::Known(_) => true,
        Bit::Is(lit) => lit.var < count,
    }
}

/// Whether each bit's variable is below a count.
fn are_below(parts: &[Bit], count: usize) -> bool
    ensures { IsTrue result → AreBitsBelow count parts.now }
{
    for part in parts {
        if !is_below(*part, count) {
            return false;
        }
    }
    true
}

fn is_true(lit: Lit, values: &[bool]) -> bool {
    values.get(lit.var).copied().unwrap_or(false) == lit.positive
}

fn value(bit: Bit, values: &[bool]) -> bool {
    match bit {
        Bit::Known(known) => known,
        Bit::Is(lit) => is_true(lit, values),
    }
}

/// Whether some literal of the clause is true.
fn is_met(clause: &[u32], values: &[bool]) -> bool {
    for code in clause {
        if is_true(lit_of(*code), values) {
            return true;
        }
    }
    false
}

fn are_met(cnf: &Cnf, values: &[bool]) -> bool {
    for number in 0..cnf.clause_count() {
        if !is_met(cnf.clause(number), values) {
            return false;
        }
    }
    true
}

/// The bit's value in each assignment that meets the clauses, over three inputs and at most one variable
/// more, in the order of the assignments.
fn table(alloc: Global, cnf: &Cnf, bit: Bit) -> Result<Vec<u8>, Spent> {
    let mut rows = Vec::new(alloc);
    for row in 0..16 {
        let values = [
            row / 8 % 2 == 1,
            row / 4 % 2 == 1,
            row / 2 % 2 == 1,
            row % 2 == 1,
        ];
        let is_idle = values[3] && cnf.vars() < 4;
        if !is_idle && are_met(cnf, &values) {
            rows.push(if value(bit, &values) { b'1' } else { b'0' })?;
        }
    }
    Ok(rows)
}

/// The bit that a letter stands for: an input, its negation by a capital, or a known bit by a digit.
fn part(inputs: [Bit; 3], letter: u8) -> Bit {
    match letter {
        b'a' => inputs[0],
        b'b' => inputs[1],
        b'c' => inputs[2],
        b'A' => inputs[0].negation(),
        b'B' => inputs[1].negation(),
        b'C' => inputs[2].negation(),
        b'1' => Bit::Known(true),
        _ => Bit::Known(false),
    }
}

/// Applies an operation to bits that it takes; what only requires answers the first input.
fn operate(
    circuit: &mut Circuit,
    operation: Operation,
    first_input: Bit,
    parts: &[Bit],
) -> Result<Bit, Spent> {
    if !are_below(parts, circuit.formula().vars()) {
        return Err(Spent);
    }
    match operation {
        Operation::All => circuit.all(parts),
        Operation::Any => circuit.any(parts),
        Operation::Same => match parts {
            [first, second] => circuit.same(*first, *second),
            _ => Err(Spent),
        },
        Operation::Require => {
            circuit.require(parts)?;
            Ok(first_input)
        }
    }
}

/// Whether an operation on these letters has this table.
fn has_table(
    alloc: Global,
    operation: Operation,
    letters: &str,
    expected: &str,
) -> Result<bool, Spent> {
    let mut circuit = Circuit::new(alloc);
    let inputs = [circuit.input()?, circuit.input()?, circuit.input()?];
    let mut parts = Vec::new(alloc);
    for letter in letters.as_bytes() {
        parts.push(part(inputs, *letter))?;
    }
    let bit = operate(&mut circuit, operation, inputs[0], parts.as_slice())?;
    let rows = table(alloc, circuit.formula(), bit)?;
    Ok(rows.as_slice() == expected.as_bytes())
}

#[test]
fn truth_tables(rt: HostRuntime) -> Result<(), Fail> {
    for (operation, letters, expected) in [
        (Operation::All, "abc", "00000001"),
        (Operation::All, "aBc", "00000100"),
        (Operation::All, "a1b", "00000011"),
        (Operation::All, "a0b", "00000000"),
        (Operation::All, "b", "00110011"),
        (Operation::All, "aA", "00000000"),
        (Operation::All, "", "11111111"),
        (Operation::Any, "abc", "01111111"),
        (Operation::Any, "aBc", "11011111"),
        (Operation::Any, "a0", "00001111"),
        (Operation::Any, "a1b", "11111111"),
        (Operation::Any, "", "00000000"),
        (Operation::Same, "ab", "11000011"),
        (Operation::Same, "aB", "00111100"),
        (Operation::Same, "a1", "00001111"),
        (Operation::Same, "0a", "11110000"),
        (Operation::Same, "bb", "11111111"),
        (Operation::Same, "aA", "00000000"),
        (Operation::Same, "00", "11111111"),
        (Operation::Require, "ab", "001111"),
        (Operation::Require, "Bc0", "000111"),
        (Operation::Require, "1a", "00001111"),
        (Operation::Require, "0", ""),
    ] {
        assert!(rt; has_table(rt.alloc(), operation, letters, expected)?);
    }
    Ok(())
}

/// What the circuit answers where some input of the first two is true: the values of the bits in a model, or a `c` for
/// each bit of the core.
fn answer(alloc: Global, letters: &str) -> Result<Vec<u8>, Spent> {
    let mut circuit = Circuit::new(alloc);
    let inputs = [circuit.input()?, circuit.input()?, circuit.input()?];
    let mut parts = Vec::new(alloc);
    for letter in letters.as_bytes() {
        parts.push(part(inputs, *letter))?;
    }
    let either = [inputs[0], inputs[1]];
    if !are_below(parts.as_slice(), circuit.formula().vars())
        || !are_below(&either, circuit.formula().vars())
    {
        return Err(Spent);
    }
    circuit.require(&either)?;
    if !are_below(parts.as_slice(), circuit.formula().vars()) {
        return Err(Spent);
    }
    let mut told = Vec::new(alloc);
    match circuit.solve_under(parts.as_slice())? {
        Solved::Model(model) => {
            for part in &parts {
                told.push(if value(*part, &model) { b'1' } else { b'0' })?;
            }
        }
        Solved::Core(core) => {
            for is_needed in &core {
                told.push(if *is_needed { b'c' } else { b'-' })?;
            }
        }
    }
    Ok(told)
}

#[test]
fn models_and_cores(rt: HostRuntime) -> Result<(), Fail> {
    for (letters, expected) in [
        ("", ""),
        ("A", "1"),
        ("Abc1", "1111"),
        ("AB", "cc"),
        ("AcB", "c-c"),
        ("1AB", "-cc"),
        ("a0b", "-c-"),
        ("cC", "cc"),
    ] {
        let told = answer(rt.alloc(), letters)?;
        assert!(rt; told.as_slice() == expected.as_bytes());
    }
    Ok(())
}
