//! The report.
ghost use Rattle.std.specs.Prelude.{◌≡◌, ◌++◌, ◌+◌, ◌<◌, ◌^◌, ℕ, List, [], map, length, codes, IfOk, OnOk};
ghost use Rattle.std.specs.List.{flat_map, enumerate_from};
ghost use Rattle.dai_model.specs.Report.{clause_line as clause_line_of, label_of, verdict_line, report_of};
ghost use Rattle.dai_logic.specs.Protocols.{protocol_of};
ghost use Rattle.dai_template.specs.Spaces.{clause_of};
ghost use Rattle.dai_print.specs.Texts.{IsPrintable, ArePrintable};

use crate::clauses::clause_text;
use dai_base::Spent;
use dai_logic::Protocol;
use dai_template::{Clause, Space};
use std::alloc::Global;

/// A line for each clause, numbered from 1, and then `FOUND`, or `NOT FOUND` with the labels of the invariants
/// of these numbers. The clauses are of the space, and the space is one of the protocol.
pub fn report_text(
    alloc: Global,
    protocol: &Protocol,
    space: &Space,
    kept: &[Clause],
    missing: &[u32],
) -> Result<Vec<u8>, Spent>
    requires { ArePrintable (protocol_of protocol.now) space.now kept.now }
    ensures { IfOk result (λ text. text.items ≡ report_of (protocol_of protocol.now) (map (clause_of space.now) kept.now) missing.now) }
{
    let mut text = Vec::new(alloc);
    let mut number: u64 = 1;
    for clause in kept {
        add_line(alloc, protocol, space, number, clause, &mut text)?;
        number += 1;
    }
    add_verdict(&mut text, protocol, missing)?;
    Ok(text)
}

/// Adds the line of the clause.
fn add_line(
    alloc: Global,
    protocol: &Protocol,
    space: &Space,
    number: u64,
    clause: &Clause,
    text: &mut Vec<u8>,
) -> Result<(), Spent>
    requires { IsPrintable (protocol_of protocol.now) space.now clause.now }
    ensures { OnOk result (text.new.items ≡ text.old.items ++ clause_line_of (protocol_of protocol.now) (number, clause_of space.now clause.now)) }
{
    let head = format!(in alloc; "invariant [d{number}] ")?;
    text.extend_from_slice(head.as_bytes())?;
    let body = clause_text(alloc, protocol, space, clause)?;
    text.extend_from_slice(&body)?;
    text.extend_from_slice(b"\n")?;
    Ok(())
}

/// Adds whether every invariant follows, or the labels of those that don't.
fn add_verdict(text: &mut Vec<u8>, protocol: &Protocol, missing: &[u32]) -> Result<(), Spent>
    ensures { OnOk result (text.new.items ≡ text.old.items ++ verdict_line (protocol_of protocol.now) missing.now) }
{
    if missing.is_empty() {
        text.extend_from_slice(b"FOUND\n")?;
        return Ok(());
    }
    text.extend_from_slice(b"NOT FOUND")?;
    add_labels(text, protocol, missing)?;
    text.extend_from_slice(b"\n")?;
    Ok(())
}

/// Adds the labels of the invariants of these numbers, each after a space.
fn add_labels(text: &mut Vec<u8>, protocol: &Protocol, missing: &[u32]) -> Result<(), Spent>
    ensures { OnOk result (text.new.items ≡ text.old.items ++ flat_map (λ j. codes " " ++ label_of (protocol_of protocol.now) j) missing.now) }
{
    for number in missing {
        text.extend_from_slice(b" ")?;
        text.extend_from_slice(label(protocol, *number))?;
    }
    Ok(())
}

/// The label of the invariant of this number.
fn label(protocol: &Protocol, number: u32) -> &[u8]
    ensures { result.now ≡ label_of (protocol_of protocol.now) number }
{
    match protocol.invariants.get(number as usize) {
        Some(invariant) => invariant.label.as_bytes(),
        None => b"",
    }
}
