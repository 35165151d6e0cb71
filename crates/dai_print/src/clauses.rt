//! Clauses as text.
ghost use Rattle.std.specs.Prelude.{◌≡◌, ◌≤◌, ◌<◌, ◌*◌, ◌/◌, ◌++◌, [], map, length, codes, if◌then◌else◌, IfOk, OnOk};
ghost use Rattle.std.specs.List.{All};
ghost use Rattle.dai_model.specs.Clause.{literal_among};
ghost use Rattle.dai_model.specs.Report.{clause_text as clause_text_of, literal_text as literal_text_of, arguments_text, body_text, variable_text as variable_text_of, relation_name as relation_name_of, individual_name as individual_name_of};
ghost use Rattle.dai_logic.specs.Protocols.{protocol_of};
ghost use Rattle.dai_template.specs.Atoms.{atom_of, variable_of, lists_of};
ghost use Rattle.dai_template.specs.Spaces.{clause_of};
ghost use Rattle.dai_print.specs.Texts.{text_over, IsPrintable};

use crate::guards::{binders, guards};
use crate::joining::{add_framed, add_joined};
use crate::names::{individual_name, relation_name, variable_text};
use dai_base::Spent;
use dai_logic::Protocol;
use dai_template::{Atom, Clause, Shape, Space};
use std::alloc::Global;

/// The clause's text: its variables, what keeps them apart, and its literals joined by ` | `, or `false` where
/// it has none. The clause is one of the space, and the space one of the protocol.
pub fn clause_text(
    alloc: Global,
    protocol: &Protocol,
    space: &Space,
    clause: &Clause,
) -> Result<Vec<u8>, Spent>
    requires { IsPrintable (protocol_of protocol.now) space.now clause.now }
    ensures { IfOk result (λ text. text.items ≡ clause_text_of (protocol_of protocol.now) (clause_of space.now clause.now)) }
{
    let shape = &space.shapes[clause.shape as usize];
    text_of(alloc, protocol, shape, clause.lits.as_slice())
}

/// The text of a clause of the shape with these literals.
fn text_of(alloc: Global, protocol: &Protocol, shape: &Shape, lits: &[u8]) -> Result<Vec<u8>, Spent>
    requires few { length shape.now.counts.items ≤ 8 }
    requires inside { All (λ l. l / 2 < length shape.now.atoms.items) lits.now }
    ensures { IfOk result (λ text. text.items ≡ text_over (protocol_of protocol.now) shape.now.counts.items (map atom_of shape.now.atoms.items) lits.now) }
{
    let mut text = Vec::new(alloc);
    let variables = binders(alloc, protocol, &shape.counts)?;
    add_framed(&mut text, b"forall ", b", ", b". ", &variables)?;
    let apart = guards(alloc, protocol, &shape.counts)?;
    add_framed(&mut text, b"", b" & ", b" -> ", &apart)?;
    let literals = literal_texts(alloc, protocol, &shape.atoms, lits)?;
    add_body(&mut text, &literals)?;
    Ok(text)
}

/// Adds the literals joined by ` | `, or `false` where there is none.
fn add_body(text: &mut Vec<u8>, literals: &[Vec<u8>]) -> Result<(), Spent>
    ensures { OnOk result (text.new.items ≡ text.old.items ++ body_text (lists_of literals.now)) }
{
    if literals.is_empty() {
        text.extend_from_slice(b"false")?;
        return Ok(());
    }
    add_joined(text, b" | ", literals)
}

/// The texts of the literals over these atoms.
fn literal_texts(
    alloc: Global,
    protocol: &Protocol,
    atoms: &[Atom],
    lits: &[u8],
) -> Result<Vec<Vec<u8>>, Spent>
    requires { All (λ l. l / 2 < length atoms.now) lits.now }
    ensures { IfOk result (λ pieces. lists_of pieces.items ≡ map (λ l. literal_text_of (protocol_of protocol.now) (literal_among (map atom_of atoms.now) l)) lits.now) }
{
    let mut pieces = Vec::new(alloc);
    for literal in lits {
        pieces.push(text_at(alloc, protocol, atoms, *literal)?)?;
    }
    Ok(pieces)
}

/// The text of the literal of this number.
fn text_at(
    alloc: Global,
    protocol: &Protocol,
    atoms: &[Atom],
    literal: u8,
) -> Result<Vec<u8>, Spent>
    requires { literal / 2 < length atoms.now }
    ensures { IfOk result (λ text. text.items ≡ literal_text_of (protocol_of protocol.now) (literal_among (map atom_of atoms.now) literal)) }
{
    let atom = &atoms[usize::from(literal / 2)];
    literal_text(alloc, protocol, atom, literal % 2 == 1)
}

/// The literal over the atom.
fn literal_text(
    alloc: Global,
    protocol: &Protocol,
    atom: &Atom,
    negated: bool,
) -> Result<Vec<u8>, Spent>
    ensures { IfOk result (λ text. text.items ≡ literal_text_of (protocol_of protocol.now) (record { atom = atom_of atom.now; negated = negated })) }
{
    match atom {
        Atom::Tuple { rel, vars } => tuple_text(alloc, protocol, *rel, vars, negated),
        Atom::IsInd { var, ind } => equation_text(alloc, protocol, *var, *ind, negated),
    }
}

/// The relation at the variables, or `~` and that.
fn tuple_text(
    alloc: Global,
    protocol: &Protocol,
    relation: u8,
    vars: &[(u8, u8)],
    negated: bool,
) -> Result<Vec<u8>, Spent>
    ensures { IfOk result (λ text. text.items ≡ (if negated then codes "~" else []) ++ (relation_name_of (protocol_of protocol.now) relation ++ arguments_text (protocol_of protocol.now) (map variable_of vars.now))) }
{
    let sign: &[u8] = chosen(negated, b"~", b"");
    let mut text = Vec::from_slice(alloc, sign)?;
    text.extend_from_slice(relation_name(protocol, relation))?;
    let arguments = variable_texts(alloc, protocol, vars)?;
    add_framed(&mut text, b"(", b",", b")", &arguments)?;
    Ok(text)
}

/// The first text where the choice is true, else the second.
fn chosen<'a>(choice: bool, first: &'a [u8], second: &'a [u8]) -> &'a [u8]
    ensures { result.now ≡ (if choice then first.now else second.now) }
{
    if choice { first } else { second }
}

/// The texts of the variables.
fn variable_texts(
    alloc: Global,
    protocol: &Protocol,
    vars: &[(u8, u8)],
) -> Result<Vec<Vec<u8>>, Spent>
    ensures { IfOk result (λ pieces. lists_of pieces.items ≡ map (variable_text_of (protocol_of protocol.now)) (map variable_of vars.now)) }
{
    let mut pieces = Vec::new(alloc);
    for var in vars {
        pieces.push(variable_text(alloc, protocol, *var)?)?;
    }
    Ok(pieces)
}

/// The variable, `=` or `~=`, and the individual.
fn equation_text(
    alloc: Global,
    protocol: &Protocol,
    var: (u8, u8),
    individual: u8,
    negated: bool,
) -> Result<Vec<u8>, Spent>
    ensures { IfOk result (λ text. text.items ≡ variable_text_of (protocol_of protocol.now) (variable_of var) ++ ((if negated then codes " ~= " else codes " = ") ++ individual_name_of (protocol_of protocol.now) individual)) }
{
    let mut text = variable_text(alloc, protocol, var)?;
    text.extend_from_slice(chosen(negated, b" ~= ", b" = "))?;
    text.extend_from_slice(individual_name(protocol, individual))?;
    Ok(text)
}
