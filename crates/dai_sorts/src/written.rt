//! A protocol as a short text, for tests. Formulas and statements are written with the sign first, and everything by
//! its number: variables `v`, individuals `i`, parameters `p`, locals `l`.
use dai_base::Spent;
use dai_logic::{Block, Formula, Protocol, Step, Term};

/// The text of a protocol: the types, the relations, the individuals, the axioms, init, the actions and the invariants,
/// each part behind a `/`.
pub fn write_protocol(p: &Protocol, out: &mut Vec<u8>) -> Result<(), Spent> {
    for sort in &p.sorts {
        out.push(if sort.ordered { b'o' } else { b's' })?;
    }
    out.push(b'/')?;
    for relation in &p.relations {
        out.push(b'r')?;
        write_digits(relation.args.as_slice(), out)?;
    }
    out.push(b'/')?;
    for individual in &p.individuals {
        write_digits(&[individual.sort], out)?;
    }
    out.push(b'/')?;
    for axiom in &p.axioms {
        write_formula(axiom, out)?;
    }
    out.push(b'/')?;
    write_block(&p.init, out)?;
    out.push(b'/')?;
    for action in &p.actions {
        out.extend_from_slice(action.name.as_bytes())?;
        write_block(&action.block, out)?;
    }
    out.push(b'/')?;
    for invariant in &p.invariants {
        out.extend_from_slice(invariant.label.as_bytes())?;
        out.push(b' ')?;
        write_formula(&invariant.body, out)?;
    }
    Ok(())
}

/// Numbers below ten.
fn write_digits(numbers: &[u8], out: &mut Vec<u8>) -> Result<(), Spent> {
    for number in numbers {
        out.push(digit(*number))?;
    }
    Ok(())
}

fn digit(number: u8) -> u8 {
    if number < 10 { b'0' + number } else { b'?' }
}

/// A block: the types of its parameters, those of its locals, and its code.
fn write_block(block: &Block, out: &mut Vec<u8>) -> Result<(), Spent> {
    out.push(b'(')?;
    write_digits(block.params.as_slice(), out)?;
    out.push(b'.')?;
    write_digits(block.locals.as_slice(), out)?;
    out.push(b')')?;
    write_steps(block.code.as_slice(), out)
}

#[cycle(write_steps)]
fn write_steps(code: &[Step], out: &mut Vec<u8>) -> Result<(), Spent> {
    out.push(b'{')?;
    for one in code {
        write_step(one, out)?;
    }
    out.push(b'}')?;
    Ok(())
}

#[cycle(write_steps)]
fn write_step(step: &Step, out: &mut Vec<u8>) -> Result<(), Spent> {
    match step {
        Step::Require { body } => {
            out.push(b'?')?;
            write_formula(body, out)?;
        }
        Step::SetTable { rel, args, body } => {
            out.push(b'!')?;
            out.push(digit(*rel))?;
            write_terms(args.as_slice(), out)?;
            write_formula(body, out)?;
        }
        Step::SetValue { ind, to } => {
            out.push(b'i')?;
            out.push(digit(*ind))?;
            write_terms(&[*to], out)?;
        }
        Step::Cond { cond, yes, no } => {
            out.push(b'c')?;
            write_formula(cond, out)?;
            write_steps(yes.as_slice(), out)?;
            write_steps(no.as_slice(), out)?;
        }
    }
    Ok(())
}

fn write_terms(terms: &[Term], out: &mut Vec<u8>) -> Result<(), Spent> {
    for term in terms {
        let (kind, number) = match term {
            Term::Var(number) => (b'v', *number),
            Term::Ind(number) => (b'i', *number),
            Term::Par(number) => (b'p', *number),
            Term::Loc(number) => (b'l', *number),
        };
        out.push(kind)?;
        out.push(digit(number))?;
    }
    Ok(())
}

#[cycle(write_formula)]
fn write_formula(formula: &Formula, out: &mut Vec<u8>) -> Result<(), Spent> {
    match formula {
        Formula::Truth(value) => out.push(if *value { b'T' } else { b'F' })?,
        Formula::Rel { rel, args } => {
            out.push(digit(*rel))?;
            write_terms(args.as_slice(), out)?;
        }
        Formula::Same { left, right } => write_compared(b'=', *left, *right, out)?,
        Formula::Less { left, right } => write_compared(b'<', *left, *right, out)?,
        Formula::LessEq { left, right } => write_compared(b'[', *left, *right, out)?,
        Formula::Not(body) => {
            out.push(b'~')?;
            write_formula(body, out)?;
        }
        Formula::All(parts) => write_chain(b'&', parts.as_slice(), out)?,
        Formula::Any(parts) => write_chain(b'|', parts.as_slice(), out)?,
        Formula::Iff(parts) => write_chain(b'*', parts.as_slice(), out)?,
        Formula::Implies(left, right) => {
            out.push(b'>')?;
            write_formula(left, out)?;
            write_formula(right, out)?;
        }
        Formula::Forall { var, sort, body } => write_quantified(b'A', *var, *sort, body, out)?,
        Formula::Exists { var, sort, body } => write_quantified(b'E', *var, *sort, body, out)?,
    }
    Ok(())
}

#[cycle(write_formula)]
fn write_chain(sign: u8, parts: &[Formula], out: &mut Vec<u8>) -> Result<(), Spent> {
    out.push(sign)?;
    out.push(b'(')?;
    for part in parts {
        write_formula(part, out)?;
    }
    out.push(b')')?;
    Ok(())
}

fn write_compared(sign: u8, left: Term, right: Term, out: &mut Vec<u8>) -> Result<(), Spent> {
    out.push(sign)?;
    write_terms(&[left, right], out)
}

#[cycle(write_formula)]
fn write_quantified(
    sign: u8,
    var: u8,
    sort: u8,
    body: &Formula,
    out: &mut Vec<u8>,
) -> Result<(), Spent> {
    out.push(sign)?;
    write_digits(&[var, sort], out)?;
    write_formula(body, out)
}
