//! `bench_rounds FILE LITERALS [COUNT..]` goes down to the answer of a file as `infer` does, with at most so many
//! literals in a clause and so many variables of each type (2 where no count is given), and prints how many rounds it
//! took and how many questions were asked; where the solver was asked, also how many of the questions were put to it,
//! how often it was called, and the most clauses that it held for one block.
#![tactic(auto)]

ghost use Rattle.std.specs.Prelude.{◌≡◌, ◌≤◌, true, length};
ghost use Rattle.std.specs.List.{All};

mod counted;
mod counting;

use counting::{Tally, tally_of};
use dai_base::Spent;
use dai_front::{ReadError, read_protocol};
use dai_logic::Protocol;
use std::alloc::Global;
use std::process::ExitCode;
use std::{env, fs, io};

/// The greatest file.
const MOST_BYTES: usize = 1_048_576;

/// Says how the program is used.
fn usage(rt: &impl Eprint) -> io::Result<ExitCode> {
    rt.eprintln("usage: bench_rounds FILE LITERALS [COUNT..]")?;
    Ok(ExitCode::from(1))
}

/// Whether each bound on variables is one that a space may have.
fn are_small(vars: &[u8]) -> bool
    ensures { result ≡ true → All (λ bound. bound ≤ 4) vars.now }
{
    vars.iter().all(|bound| *bound <= 4)
}

/// The tally for a protocol with these bounds, 2 each where none is given. `None` where there is no such space.
fn tally_with(
    alloc: Global,
    protocol: &Protocol,
    vars: &[u8],
    literals: u8,
) -> Result<Option<Tally>, Spent> {
    if literals > 8 {
        return Ok(None);
    }
    if vars.is_empty() {
        let two_each = vec![in alloc; 2u8; protocol.sorts.len()]?;
        return tally_of(alloc, protocol, &two_each, literals);
    }
    if vars.len() != protocol.sorts.len() || !are_small(vars) {
        return Ok(None);
    }
    tally_of(alloc, protocol, vars, literals)
}

/// What is counted for the protocol of the bytes, or `None` where there is none, or no such space.
fn tally_for(alloc: Global, bytes: &[u8], vars: &[u8], literals: u8) -> Result<Option<Tally>, Spent>
    requires { length bytes.now ≤ 1048576 }
{
    match read_protocol(alloc, bytes) {
        Ok(protocol) => tally_with(alloc, &protocol, vars, literals),
        Err(ReadError::Bad { .. }) => Ok(None),
        Err(ReadError::Spent) => Err(Spent),
    }
}

/// Prints what was counted.
fn print(rt: &impl Print, tally: Tally) -> io::Result<ExitCode> {
    let Tally {
        rounds,
        questions,
        solver,
    } = tally;
    println!(rt; "rounds {rounds}\nquestions {questions}")?;
    if let Some(solver) = solver {
        let (put, calls, clauses) = (solver.questions, solver.calls, solver.clauses);
        println!(rt; "put {put}\ncalls {calls}\nclauses {clauses}")?;
    }
    Ok(ExitCode::SUCCESS)
}

fn main(rt: HostRuntime) -> io::Result<ExitCode> {
    let mut words = env::args(&rt)?;
    let _program = words.next();
    let (Some(path), Some(literals)) = (words.next(), words.next()) else {
        return usage(&rt);
    };
    let Some(literals) = literals.as_str().parse::<u8>().ok() else {
        return usage(&rt);
    };
    let mut vars = Vec::new(rt.alloc());
    for word in words {
        let Some(bound) = word.as_str().parse::<u8>().ok() else {
            return usage(&rt);
        };
        vars.push(bound)?;
    }
    let bytes = fs::read(&rt, path.as_str())?;
    if bytes.len() > MOST_BYTES {
        return usage(&rt);
    }
    match tally_for(rt.alloc(), &bytes, &vars, literals) {
        Ok(Some(tally)) => print(&rt, tally),
        Ok(None) => {
            rt.eprintln("no accepted file with such a space")?;
            Ok(ExitCode::from(1))
        }
        Err(Spent) => {
            rt.eprintln("memory is spent")?;
            Ok(ExitCode::from(1))
        }
    }
}
