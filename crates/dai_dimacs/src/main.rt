//! `dai_dimacs FILE` reads a formula in the DIMACS form and prints `s SATISFIABLE` with its least model, or
//! `s UNSATISFIABLE`, and ends with status 10 or 20; with `--any` before the file, any model will do. With
//! `--ask` the file has questions between its clauses, and each is answered. A malformed file is refused by
//! its line, with status 1.
#![tactic(auto)]

ghost use Rattle.std.specs.Prelude.{IfOk};
ghost use Rattle.dai_dimacs.specs.Pieces.{lines};
ghost use Rattle.dai_dimacs.specs.Endings.{IsEndingOf};

mod ask;
mod draft;
mod judge;
mod law;
mod outcome;
mod pieces;
mod read;
mod report;
#[cfg(test)]
mod tests;
mod tokens;

use ask::{Talk, answer_all};
use dai_base::Spent;
use judge::{Verdict, judge, judge_any};
use std::alloc::Global;
use std::process::ExitCode;
use std::{env, fs, io};

/// What the words ask for.
#[derive(Clone, Copy)]
enum Mode {
    /// The least model.
    Least,
    /// Any model.
    Any,
    /// An answer to each question.
    Ask,
}

/// What a file comes to.
#[derive(Drop)]
enum Ending {
    Verdict(Verdict),
    Talk(Talk),
}

/// The answer to a file.
fn answer(alloc: Global, mode: Mode, bytes: &[u8]) -> Result<Ending, Spent>
    ensures { IfOk result (IsEndingOf mode (lines bytes.now)) }
{
    match mode {
        Mode::Least => Ok(Ending::Verdict(judge(alloc, bytes)?)),
        Mode::Any => Ok(Ending::Verdict(judge_any(alloc, bytes)?)),
        Mode::Ask => Ok(Ending::Talk(answer_all(alloc, bytes)?)),
    }
}

fn main(rt: HostRuntime) -> io::Result<ExitCode> {
    let mut words = env::args(&rt)?;
    let _program = words.next();
    let first = words.next();
    let mode = match first.as_ref().map(|word| word.as_str()) {
        Some("--any") => Mode::Any,
        Some("--ask") => Mode::Ask,
        _ => Mode::Least,
    };
    let path = match mode {
        Mode::Least => first,
        Mode::Any | Mode::Ask => words.next(),
    };
    let Some(path) = path else {
        rt.eprintln("usage: dai_dimacs [--any | --ask] FILE")?;
        return Ok(ExitCode::from(1));
    };
    let bytes = fs::read(&rt, path.as_str())?;
    match answer(rt.alloc(), mode, bytes.as_slice()) {
        Err(Spent) => {
            rt.eprintln("memory is spent")?;
            Ok(ExitCode::from(1))
        }
        Ok(Ending::Verdict(Verdict::Malformed(line)) | Ending::Talk(Talk::Malformed(line))) => {
            eprintln!(rt; "line {line} is malformed")?;
            Ok(ExitCode::from(1))
        }
        Ok(Ending::Verdict(Verdict::Judged(judgement))) => {
            print!(rt; "{}", judgement.report.text)?;
            Ok(ExitCode::from(judgement.report.status))
        }
        Ok(Ending::Talk(Talk::Answers(text))) => {
            print!(rt; "{text}")?;
            Ok(ExitCode::SUCCESS)
        }
    }
}
