//! `bench_space FILE LITERALS JOB TIMES` does a job on the space of a protocol so many times, for a script that takes
//! the time. Each type has at most four variables, and a clause at most so many literals. The jobs:
//!
//! - `space` makes the space, and prints how many shapes were made in all;
//! - `all` makes the space and lists its canonical clauses, and prints how many were listed;
//! - `meets` asks a thousand random structures, with four elements of each type, whether they meet each of about a
//!   thousand of the clauses, and prints how often one did;
//! - `reads` does no more than read the bits that these questions are about, and prints the same number.
//!
//! Zero times is what a job needs before its first time.
#![tactic(auto)]

ghost use Rattle.std.specs.Prelude.{◌≤◌, length};

mod jobs;
mod reads;
mod states;

use dai_base::Spent;
use dai_front::{ReadError, read_protocol};
use jobs::{Job, Trial, done};
use std::alloc::Global;
use std::process::ExitCode;
use std::{env, fs, io};

/// The greatest file.
const MOST_BYTES: usize = 1_048_576;

/// What the words after the file's name ask for.
fn trial(literals: &str, job: &str, times: &str) -> Option<Trial> {
    let job = match job {
        "space" => Job::Space,
        "all" => Job::All,
        "meets" => Job::Meets,
        "reads" => Job::Reads,
        _ => return None,
    };
    Some(Trial {
        literals: literals.parse::<u8>().ok()?,
        job,
        times: times.parse::<u32>().ok()?,
    })
}

/// Says how the program is used.
fn usage(rt: &impl Eprint) -> io::Result<ExitCode> {
    rt.eprintln("usage: bench_space FILE LITERALS (space | all | meets | reads) TIMES")?;
    Ok(ExitCode::from(1))
}

/// What the job counts on the protocol of the bytes, or `None` where there is none, or the job has no use for it.
fn counted(alloc: Global, bytes: &[u8], trial: Trial) -> Result<Option<u64>, Spent>
    requires { length bytes.now ≤ 1048576 }
{
    match read_protocol(alloc, bytes) {
        Ok(protocol) => done(alloc, &protocol, trial),
        Err(ReadError::Bad { .. }) => Ok(None),
        Err(ReadError::Spent) => Err(Spent),
    }
}

fn main(rt: HostRuntime) -> io::Result<ExitCode> {
    let mut words = env::args(&rt)?;
    let _program = words.next();
    let (Some(path), Some(literals), Some(job), Some(times)) = (
        words.next(),
        words.next(),
        words.next(),
        words.next(),
    ) else {
        return usage(&rt);
    };
    let Some(trial) = trial(literals.as_str(), job.as_str(), times.as_str()) else {
        return usage(&rt);
    };
    let bytes = fs::read(&rt, path.as_str())?;
    if bytes.len() > MOST_BYTES {
        return usage(&rt);
    }
    match counted(rt.alloc(), &bytes, trial) {
        Ok(Some(count)) => {
            println!(rt; "{count}")?;
            Ok(ExitCode::SUCCESS)
        }
        Ok(None) => {
            rt.eprintln("no file of relations over unordered types, or a space past a limit")?;
            Ok(ExitCode::from(1))
        }
        Err(Spent) => {
            rt.eprintln("memory is spent")?;
            Ok(ExitCode::from(1))
        }
    }
}
