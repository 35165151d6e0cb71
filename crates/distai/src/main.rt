//! `distai`: finds the invariants of a distributed protocol. The program is `dai_top::distai` over the host's
//! files and streams.
#![tactic(auto)]

mod host_files;
mod host_out;
#[cfg(test)]
mod tests;
mod words;

use dai_top::distai;
use host_files::HostFiles;
use host_out::HostOut;
use std::process::ExitCode;
use words::words;

/// The status where the words can't be gathered for want of memory.
const SPENT: u8 = 5;

fn main(rt: HostRuntime) -> ExitCode {
    let alloc = rt.alloc();
    let Ok(words) = words(&rt, alloc) else {
        return ExitCode::from(SPENT);
    };
    let mut files = HostFiles::new(&rt, alloc);
    let mut out = HostOut::new(rt.stdout());
    let mut err = HostOut::new(rt.stderr());
    let status = distai(alloc, words.as_slice(), &mut files, &mut out, &mut err);
    ExitCode::from(status)
}
