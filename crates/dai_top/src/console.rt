//! Putting lines.
ghost use Rattle.std.specs.Prelude.{◌≡◌, ◌<◌, ◌≤◌, length, IfOk, string_bytes};
ghost use Rattle.dai_base.specs.Fault.{IsListed, fault_text};
ghost use Rattle.dai_top.specs.Outcome.{IsTold, read_line};

use dai_base::{Fault, PutError, Sink, Spent, fault_line};
use std::alloc::Global;

/// A put that failed.
pub const NOT_PUT: u8 = 4;

/// Want of memory.
pub const SPENT: u8 = 5;

/// Puts the bytes, with this status where that succeeds.
pub fn put<S: Sink>(sink: &mut S, line: &[u8], status: u8) -> u8
    ensures { IsTold line.now status (S.written sink.old) (S.written sink.new) (S.faults sink.old) (S.faults sink.new) result }
{
    match sink.put(line) {
        Ok(()) => status,
        Err(PutError::Failed) => NOT_PUT,
        Err(PutError::Spent) => SPENT,
    }
}

/// Puts the fault's line, with status 2.
pub fn tell<S: Sink>(alloc: Global, name: &str, fault: &Fault, sink: &mut S) -> u8
    requires { IsListed fault.now }
    ensures { IsTold (fault_text name.now fault.now) 2 (S.written sink.old) (S.written sink.new) (S.faults sink.old) (S.faults sink.new) result }
{
    match fault_line(alloc, name, fault) {
        Ok(line) => put(sink, line.as_slice(), 2),
        Err(Spent) => SPENT,
    }
}

/// Puts that the file cannot be read, with status 3.
pub fn tell_unreadable<S: Sink>(alloc: Global, name: &str, sink: &mut S) -> u8
    ensures { IsTold (read_line name.now) 3 (S.written sink.old) (S.written sink.new) (S.faults sink.old) (S.faults sink.new) result }
{
    match unreadable_line(alloc, name) {
        Ok(line) => put(sink, line.as_bytes(), 3),
        Err(_) => SPENT,
    }
}

fn unreadable_line(alloc: Global, name: &str) -> Result<String, std::alloc::AllocError>
    ensures { IfOk result (λ line. string_bytes line ≡ read_line name.now) }
{
    format!(in alloc; "{name}: cannot be read\n")
}

/// Puts each line of the text, with its line feed, and then answers the status. After a put that fails
/// nothing more is put.
pub fn put_lines<S: Sink>(sink: &mut S, text: &[u8], status: u8) -> u8
    ensures { IsTold text.now status (S.written sink.old) (S.written sink.new) (S.faults sink.old) (S.faults sink.new) result }
{
    let mut done = 0;
    while done < text.len() {
        let end = done + line_length(&text[done..]);
        match sink.put(&text[done..end]) {
            Ok(()) => done = end,
            Err(PutError::Failed) => return NOT_PUT,
            Err(PutError::Spent) => return SPENT,
        }
    }
    status
}

/// How many bytes the first line has, its line feed included.
fn line_length(text: &[u8]) -> usize
    requires { 0 < length text.now }
    ensures some { 0 < result }
    ensures within { result ≤ length text.now }
{
    match text.iter().position(|b| *b == b'\n') {
        Some(end) => end + 1,
        None => text.len(),
    }
}
