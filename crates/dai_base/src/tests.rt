ghost use Rattle.std.specs.Prelude.{◌≡◌, ◌<◌, ◌++◌, length, IfSome, IfNone, None, option_map};
ghost use Rattle.dai_base.specs.Count.{Rises};
ghost use Rattle.dai_base.specs.Fault.{IsListed};

use crate::fault::{Fault, LimitKind, Place};
use crate::files::{Files, ReadError};
use crate::mem_files::MemFiles;
use crate::mem_sink::MemSink;
use crate::message::fault_line;
use crate::position::place;
use crate::sink::{PutError, Sink};
use crate::sure_files::SureFiles;
use crate::sure_sink::SureSink;
use crate::text::Text;
use std::process::Abort;
use std::test::Fail;

/// Checks one line of a fault.
fn says(rt: &(impl Abort + AllocGlobal), name: &str, fault: Fault, want: &str) -> Result<(), Fail>
    requires { IsListed fault }
{
    let line = fault_line(rt.alloc(), name, &fault)?;
    assert_eq!(rt; line.as_slice(), want.as_bytes());
    Ok(())
}

fn words(number: u8, word: u32) -> Fault
    ensures { result ≡ Fault.Words number word }
{
    Fault::Words { number, word }
}

fn in_file(number: u8, line: u32, column: u32) -> Fault
    ensures { result ≡ Fault.InFile number (record { line = line; column = column }) }
{
    let at = Place { line, column };
    Fault::InFile { number, at }
}

fn limit(number: u8, kind: LimitKind, count: u128) -> Fault
    ensures { result ≡ Fault.Limit number kind count }
{
    Fault::Limit {
        number,
        kind,
        count,
    }
}

#[test]
fn tells_faults(rt: HostRuntime) -> Result<(), Fail> {
    let want = "distai: word 5: E01 bad words\n";
    says(&rt, "ab.ivy", words(1, 5), want)?;
    let want = "distai: word 4: E02 value out of range\n";
    says(&rt, "ab.ivy", words(2, 4), want)?;
    let want = "f.ivy:2:18: E12 unexpected token\n";
    says(&rt, "f.ivy", in_file(12, 2, 18), want)?;
    let want = "f.ivy:1:211: E13 nesting deeper than 200\n";
    says(&rt, "f.ivy", in_file(13, 1, 211), want)?;
    let want = "ax.ivy:2:7: E27 axiom over an assigned symbol\n";
    says(&rt, "ax.ivy", in_file(27, 2, 7), want)?;
    let want = "long.ivy: E44 file longer than 1048576 bytes\n";
    says(&rt, "long.ivy", Fault::TooLong, want)
}

#[test]
fn tells_limits(rt: HostRuntime) -> Result<(), Fail> {
    let want = "t68.ivy: E40 atoms 68, limit 64\n";
    says(&rt, "t68.ivy", limit(40, LimitKind::Atoms, 68), want)?;
    let want = "m54.ivy: E40 templates 204265, limit 200000\n";
    let templates = limit(40, LimitKind::Templates, 204265);
    says(&rt, "m54.ivy", templates, want)?;
    let want = "lim.ivy: E41 ground atoms 105264, limit 50000\n";
    let ground = limit(41, LimitKind::Ground, 105264);
    says(&rt, "lim.ivy", ground, want)?;
    let want = "big3.ivy: E43 moves 262144, limit 65536\n";
    says(&rt, "big3.ivy", limit(43, LimitKind::Moves, 262144), want)?;
    let want = "m: E43 moves 340282366920938463463374607431768211455, limit 65536\n";
    says(&rt, "m", limit(43, LimitKind::Moves, u128::MAX), want)
}

#[test]
fn finds_places(rt: HostRuntime) {
    let text = b"relation p\naction a = { p :=";
    for (at, line, column) in [
        (0u32, 1u32, 1u32),
        (9, 1, 10),
        (10, 1, 11),
        (11, 2, 1),
        (28, 2, 18),
    ] {
        if at as usize <= text.len() {
            assert_eq!(rt; place(text, at), Place { line, column }, "at {at}");
        }
    }
    assert_eq!(rt; place(b"", 0), Place { line: 1, column: 1 });
}

/// Puts a file of at most 4 bytes to a sink, and tells what happened by a number: 0 is done, 1 no such
/// file, 2 too long, 3 a failed read, 4 a failed put, 5 want of memory.
fn copied<F: Files, S: Sink>(files: &mut F, sink: &mut S, name: &str) -> u8
    ensures done { result ≡ 0 → IfSome (F.held files.old) (λ held. IfSome (held name.now) (λ bytes. S.written sink.new ≡ option_map (λ written. written ++ bytes) (S.written sink.old))) }
    ensures missing { result ≡ 1 → IfSome (F.held files.old) (λ held. held name.now ≡ None) }
    ensures missed { result ≡ 1 → IfNone (F.held files.old) (Rises (F.faults files.old) (F.faults files.new)) }
    ensures too_long { result ≡ 2 → IfSome (F.held files.old) (λ held. IfSome (held name.now) (λ bytes. 4 < length bytes)) }
    ensures failed { result ≡ 3 → Rises (F.faults files.old) (F.faults files.new) }
    ensures unwritten { result ≡ 4 → Rises (S.faults sink.old) (S.faults sink.new) }
{
    match files.read_all(name, 4) {
        Ok(bytes) => match sink.put(bytes.as_slice()) {
            Ok(()) => 0,
            Err(PutError::Failed) => 4,
            Err(PutError::Spent) => 5,
        },
        Err(ReadError::Missing) => 1,
        Err(ReadError::TooLong) => 2,
        Err(ReadError::Failed) => 3,
        Err(ReadError::Spent) => 5,
    }
}

#[test]
fn reads_and_writes(rt: HostRuntime) -> Result<(), Fail> {
    let alloc = rt.alloc();
    let mut files = SureFiles::new(alloc);
    files.hold("a", b"one")?;
    files.hold("b", b"")?;
    files.hold("a", b"four")?;
    files.hold("c", b"seven")?;
    let mut sink = SureSink::new(alloc);
    sink.reserve(4)?;
    for (name, want) in [("a", 0), ("b", 0), ("c", 2), ("d", 1), ("a", 0)] {
        assert_eq!(rt; copied(&mut files, &mut sink, name), want, "at {name}");
    }
    assert_eq!(rt; sink.bytes(), b"fourfour".as_slice());
    Ok(())
}

#[test]
fn listed_reads_fail(rt: HostRuntime) -> Result<(), Fail> {
    let alloc = rt.alloc();
    let mut files = MemFiles::new(alloc);
    let mut sink = SureSink::new(alloc);
    files.hold("a", b"four")?;
    for call in [0, 2, 2, 5] {
        files.fail_at(call)?;
    }
    for (name, want) in [("a", 3), ("a", 0), ("b", 3), ("b", 1)] {
        assert_eq!(rt; copied(&mut files, &mut sink, name), want, "at {name}");
    }
    files.fail_at(1)?;
    files.hold("b", b"seven")?;
    for (name, want) in [("b", 2), ("a", 3), ("a", 0)] {
        assert_eq!(rt; copied(&mut files, &mut sink, name), want, "at {name}");
    }
    assert_eq!(rt; sink.bytes(), b"fourfour".as_slice());
    Ok(())
}

/// What a listed put takes, and what a sink with "ab" holds after a put of "four" that is listed so.
const PARTS: [(usize, &[u8]); 4] = [(0, b"ab"), (3, b"abfou"), (4, b"abfour"), (9, b"abfour")];

#[test]
fn listed_puts_fail(rt: HostRuntime) -> Result<(), Fail> {
    let alloc = rt.alloc();
    for (taken, want) in PARTS.iter() {
        let mut sink = MemSink::new(alloc);
        sink.reserve(8)?;
        sink.fail_at(1, 1)?;
        sink.fail_at(1, *taken)?;
        assert!(rt; sink.put(b"ab").is_ok());
        sink.fail_at(0, 0)?;
        assert!(rt; sink.put(b"four") == Err(PutError::Failed));
        assert_eq!(rt; sink.bytes(), *want, "at {taken}");
        assert!(rt; sink.put(b"c").is_ok());
        assert_eq!(rt; sink.bytes().len(), want.len() + 1, "at {taken}");
    }
    Ok(())
}

#[test]
fn keeps_texts(rt: HostRuntime) -> Result<(), Fail> {
    let text = Text::from_bytes(rt.alloc(), b"link")?;
    assert_eq!(rt; text.as_bytes(), b"link".as_slice());
    Ok(())
}
