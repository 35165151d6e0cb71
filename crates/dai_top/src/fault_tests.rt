//! What `distai` answers where a read or a put fails.
use crate::tests::{TWO_FLAGS, words_of};
use crate::top::distai;
use crate::watched::Watched;
use dai_base::{MemFiles, MemSink, SureFiles, SureSink};
use std::alloc::Global;
use std::test::Fail;

const REPORT: &str = "invariant [d1] a | b\ninvariant [d2] ~a | ~b\nFOUND\n";

const BAD_WORD: &str = "distai: word 4: E02 value out of range\n";

/// The number of a call that fails, and how many bytes it takes.
type Failing = Option<(u32, usize)>;

/// Words about the file `ab.ivy`; which read, which put to `out` and which to `err` fails; then the status, `out`
/// and `err`, and how many puts each of them sees.
type Row = (&'static str, [Failing; 3], u8, [&'static str; 2], [u64; 2]);

const NO: Failing = None;

const ROWS: [Row; 20] = [
    ("infer ab.ivy", [NO, NO, NO], 0, [REPORT, ""], [3, 0]),
    (
        "infer ab.ivy",
        [Some((0, 0)), NO, NO],
        3,
        ["", "ab.ivy: cannot be read\n"],
        [0, 1],
    ),
    (
        "infer ab.ivy",
        [Some((1, 0)), NO, NO],
        0,
        [REPORT, ""],
        [3, 0],
    ),
    (
        "infer gone.ivy",
        [NO, NO, NO],
        3,
        ["", "gone.ivy: cannot be read\n"],
        [0, 1],
    ),
    (
        "infer gone.ivy",
        [Some((0, 0)), NO, NO],
        3,
        ["", "gone.ivy: cannot be read\n"],
        [0, 1],
    ),
    // A put to `out` fails, after no bytes, after some, and after all of them.
    (
        "infer ab.ivy",
        [NO, Some((1, 0)), NO],
        4,
        ["invariant [d1] a | b\n", ""],
        [2, 0],
    ),
    ("infer ab.ivy", [NO, Some((0, 0)), NO], 4, ["", ""], [1, 0]),
    (
        "infer ab.ivy",
        [NO, Some((1, 9)), NO],
        4,
        ["invariant [d1] a | b\ninvariant", ""],
        [2, 0],
    ),
    (
        "infer ab.ivy",
        [NO, Some((2, 99)), NO],
        4,
        [REPORT, ""],
        [3, 0],
    ),
    (
        "infer ab.ivy",
        [NO, Some((3, 0)), NO],
        0,
        [REPORT, ""],
        [3, 0],
    ),
    (
        "infer ab.ivy --lits 1",
        [NO, Some((0, 3)), NO],
        4,
        ["NOT", ""],
        [1, 0],
    ),
    (
        "space ab.ivy",
        [NO, Some((1, 4)), NO],
        4,
        ["types 0\nshap", ""],
        [2, 0],
    ),
    // A put to `err` fails.
    (
        "infer ab.ivy --lits 9",
        [NO, NO, Some((0, 0))],
        4,
        ["", ""],
        [0, 1],
    ),
    (
        "infer ab.ivy --lits 9",
        [NO, NO, Some((0, 6))],
        4,
        ["", "distai"],
        [0, 1],
    ),
    (
        "infer gone.ivy",
        [NO, NO, Some((0, 4))],
        4,
        ["", "gone"],
        [0, 1],
    ),
    (
        "infer ab.ivy",
        [Some((0, 0)), NO, Some((0, 2))],
        4,
        ["", "ab"],
        [0, 1],
    ),
    // Both would fail, and one of them has no text.
    (
        "infer ab.ivy",
        [NO, Some((0, 4)), Some((0, 0))],
        4,
        ["inva", ""],
        [1, 0],
    ),
    (
        "infer ab.ivy --lits 9",
        [NO, Some((0, 0)), Some((0, 4))],
        4,
        ["", "dist"],
        [0, 1],
    ),
    (
        "infer ab.ivy",
        [NO, NO, Some((0, 0))],
        0,
        [REPORT, ""],
        [3, 0],
    ),
    (
        "infer ab.ivy --lits 9",
        [NO, Some((0, 0)), NO],
        2,
        ["", BAD_WORD],
        [0, 1],
    ),
];

/// A sink of which this put fails.
fn watched(alloc: Global, failing: Failing) -> Result<Watched, Fail> {
    let mut sink = MemSink::new(alloc);
    if let Some((call, taken)) = failing {
        sink.fail_at(call, taken)?;
    }
    Ok(Watched { sink, puts: 0 })
}

/// The status of a run, and the sinks after it.
#[derive(Drop)]
struct Told {
    status: u8,
    out: Watched,
    err: Watched,
}

/// What the words of the line are answered where these calls fail.
fn answered(alloc: Global, line: &str, failing: &[Failing; 3]) -> Result<Told, Fail> {
    let words = words_of(alloc, line)?;
    let mut files = MemFiles::new(alloc);
    files.hold("ab.ivy", TWO_FLAGS.as_bytes())?;
    if let Some((call, _)) = failing[0] {
        files.fail_at(call)?;
    }
    let mut out = watched(alloc, failing[1])?;
    let mut err = watched(alloc, failing[2])?;
    let status = distai(alloc, words.as_slice(), &mut files, &mut out, &mut err);
    Ok(Told { status, out, err })
}

#[test]
fn faults_of_the_outside(rt: HostRuntime) -> Result<(), Fail> {
    for (line, failing, status, texts, puts) in ROWS.iter() {
        let told = answered(rt.alloc(), line, failing)?;
        assert_eq!(rt; told.status, *status, "{line}");
        assert_eq!(rt; told.out.sink.bytes(), texts[0].as_bytes(), "{line}");
        assert_eq!(rt; told.err.sink.bytes(), texts[1].as_bytes(), "{line}");
        assert_eq!(rt; [told.out.puts, told.err.puts], *puts, "{line}");
    }
    Ok(())
}

/// The most bytes of a file.
const MOST: usize = 1_048_576;

#[test]
fn the_longest_file(rt: HostRuntime) -> Result<(), Fail> {
    let alloc = rt.alloc();
    let words = words_of(alloc, "infer long.ivy")?;
    let too_long = "long.ivy: E44 file longer than 1048576 bytes\n";
    for (length, status, out_text, err_text) in [
        (MOST, 0, "FOUND\n", ""),
        (MOST + 1, 2, "", too_long),
    ] {
        let bytes = vec![in alloc; b'#'; length]?;
        let mut files = SureFiles::new(alloc);
        files.hold("long.ivy", bytes.as_slice())?;
        let mut out = SureSink::new(alloc);
        let mut err = SureSink::new(alloc);
        let answer = distai(alloc, words.as_slice(), &mut files, &mut out, &mut err);
        assert_eq!(rt; answer, status, "{length}");
        assert_eq!(rt; out.bytes(), out_text.as_bytes(), "{length}");
        assert_eq!(rt; err.bytes(), err_text.as_bytes(), "{length}");
    }
    Ok(())
}
