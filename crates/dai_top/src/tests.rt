use crate::report::report;
use crate::top::distai;
use dai_base::{SureFiles, SureSink};
use dai_front::read_protocol;
use dai_table::{Logged, MOST_FLAGS, TruthTable};
use dai_template::Space;
use std::alloc::Global;
use std::test::Fail;

pub const TWO_FLAGS: &str =
    "relation a\nrelation b\nafter init { a := false; b := true }\naction t = { require ~a; a := true; b := false }\nexport t\ninvariant [excl] ~(a & b)\n";

const SWAP: &str =
    "relation x\nrelation y\nrelation bad\nafter init { x := true; y := false; bad := false }\naction u = {\n  if x { x := false; y := true } else { x := true; y := false }\n}\naction t = { require x & y; bad := true }\nexport u\nexport t\ninvariant [safe] ~bad\n";

const LOCK: &str =
    "#lang ivy1.7\ntype client\ntype server\nrelation link(X:client, Y:server)\nrelation semaphore(X:server)\nafter init {\n  semaphore(W) := true;\n  link(X,Y) := false\n}\naction connect(x:client, y:server) = {\n  require semaphore(y);\n  link(x,y) := true;\n  semaphore(y) := false\n}\naction disconnect(x:client, y:server) = {\n  require link(x,y);\n  link(x,y) := false;\n  semaphore(y) := true\n}\nexport connect\nexport disconnect\ninvariant [safety] link(X,Y) & link(Z,Y) -> X = Z\n";

const FOUR: &str =
    "type node\nrelation bad\nafter init { bad := false }\naction four(a:node, b:node, c:node, d:node) = {\n  require a ~= b & a ~= c & a ~= d & b ~= c & b ~= d & c ~= d;\n  bad := true\n}\nexport four\ninvariant [safe] ~bad\n";

const DOWN: &str =
    "ordered type n\nrelation p(X:n)\nafter init { p(X) := false }\nexport action raise(x:n) = {\n  require forall Y. Y < x -> p(Y);\n  p(x) := true\n}\nconjecture [down] X < Y & p(Y) -> p(X)\n";

const MUTEX: &str =
    "type node\nindividual holder : node\nrelation inside(X:node)\nafter init { inside(X) := false }\naction enter(n:node) = { require n = holder; inside(n) := true }\naction leave(n:node) = { inside(n) := false }\naction pass = {\n  require ~inside(holder);\n  local m:node { holder := m }\n}\nexport enter\nexport leave\nexport pass\ninvariant [mutex] inside(X) & inside(Y) -> X = Y\n";

const ELEVEN: &str =
    "relation r0\nrelation r1\nrelation r2\nrelation r3\nrelation r4\nrelation r5\nrelation r6\nrelation r7\nrelation r8\nrelation r9\nrelation r10\nafter init { r0 := false; r5 := true; r10 := false }\ninvariant [ends] ~r0 & r5 & ~r10\n";

/// What is told of `lock.ivy`.
const LOCK_REPORT: &str =
    "invariant [d1] forall Client1:client, Server1:server. ~link(Client1,Server1) | ~semaphore(Server1)\ninvariant [d2] forall Client1:client, Client2:client, Server1:server. Client1 ~= Client2 -> ~link(Client1,Server1) | ~link(Client2,Server1)\nFOUND\n";

/// What is told of `mutex.ivy`.
const MUTEX_REPORT: &str =
    "invariant [d1] forall Node1:node. ~inside(Node1) | Node1 = holder\ninvariant [d2] forall Node1:node, Node2:node. Node1 ~= Node2 -> ~inside(Node1) | ~inside(Node2)\ninvariant [d3] forall Node1:node, Node2:node. Node1 ~= Node2 -> ~inside(Node1) | Node2 ~= holder\ninvariant [d4] forall Node1:node, Node2:node. Node1 ~= Node2 -> Node1 ~= holder | Node2 ~= holder\nFOUND\n";

/// The files that are held.
const HELD: [(&str, &str); 22] = [
    ("ab.ivy", TWO_FLAGS),
    ("swap.ivy", SWAP),
    ("none.ivy", "relation p\naxiom p & ~p\n"),
    ("empty.ivy", ""),
    ("unlabelled.ivy", "invariant false\n"),
    ("labelled.ivy", "invariant [1000] false\n"),
    ("typed.ivy", "type t\n"),
    ("twice.ivy", "relation p\nrelation p\n"),
    ("untyped.ivy", "type t\ninvariant X = Y"),
    ("byte.ivy", "relation p$"),
    ("token.ivy", "relation p q"),
    ("end.ivy", "relation p\naction a = { p :="),
    ("left.ivy", "relation p\naction a = { p := * }"),
    ("lock.ivy", LOCK),
    ("four.ivy", FOUR),
    ("one.ivy", "type t\nindividual c : t\naxiom X = c\n"),
    ("down.ivy", DOWN),
    ("mutex.ivy", MUTEX),
    ("eleven.ivy", ELEVEN),
    ("t64.ivy", "type t\nrelation r(X:t, Y:t, Z:t)\n"),
    (
        "t68.ivy",
        "type t\nrelation r(X:t, Y:t, Z:t)\nrelation p(X:t)\n",
    ),
    (
        "big3.ivy",
        "type t\naction big(a:t, b:t, c:t, d:t, e:t, f:t) = { local g:t, h:t, i:t { } }\nexport big\n",
    ),
];

/// Words, and the status, `out` and `err` that answer them.
type Row = (&'static str, u8, &'static str, &'static str);

const ROWS: [Row; 29] = [
    (
        "infer ab.ivy --lits 2",
        0,
        "invariant [d1] a | b\ninvariant [d2] ~a | ~b\nFOUND\n",
        "",
    ),
    ("infer ab.ivy --lits 1", 1, "NOT FOUND excl\n", ""),
    ("infer empty.ivy", 0, "FOUND\n", ""),
    ("infer unlabelled.ivy", 1, "NOT FOUND 1\n", ""),
    ("infer labelled.ivy", 1, "NOT FOUND 1000\n", ""),
    (
        "infer eleven.ivy --lits 1",
        0,
        "invariant [d1] ~r0\ninvariant [d2] r5\ninvariant [d3] ~r10\nFOUND\n",
        "",
    ),
    (
        "infer twice.ivy",
        2,
        "",
        "twice.ivy:2:10: E21 declared twice\n",
    ),
    (
        "infer untyped.ivy",
        2,
        "",
        "untyped.ivy:2:11: E25 undetermined variable\n",
    ),
    ("infer byte.ivy", 2, "", "byte.ivy:1:11: E10 bad byte\n"),
    (
        "infer token.ivy",
        2,
        "",
        "token.ivy:1:12: E12 unexpected token\n",
    ),
    (
        "infer end.ivy",
        2,
        "",
        "end.ivy:2:18: E12 unexpected token\n",
    ),
    (
        "infer left.ivy",
        2,
        "",
        "left.ivy:2:19: E20 not in the profile\n",
    ),
    ("infer none.ivy", 0, "invariant [d1] false\nFOUND\n", ""),
    ("infer swap.ivy --lits 1", 1, "NOT FOUND safe\n", ""),
    (
        "infer swap.ivy --lits 2",
        0,
        "invariant [d1] ~bad\ninvariant [d2] x | y\ninvariant [d3] ~x | ~y\nFOUND\n",
        "",
    ),
    ("infer gone.ivy", 3, "", "gone.ivy: cannot be read\n"),
    (
        "infer ab.ivy --lits 9",
        2,
        "",
        "distai: word 4: E02 value out of range\n",
    ),
    (
        "infer ab.ivy --lits 2 --lits 3",
        2,
        "",
        "distai: word 5: E01 bad words\n",
    ),
    ("", 2, "", "distai: word 1: E01 bad words\n"),
    (
        "space lock.ivy --vars client=2,server=1 --lits 2",
        0,
        "types 2\nshapes 6\natoms 3\ntemplates 34\nbound client 3\nbound server 2\nground 20\nmoves 32\n",
        "",
    ),
    (
        "space t64.ivy --vars t=4 --lits 1",
        0,
        "types 1\nshapes 5\natoms 64\ntemplates 205\nbound t 4\nground 64\nmoves 0\n",
        "",
    ),
    (
        "space t68.ivy --vars t=4 --lits 1",
        2,
        "",
        "t68.ivy: E40 atoms 68, limit 64\n",
    ),
    (
        "space big3.ivy --vars t=1",
        2,
        "",
        "big3.ivy: E43 moves 262144, limit 65536\n",
    ),
    (
        "infer lock.ivy --vars node=1",
        2,
        "",
        "distai: word 4: E03 unknown type\n",
    ),
    (
        "space gone.ivy --size 7",
        2,
        "",
        "distai: word 4: E02 value out of range\n",
    ),
    ("space nowhere.ivy", 3, "", "nowhere.ivy: cannot be read\n"),
    (
        "space twice.ivy --vars t=1",
        2,
        "",
        "twice.ivy:2:10: E21 declared twice\n",
    ),
    (
        "infer big3.ivy --vars t=1",
        2,
        "",
        "big3.ivy: E43 moves 262144, limit 65536\n",
    ),
    (
        "space empty.ivy",
        0,
        "types 0\nshapes 1\natoms 0\ntemplates 1\nground 0\nmoves 0\n",
        "",
    ),
];

/// Reports of files with types.
const TYPED: [Row; 10] = [
    ("infer typed.ivy", 0, "FOUND\n", ""),
    (
        "infer lock.ivy --vars client=2,server=1 --lits 2",
        0,
        LOCK_REPORT,
        "",
    ),
    (
        "infer lock.ivy --vars client=1,server=1 --lits 2",
        1,
        "NOT FOUND safety\n",
        "",
    ),
    (
        "infer one.ivy --vars t=2",
        0,
        "invariant [d1] forall T1:t. T1 = c\ninvariant [d2] forall T1:t, T2:t. T1 ~= T2 -> false\nFOUND\n",
        "",
    ),
    (
        "infer down.ivy --vars n=2 --lits 2",
        0,
        "invariant [d1] forall N1:n, N2:n. N1 < N2 -> p(N1) | ~p(N2)\nFOUND\n",
        "",
    ),
    (
        "infer mutex.ivy --vars node=2 --lits 2",
        0,
        MUTEX_REPORT,
        "",
    ),
    // The size of a run changes no report.
    (
        "infer lock.ivy --vars client=2,server=1 --lits 2 --size 1",
        0,
        LOCK_REPORT,
        "",
    ),
    (
        "infer mutex.ivy --vars node=2 --lits 2 --size 6",
        0,
        MUTEX_REPORT,
        "",
    ),
    (
        "infer four.ivy --vars node=1 --lits 1 --size 3",
        1,
        "NOT FOUND safe\n",
        "",
    ),
    (
        "infer four.ivy --vars node=1 --lits 1 --size 1",
        1,
        "NOT FOUND safe\n",
        "",
    ),
];

/// The words of a line, between spaces.
pub fn words_of(alloc: Global, line: &str) -> Result<Vec<String>, Fail> {
    let mut words = Vec::new(alloc);
    for word in line.split(' ') {
        if !word.is_empty() {
            words.push(String::from_str(alloc, word)?)?;
        }
    }
    Ok(words)
}

/// The status of a run, and the outputs after it.
#[derive(Drop)]
struct Told {
    status: u8,
    out: SureSink,
    err: SureSink,
}

/// What the words of the line are answered.
fn answered(alloc: Global, line: &str) -> Result<Told, Fail> {
    let words = words_of(alloc, line)?;
    let mut files = SureFiles::new(alloc);
    for (name, text) in HELD.iter() {
        files.hold(name, text.as_bytes())?;
    }
    let mut out = SureSink::new(alloc);
    let mut err = SureSink::new(alloc);
    let status = distai(alloc, words.as_slice(), &mut files, &mut out, &mut err);
    Ok(Told { status, out, err })
}

#[test]
fn answers_and_refusals(rt: HostRuntime) -> Result<(), Fail> {
    for (line, status, out, err) in ROWS.iter() {
        let told = answered(rt.alloc(), line)?;
        assert_eq!(rt; told.status, *status, "{line}");
        assert_eq!(rt; told.out.bytes(), out.as_bytes(), "{line}");
        assert_eq!(rt; told.err.bytes(), err.as_bytes(), "{line}");
    }
    Ok(())
}

#[test]
fn reports_over_types(rt: HostRuntime) -> Result<(), Fail> {
    for (line, status, out, err) in TYPED.iter() {
        let told = answered(rt.alloc(), line)?;
        assert_eq!(rt; told.status, *status, "{line}");
        assert_eq!(rt; told.out.bytes(), out.as_bytes(), "{line}");
        assert_eq!(rt; told.err.bytes(), err.as_bytes(), "{line}");
    }
    Ok(())
}

/// Two servers add no clause, since servers are independent.
#[test]
fn the_lock_by_default(rt: HostRuntime) -> Result<(), Fail> {
    let told = answered(rt.alloc(), "infer lock.ivy")?;
    assert_eq!(rt; told.status, 0);
    assert_eq!(rt; told.out.bytes(), LOCK_REPORT.as_bytes());
    assert_eq!(rt; told.err.bytes(), b"".as_slice());
    Ok(())
}

const THREE_FLAGS: &str =
    "relation a\nrelation b\nrelation c\nafter init { a := false; b := false; c := false }\n";

#[test]
fn a_strike_spares_questions(rt: HostRuntime) -> Result<(), Fail> {
    let alloc = rt.alloc();
    let protocol = read_protocol(alloc, THREE_FLAGS.as_bytes())
        .ok()
        .ok_or("no protocol")?;
    if !protocol.sorts.is_empty() || protocol.relations.len() > MOST_FLAGS {
        return Err("no file of flags".into());
    }
    let space = Space::new(alloc, &protocol, &[], 1).ok().ok_or("no space")?;
    let table = TruthTable::new(alloc, &protocol)?;
    let mut logged = Logged {
        table,
        log: Vec::new(alloc),
    };
    let answer = report(alloc, &mut logged, &protocol, &space)?;
    assert_eq!(rt; logged.log.as_slice(), b"|i|iiii|iii|".as_slice());
    let lines = "invariant [d1] ~a\ninvariant [d2] ~b\ninvariant [d3] ~c\nFOUND\n";
    assert_eq!(rt; answer.out.as_slice(), lines.as_bytes());
    Ok(())
}
