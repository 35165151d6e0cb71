use crate::judge_statements::sort_fault;
use dai_lex::lex;
use dai_syntax::parse;
use std::alloc::Global;
use std::test::Fail;

/// The first fault of a text against the rules of sorts: its number and offset, or zeros where there is none.
fn judged(alloc: Global, text: &[u8]) -> Result<(u8, u32), Fail> {
    if text.len() > 1_048_576 {
        return Ok((255, 0));
    }
    let Ok(tokens) = lex(alloc, text) else {
        return Ok((255, 1));
    };
    let Ok(file) = parse(alloc, text, tokens.as_slice()) else {
        return Ok((255, 2));
    };
    match sort_fault(alloc, &file)? {
        Some(fault) => Ok((fault.number, fault.at)),
        None => Ok((0, 0)),
    }
}

#[test]
fn tells_the_first_fault(rt: HostRuntime) -> Result<(), Fail> {
    for (text, number, at) in [
        ("relation p\nrelation p", 21u8, 20u32),
        ("relation p\naction p = { }", 21, 18),
        ("type t\naction a(x:t) = { }\nrelation x", 21, 36),
        ("type t\naction a(x:t, x:t) = { }", 21, 21),
        ("type t\ninvariant forall X:t, X:t. X = X", 21, 29),
        ("invariant q", 22, 10),
        ("export t", 22, 7),
        ("relation r(X:t)", 22, 13),
        ("action a = { q := true }", 22, 13),
        ("relation p\ninvariant p(X)", 23, 21),
        ("type t\nrelation r(X:t)\ninvariant r", 23, 33),
        ("type t\nrelation r(X:t)\naction a = { r := true }", 23, 36),
        ("type t\nindividual i:t\ninvariant i", 24, 32),
        (
            "type t\ntype u\nindividual i:t\nrelation r(X:u)\ninvariant r(i)",
            24,
            57,
        ),
        (
            "type t\ntype u\nindividual i:t\nindividual j:u\ninvariant i = j",
            24,
            58,
        ),
        (
            "type t\ntype u\nrelation r(X:t)\nrelation s(X:u)\ninvariant r(X) | s(X)",
            24,
            58,
        ),
        ("invariant X = X", 25, 10),
        ("invariant X = Y & Y = X", 25, 10),
        ("type t\nrelation r(X:t)\ninvariant r(X) & Y = Z", 25, 40),
        ("type t\ninvariant forall X:t, Y:t. X < Y", 26, 34),
        (
            "type t\nindividual i:t\nindividual j:t\ninvariant i <= j",
            26,
            47,
        ),
        (
            "type t\nindividual i:t\nrelation r(X:t)\ninvariant r(X) -> X < i",
            26,
            56,
        ),
        ("relation p\naxiom p\naction a = { p := true }", 27, 17),
        (
            "relation p\naxiom true & p\nafter init { p := false }",
            27,
            24,
        ),
        (
            "type t\nindividual i:t\nrelation r(X:t)\naxiom r(i)\naction a(x:t) = { i := x }",
            27,
            46,
        ),
        (
            "type t\nrelation r(X:t)\ninvariant exists X:t. r(X)",
            28,
            33,
        ),
        (
            "type t\nrelation r(X:t)\ninvariant ~(forall X:t. r(X))",
            28,
            35,
        ),
        (
            "type t\nrelation r(X:t)\naxiom (forall X:t. r(X)) <-> true",
            28,
            30,
        ),
        (
            "type t\nrelation r(X:t, Y:t)\naction a = { require forall X:t. exists Y:t. r(X, Y) }",
            29,
            61,
        ),
        (
            "type t\nrelation r(X:t, Y:t)\naction a = { require r(X, X) & (exists Y:t. r(Y, Y)) }",
            29,
            60,
        ),
        (
            "type t\nrelation r(X:t, Y:t)\naction a = { require true <-> (forall X:t. r(X, X)) }",
            29,
            59,
        ),
        (
            "type t\nrelation r(X:t)\naction a = { r(X) := forall Y:t. r(Y) }",
            30,
            44,
        ),
        (
            "type t\nrelation r(X:t)\naction a = { if r(X) { r(X) := true } }",
            30,
            41,
        ),
        (
            "type t\nrelation r(X:t)\naction a = { r(X) := r(Y) }",
            30,
            46,
        ),
        ("type t\naction a(x:t) = { x := x }", 31, 25),
        (
            "type t\nrelation r(X:t, Y:t)\naction a = { r(X, X) := true }",
            31,
            46,
        ),
        ("type t\naction a = { local x:t { x := x } }", 31, 32),
        (
            "type t1\ntype t2\ntype t3\ntype t4\ntype t5\ntype t6\ntype t7\ntype t8\ntype t9",
            42,
            69,
        ),
        ("type t\nrelation r(A:t, B:t, C:t, D:t, E:t, F:t)", 42, 43),
        (
            "type t\naction a(a1:t, a2:t, a3:t, a4:t, a5:t, a6:t, a7:t) = { }",
            42,
            52,
        ),
        (
            "type t\nindividual i:t\nrelation r(X:t)\naxiom forall X:t. X = X\nafter init { r(X) := X = i }\naction a(x:t) = { require exists Y:t. r(Y); i := x; r(X) := r(X) | X = x }\nexport a\ninvariant [some] r(X) -> X = i | r(i)",
            0,
            0,
        ),
    ] {
        assert_eq!(rt;
            judged(rt.alloc(), text.as_bytes())?,
            (number, at),
            "{text}"
        );
    }
    Ok(())
}
