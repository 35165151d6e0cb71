use super::*;
use dai_lex::{LexError, lex};
use std::alloc::Global;
use std::test::Fail;

/// What the reader says of a text: the number of the error and its offset, or how many declarations it has.
#[derive(Clone, Copy, Debug, PartialEq, Eq)]
enum Verdict {
    Declarations(usize),
    Bad(u32),
    Unexpected(u32),
    Deep(u32),
    LeftOut(u32),
    Spent,
}

fn read(alloc: Global, text: &str) -> Verdict {
    let bytes = text.as_bytes();
    if bytes.len() > 1_048_576 {
        return Verdict::Spent;
    }
    let tokens = match lex(alloc, bytes) {
        Ok(tokens) => tokens,
        Err(LexError::Bad { at }) => return Verdict::Bad(at),
        Err(LexError::Spent) => return Verdict::Spent,
    };
    match parse(alloc, bytes, tokens.as_slice()) {
        Ok(file) => Verdict::Declarations(file.decls.len()),
        Err(SyntaxError::Unexpected { at }) => Verdict::Unexpected(at),
        Err(SyntaxError::Deep { at }) => Verdict::Deep(at),
        Err(SyntaxError::LeftOut { at }) => Verdict::LeftOut(at),
        Err(SyntaxError::Spent) => Verdict::Spent,
    }
}

/// Files of the grammar.
const FILES: [(&str, usize); 7] = [
    ("", 0),
    (
        "type t ordered type u individual c:t relation r(X:t,y:u)",
        4,
    ),
    ("axiom [a] X = c axiom forall X, Y:t. r(X,Y) -> X <= Y", 2),
    ("after init { p := true; r(X,c) := false; }", 1),
    (
        "export action a(x:t) = { if p { } else if q { } else { } assume p } export a",
        2,
    ),
    ("action a = { local x:t, y:t { require x ~= y } p := q }", 1),
    (
        "invariant [1] ~p & q | r(X) <-> ~exists Y. X < Y & p conjecture p",
        2,
    ),
];

/// Texts outside the grammar, with the place of the first fault.
const FAULTS: [(&str, Verdict); 12] = [
    ("function f(X:t) : t", Verdict::LeftOut(0)),
    ("relation p\naction a = { p :=", Verdict::Unexpected(28)),
    ("relation p\naction a = { p := * }", Verdict::LeftOut(29)),
    ("relation p q", Verdict::Unexpected(11)),
    ("relation p$", Verdict::Bad(10)),
    ("invariant p & function", Verdict::Unexpected(14)),
    ("action a = { p := true function", Verdict::Unexpected(23)),
    ("action a = { if p { } function", Verdict::LeftOut(22)),
    (
        "action a = { if p { } else function",
        Verdict::Unexpected(27),
    ),
    (
        "action a = { p := true q := true }",
        Verdict::Unexpected(23),
    ),
    ("invariant (forall X. p) & q r", Verdict::Unexpected(28)),
    ("invariant p * q", Verdict::Unexpected(12)),
];

#[test]
fn reads_files(rt: HostRuntime) -> Result<(), Fail> {
    for (text, count) in FILES.iter() {
        assert_eq!(rt;
            read(rt.alloc(), text),
            Verdict::Declarations(*count),
            "{text}"
        );
    }
    Ok(())
}

#[test]
fn places_faults(rt: HostRuntime) -> Result<(), Fail> {
    for (text, verdict) in FAULTS.iter() {
        assert_eq!(rt; read(rt.alloc(), text), *verdict, "{text}");
    }
    Ok(())
}

#[test]
fn nests_200_deep(rt: HostRuntime) -> Result<(), Fail> {
    for (open, place) in [("(", 210), ("~", 210)] {
        let mut text = String::from_str(rt.alloc(), "invariant ")?;
        for _ in 0..201 {
            text.push_str(open)?;
        }
        assert_eq!(rt;
            read(rt.alloc(), text.as_str()),
            Verdict::Deep(place),
            "{open}"
        );
    }
    Ok(())
}
