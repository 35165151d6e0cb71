use super::*;
use std::alloc::Global;

// A text of one token.
fn one_kind(alloc: Global, text: &str) -> Option<Kind> {
    if text.len() > 1_048_576 {
        return None;
    }
    let tokens = lex(alloc, text.as_bytes()).ok()?;
    match tokens.as_slice() {
        [token] if token.start == 0 && token.end as usize == text.len() => Some(token.kind),
        _ => None,
    }
}

// The place of the bad byte.
fn bad_place(alloc: Global, bytes: &[u8]) -> Option<u32> {
    if bytes.len() > 1_048_576 {
        return None;
    }
    match lex(alloc, bytes) {
        Err(LexError::Bad { at }) => Some(at),
        _ => None,
    }
}

#[test]
fn reads_one_token(rt: HostRuntime) {
    for (text, kind) in [
        ("<->", Kind::DoubleArrow),
        ("->", Kind::Arrow),
        (":=", Kind::Assign),
        ("~=", Kind::NotEqual),
        ("<=", Kind::LessOrEqual),
        ("(", Kind::OpenRound),
        (")", Kind::CloseRound),
        ("{", Kind::OpenCurly),
        ("}", Kind::CloseCurly),
        ("[", Kind::OpenSquare),
        ("]", Kind::CloseSquare),
        (",", Kind::Comma),
        (";", Kind::Semicolon),
        (":", Kind::Colon),
        (".", Kind::Dot),
        ("=", Kind::Equal),
        ("~", Kind::Tilde),
        ("&", Kind::Ampersand),
        ("|", Kind::Bar),
        ("<", Kind::Less),
        ("*", Kind::Asterisk),
        ("type", Kind::WordType),
        ("ordered", Kind::WordOrdered),
        ("relation", Kind::WordRelation),
        ("individual", Kind::WordIndividual),
        ("axiom", Kind::WordAxiom),
        ("after", Kind::WordAfter),
        ("init", Kind::WordInit),
        ("action", Kind::WordAction),
        ("export", Kind::WordExport),
        ("invariant", Kind::WordInvariant),
        ("conjecture", Kind::WordConjecture),
        ("require", Kind::WordRequire),
        ("assume", Kind::WordAssume),
        ("local", Kind::WordLocal),
        ("if", Kind::WordIf),
        ("else", Kind::WordElse),
        ("true", Kind::WordTrue),
        ("false", Kind::WordFalse),
        ("forall", Kind::WordForall),
        ("exists", Kind::WordExists),
        ("types", Kind::Lower),
        ("iff", Kind::Lower),
        ("lock_held2", Kind::Lower),
        ("Type", Kind::Upper),
        ("X_1", Kind::Upper),
        ("0", Kind::Digits),
        ("0123456789", Kind::Digits),
    ] {
        assert!(rt; one_kind(rt.alloc(), text) == Some(kind), "{text}");
    }
}

#[test]
fn reads_words_left_out(rt: HostRuntime) {
    for text in [
        "function",
        "module",
        "object",
        "isolate",
        "instance",
        "instantiate",
        "include",
        "interpret",
        "definition",
        "macro",
        "derived",
        "property",
        "theorem",
        "schema",
        "import",
        "extract",
        "implement",
        "mixin",
        "before",
        "around",
        "parameter",
        "destructor",
        "struct",
        "variant",
        "var",
        "call",
        "while",
        "for",
        "assert",
        "ensure",
    ] {
        assert!(rt; one_kind(rt.alloc(), text) == Some(Kind::LeftOut), "{text}");
    }
}

// Each row: bytes, and its tokens' kinds and places.
#[test]
fn reads_texts(rt: HostRuntime) {
    let rows: [(&[u8], &[(Kind, u32, u32)]); 9] = [
        (b"", &[]),
        (b" \t\r\n# all \xc8 $ of it", &[]),
        (
            b"#lang ivy1.7\ntype t",
            &[(Kind::WordType, 13, 17), (Kind::Lower, 18, 19)],
        ),
        (
            b"a<->B",
            &[
                (Kind::Lower, 0, 1),
                (Kind::DoubleArrow, 1, 4),
                (Kind::Upper, 4, 5),
            ],
        ),
        (
            b"a<b",
            &[(Kind::Lower, 0, 1), (Kind::Less, 1, 2), (Kind::Lower, 2, 3)],
        ),
        (
            b"<=<==",
            &[
                (Kind::LessOrEqual, 0, 2),
                (Kind::LessOrEqual, 2, 4),
                (Kind::Equal, 4, 5),
            ],
        ),
        (
            b"~=~~ =",
            &[
                (Kind::NotEqual, 0, 2),
                (Kind::Tilde, 2, 3),
                (Kind::Tilde, 3, 4),
                (Kind::Equal, 5, 6),
            ],
        ),
        (
            b"p(X):=*;",
            &[
                (Kind::Lower, 0, 1),
                (Kind::OpenRound, 1, 2),
                (Kind::Upper, 2, 3),
                (Kind::CloseRound, 3, 4),
                (Kind::Assign, 4, 6),
                (Kind::Asterisk, 6, 7),
                (Kind::Semicolon, 7, 8),
            ],
        ),
        (
            b"12 # \xff\n 3#",
            &[(Kind::Digits, 0, 2), (Kind::Digits, 8, 9)],
        ),
    ];
    for (bytes, want) in rows {
        assert!(rt; bytes.len() <= 1_048_576);
        match lex(rt.alloc(), bytes) {
            Ok(tokens) => {
                assert_eq!(rt; tokens.len(), want.len());
                for (token, (kind, start, end)) in tokens.iter().zip(want) {
                    assert_eq!(rt; token.kind, *kind);
                    assert_eq!(rt; token.start, *start);
                    assert_eq!(rt; token.end, *end);
                }
            }
            Err(_) => assert!(rt; false, "refused"),
        }
    }
}

#[test]
fn finds_the_first_bad_byte(rt: HostRuntime) {
    let rows: [(&[u8], u32); 9] = [
        (b"relation p$", 10),
        (b"12a", 2),
        (b"a 1_", 3),
        (b"_x", 0),
        (b"a\xc8 # \xc8", 1),
        (b"a -b", 2),
        (b"<-", 1),
        (b"# $\n\t!", 5),
        (b"a \0", 2),
    ];
    for (bytes, at) in rows {
        assert_eq!(rt; bad_place(rt.alloc(), bytes), Some(at));
    }
}
