//! Which words are reserved or left out. A word is compared with those of its first letter alone.
ghost use Rattle.std.specs.Prelude.{◌≡◌, ◌<◌, length};
ghost use Rattle.dai_lex.specs.Words.{keywords, kind_among, words_from};

use crate::token::Kind;

// The kind of a word that begins with neither a digit nor a capital letter.
pub(crate) fn keyword(text: &[u8]) -> Kind
    requires { 0 < length text.now }
    ensures { result ≡ kind_among keywords text.now }
{
    match text[0] {
        b'a' => keyword_a(text),
        b'b' => keyword_b(text),
        b'c' => keyword_c(text),
        b'd' => keyword_d(text),
        b'e' => keyword_e(text),
        b'f' => keyword_f(text),
        b'i' => keyword_i(text),
        b'l' => keyword_l(text),
        b'm' => keyword_m(text),
        b'o' => keyword_o(text),
        b'p' => keyword_p(text),
        b'r' => keyword_r(text),
        b's' => keyword_s(text),
        b't' => keyword_t(text),
        b'v' => keyword_v(text),
        b'w' => keyword_w(text),
        _ => Kind::Lower,
    }
}

fn keyword_a(text: &[u8]) -> Kind
    ensures { result ≡ kind_among (words_from 97 keywords) text.now }
{
    if text == b"axiom".as_slice() {
        Kind::WordAxiom
    } else if text == b"after".as_slice() {
        Kind::WordAfter
    } else if text == b"action".as_slice() {
        Kind::WordAction
    } else if text == b"assume".as_slice() {
        Kind::WordAssume
    } else if text == b"around".as_slice() {
        Kind::LeftOut
    } else if text == b"assert".as_slice() {
        Kind::LeftOut
    } else {
        Kind::Lower
    }
}

fn keyword_b(text: &[u8]) -> Kind
    ensures { result ≡ kind_among (words_from 98 keywords) text.now }
{
    if text == b"before".as_slice() {
        Kind::LeftOut
    } else {
        Kind::Lower
    }
}

fn keyword_c(text: &[u8]) -> Kind
    ensures { result ≡ kind_among (words_from 99 keywords) text.now }
{
    if text == b"conjecture".as_slice() {
        Kind::WordConjecture
    } else if text == b"call".as_slice() {
        Kind::LeftOut
    } else {
        Kind::Lower
    }
}

fn keyword_d(text: &[u8]) -> Kind
    ensures { result ≡ kind_among (words_from 100 keywords) text.now }
{
    if text == b"definition".as_slice() {
        Kind::LeftOut
    } else if text == b"derived".as_slice() {
        Kind::LeftOut
    } else if text == b"destructor".as_slice() {
        Kind::LeftOut
    } else {
        Kind::Lower
    }
}

fn keyword_e(text: &[u8]) -> Kind
    ensures { result ≡ kind_among (words_from 101 keywords) text.now }
{
    if text == b"export".as_slice() {
        Kind::WordExport
    } else if text == b"else".as_slice() {
        Kind::WordElse
    } else if text == b"exists".as_slice() {
        Kind::WordExists
    } else if text == b"extract".as_slice() {
        Kind::LeftOut
    } else if text == b"ensure".as_slice() {
        Kind::LeftOut
    } else {
        Kind::Lower
    }
}

fn keyword_f(text: &[u8]) -> Kind
    ensures { result ≡ kind_among (words_from 102 keywords) text.now }
{
    if text == b"false".as_slice() {
        Kind::WordFalse
    } else if text == b"forall".as_slice() {
        Kind::WordForall
    } else if text == b"function".as_slice() {
        Kind::LeftOut
    } else if text == b"for".as_slice() {
        Kind::LeftOut
    } else {
        Kind::Lower
    }
}

fn keyword_i(text: &[u8]) -> Kind
    ensures { result ≡ kind_among (words_from 105 keywords) text.now }
{
    if text == b"individual".as_slice() {
        Kind::WordIndividual
    } else if text == b"init".as_slice() {
        Kind::WordInit
    } else if text == b"invariant".as_slice() {
        Kind::WordInvariant
    } else if text == b"if".as_slice() {
        Kind::WordIf
    } else if text == b"isolate".as_slice() {
        Kind::LeftOut
    } else if text == b"instance".as_slice() {
        Kind::LeftOut
    } else if text == b"instantiate".as_slice() {
        Kind::LeftOut
    } else if text == b"include".as_slice() {
        Kind::LeftOut
    } else if text == b"interpret".as_slice() {
        Kind::LeftOut
    } else if text == b"import".as_slice() {
        Kind::LeftOut
    } else if text == b"implement".as_slice() {
        Kind::LeftOut
    } else {
        Kind::Lower
    }
}

fn keyword_l(text: &[u8]) -> Kind
    ensures { result ≡ kind_among (words_from 108 keywords) text.now }
{
    if text == b"local".as_slice() {
        Kind::WordLocal
    } else {
        Kind::Lower
    }
}

fn keyword_m(text: &[u8]) -> Kind
    ensures { result ≡ kind_among (words_from 109 keywords) text.now }
{
    if text == b"module".as_slice() {
        Kind::LeftOut
    } else if text == b"macro".as_slice() {
        Kind::LeftOut
    } else if text == b"mixin".as_slice() {
        Kind::LeftOut
    } else {
        Kind::Lower
    }
}

fn keyword_o(text: &[u8]) -> Kind
    ensures { result ≡ kind_among (words_from 111 keywords) text.now }
{
    if text == b"ordered".as_slice() {
        Kind::WordOrdered
    } else if text == b"object".as_slice() {
        Kind::LeftOut
    } else {
        Kind::Lower
    }
}

fn keyword_p(text: &[u8]) -> Kind
    ensures { result ≡ kind_among (words_from 112 keywords) text.now }
{
    if text == b"property".as_slice() {
        Kind::LeftOut
    } else if text == b"parameter".as_slice() {
        Kind::LeftOut
    } else {
        Kind::Lower
    }
}

fn keyword_r(text: &[u8]) -> Kind
    ensures { result ≡ kind_among (words_from 114 keywords) text.now }
{
    if text == b"relation".as_slice() {
        Kind::WordRelation
    } else if text == b"require".as_slice() {
        Kind::WordRequire
    } else {
        Kind::Lower
    }
}

fn keyword_s(text: &[u8]) -> Kind
    ensures { result ≡ kind_among (words_from 115 keywords) text.now }
{
    if text == b"schema".as_slice() {
        Kind::LeftOut
    } else if text == b"struct".as_slice() {
        Kind::LeftOut
    } else {
        Kind::Lower
    }
}

fn keyword_t(text: &[u8]) -> Kind
    ensures { result ≡ kind_among (words_from 116 keywords) text.now }
{
    if text == b"type".as_slice() {
        Kind::WordType
    } else if text == b"true".as_slice() {
        Kind::WordTrue
    } else if text == b"theorem".as_slice() {
        Kind::LeftOut
    } else {
        Kind::Lower
    }
}

fn keyword_v(text: &[u8]) -> Kind
    ensures { result ≡ kind_among (words_from 118 keywords) text.now }
{
    if text == b"variant".as_slice() {
        Kind::LeftOut
    } else if text == b"var".as_slice() {
        Kind::LeftOut
    } else {
        Kind::Lower
    }
}

fn keyword_w(text: &[u8]) -> Kind
    ensures { result ≡ kind_among (words_from 119 keywords) text.now }
{
    if text == b"while".as_slice() {
        Kind::LeftOut
    } else {
        Kind::Lower
    }
}
