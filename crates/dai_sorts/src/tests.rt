use crate::checker::check;
use crate::error::SortError;
use crate::written::write_protocol;
use dai_lex::lex;
use dai_logic::Protocol;
use dai_syntax::parse;
use std::alloc::Global;
use std::test::Fail;

/// The protocol of a text, or the fault; want of memory or a text that is no file counts as the fault 255.
fn checked(alloc: Global, text: &[u8]) -> Result<Protocol, (u8, u32)> {
    if text.len() > 1_048_576 {
        return Err((255, 0));
    }
    let Ok(tokens) = lex(alloc, text) else {
        return Err((255, 0));
    };
    let Ok(file) = parse(alloc, text, tokens.as_slice()) else {
        return Err((255, 0));
    };
    match check(alloc, &file) {
        Ok(protocol) => Ok(protocol),
        Err(SortError::Bad { number, at }) => Err((number, at)),
        Err(SortError::Spent) => Err((255, 0)),
    }
}

/// Its text as tests write it.
fn written(alloc: Global, text: &[u8]) -> Result<Vec<u8>, (u8, u32)> {
    let protocol = checked(alloc, text)?;
    let mut out = Vec::new(alloc);
    match write_protocol(&protocol, &mut out) {
        Ok(()) => Ok(out),
        Err(_) => Err((255, 0)),
    }
}

/// Locks that clients take: two types, and a relation between them.
const LOCKS: &str =
    "type client type server relation link(X:client, Y:server) relation semaphore(X:server)
after init { semaphore(W) := true; link(X,Y) := false }
action connect(x:client, y:server) = { require semaphore(y); link(x,y) := true; semaphore(y) := false }
action disconnect(x:client, y:server) = { require link(x,y); link(x,y) := false; semaphore(y) := true }
export connect export disconnect invariant [safety] link(X,Y) & link(Z,Y) -> X = Z";

/// Locals of several blocks, in order; an action that isn't exported; a label by position.
const LOCALS: &str = "ordered type n individual c : n relation p(X:n)
after init { local a:n { c := a } } action hidden(x:n) = { c := x }
after init { local b:n, d:n { p(b) := b < d } }
export action seen(x:n) = { local a:n { if x <= a { c := a } else { local b:n { c := b; p(X) := X = x & X ~= b } } } }
invariant p(X) & X < Y -> p(Y)";

/// Quantifiers, free variables, and one name for several variables.
const VARIABLES: &str = "type t type u relation r(X:t, Y:u) relation f individual k : u
axiom [a] forall X:t, Y:u. r(X,Y) -> f after init { }
export action go = {
  require exists X. forall Y. r(X,Y) | Y = k;
  require (forall X. r(X,k)) & r(Z,k);
  require (exists X. r(X,k)) | (exists X. ~r(X,k))
}
conjecture [c] f <-> true <-> f conjecture f -> ~(exists X. r(X,Y))";

/// An `else if`, individuals, and a type that is given behind its variable.
const CHOICES: &str = "type t individual a : t individual b : t relation on after init { a := b }
export action s(x:t) = { if on { a := x } else if a ~= x { b := a } assume X = a -> on | X:t ~= b }";

#[test]
fn reads_protocols(rt: HostRuntime) -> Result<(), Fail> {
    for (text, expected) in [
        (
            LOCKS,
            "ss/r01r1///(.){!1v0T!0v0v1F}/connect(01.){?1p1!0p0p1T!1p1F}disconnect(01.){?0p0p1!0p0p1F!1p1T}/safety A00A11A20>&(0v0v10v2v1)=v0v2",
        ),
        (
            LOCALS,
            "o/r0/0//(.000){i0l0!0l1<l1l2}/seen(0.00){c[p0l0{i0l0}{i0l1!0v0&(=v0p0~=v0l1)}}/1 A00A10>&(0v0<v0v1)0v1",
        ),
        (
            VARIABLES,
            "ss/r01r/1/A00A11>0v0v11/(.){}/go(.){?E00A11|(0v0v1=v1i0)?A10&(A000v0i00v1i0)?|(E000v0i0E10~0v1i0)}/c *(1T1)2 A11>1~E000v0v1",
        ),
        (
            CHOICES,
            "s/r/00//(.){i0i1}/s(0.){c0{i0p0}{c~=i0p0{i1i0}{}}?A00>=v0i0|(0~=v0i1)}/",
        ),
    ] {
        match written(rt.alloc(), text.as_bytes()) {
            Ok(own) => assert_eq!(rt; own.as_slice(), expected.as_bytes(), "{text}"),
            Err((number, at)) => assert_eq!(rt; (number, at), (0, 0), "{text}"),
        }
    }
    Ok(())
}

#[test]
fn tells_the_first_fault(rt: HostRuntime) {
    for (text, number, at) in [
        ("relation a relation a", 21, 20),
        ("type t relation p(X:t) invariant p(X) & q", 22, 40),
    ] {
        match checked(rt.alloc(), text.as_bytes()) {
            Ok(_) => assert_eq!(rt; (0, 0), (number, at), "{text}"),
            Err(fault) => assert_eq!(rt; fault, (number, at), "{text}"),
        }
    }
}
