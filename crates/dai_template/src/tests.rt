ghost use Rattle.std.specs.Prelude.{◌≡◌, ◌<◌, ◌≤◌, [], ◌∷◌, length, IfOk, IfSome, vec_len};
ghost use Rattle.dai_logic.specs.Protocols.{protocol_of};
ghost use Rattle.dai_template.specs.Links.{links as links_of_the_model, IsLinked, HasPairs, IsPair};
ghost use Rattle.dai_template.specs.Spaces.{IsSpace};

use crate::clause::Clause;
use crate::counting::clause_counts;
use crate::space::{Space, SpaceError};
use dai_base::{Spent, Text};
use dai_logic::{Block, Formula, IndInfo, Protocol, RelInfo, SortInfo, Structure, Term};
use std::alloc::Global;
use std::cmp::Ordering;
use std::test::Fail;

/// One type and one relation of triples over it.
fn triples(alloc: Global) -> Result<Protocol, Spent>
    ensures { IfOk result (λ p. vec_len p.sorts ≡ 1) }
{
    let sort = SortInfo {
        name: Text::from_bytes(alloc, b"t")?,
        ordered: false,
    };
    let relation = RelInfo {
        name: Text::from_bytes(alloc, b"r")?,
        args: vec![in alloc; 0, 0, 0]?,
    };
    let init = Block {
        params: Vec::new(alloc),
        locals: Vec::new(alloc),
        code: Vec::new(alloc),
    };
    Ok(Protocol {
        sorts: vec![in alloc; sort]?,
        relations: vec![in alloc; relation]?,
        individuals: Vec::new(alloc),
        axioms: Vec::new(alloc),
        init,
        actions: Vec::new(alloc),
        invariants: Vec::new(alloc),
    })
}

/// Within four variables and one literal there are shapes of 0, 1, 8, 27 and 64 atoms.
#[test]
fn space_of_triples(rt: HostRuntime) -> Result<(), Fail> {
    let alloc = rt.alloc();
    let protocol = triples(alloc)?;
    let space = Space::new(alloc, &protocol, &[4], 1)
        .ok()
        .ok_or("no space")?;
    assert_eq!(rt; space.shapes.len(), 5);
    for (shape, want) in space.shapes.iter().zip([0, 1, 8, 27, 64]) {
        assert_eq!(rt; shape.atoms.len(), want);
    }
    let few = Clause::empty(3).with(7);
    let many = Clause::empty(2).with(0);
    assert!(rt; space.shapes.len() > 3);
    assert!(rt; space.compare(&few, &many) == Ordering::Greater);
    Ok(())
}

#[test]
fn too_many_templates(rt: HostRuntime) -> Result<(), Fail> {
    let alloc = rt.alloc();
    let protocol = triples(alloc)?;
    let refused = Space::new(alloc, &protocol, &[4], 4).err();
    // For each shape the sum over k of (atoms over k) times 2^k.
    let want = 1 + 3 + 1697 + 305_659 + 10_507_521;
    assert_eq!(rt; refused, Some(SpaceError::Templates { count: want }));
    Ok(())
}

#[test]
fn counts_of_clauses(rt: HostRuntime) -> Result<(), Fail> {
    for (atoms, lits, want) in [
        (10, 8, 52_905),
        (53, 3, 193_027),
        (54, 3, 204_265),
        (2, 2, 9),
        (0, 8, 1),
    ] {
        if lits <= 8 {
            let counts = clause_counts(rt.alloc(), lits)?;
            assert_eq!(rt; counts.get(atoms).copied(), Some(want), "{atoms} atoms");
        }
    }
    Ok(())
}

/// The protocol of the example.
fn links(alloc: Global) -> Result<Protocol, Spent>
    ensures { IfOk result (λ p. protocol_of p ≡ links_of_the_model) }
{
    let plain = SortInfo {
        name: Text::from_bytes(alloc, b"t")?,
        ordered: false,
    };
    let ordered = SortInfo {
        name: Text::from_bytes(alloc, b"o")?,
        ordered: true,
    };
    let pairs = RelInfo {
        name: Text::from_bytes(alloc, b"r")?,
        args: vec![in alloc; 0, 0]?,
    };
    let ones = RelInfo {
        name: Text::from_bytes(alloc, b"u")?,
        args: vec![in alloc; 1]?,
    };
    let only = IndInfo {
        name: Text::from_bytes(alloc, b"c")?,
        sort: 0,
    };
    let sorts = vec![in alloc; plain, ordered]?;
    let relations = vec![in alloc; pairs, ones]?;
    let individuals = vec![in alloc; only]?;
    let init = Block {
        params: Vec::new(alloc),
        locals: Vec::new(alloc),
        code: Vec::new(alloc),
    };
    Ok(Protocol {
        sorts,
        relations,
        individuals,
        axioms: Vec::new(alloc),
        init,
        actions: Vec::new(alloc),
        invariants: Vec::new(alloc),
    })
}

/// Its space with at most two variables of each type.
fn space_of_links(alloc: Global, lits: u8) -> Result<Space, Fail>
    requires { lits ≤ 8 }
    ensures space { IfOk result IsSpace }
    ensures pairs { IfOk result (λ space. 2 ≤ lits → HasPairs space) }
{
    let protocol = links(alloc)?;
    match Space::new(alloc, &protocol, &[2, 2], lits) {
        Ok(space) => Ok(space),
        Err(_) => Err("no space".into()),
    }
}

/// A structure with two elements of each type: whether each pair is related, each element of the ordered type,
/// and the individual.
fn state(alloc: Global, r: &[bool], u: &[bool], c: u16) -> Result<Structure, Spent>
    requires pairs { length r.now ≡ 4 }
    requires ones { length u.now ≡ 2 }
    requires element { c < 2 }
    ensures { IfOk result IsLinked }
{
    let first = Vec::from_slice(alloc, r)?;
    let second = Vec::from_slice(alloc, u)?;
    Ok(Structure {
        sizes: vec![in alloc; 2, 2]?,
        tables: vec![in alloc; first, second]?,
        values: vec![in alloc; c]?,
    })
}

/// The clause of these two literals over the shape, if there is one.
fn clause(space: &Space, shape: u32, first: u8, second: u8) -> Option<Clause>
    requires { HasPairs space.now }
    ensures { IfSome result (IsPair space.now) }
{
    if shape as usize >= space.shapes.len() {
        return None;
    }
    let atoms = space.shapes[shape as usize].atoms.len();
    if first / 2 < second / 2 && usize::from(second / 2) < atoms {
        Some(Clause::empty(shape).with(first).with(second))
    } else {
        None
    }
}

/// Its canonical form.
fn canonical(space: &Space, shape: u32, first: u8, second: u8) -> Option<Clause>
    requires { HasPairs space.now }
{
    let clause = clause(space, shape, first, second)?;
    Some(space.canonical(&clause))
}

/// Renamings swap the variables of the first type alone.
#[test]
fn canonical_clauses(rt: HostRuntime) -> Result<(), Fail> {
    let space = space_of_links(rt.alloc(), 2)?;
    for (shape, [first, second], want) in [
        (5, [4, 6], [0, 2]),
        (5, [3, 10], [3, 10]),
        (5, [5, 8], [3, 10]),
        (3, [0, 3], [0, 3]),
        (3, [1, 2], [1, 2]),
        (8, [6, 10], [0, 10]),
    ] {
        let found = canonical(&space, shape, first, second).ok_or("no clause")?;
        assert_eq!(rt; found.shape, shape);
        assert_eq!(rt; found.lits.as_slice(), want.as_slice());
    }
    Ok(())
}

/// Whether the structure meets the clause of these two literals.
fn judged(space: &Space, s: &Structure, shape: u32, first: u8, second: u8) -> Option<bool>
    requires space { HasPairs space.now }
    requires state { IsLinked s.now }
{
    let clause = clause(space, shape, first, second)?;
    Some(space.meets(s, &clause))
}

#[test]
fn met_clauses(rt: HostRuntime) -> Result<(), Fail> {
    let alloc = rt.alloc();
    let space = space_of_links(alloc, 2)?;
    let (none, up) = ([false; 4], [true, false]);
    for (shape, [first, second], r, u, c, want) in [
        // Two variables of a type stand for different elements.
        (5, [2, 4], [false, true, false, false], up, 0, true),
        (5, [2, 4], [true, false, false, true], up, 0, false),
        // Those of the ordered type stand in order.
        (3, [0, 3], none, up, 0, true),
        (3, [1, 2], none, up, 0, false),
        // An individual.
        (4, [1, 4], [true, false, false, false], up, 0, true),
        (4, [1, 4], [true, false, false, false], up, 1, false),
    ] {
        if c < 2 {
            let s = state(alloc, r.as_slice(), u.as_slice(), c)?;
            let got = judged(&space, &s, shape, first, second);
            assert_eq!(rt; got, Some(want), "{shape} {first} {second}");
        }
    }
    Ok(())
}

/// The formula of a clause.
fn formula(
    alloc: Global,
    space: &Space,
    shape: u32,
    first: u8,
    second: u8,
) -> Result<Option<Formula>, Spent>
    requires { HasPairs space.now }
{
    match clause(space, shape, first, second) {
        Some(clause) => Ok(Some(space.formula(alloc, &clause)?)),
        None => Ok(None),
    }
}

/// What stands behind the quantifier of this variable and type.
fn behind(formula: &Formula, number: u8, of: u8) -> Option<&Formula> {
    match formula {
        Formula::Forall { var, sort, body } if *var == number && *sort == of => Some(body),
        _ => None,
    }
}

/// The parts of a disjunction for all elements of two variables of these types.
fn parts(formula: &Formula, first: u8, second: u8) -> Option<&[Formula]> {
    match behind(behind(formula, 0, first)?, 1, second)? {
        Formula::Any(parts) => Some(parts),
        _ => None,
    }
}

/// Whether it is that of `u(X) | ~u(Y)` for X before Y.
fn is_in_order(parts: &[Formula]) -> bool {
    matches!(
        parts,
        [
            Formula::LessEq {
                left: Term::Var(1),
                right: Term::Var(0),
            },
            Formula::Rel { rel: 1, .. },
            Formula::Not(_),
        ]
    )
}

/// Whether it is that of `~r(X,X) | X = c`.
fn is_mixed(parts: &[Formula]) -> bool {
    matches!(
        parts,
        [
            Formula::Not(_),
            Formula::Same {
                left: Term::Var(0),
                right: Term::Ind(0),
            },
        ]
    )
}

#[test]
fn formulas_of_clauses(rt: HostRuntime) -> Result<(), Fail> {
    let alloc = rt.alloc();
    let space = space_of_links(alloc, 2)?;
    let ordered = formula(alloc, &space, 3, 0, 3)?.ok_or("no clause")?;
    assert!(rt; is_in_order(parts(&ordered, 1, 1).ok_or("no parts")?));
    let mixed = formula(alloc, &space, 4, 1, 4)?.ok_or("no clause")?;
    assert!(rt; is_mixed(parts(&mixed, 0, 1).ok_or("no parts")?));
    Ok(())
}

/// Whether the clause is the one of these literals over the shape.
fn is_clause(clause: Option<&Clause>, shape: usize, literals: &[u8]) -> bool {
    match clause {
        Some(clause) => clause.shape as usize == shape && clause.lits.as_slice() == literals,
        None => false,
    }
}

/// Whether the clauses are, shape by shape, the empty clause and those of these single literals.
fn are_singles(clauses: &[Clause], shapes: &[&[u8]]) -> bool {
    let mut rest = clauses.iter();
    for (shape, literals) in shapes.iter().enumerate() {
        if !is_clause(rest.next(), shape, &[]) {
            return false;
        }
        for literal in *literals {
            if !is_clause(rest.next(), shape, &[*literal]) {
                return false;
            }
        }
    }
    rest.next().is_none()
}

/// Of two literals that a renaming swaps the lesser is listed.
#[test]
fn all_clauses(rt: HostRuntime) -> Result<(), Fail> {
    let alloc = rt.alloc();
    let singles = space_of_links(alloc, 1)?.all(alloc)?;
    let want: [&[u8]; 9] = [
        &[],
        &[0, 1],
        &[0, 1, 2, 3],
        &[0, 1, 2, 3],
        &[0, 1, 2, 3, 4, 5],
        &[0, 1, 2, 3, 8, 9],
        &[0, 1, 2, 3, 4, 5, 6, 7],
        &[0, 1, 2, 3, 8, 9, 10, 11],
        &[0, 1, 2, 3, 8, 9, 10, 11, 12, 13],
    ];
    assert!(rt; are_singles(&singles, want.as_slice()));
    // By Burnside's lemma, shape by shape: 1 + 3 + 9 + 9 + 19 + 40 + 33 + 54 + 72.
    let pairs = space_of_links(alloc, 2)?.all(alloc)?;
    assert_eq!(rt; pairs.len(), 240);
    Ok(())
}
