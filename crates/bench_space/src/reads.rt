//! The bits that questions about clauses are about, and a loop that does no more than read them.
ghost use Rattle.std.specs.Prelude.{◌≡◌, ◌<◌};

use crate::states::SIZE;
use dai_base::Spent;
use dai_logic::{Protocol, Structure};
use dai_template::{Atom, Shape};
use std::alloc::Global;

/// The bit of a tuple among those of all tables, and whether the literal is negated.
#[derive(Clone, Copy)]
struct Read {
    place: usize,
    negated: bool,
}

/// The reads of a clause: for each way to let the variables of its literals stand for elements, one for each literal.
#[derive(Drop)]
pub struct Reads {
    literals: usize,
    reads: Vec<Read>,
}

/// The bits of all tables of the structure in a row.
pub fn bits(alloc: Global, s: &Structure) -> Result<Vec<bool>, Spent> {
    let mut bits = Vec::new(alloc);
    for table in &s.tables {
        bits.extend_from_slice(table)?;
    }
    Ok(bits)
}

/// Where the bits of each relation's table begin.
pub fn starts(alloc: Global, protocol: &Protocol) -> Result<Vec<usize>, Spent> {
    let mut starts = Vec::new(alloc);
    let mut start = 0usize;
    for relation in &protocol.relations {
        starts.push(start)?;
        let mut count = 1usize;
        for _ in &relation.args {
            count = count.saturating_mul(usize::from(SIZE));
        }
        start = start.saturating_add(count);
    }
    Ok(starts)
}

/// The variables of the literals, each once, or `None` where a literal is no relation's.
fn variables(
    alloc: Global,
    shape: &Shape,
    literals: &[u8],
) -> Result<Option<Vec<(u8, u8)>>, Spent> {
    let mut variables = Vec::new(alloc);
    for literal in literals {
        let Some(Atom::Tuple { vars, .. }) = shape.atoms.get(usize::from(literal / 2)) else {
            return Ok(None);
        };
        for var in vars {
            if !variables.contains(var) {
                variables.push(*var)?;
            }
        }
    }
    Ok(Some(variables))
}

/// Every way to let the variables stand for elements, those of one type for different ones.
fn ways(alloc: Global, variables: &[(u8, u8)]) -> Result<Vec<Vec<u16>>, Spent> {
    let mut ways = vec![in alloc; Vec::new(alloc)]?;
    for variable in variables {
        let mut longer = Vec::new(alloc);
        for way in &ways {
            for element in 0..SIZE {
                if may_stand(variables, way, variable.0, element) {
                    let mut more = Vec::from_slice(alloc, way)?;
                    more.push(element)?;
                    longer.push(more)?;
                }
            }
        }
        ways = longer;
    }
    Ok(ways)
}

/// Whether none of the variables so far has this type and stands for this element.
fn may_stand(variables: &[(u8, u8)], way: &[u16], sort: u8, element: u16) -> bool {
    let mut before = variables.iter().zip(way);
    !before.any(|(variable, other)| variable.0 == sort && *other == element)
}

/// The place of the atom's tuple among the bits, where the variables stand for these elements.
fn place(atom: &Atom, starts: &[usize], variables: &[(u8, u8)], way: &[u16]) -> Option<usize> {
    let Atom::Tuple { rel, vars } = atom else {
        return None;
    };
    let mut place = 0usize;
    for var in vars {
        let at = variables.iter().position(|variable| variable == var)?;
        let element = usize::from(*way.get(at)?);
        place = place.checked_mul(usize::from(SIZE))?.checked_add(element)?;
    }
    starts.get(usize::from(*rel))?.checked_add(place)
}

/// The reads of the clause of these literals, or `None` where a literal is no relation's.
pub fn reads_of(
    alloc: Global,
    shape: &Shape,
    literals: &[u8],
    starts: &[usize],
) -> Result<Option<Reads>, Spent> {
    let Some(variables) = variables(alloc, shape, literals)? else {
        return Ok(None);
    };
    let mut reads = Vec::new(alloc);
    for way in &ways(alloc, &variables)? {
        for literal in literals {
            let atom = shape.atoms.get(usize::from(literal / 2));
            let Some(place) = atom.and_then(|atom| place(atom, starts, &variables, way)) else {
                return Ok(None);
            };
            reads.push(Read {
                place,
                negated: literal % 2 == 1,
            })?;
        }
    }
    Ok(Some(Reads {
        literals: literals.len(),
        reads,
    }))
}

impl Reads {
    /// Whether each way makes some literal true.
    pub fn are_met(&self, bits: &[bool]) -> bool {
        if self.literals == 0 {
            return false;
        }
        for way in self.reads.chunks(self.literals) {
            if !some_true(way, bits) {
                return false;
            }
        }
        true
    }
}

/// Whether some literal is true.
fn some_true(way: &[Read], bits: &[bool]) -> bool {
    for read in way {
        if bits.get(read.place) == Some(&!read.negated) {
            return true;
        }
    }
    false
}
