ghost use Rattle.std.specs.Prelude.{◌+◌, ◌<◌, ◌≤◌, length, IfSome};

use crate::clauses::{learned_name, learned_number};
use crate::cnf::Cnf;
use crate::trail::{FALSE, TRUE, Trail};
use dai_base::Spent;
use std::alloc::Global;

/// How many numbers stand before the literals of a clause in its block.
const HEAD: usize = 2;

/// A clause that watches a literal, by the place of its first literal among all blocks, beside another of its
/// literals: where that one is true, the clause needs no look.
#[derive(Clone, Copy)]
pub struct Watch {
    pub place: u32,
    pub blocker: u32,
}

/// The other two literals of a clause of three, and its name. A clause of two has the watched literal as its
/// second.
#[derive(Clone, Copy)]
pub struct Short {
    pub first: u32,
    pub second: u32,
    pub clause: u32,
}

impl Short {
    /// The literal that seems to be left where the watched one is false: one of the others is false too, and
    /// none is true.
    pub(crate) fn unit(&self, trail: &Trail) -> Option<u32> {
        let first = trail.glance(self.first);
        let second = trail.glance(self.second);
        // In one test: a bit in common with TRUE is a true literal, and FREE alone is what two free ones share.
        if (first | second) & TRUE | first & second == 0 {
            Some(if first == FALSE {
                self.second
            } else {
                self.first
            })
        } else {
            None
        }
    }
}

/// The clauses that are looked at when a literal becomes false.
#[derive(Drop)]
struct Slot {
    watches: Vec<Watch>,
    shorts: Vec<Short>,
}

/// The two literals that a clause watched.
#[derive(Clone, Copy)]
pub struct Pair {
    pub first: u32,
    pub second: u32,
}

/// What became of a clause one of whose watched literals is false.
pub(crate) enum Turn {
    /// It watches what it did, and this literal of it is worth a look first.
    Stays(u32),
    /// It watches another literal now.
    Moved,
    /// Its name, and its one literal that may not be false.
    Unit(u32, u32),
}

/// Which clauses are looked at when a literal becomes false. Nothing that is proved rests on it
/// (two watched literals: Moskewicz, Madigan, Zhao, Zhang and Malik, 2001; blockers: Sörensson, 2008; clauses
/// of two and three literals apart: Ryan, 2004).
#[derive(Drop)]
pub struct Watches {
    /// By literal.
    slots: Vec<Slot>,
    /// The clauses, one block behind the other: the name, how many literals there are, and the literals, the
    /// watched ones first.
    blocks: Vec<u32>,
    /// How many clauses of the formula were entered.
    given: u32,
    /// How many learned clauses were entered.
    learned: usize,
}

/// The place of the first literal that is not false.
fn open_place(trail: &Trail, codes: &[u32]) -> Option<usize>
    ensures { IfSome result (λ place. place < length codes.now) }
{
    for (place, code) in codes.iter().enumerate() {
        if trail.glance(*code) != FALSE {
            return Some(place);
        }
    }
    None
}

/// The place behind the last literal of the clause whose first literal stands at a place.
fn end_of(blocks: &[u32], start: usize) -> Option<usize>
    ensures { IfSome result (λ end. (2 ≤ start) × (start + 2 ≤ end) × (end ≤ length blocks.now)) }
{
    if start < HEAD || start >= blocks.len() {
        return None;
    }
    let end = start + blocks[start - 1] as usize;
    if end < start + 2 || end > blocks.len() {
        return None;
    }
    Some(end)
}

impl Watches {
    /// No clause, over no variable.
    pub fn new(alloc: Global) -> Watches {
        Watches {
            slots: Vec::new(alloc),
            blocks: Vec::new(alloc),
            given: 0,
            learned: 0,
        }
    }

    /// Makes room for this many variables.
    pub fn fit(&mut self, alloc: Global, vars: usize) -> Result<(), Spent> {
        for _ in self.slots.len() / 2..vars {
            for _ in 0..2 {
                self.slots.push(Slot {
                    watches: Vec::new(alloc),
                    shorts: Vec::new(alloc),
                })?;
            }
        }
        Ok(())
    }

    /// How many clauses of the formula were entered.
    pub fn entered(&self) -> usize {
        self.given as usize
    }

    /// Lets a clause watch a literal.
    fn watch(&mut self, code: u32, watch: Watch) -> Result<(), Spent> {
        let number = code as usize;
        if number < self.slots.len() {
            let slot = &mut self.slots[number];
            slot.watches.push(watch)?;
        }
        Ok(())
    }

    /// Enters a clause of two or three literals under one of them.
    fn enter_under(
        &mut self,
        code: u32,
        first: u32,
        second: u32,
        clause: u32,
    ) -> Result<(), Spent> {
        let number = code as usize;
        if number < self.slots.len() {
            let slot = &mut self.slots[number];
            slot.shorts.push(Short {
                first,
                second,
                clause,
            })?;
        }
        Ok(())
    }

    /// Enters a clause of two or three literals under each of them.
    fn enter_short(&mut self, clause: u32, codes: &[u32]) -> Result<(), Spent> {
        match codes {
            [a, b] => {
                self.enter_under(*a, *b, *a, clause)?;
                self.enter_under(*b, *a, *b, clause)?;
                Ok(())
            }
            [a, b, c] => {
                self.enter_under(*a, *b, *c, clause)?;
                self.enter_under(*b, *a, *c, clause)?;
                self.enter_under(*c, *a, *b, clause)?;
                Ok(())
            }
            _ => Ok(()),
        }
    }

    /// Writes the block of a clause, with the two literals in front. The answer is the place of the first.
    fn write(&mut self, name: u32, codes: &[u32], first: u32, second: u32) -> Result<usize, Spent> {
        let mut len = 2u32;
        for code in codes {
            if *code != first && *code != second {
                len = len.saturating_add(1);
            }
        }
        self.blocks.push(name)?;
        self.blocks.push(len)?;
        let place = self.blocks.len();
        self.blocks.push(first)?;
        self.blocks.push(second)?;
        for code in codes {
            if *code != first && *code != second {
                self.blocks.push(*code)?;
            }
        }
        Ok(place)
    }

    /// Enters a clause, of which two literals are watched where it has more than three.
    fn enter(&mut self, name: u32, codes: &[u32], first: u32, second: u32) -> Result<(), Spent> {
        let place = self.write(name, codes, first, second)?;
        if codes.len() < 4 {
            return self.enter_short(name, codes);
        }
        if let Ok(place) = u32::try_from(place) {
            self.watch(
                first,
                Watch {
                    place,
                    blocker: second,
                },
            )?;
            self.watch(
                second,
                Watch {
                    place,
                    blocker: first,
                },
            )?;
        }
        Ok(())
    }

    /// Enters the next clause of the formula, with two of its literals to watch.
    pub fn enter_given(&mut self, codes: &[u32], first: u32, second: u32) -> Result<(), Spent> {
        let name = self.given;
        self.given = name.saturating_add(1);
        self.enter(name, codes, first, second)
    }

    /// Enters the next learned clause, with two of its literals to watch.
    pub fn enter_learned(&mut self, codes: &[u32], first: u32, second: u32) -> Result<(), Spent> {
        let name = learned_name(self.learned) as u32;
        self.learned = self.learned.saturating_add(1);
        self.enter(name, codes, first, second)
    }

    /// The clauses of two and three literals that a literal is one of.
    pub(crate) fn shorts(&self, code: u32) -> &[Short] {
        match self.slots.get(code as usize) {
            Some(slot) => slot.shorts.as_slice(),
            None => &[],
        }
    }

    /// Lets a clause watch another literal in place of one that became false, where there is one.
    pub(crate) fn turn(&mut self, trail: &Trail, watch: Watch, code: u32) -> Result<Turn, Spent> {
        let start = watch.place as usize;
        let Some(end) = end_of(self.blocks.as_slice(), start) else {
            return Ok(Turn::Stays(watch.blocker));
        };
        let other = self.blocks[start] ^ self.blocks[start + 1] ^ code;
        if trail.glance(other) == TRUE {
            return Ok(Turn::Stays(other));
        }
        let Some(place) = open_place(trail, &self.blocks[start + 2..end]) else {
            return Ok(Turn::Unit(self.blocks[start - 2], other));
        };
        let at = start + 2 + place;
        let open = self.blocks[at];
        self.blocks[at] = code;
        self.blocks[start] = other;
        self.blocks[start + 1] = open;
        self.watch(
            open,
            Watch {
                place: watch.place,
                blocker: other,
            },
        )?;
        Ok(Turn::Moved)
    }

    /// Takes the list of a literal out.
    pub(crate) fn take(&mut self, alloc: Global, code: u32) -> Vec<Watch> {
        let number = code as usize;
        if number < self.slots.len() {
            let slot = &mut self.slots[number];
            std::mem::replace(&mut slot.watches, Vec::new(alloc))
        } else {
            Vec::new(alloc)
        }
    }

    /// Puts the list of a literal back.
    pub(crate) fn put(&mut self, code: u32, list: Vec<Watch>) {
        let number = code as usize;
        if number < self.slots.len() {
            let slot = &mut self.slots[number];
            slot.watches = list;
        }
    }

    /// Takes the learned clauses out of the lists that don't stay.
    pub(crate) fn retain_learned<F: Fn(usize) -> bool>(&mut self, cnf: &Cnf, stays: F)
        requires { F.IsAlwaysCallable stays }
    {
        let blocks = self.blocks.as_slice();
        for slot in self.slots.iter_mut() {
            slot.shorts.retain(|short| match learned_number(cnf, short.clause as usize) {
                Some(number) => stays(number),
                None => true,
            });
            slot.watches.retain(|watch| {
                match blocks.get((watch.place as usize).saturating_sub(HEAD)) {
                    Some(name) => match learned_number(cnf, *name as usize) {
                        Some(number) => stays(number),
                        None => true,
                    },
                    None => false,
                }
            });
        }
    }

    /// Takes all learned clauses out, and gives back what they watched.
    pub fn drop_learned(&mut self, alloc: Global, cnf: &Cnf) -> Result<Vec<Pair>, Spent> {
        let blocks = std::mem::replace(&mut self.blocks, Vec::new(alloc));
        for slot in self.slots.iter_mut() {
            slot.watches.clear();
            slot.shorts.clear();
        }
        self.learned = 0;
        let mut pairs = Vec::new(alloc);
        let mut start = HEAD;
        for _ in 0..blocks.len() {
            let Some(end) = end_of(blocks.as_slice(), start) else {
                break;
            };
            let name = blocks[start - 2];
            let codes = &blocks[start..end];
            let pair = Pair {
                first: codes[0],
                second: codes[1],
            };
            match learned_number(cnf, name as usize) {
                Some(_) => pairs.push(pair)?,
                None => self.enter(name, codes, pair.first, pair.second)?,
            }
            start = end.saturating_add(HEAD);
        }
        Ok(pairs)
    }
}
