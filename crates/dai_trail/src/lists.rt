ghost use Rattle.std.specs.Prelude.{◌≡◌, ◌<◌, ◌++◌, ◌∷◌, [], length, OnOk, OnErr, slice_index_or};

use dai_base::Spent;
use std::alloc::Global;
use std::marker::Model;

/// How many items there may be in all lists.
const MOST_ITEMS: usize = 0xffff_ffff;

/// Where a list stands among all items.
#[derive(Clone, Copy)]
pub struct Span {
    pub start: u32,
    pub end: u32,
}

/// A growing list of lists, held in one flat array. A contract sees the list of lists alone.
#[derive(Drop)]
pub struct Lists<T: Copy> {
    items: Vec<T>,
    spans: Vec<Span>,
}

impl<T: Copy> Model for Lists<T> {
    ghost use Rattle.std.specs.Prelude.{List, length};

    ghost Value = { List (List T) };

    ghost use Rattle.dai_trail.specs.Lists.{lists_of, AreWithin};

    ghost view = { λ s. lists_of s.items.items s.spans.items };

    ghost invariant = { λ s. AreWithin (length s.items.items) s.spans.items };
}

impl<T: Copy> Lists<T> {
    /// No list. Takes no memory.
    pub fn new(alloc: Global) -> Lists<T>
        ensures { result ≡ [] }
    {
        Lists {
            items: Vec::new(alloc),
            spans: Vec::new(alloc),
        }
    }

    /// How many lists there are.
    pub fn len(&self) -> usize
        ensures { result ≡ length self.now }
    {
        self.spans.len()
    }

    /// The list of the given number.
    pub fn list(&self, number: usize) -> &[T]
        requires { number < length self.now }
        ensures { result.now ≡ slice_index_or self.now number [] }
    {
        let span = self.spans[number];
        &self.items[span.start as usize..span.end as usize]
    }

    /// Appends a list. After `Spent`, which also comes where there would be 2^32 items, the value is as it was.
    pub fn add(&mut self, list: &[T]) -> Result<(), Spent>
        ensures ok { OnOk result (self.new ≡ self.old ++ list.now ∷ []) }
        ensures err { OnErr result (self.new ≡ self.old) }
    {
        let start = self.items.len();
        if start > MOST_ITEMS || list.len() > MOST_ITEMS - start {
            return Err(Spent);
        }
        self.items.extend_from_slice(list)?;
        let end = self.items.len();
        self.spans.push(Span {
            start: start as u32,
            end: end as u32,
        })?;
        Ok(())
    }
}
