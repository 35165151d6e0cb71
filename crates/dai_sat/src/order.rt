ghost use Rattle.std.specs.Prelude.{◌≡◌, ◌<◌, IfSome, vec_len};
ghost use Rattle.dai_sat.specs.Heaps.{AreHeaped};
ghost use Rattle.dai_trail.specs.Trail.{IsOpenIn};

use dai_base::Spent;
use dai_trail::trail::Trail;
use std::alloc::Global;

/// Activities above this one are scaled down.
const MOST_ACTIVE: f64 = 1e100;

/// By what all activities are scaled down then.
const SCALE: f64 = 1e-100;

/// By what the step grows with each conflict: 1 / 0.95.
const GROWTH: f64 = 1.0526315789473684;

/// The place of a variable that isn't in the heap.
const ABSENT: u32 = u32::MAX;

/// What the order knows of a variable.
#[derive(Clone, Copy)]
struct Entry {
    /// How active it is.
    activity: f64,
    /// Where it was put in the heap, or `ABSENT`.
    place: u32,
    /// The value that it had last.
    phase: bool,
}

/// Which free variable is decided next, and its value: the one that took part in conflicts most of late
/// (Moskewicz, Madigan, Zhao, Zhang and Malik, 2001; Eén and Sörensson, 2003), with the value that it had
/// last (Pipatsrisawat and Darwiche, 2007). Nothing that is proved rests on it.
#[derive(Drop)]
pub(crate) struct Order {
    /// By variable.
    entries: Vec<Entry>,
    /// What a conflict adds to the activity of its variables.
    step: f64,
    /// A heap of variables, the most active one first.
    heap: Vec<usize>,
    ghost heaped: { AreHeaped (vec_len entries) heap.items },
}

impl Order {
    /// The order of no variable.
    pub(crate) fn new(alloc: Global) -> Order {
        Order {
            entries: Vec::new(alloc),
            step: 1.0,
            heap: Vec::new(alloc),
        }
    }

    /// Makes room for this many variables.
    pub(crate) fn fit(&mut self, vars: usize) -> Result<(), Spent> {
        for _ in self.entries.len()..vars {
            self.add()?;
        }
        Ok(())
    }

    /// Adds a variable, which is false where it is decided first.
    fn add(&mut self) -> Result<(), Spent> {
        let var = self.entries.len();
        self.entries.push(Entry {
            activity: 0.0,
            place: ABSENT,
            phase: false,
        })?;
        self.insert(var)
    }

    /// How active a variable is.
    fn activity(&self, var: usize) -> f64
        requires { var < vec_len self.now.entries }
    {
        self.entries[var].activity
    }

    /// How active the variable at a place of the heap is.
    fn activity_at(&self, place: usize) -> f64
        requires { place < vec_len self.now.heap }
    {
        self.activity(self.heap[place])
    }

    /// Puts a variable at a place of the heap.
    fn put(&mut self, place: usize, var: usize)
        requires within { place < vec_len self.old.heap }
        requires known { var < vec_len self.old.entries }
        ensures entries { vec_len self.new.entries ≡ vec_len self.old.entries }
        ensures heap { vec_len self.new.heap ≡ vec_len self.old.heap }
    {
        self.heap[place] = var;
        let entry = &mut self.entries[var];
        entry.place = u32::try_from(place).unwrap_or(ABSENT);
    }

    /// Moves the variable at a place up the heap to where it belongs.
    fn lift(&mut self, start: usize)
        requires { start < vec_len self.old.heap }
        ensures entries { vec_len self.new.entries ≡ vec_len self.old.entries }
        ensures heap { vec_len self.new.heap ≡ vec_len self.old.heap }
    {
        let var = self.heap[start];
        let activity = self.activity(var);
        let mut place = start;
        while place > 0 && self.activity_at((place - 1) / 2) < activity {
            let parent = (place - 1) / 2;
            let other = self.heap[parent];
            self.put(place, other);
            place = parent;
        }
        self.put(place, var);
    }

    /// The more active child of a place.
    fn child(&self, place: usize) -> Option<usize>
        requires { place < vec_len self.now.heap }
        ensures { IfSome result (λ child. (place < child) × (child < vec_len self.now.heap)) }
    {
        let left = 2 * place + 1;
        let right = left + 1;
        if right < self.heap.len() && self.activity_at(right) > self.activity_at(left) {
            Some(right)
        } else if left < self.heap.len() {
            Some(left)
        } else {
            None
        }
    }

    /// Moves the variable at the front down the heap to where it belongs.
    fn sink(&mut self)
        requires { 0 < vec_len self.old.heap }
        ensures entries { vec_len self.new.entries ≡ vec_len self.old.entries }
        ensures heap { vec_len self.new.heap ≡ vec_len self.old.heap }
    {
        let var = self.heap[0];
        let activity = self.activity(var);
        let mut place = 0;
        while let Some(child) = self.child(place)
            && self.activity_at(child) > activity
        {
            let other = self.heap[child];
            self.put(place, other);
            place = child;
        }
        self.put(place, var);
    }

    /// Puts a variable into the heap, where it isn't there.
    fn insert(&mut self, var: usize) -> Result<(), Spent>
        requires { var < vec_len self.old.entries }
        ensures { vec_len self.new.entries ≡ vec_len self.old.entries }
    {
        if self.entries[var].place != ABSENT {
            return Ok(());
        }
        let end = self.heap.len();
        self.heap.push(var)?;
        self.put(end, var);
        self.lift(end);
        Ok(())
    }

    /// Takes the most active variable out of the heap.
    fn pop(&mut self) -> Option<usize>
        ensures known { IfSome result (λ var. var < vec_len self.new.entries) }
        ensures same { vec_len self.new.entries ≡ vec_len self.old.entries }
    {
        let last = self.heap.pop()?;
        if self.heap.is_empty() {
            self.leave(last);
            return Some(last);
        }
        let top = self.heap[0];
        self.put(0, last);
        self.sink();
        self.leave(top);
        Some(top)
    }

    /// Notes that a variable isn't in the heap.
    fn leave(&mut self, var: usize)
        requires { var < vec_len self.old.entries }
        ensures entries { vec_len self.new.entries ≡ vec_len self.old.entries }
        ensures heap { vec_len self.new.heap ≡ vec_len self.old.heap }
    {
        let entry = &mut self.entries[var];
        entry.place = ABSENT;
    }

    /// The most active free variable, and the value that it had last.
    pub(crate) fn next(&mut self, trail: &Trail) -> Option<(usize, bool)>
        ensures { IfSome result (λ choice. IsOpenIn trail.now choice.0) }
    {
        for _ in 0..self.heap.len() {
            let var = self.pop()?;
            if trail.is_open(var) {
                return Some((var, self.entries[var].phase));
            }
        }
        None
    }

    /// Makes the variables of literals more active. One that the order doesn't know stays unknown.
    pub(crate) fn bump_all(&mut self, codes: &[u32]) {
        for code in codes {
            let var = *code as usize / 2;
            if var < self.entries.len() {
                self.bump(var);
            }
        }
        self.step *= GROWTH;
    }

    /// Makes a variable more active.
    fn bump(&mut self, var: usize)
        requires { var < vec_len self.old.entries }
    {
        let activity = self.entries[var].activity + self.step;
        let entry = &mut self.entries[var];
        entry.activity = activity;
        if activity > MOST_ACTIVE {
            self.rescale();
        }
        let place = self.entries[var].place as usize;
        if place < self.heap.len() {
            self.lift(place);
        }
    }

    /// Scales all activities down.
    fn rescale(&mut self)
        ensures entries { vec_len self.new.entries ≡ vec_len self.old.entries }
        ensures heap { vec_len self.new.heap ≡ vec_len self.old.heap }
    {
        for entry in self.entries.iter_mut() {
            entry.activity *= SCALE;
        }
        self.step *= SCALE;
    }

    /// Takes the variable of a literal back, with the value that it had.
    fn take_back(&mut self, code: u32) -> Result<(), Spent> {
        let var = code as usize / 2;
        if var >= self.entries.len() {
            return Ok(());
        }
        let entry = &mut self.entries[var];
        entry.phase = code % 2 == 1;
        self.insert(var)
    }

    /// Takes the variables of the trail from a place on back, with the values that they had.
    pub(crate) fn release(&mut self, trail: &Trail, start: usize) -> Result<(), Spent> {
        if self.entries.is_empty() {
            return Ok(());
        }
        for place in start..trail.len {
            if let Some(code) = trail.codes.get(place).copied() {
                self.take_back(code)?;
            }
        }
        Ok(())
    }
}
