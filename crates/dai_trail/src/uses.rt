use crate::clauses::learned_number;
use crate::cnf::Cnf;
use crate::trail::Trail;
use crate::watches::Watches;
use dai_base::Spent;
use std::alloc::Global;

/// How many learned clauses there may be before some are let go for the first time.
const FIRST_LIMIT: usize = 200;

/// By how many more there may be each time.
const MORE: usize = 10;

/// The fewest conflicts before idle clauses are watched no more.
const FIRST_SPAN: u64 = 200;

/// The glue up to which a clause is always kept.
const LOW_GLUE: u32 = 2;

/// When a learned clause took part in conflicts, and its glue: at how many levels its literals stood when it
/// was learned (Audemard and Simon, 2009).
#[derive(Clone, Copy)]
pub struct Use {
    /// A mean of the times, where each one counts as much as all before it.
    last: u64,
    glue: u32,
}

/// How useful each learned clause was. Nothing that is proved rests on it.
#[derive(Drop)]
pub struct Uses {
    /// By learned clause.
    uses: Vec<Use>,
    /// By level: when a literal of a clause was seen there last.
    seen: Vec<u64>,
    /// How many conflicts there were.
    now: u64,
    /// How many learned clauses there may be before some are let go.
    limit: usize,
    /// When idle clauses were taken out of the watch lists last, and for how long a clause may be idle.
    thinned: u64,
    span: u64,
}

impl Uses {
    /// The uses of no clause.
    pub fn new(alloc: Global) -> Uses {
        Uses {
            uses: Vec::new(alloc),
            seen: Vec::new(alloc),
            now: 0,
            limit: FIRST_LIMIT,
            thinned: 0,
            span: FIRST_SPAN,
        }
    }

    /// Enters the next learned clause.
    pub fn enter(&mut self, glue: u32) -> Result<(), Spent> {
        self.now = self.now.saturating_add(1);
        self.uses.push(Use {
            last: self.now,
            glue,
        })?;
        Ok(())
    }

    /// Notes that a clause took part in a conflict.
    pub fn note(&mut self, cnf: &Cnf, name: usize) {
        if let Some(number) = learned_number(cnf, name)
            && number < self.uses.len()
        {
            let entry = &mut self.uses[number];
            entry.last = (entry.last / 2).saturating_add(self.now / 2);
        }
    }

    /// The glue of a clause, from the places of the decisions, but no more than 1 above `LOW_GLUE`.
    pub fn glue(&mut self, trail: &Trail, levels: &[usize], codes: &[u32]) -> Result<u32, Spent> {
        while self.seen.len() <= levels.len() {
            self.seen.push(0)?;
        }
        let stamp = self.now.saturating_add(1);
        let mut glue = 0u32;
        for code in codes {
            let Some(place) = trail.places.get(*code as usize / 2).copied() else {
                continue;
            };
            let level = match levels.binary_search(&place) {
                Ok(found) => found + 1,
                Err(after) => after,
            };
            if level < self.seen.len() && self.seen[level] != stamp {
                self.seen[level] = stamp;
                glue = glue.saturating_add(1);
                if glue > LOW_GLUE {
                    break;
                }
            }
        }
        Ok(glue)
    }

    /// Where a span is over, takes the learned clauses that were idle in it out of the watch lists.
    pub fn thin(&mut self, cnf: &Cnf, watches: &mut Watches) {
        if self.now.saturating_sub(self.thinned) < self.span {
            return;
        }
        let thinned = self.thinned;
        let uses = self.uses.as_slice();
        watches.retain_learned(cnf, |number| match uses.get(number) {
            Some(entry) => entry.last >= thinned || entry.glue <= LOW_GLUE,
            None => false,
        });
        self.thinned = self.now;
        self.span = self.span.saturating_add(1);
    }

    /// Whether some learned clauses are to be let go.
    pub fn is_full(&self) -> bool {
        self.uses.len() >= self.limit
    }

    /// Takes the uses of all clauses out, with the time since when a clause must have been used to stay.
    pub fn take(&mut self, alloc: Global) -> Result<(Vec<Use>, u64), Spent> {
        let uses = std::mem::replace(&mut self.uses, Vec::new(alloc));
        let mut times = Vec::new(alloc);
        for entry in &uses {
            times.push(entry.last)?;
        }
        times.sort()?;
        let since = times.get(times.len() / 2).copied().unwrap_or(0);
        self.limit = self.limit.saturating_add(MORE);
        Ok((uses, since))
    }

    /// Enters a clause again that stays.
    pub fn keep(&mut self, entry: Use) -> Result<(), Spent> {
        self.uses.push(entry)?;
        Ok(())
    }
}

impl Use {
    /// Whether a clause stays: it is of low glue, or was used since.
    pub fn stays(&self, since: u64) -> bool {
        self.glue <= LOW_GLUE || self.last > since
    }
}
