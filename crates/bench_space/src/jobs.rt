//! What the program is asked to do.
ghost use Rattle.std.specs.Prelude.{◌≡◌, ◌≤◌, ◌<◌, true, length, vec_len, IfOk, IfSome};
ghost use Rattle.std.specs.List.{All};
ghost use Rattle.dai_logic.specs.Protocols.{protocol_of};
ghost use Rattle.bench_space.specs.Trials.{HasBounds, IsAskedOfEach, AreAskedOfEach};

use crate::reads::{Reads, bits, reads_of, starts};
use crate::states::random_states;
use dai_base::Spent;
use dai_logic::{Protocol, Structure};
use dai_template::{Clause, Space, SpaceError};
use std::alloc::Global;

/// A job of the program's words.
#[derive(Clone, Copy)]
pub enum Job {
    Space,
    All,
    Meets,
    Reads,
}

/// A job on the space with at most so many literals in a clause, to be done so many times.
#[derive(Clone, Copy)]
pub struct Trial {
    pub literals: u8,
    pub job: Job,
    pub times: u32,
}

/// The most variables of each type.
const VARIABLES: u8 = 4;

/// About how many clauses are asked about, and how many structures are asked each time.
const CLAUSES: usize = 1000;

const STATES: usize = 1000;

/// What the job counts, or `None` where there is no such space, or no loop of reads for it.
pub fn done(alloc: Global, protocol: &Protocol, trial: Trial) -> Result<Option<u64>, Spent> {
    if trial.literals > 8 {
        return Ok(None);
    }
    match trial.job {
        Job::Space => shapes(alloc, protocol, trial),
        Job::All => clauses(alloc, protocol, trial),
        Job::Meets => meets(alloc, protocol, trial),
        Job::Reads => reads_alone(alloc, protocol, trial),
    }
}

/// The space of the protocol, if there is one.
fn space_of(alloc: Global, protocol: &Protocol, literals: u8) -> Result<Option<Space>, Spent>
    requires { literals ≤ 8 }
    ensures { IfOk result (λ r. IfSome r (HasBounds (protocol_of protocol.now))) }
{
    let vars = vec![in alloc; VARIABLES; protocol.sorts.len()]?;
    match Space::new(alloc, protocol, &vars, literals) {
        Ok(space) => Ok(Some(space)),
        Err(SpaceError::Spent) => Err(Spent),
        Err(_) => Ok(None),
    }
}

/// How many shapes there are, each time counted.
fn shapes(alloc: Global, protocol: &Protocol, trial: Trial) -> Result<Option<u64>, Spent>
    requires { trial.literals ≤ 8 }
{
    let mut count = 0u64;
    for _ in 0..trial.times {
        match space_of(alloc, protocol, trial.literals)? {
            Some(space) => count = count.saturating_add(space.shapes.len() as u64),
            None => return Ok(None),
        }
    }
    Ok(Some(count))
}

/// How many canonical clauses there are, each time counted.
fn clauses(alloc: Global, protocol: &Protocol, trial: Trial) -> Result<Option<u64>, Spent>
    requires { trial.literals ≤ 8 }
{
    let mut count = 0u64;
    for _ in 0..trial.times {
        match space_of(alloc, protocol, trial.literals)? {
            Some(space) => {
                let clauses = space.all(alloc)?;
                count = count.saturating_add(clauses.len() as u64);
            }
            None => return Ok(None),
        }
    }
    Ok(Some(count))
}

/// Whether there are no individuals and no ordered types.
fn is_plain(protocol: &Protocol) -> bool
    ensures { result ≡ true → vec_len protocol.now.individuals ≡ 0 }
{
    protocol.individuals.is_empty() && !protocol.sorts.iter().any(|sort| sort.ordered)
}

/// How many of the structures meet the clause.
fn asked(space: &Space, clause: &Clause, states: &[Structure]) -> u64
    requires { IsAskedOfEach space.now clause.now states.now }
{
    let mut count = 0u64;
    for s in states {
        if space.meets(s, clause) {
            count = count.saturating_add(1);
        }
    }
    count
}

/// The same over each clause that stands so many places behind the one before it.
fn asked_each(space: &Space, clauses: &[Clause], step: usize, states: &[Structure]) -> u64
    requires clauses { AreAskedOfEach space.now clauses.now states.now }
    requires step { 0 < step }
{
    let mut count = 0u64;
    let mut left = 0;
    for clause in clauses {
        if left == 0 {
            count = count.saturating_add(asked(space, clause, states));
            left = step;
        }
        left -= 1;
    }
    count
}

/// How often a random structure meets a clause. Each time there are other structures.
fn meets(alloc: Global, protocol: &Protocol, trial: Trial) -> Result<Option<u64>, Spent>
    requires { trial.literals ≤ 8 }
{
    if !is_plain(protocol) {
        return Ok(None);
    }
    let Some(space) = space_of(alloc, protocol, trial.literals)? else {
        return Ok(None);
    };
    let clauses = space.all(alloc)?;
    let states = random_states(alloc, protocol, STATES * trial.times as usize)?;
    let step = clauses.len() / CLAUSES + 1;
    Ok(Some(asked_each(&space, &clauses, step, &states)))
}

/// The reads of each clause that stands so many places behind the one before it, or `None` where some literal is no
/// relation's.
fn reads_each(
    alloc: Global,
    space: &Space,
    clauses: &[Clause],
    step: usize,
    starts: &[usize],
) -> Result<Option<Vec<Reads>>, Spent>
    requires { 0 < step }
{
    let mut each = Vec::new(alloc);
    let mut left = 0;
    for clause in clauses {
        if left == 0 {
            let Some(shape) = space.shapes.get(clause.shape as usize) else {
                return Ok(None);
            };
            match reads_of(alloc, shape, clause.lits.as_slice(), starts)? {
                Some(reads) => each.push(reads)?,
                None => return Ok(None),
            }
            left = step;
        }
        left -= 1;
    }
    Ok(Some(each))
}

/// How often some bits meet some reads.
fn met(asked: &[Reads], tables: &[Vec<bool>]) -> u64 {
    let mut count = 0u64;
    for reads in asked {
        for bits in tables {
            if reads.are_met(bits) {
                count = count.saturating_add(1);
            }
        }
    }
    count
}

/// The same as `meets`, by no more than reading bits.
fn reads_alone(alloc: Global, protocol: &Protocol, trial: Trial) -> Result<Option<u64>, Spent>
    requires { trial.literals ≤ 8 }
{
    if !is_plain(protocol) {
        return Ok(None);
    }
    let Some(space) = space_of(alloc, protocol, trial.literals)? else {
        return Ok(None);
    };
    let clauses = space.all(alloc)?;
    let starts = starts(alloc, protocol)?;
    let step = clauses.len() / CLAUSES + 1;
    let Some(asked) = reads_each(alloc, &space, &clauses, step, &starts)? else {
        return Ok(None);
    };
    let mut tables = Vec::new(alloc);
    for s in &random_states(alloc, protocol, STATES * trial.times as usize)? {
        tables.push(bits(alloc, s)?)?;
    }
    Ok(Some(met(&asked, &tables)))
}
