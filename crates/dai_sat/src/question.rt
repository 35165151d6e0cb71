ghost use Rattle.std.specs.Prelude.{◌≡◌, ◌<◌, ◌≤◌, ℕ, map, length, IsTrue, IfOk, OnOk, MatchOption};
ghost use Rattle.dai_trail.specs.Formula.{IsBelow, IsContradiction};
ghost use Rattle.dai_trail.specs.Codes.{code_of as literal_code};
ghost use Rattle.dai_trail.specs.Trail.{IsTrail, IsSound, IsOpenIn, CutsTo, value_in};
ghost use Rattle.dai_trail.specs.Marks.{AreStamps};
ghost use Rattle.dai_sat.specs.Under.{IsUnder, IsPast, IsReady, IsChoiceOf, IsFoundFor, IsOutcomeOf, AreAskedOf};

use crate::answer::Outcome;
use crate::assumptions::Asked;
use crate::desk::Desk;
use crate::entry::prepare;
use crate::failed::failed;
use crate::model::full_model;
use crate::order::Order;
use crate::pace::{Pace, let_go, rest};
use crate::step::{Move, advance, decide, turn};
use dai_base::Spent;
use dai_trail::cnf::{Cnf, Lit};
use dai_trail::codes::{MOST_VARS, code_of, encode};
use dai_trail::lists::Lists;
use dai_trail::trail::Trail;
use std::alloc::Global;

/// A free variable and a value for it: the most active one where the order has one, with the value that it had
/// last, and else the first, as false.
fn open_var(order: &mut Order, trail: &mut Trail) -> Option<(usize, bool)>
    requires { IsTrail trail.old }
    ensures trail { IsTrail trail.new }
    ensures same { CutsTo trail.old trail.new trail.old.len }
    ensures answer { MatchOption result ((u : ℕ) → u < length trail.old.values.items → value_in trail.new u < 2) (λ choice. IsOpenIn trail.new choice.0) }
{
    match order.next(trail) {
        Some(choice) => Some(choice),
        None => match trail.first_free() {
            Some(var) => Some((var, false)),
            None => None,
        },
    }
}

/// What a search came to.
#[derive(Drop)]
enum Found {
    /// All variables have a value, and each clause and assumption is met.
    Model(Vec<bool>),
    /// These of the assumptions fail.
    Failed(Vec<Lit>),
    /// The formula has no model.
    Unsat,
}

/// Decides a free variable where all assumptions are true, or finds a model.
fn choose_var(
    alloc: Global,
    cnf: &Cnf,
    learned: &Lists<u32>,
    desk: &mut Desk,
    trail: &mut Trail,
    asked: &Asked,
) -> Result<Option<Found>, Spent>
    requires sound { IsSound cnf.now learned.now trail.old }
    requires past { IsPast asked.now.codes.items asked.now.floor trail.old }
    requires room { length trail.old.values.items ≡ cnf.now.vars }
    requires below { AreAskedOf cnf.now asked.now.codes.items }
    requires most { cnf.now.vars ≤ MOST_VARS }
    ensures sound { OnOk result (IsSound cnf.now learned.now trail.new) }
    ensures marks { desk.new.marks ≡ desk.old.marks }
    ensures room { OnOk result (length trail.new.values.items ≡ length trail.old.values.items) }
    ensures answer { IfOk result (IsChoiceOf cnf.now asked.now.codes.items asked.now.floor trail.old trail.new) }
{
    if let Some((var, phase)) = open_var(&mut desk.order, trail) {
        decide(cnf, learned, &mut desk.levels, trail, code_of(var, phase))?;
        return Ok(None);
    }
    if let Some(bits) = full_model(alloc, cnf, learned, trail)? {
        return Ok(Some(Found::Model(bits)));
    }
    if turn(cnf, learned, desk, trail)? {
        Ok(None)
    } else {
        Ok(Some(Found::Unsat))
    }
}

/// Decides the next assumption, or a free variable, or finds an answer.
fn choose(
    alloc: Global,
    cnf: &Cnf,
    learned: &Lists<u32>,
    desk: &mut Desk,
    trail: &mut Trail,
    asked: &mut Asked,
) -> Result<Option<Found>, Spent>
    requires sound { IsSound cnf.now learned.now trail.old }
    requires stamps { AreStamps desk.old.marks (length trail.old.values.items) }
    requires under { IsUnder asked.old.codes.items asked.old.floor trail.old }
    requires room { length trail.old.values.items ≡ cnf.now.vars }
    requires below { AreAskedOf cnf.now asked.old.codes.items }
    requires most { cnf.now.vars ≤ MOST_VARS }
    ensures sound { OnOk result (IsSound cnf.now learned.now trail.new) }
    ensures stamps { OnOk result (AreStamps desk.new.marks (length trail.old.values.items)) }
    ensures room { OnOk result (length trail.new.values.items ≡ length trail.old.values.items) }
    ensures codes { asked.new.codes.items ≡ asked.old.codes.items }
    ensures answer { IfOk result (IsChoiceOf cnf.now asked.old.codes.items asked.new.floor trail.old trail.new) }
{
    let Some(number) = asked.next(trail) else {
        return choose_var(alloc, cnf, learned, desk, trail, asked);
    };
    let code = asked.codes[number];
    if trail.is_free(code) {
        decide(cnf, learned, &mut desk.levels, trail, code)?;
        return Ok(None);
    }
    let names = failed(
        alloc,
        cnf,
        learned,
        trail,
        &mut desk.marks,
        &mut desk.uses,
        asked.codes.as_slice(),
        number,
    )?;
    Ok(Some(Found::Failed(names)))
}

/// Searches for an answer.
fn search(
    alloc: Global,
    cnf: &Cnf,
    learned: &mut Lists<u32>,
    desk: &mut Desk,
    trail: &mut Trail,
    asked: &mut Asked,
) -> Result<Found, Spent>
    requires sound { IsSound cnf.now learned.old trail.old }
    requires stamps { AreStamps desk.old.marks (length trail.old.values.items) }
    requires under { IsUnder asked.old.codes.items asked.old.floor trail.old }
    requires room { length trail.old.values.items ≡ cnf.now.vars }
    requires below { AreAskedOf cnf.now asked.old.codes.items }
    requires most { cnf.now.vars ≤ MOST_VARS }
    ensures sound { OnOk result (IsSound cnf.now learned.new trail.new) }
    ensures stamps { OnOk result (AreStamps desk.new.marks (length trail.old.values.items)) }
    ensures room { OnOk result (length trail.new.values.items ≡ length trail.old.values.items) }
    ensures codes { asked.new.codes.items ≡ asked.old.codes.items }
    ensures answer { IfOk result (IsFoundFor cnf.now asked.old.codes.items) }
{
    let mut pace = Pace::new();
    loop {
        match advance(alloc, cnf, learned, desk, trail)? {
            Move::Again => rest(alloc, cnf, learned, desk, trail, &mut pace)?,
            Move::Unsat => return Ok(Found::Unsat),
            Move::Quiet => {
                if let Some(found) = choose(alloc, cnf, learned, desk, trail, asked)? {
                    return Ok(found);
                }
            }
        }
    }
}

/// The right answer of a search, as the outcome of a question.
fn outcome_of(
    alloc: Global,
    cnf: &Cnf,
    found: Found,
    refuted: &mut bool,
    assumptions: &[Lit],
    asked: &Asked,
) -> Outcome
    requires codes { asked.now.codes.items ≡ map literal_code assumptions.now }
    requires found { IsFoundFor cnf.now asked.now.codes.items found }
    requires none { IsTrue refuted.old → IsContradiction cnf.now }
    ensures none { IsTrue refuted.new → IsContradiction cnf.now }
    ensures outcome { IsOutcomeOf cnf.now assumptions.now result }
{
    match found {
        Found::Model(bits) => Outcome::Model(bits),
        Found::Failed(names) => Outcome::Unsat(names),
        Found::Unsat => {
            *refuted = true;
            Outcome::Unsat(Vec::new(alloc))
        }
    }
}

/// Answers a question: see `Solver::solve_under`.
pub(crate) fn answer_under(
    alloc: Global,
    cnf: &Cnf,
    learned: &mut Lists<u32>,
    desk: &mut Desk,
    trail: &mut Trail,
    refuted: &mut bool,
    assumptions: &[Lit],
) -> Result<Outcome, Spent>
    requires ready { IsReady cnf.now learned.old trail.old desk.old.marks refuted.old }
    requires below { IsBelow cnf.now.vars assumptions.now }
    ensures ready { OnOk result (IsReady cnf.now learned.new trail.new desk.new.marks refuted.new) }
    ensures outcome { IfOk result (IsOutcomeOf cnf.now assumptions.now) }
{
    if *refuted {
        return Ok(Outcome::Unsat(Vec::new(alloc)));
    }
    if cnf.vars() > MOST_VARS {
        return Err(Spent);
    }
    desk.order.fit(cnf.vars())?;
    if prepare(alloc, cnf, learned, desk, trail)? {
        *refuted = true;
        return Ok(Outcome::Unsat(Vec::new(alloc)));
    }
    let_go(alloc, cnf, learned, desk, trail)?;
    let mut codes = Vec::new(alloc);
    encode(assumptions, &mut codes)?;
    let mut asked = Asked {
        codes,
        floor: 0,
        from: 0,
    };
    let found = search(alloc, cnf, learned, desk, trail, &mut asked)?;
    Ok(outcome_of(alloc, cnf, found, refuted, assumptions, &asked))
}
