//! Questions between the clauses of a file.
ghost use Rattle.std.specs.Prelude.{◌≡◌, ◌+◌, ◌++◌, ◌∷◌, [], ℕ, List, codes, length, IfOk, MatchOption, string_bytes};
ghost use Rattle.dai_dimacs.specs.Pieces.{lines, words};
ghost use Rattle.std.specs.List.{filter};
ghost use Rattle.dai_dimacs.specs.Files.{is_content as has_content};
ghost use Rattle.dai_dimacs.specs.Talks.{IsClauseOf, AreEntries, IsTalkRight};
ghost use Rattle.dai_dimacs.specs.Inquiries.{TakesClause, TakesQuestion, TakesEntry, TakesTalkLine, AreTold};

use crate::outcome::push_outcome;
use crate::pieces::{first_line, first_word, is_blank};
use crate::read::{header, is_content};
use crate::tokens::{Token, token_of};
use dai_base::Spent;
use dai_sat::{Cnf, Lit, Solver};
use std::alloc::Global;

/// The answers to all questions of a file, or the number of the line that is wrong.
#[derive(Drop)]
pub enum Talk {
    Answers(String),
    Malformed(usize),
}

/// The literals of a text that ends by 0.
fn literals(alloc: Global, line: &[u8], vars: usize) -> Result<Option<Vec<Lit>>, Spent>
    ensures { IfOk result (λ found. MatchOption found ((lits : List Lit) → IsClauseOf vars (words line.now) lits → ⊥) (λ lits. IsClauseOf vars (words line.now) lits.items)) }
{
    let mut lits = Vec::new(alloc);
    let mut text = line;
    while let Some((word, rest)) = first_word(text) {
        match token_of(word) {
            None => return Ok(None),
            Some(Token::End) => {
                if !is_blank(rest) {
                    return Ok(None);
                }
                return Ok(Some(lits));
            }
            Some(Token::Literal(lit)) => {
                if lit.var >= vars {
                    return Ok(None);
                }
                lits.push(lit)?;
            }
        }
        text = rest;
    }
    Ok(None)
}

/// Adds the clause of a text. The answer is false where there is none.
fn add_clause(alloc: Global, solver: &mut Solver, text: &[u8]) -> Result<bool, Spent>
    ensures { IfOk result (TakesClause (words text.now) solver.old solver.new) }
{
    let Some(lits) = literals(alloc, text, solver.formula().vars())? else {
        return Ok(false);
    };
    solver.add(lits.as_slice())?;
    Ok(true)
}

/// Answers the question of a text. The answer is false where there is none.
fn answer_question(
    alloc: Global,
    solver: &mut Solver,
    text: &[u8],
    said: &mut String,
) -> Result<bool, Spent>
    ensures { IfOk result (TakesQuestion (words text.now) solver.old solver.new (string_bytes said.old) (string_bytes said.new)) }
{
    let Some(lits) = literals(alloc, text, solver.formula().vars())? else {
        return Ok(false);
    };
    let outcome = solver.solve_under(lits.as_slice())?;
    push_outcome(said, &outcome)?;
    Ok(true)
}

/// The text behind the `a` of a question.
fn question_of(line: &[u8]) -> Option<&[u8]>
    ensures { MatchOption result ((ws : List (List ℕ)) → words line.now ≡ codes "a" ∷ ws → ⊥) (λ rest. words line.now ≡ codes "a" ∷ words rest.now) }
{
    let (word, rest) = first_word(line)?;
    if word == b"a".as_slice() {
        Some(rest)
    } else {
        None
    }
}

/// Adds the clause of a line, or answers its question. The answer is false where it has neither.
fn take_entry(
    alloc: Global,
    solver: &mut Solver,
    line: &[u8],
    said: &mut String,
) -> Result<bool, Spent>
    ensures { IfOk result (TakesEntry line.now solver.old solver.new (string_bytes said.old) (string_bytes said.new)) }
{
    match question_of(line) {
        Some(rest) => answer_question(alloc, solver, rest, said),
        None => add_clause(alloc, solver, line),
    }
}

/// Takes one more line. The answer is false where it can't stand there.
fn take_line(
    alloc: Global,
    solver: &mut Option<Solver>,
    line: &[u8],
    said: &mut String,
) -> Result<bool, Spent>
    ensures { IfOk result (TakesTalkLine line.now solver.old solver.new (string_bytes said.old) (string_bytes said.new)) }
{
    if !is_content(line) {
        return Ok(true);
    }
    match solver {
        Some(known) => take_entry(alloc, known, line, said),
        None => match header(line) {
            None => Ok(false),
            Some((vars, _)) => {
                *solver = Some(Solver::new(alloc, Cnf::new(alloc, vars)));
                Ok(true)
            }
        },
    }
}

/// What a file comes to whose last line has this number.
fn ending(solver: Option<Solver>, said: String, count: usize) -> Talk
    ensures { (front : List (List ℕ)) (line : List ℕ) → count ≡ length front + 1 → AreEntries (filter has_content front) → AreTold (front ++ line ∷ []) solver (string_bytes said) → IsTalkRight (front ++ line ∷ []) result }
{
    match solver {
        Some(_) => Talk::Answers(said),
        None => Talk::Malformed(count),
    }
}

/// Answers the questions of a file of the DIMACS form in which each clause has a line of its own and, between
/// clauses, a line `a L .. 0` asks for a model that meets these literals too. Each answer is right for the clauses
/// before its question. The header's count of clauses is not looked at.
///
/// `Malformed` comes exactly where a line is wrong, with the number of the first that is neither the header, where
/// that is wanted, nor a clause nor a question, or of the last line where there is no header; lines are counted
/// from 1.
///
/// # Errors
/// `Spent` where memory is wanting, and where `Solver` says so.
pub fn answer_all(alloc: Global, bytes: &[u8]) -> Result<Talk, Spent>
    ensures { IfOk result (IsTalkRight (lines bytes.now)) }
{
    let mut said = String::new(alloc);
    let mut solver = None;
    let mut text = bytes;
    let mut count = 0;
    loop {
        let (line, after) = first_line(text);
        count += 1;
        if !take_line(alloc, &mut solver, line, &mut said)? {
            return Ok(Talk::Malformed(count));
        }
        let Some(rest) = after else {
            return Ok(ending(solver, said, count));
        };
        text = rest;
    }
}
