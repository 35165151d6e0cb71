//! Reading a file of the DIMACS form.
ghost use Rattle.std.specs.Prelude.{◌≡◌, ◌+◌, ◌++◌, ◌∷◌, [], ℕ, List, length, IfOk, IfSome, MatchOption};
ghost use Rattle.dai_trail.specs.Formula.{IsBelow};
ghost use Rattle.dai_dimacs.specs.Pieces.{lines};
ghost use Rattle.dai_dimacs.specs.Files.{is_content as has_content, IsHeader, IsTextOf, IsNoText, Begins, IsReadingOf};
ghost use Rattle.dai_dimacs.specs.Drafts.{AreRead, TakesLine};

use crate::draft::Draft;
use crate::pieces::{first_line, first_word};
use crate::tokens::number;
use dai_base::Spent;
use dai_sat::Cnf;
use std::alloc::Global;

/// A file that was read, or the number of the line that is wrong.
#[derive(Drop)]
pub enum Reading {
    Formula(Cnf),
    Malformed(usize),
}

/// Whether the line is neither a comment nor blank.
#[tactic(auto, unfolding(crate::specs::Files::is_content))]
pub fn is_content(line: &[u8]) -> bool
    ensures { result ≡ has_content line.now }
{
    line.first() != Some(&b'c') && first_word(line).is_some()
}

/// The number of variables and of clauses, where the line is a header.
pub fn header(line: &[u8]) -> Option<(usize, usize)>
    ensures { MatchOption result ((vars : ℕ) (count : ℕ) → IsHeader line.now vars count → ⊥) (λ h. IsHeader line.now h.0 h.1) }
{
    let (first, rest) = first_word(line)?;
    let (second, rest) = first_word(rest)?;
    let (vars, rest) = first_word(rest)?;
    let (count, rest) = first_word(rest)?;
    if first != b"p".as_slice() || second != b"cnf".as_slice() || first_word(rest).is_some() {
        return None;
    }
    let vars = number(vars)?;
    let count = number(count)?;
    Some((vars, count))
}

/// Takes one more line. The answer is false where it can't stand there.
fn take_line(alloc: Global, draft: &mut Option<Draft>, line: &[u8]) -> Result<bool, Spent>
    requires { IfSome draft.old (λ d. IsBelow d.cnf.vars d.clause.items) }
    ensures takes { IfOk result (TakesLine line.now draft.old draft.new) }
    ensures below { IfOk result (λ _. IfSome draft.new (λ d. IsBelow d.cnf.vars d.clause.items)) }
{
    if !is_content(line) {
        return Ok(true);
    }
    match draft {
        Some(known) => known.take_line(line),
        None => match header(line) {
            None => Ok(false),
            Some((vars, missing)) => {
                *draft = Some(Draft {
                    cnf: Cnf::new(alloc, vars),
                    missing,
                    clause: Vec::new(alloc),
                });
                Ok(true)
            }
        },
    }
}

/// The formula, where no clause is missing.
fn finish(draft: Option<Draft>) -> Option<Cnf>
    ensures { (text : List (List ℕ)) → AreRead text draft → MatchOption result (IsNoText text) (λ formula. IsTextOf formula text) }
{
    let draft = draft?;
    match draft.missing {
        0 => Some(draft.cnf),
        _ => None,
    }
}

/// What a file comes to whose last line has this number.
fn ending(draft: Option<Draft>, count: usize) -> Reading
    ensures { (front : List (List ℕ)) (line : List ℕ) → count ≡ length front + 1 → Begins front → AreRead (front ++ line ∷ []) draft → IsReadingOf (front ++ line ∷ []) result }
{
    match finish(draft) {
        Some(cnf) => Reading::Formula(cnf),
        None => Reading::Malformed(count),
    }
}

/// Reads a file of the DIMACS form: comments, the header `p cnf V C`, and then C clauses of literals, each ended
/// by 0, over any lines. A line that begins with `c` is a comment wherever it stands.
///
/// `Malformed` comes exactly where the bytes are no such file, with the number of the first line with which none
/// begins, or of the last line where the file ends too early; lines are counted from 1.
///
/// # Errors
/// `Spent` where memory is wanting, and where `Cnf::add` says so.
pub fn read(alloc: Global, bytes: &[u8]) -> Result<Reading, Spent>
    ensures { IfOk result (IsReadingOf (lines bytes.now)) }
{
    let mut draft = None;
    let mut text = bytes;
    let mut count = 0;
    loop {
        let (line, after) = first_line(text);
        count += 1;
        if !take_line(alloc, &mut draft, line)? {
            return Ok(Reading::Malformed(count));
        }
        let Some(rest) = after else {
            return Ok(ending(draft, count));
        };
        text = rest;
    }
}
