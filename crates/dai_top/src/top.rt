//! The top call.
ghost use Rattle.std.specs.Prelude.{◌≡◌, ℕ, ◌+◌, ◌≤◌, ◌⊎◌, List, length, Some, None, Ok, Err};
ghost use Rattle.dai_base.specs.Count.{Rises};
ghost use Rattle.dai_base.specs.Files.{Holdings};
ghost use Rattle.dai_words.specs.Refusals.{Refusal};
ghost use Rattle.dai_words.specs.Words.{Choices, settings_of, AreWithinRanges};
ghost use Rattle.dai_words.specs.Readings.{texts, choices_of};
ghost use Rattle.dai_top.specs.Answers.{Answer as Meaning, IsAnswerTo};
ghost use Rattle.dai_top.specs.Outcome.{IsTold, words_line, read_line, TellsRefusal, TellsRefusalOf, IsAnswerFrom, IsAllowed, IsOutcome, TellsUnread};

use crate::answers::answer_to;
use crate::console::{SPENT, put_lines, tell, tell_unreadable};
use crate::stop::Stop;
use dai_base::{Fault, Files, ReadError, Sink};
use dai_front::one_verdict;
use dai_words::{Settings, WordsError, read_words, settings_are_within_ranges};
use std::alloc::Global;

/// The most bytes of a file.
const MOST_BYTES: usize = 1_048_576;

/// Does all that the program does, and answers the status: 0 where the work is done and, for a report, every
/// invariant follows, 1 where some invariant doesn't, 2 where the words, the file or the limits are refused by a
/// number, 3 where the file can't be read, 4 where a put failed, 5 where memory ran out.
///
/// The text goes to `out`, a put for each line, and the line of a fault to `err`.
pub fn distai<F: Files, O: Sink, E: Sink>(
    alloc: Global,
    words: &[String],
    files: &mut F,
    out: &mut O,
    err: &mut E,
) -> u8
    // Words that are refused: no file is read, nothing is put to `out`, and `err` gets the fault's line.
    ensures refused_words { (r : Refusal) → settings_of (texts words.now) ≡ Err r → (files.new ≡ files.old) × (out.new ≡ out.old) × IsTold (words_line r) 2 (E.written err.old) (E.written err.new) (E.faults err.old) (E.faults err.new) result }

    // Words that are accepted and bytes that are held: their answer is put, or the read failed and its line is put.
    ensures answered { (c : Choices) (held : Holdings) (bytes : List ℕ) (x : Meaning) → settings_of (texts words.now) ≡ Ok c → F.held files.old ≡ Some held → held c.operand ≡ Some bytes → IsAnswerTo c bytes x
        → ((x.status ≡ 2) × (out.new ≡ out.old) × IsTold x.err 2 (E.written err.old) (E.written err.new) (E.faults err.old) (E.faults err.new) result)
        ⊎ (((x.status ≤ 1) × (err.new ≡ err.old) × IsTold x.out x.status (O.written out.old) (O.written out.new) (O.faults out.old) (O.faults out.new) result)
        ⊎ (Rises (F.faults files.old) (F.faults files.new) × (out.new ≡ out.old) × IsTold (read_line c.operand) 3 (E.written err.old) (E.written err.new) (E.faults err.old) (E.faults err.new) result)) }

    // Status 2 after words that are accepted is the line of a refusal of the bytes that are held.
    ensures refused { (c : Choices) → settings_of (texts words.now) ≡ Ok c → result ≡ 2 → (out.new ≡ out.old) × TellsRefusal (F.held files.old) c (E.written err.old) (E.written err.new) }

    // A name that isn't held: its line is put.
    ensures unheld { (c : Choices) (held : Holdings) → settings_of (texts words.now) ≡ Ok c → F.held files.old ≡ Some held → held c.operand ≡ None → (out.new ≡ out.old) × IsTold (read_line c.operand) 3 (E.written err.old) (E.written err.new) (E.faults err.old) (E.faults err.new) result }

    // Whatever the faults: each output gets a first part of what is allowed, and one that has no text isn't touched.
    ensures outcome { IsOutcome (IsAllowed (texts words.now) (F.held files.old) (F.faults files.old) (F.faults files.new)) (out.new ≡ out.old) (err.new ≡ err.old) (λ text status. IsTold text status (O.written out.old) (O.written out.new) (O.faults out.old) (O.faults out.new) result) (λ text status. IsTold text status (E.written err.old) (E.written err.new) (E.faults err.old) (E.faults err.new) result) result }

    // Statuses 3 and 4 have their causes.
    ensures unread { result ≡ 3 → (out.new ≡ out.old) × TellsUnread (texts words.now) (F.held files.old) (F.faults files.old) (F.faults files.new) (E.written err.old) (E.written err.new) }
    ensures unput { result ≡ 4 → ((err.new ≡ err.old) × Rises (O.faults out.old) (O.faults out.new)) ⊎ ((out.new ≡ out.old) × Rises (E.faults err.old) (E.faults err.new)) }

    ensures one_read { F.reads files.new ≤ F.reads files.old + 1 }
{
    settings_are_within_ranges();
    one_verdict();
    match read_words(alloc, words) {
        Ok(settings) => run(alloc, &settings, files, out, err),
        Err(WordsError::Bad { number, word }) => tell(
            alloc,
            "",
            &Fault::Words { number, word },
            err,
        ),
        Err(WordsError::Spent) => SPENT,
    }
}

/// Reads the file and answers.
fn run<F: Files, O: Sink, E: Sink>(
    alloc: Global,
    settings: &Settings,
    files: &mut F,
    out: &mut O,
    err: &mut E,
) -> u8
    requires { AreWithinRanges (choices_of settings.now) }
    ensures answered { (held : Holdings) (bytes : List ℕ) (x : Meaning) → F.held files.old ≡ Some held → held (choices_of settings.now).operand ≡ Some bytes → IsAnswerTo (choices_of settings.now) bytes x
        → ((x.status ≡ 2) × (out.new ≡ out.old) × IsTold x.err 2 (E.written err.old) (E.written err.new) (E.faults err.old) (E.faults err.new) result)
        ⊎ (((x.status ≤ 1) × (err.new ≡ err.old) × IsTold x.out x.status (O.written out.old) (O.written out.new) (O.faults out.old) (O.faults out.new) result)
        ⊎ (Rises (F.faults files.old) (F.faults files.new) × (out.new ≡ out.old) × IsTold (read_line (choices_of settings.now).operand) 3 (E.written err.old) (E.written err.new) (E.faults err.old) (E.faults err.new) result)) }
    ensures refused { result ≡ 2 → (out.new ≡ out.old) × TellsRefusal (F.held files.old) (choices_of settings.now) (E.written err.old) (E.written err.new) }
    ensures unheld { (held : Holdings) → F.held files.old ≡ Some held → held (choices_of settings.now).operand ≡ None → (out.new ≡ out.old) × IsTold (read_line (choices_of settings.now).operand) 3 (E.written err.old) (E.written err.new) (E.faults err.old) (E.faults err.new) result }
    ensures outcome { IsOutcome (IsAnswerFrom (choices_of settings.now) (F.held files.old) (F.faults files.old) (F.faults files.new)) (out.new ≡ out.old) (err.new ≡ err.old) (λ text status. IsTold text status (O.written out.old) (O.written out.new) (O.faults out.old) (O.faults out.new) result) (λ text status. IsTold text status (E.written err.old) (E.written err.new) (E.faults err.old) (E.faults err.new) result) result }
    ensures one_read { F.reads files.new ≤ F.reads files.old + 1 }
{
    let name = settings.operand.as_str();
    match files.read_all(name, MOST_BYTES) {
        Ok(bytes) => run_on(alloc, settings, bytes.as_slice(), out, err),
        Err(ReadError::TooLong) => tell(alloc, name, &Fault::TooLong, err),
        Err(ReadError::Missing) => tell_unreadable(alloc, name, err),
        Err(ReadError::Failed) => tell_unreadable(alloc, name, err),
        Err(ReadError::Spent) => SPENT,
    }
}

/// Answers on the bytes of the file.
fn run_on<O: Sink, E: Sink>(
    alloc: Global,
    settings: &Settings,
    bytes: &[u8],
    out: &mut O,
    err: &mut E,
) -> u8
    requires short { length bytes.now ≤ 1048576 }
    requires ranges { AreWithinRanges (choices_of settings.now) }
    ensures answered { (x : Meaning) → IsAnswerTo (choices_of settings.now) bytes.now x
        → ((x.status ≡ 2) × (out.new ≡ out.old) × IsTold x.err 2 (E.written err.old) (E.written err.new) (E.faults err.old) (E.faults err.new) result)
        ⊎ ((x.status ≤ 1) × (err.new ≡ err.old) × IsTold x.out x.status (O.written out.old) (O.written out.new) (O.faults out.old) (O.faults out.new) result) }
    ensures refused { result ≡ 2 → (out.new ≡ out.old) × TellsRefusalOf bytes.now (choices_of settings.now) (E.written err.old) (E.written err.new) }
    ensures outcome { IsOutcome (IsAnswerTo (choices_of settings.now) bytes.now) (out.new ≡ out.old) (err.new ≡ err.old) (λ text status. IsTold text status (O.written out.old) (O.written out.new) (O.faults out.old) (O.faults out.new) result) (λ text status. IsTold text status (E.written err.old) (E.written err.new) (E.faults err.old) (E.faults err.new) result) result }
{
    one_verdict();
    match answer_to(alloc, settings, bytes) {
        Ok(answer) => put_lines(out, answer.out.as_slice(), answer.status),
        Err(Stop::Fault(fault)) => tell(alloc, settings.operand.as_str(), &fault, err),
        Err(Stop::Spent) => SPENT,
    }
}
