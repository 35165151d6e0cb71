ghost use Rattle.std.specs.Prelude.{◌≡◌, ◌++◌, IfOk, OnOk, string_bytes};
ghost use Rattle.dai_dimacs.specs.Reports.{IsReportOf, answer_lines, count_line, status_of, value_word, value_words};

use dai_base::Spent;
use dai_sat::{Answer, Solved};
use std::alloc::Global;

/// What the program prints on a formula, and the status that it ends with.
#[derive(Drop)]
pub struct Report {
    pub text: String,
    pub status: u8,
}

/// Appends the word of a variable's value.
pub fn push_value(text: &mut String, number: usize, bit: bool) -> Result<(), Spent>
    ensures { OnOk result (string_bytes text.new ≡ string_bytes text.old ++ value_word number bit) }
{
    if bit {
        write!(text, " {number}")?;
    } else {
        write!(text, " -{number}")?;
    }
    Ok(())
}

/// Appends the words of the values of all variables.
pub fn push_values(text: &mut String, bits: &[bool]) -> Result<(), Spent>
    ensures { OnOk result (string_bytes text.new ≡ string_bytes text.old ++ value_words 1 bits.now) }
{
    for (var, bit) in bits.iter().enumerate() {
        push_value(text, var + 1, *bit)?;
    }
    Ok(())
}

/// Appends the lines of an answer.
fn push_answer(text: &mut String, answer: &Answer) -> Result<(), Spent>
    ensures { OnOk result (string_bytes text.new ≡ string_bytes text.old ++ answer_lines answer.now) }
{
    match answer {
        Answer::Unsat => {
            text.push_str("s UNSATISFIABLE\n")?;
            Ok(())
        }
        Answer::Model(bits) => {
            text.push_str("s SATISFIABLE\nv")?;
            push_values(text, bits.as_slice())?;
            text.push_str(" 0\n")?;
            Ok(())
        }
    }
}

/// The text of an answer, behind a comment with the count.
fn text_of(alloc: Global, count: u64, answer: &Answer) -> Result<String, Spent>
    ensures { IfOk result (λ text. string_bytes text ≡ count_line count ++ answer_lines answer.now) }
{
    let mut text = format!(in alloc; "c propagations {count}\n")?;
    push_answer(&mut text, answer)?;
    Ok(text)
}

/// The status of an answer: 10 where there is a model, and 20 where there is none.
fn status_code(answer: &Answer) -> u8
    ensures { result ≡ status_of answer.now }
{
    match answer {
        Answer::Model(_) => 10,
        Answer::Unsat => 20,
    }
}

/// The report of an answer.
pub fn report_of(alloc: Global, solved: &Solved) -> Result<Report, Spent>
    ensures { IfOk result (IsReportOf solved.now.answer) }
{
    Ok(Report {
        text: text_of(alloc, solved.propagations, &solved.answer)?,
        status: status_code(&solved.answer),
    })
}
