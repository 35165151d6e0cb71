//! What is said of an outcome.
ghost use Rattle.std.specs.Prelude.{◌≡◌, ◌+◌, ◌++◌, ◌<◌, ◌^◌, IfOk, OnOk, string_bytes};
ghost use Rattle.std.specs.List.{All};
ghost use Rattle.dai_dimacs.specs.Talks.{lit_words, outcome_lines, AreNamable};

use crate::report::{push_value, push_values};
use dai_base::Spent;
use dai_sat::{Lit, Outcome};

/// Appends the words of literals.
fn push_lits(text: &mut String, lits: &[Lit]) -> Result<(), Spent>
    requires { All (λ l. l.var + 1 < 2 ^ 64) lits.now }
    ensures { OnOk result (string_bytes text.new ≡ string_bytes text.old ++ lit_words lits.now) }
{
    for lit in lits {
        push_value(text, lit.var + 1, lit.positive)?;
    }
    Ok(())
}

/// Appends the lines of an outcome.
pub fn push_outcome(text: &mut String, outcome: &Outcome) -> Result<(), Spent>
    requires { AreNamable outcome.now }
    ensures { OnOk result (string_bytes text.new ≡ string_bytes text.old ++ outcome_lines outcome.now) }
{
    match outcome {
        Outcome::Model(bits) => {
            text.push_str("s SATISFIABLE\nv")?;
            push_values(text, bits.as_slice())?;
            text.push_str(" 0\n")?;
            Ok(())
        }
        Outcome::Unsat(names) => {
            text.push_str("s UNSATISFIABLE\nf")?;
            push_lits(text, names.as_slice())?;
            text.push_str(" 0\n")?;
            Ok(())
        }
    }
}
