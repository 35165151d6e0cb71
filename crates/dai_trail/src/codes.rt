ghost use Rattle.std.specs.Prelude.{◌≡◌, ◌+◌, ◌*◌, ◌/◌, ◌%◌, ◌<◌, map, OnOk};
ghost use Rattle.dai_trail.specs.Codes.{digit, code_of as literal_code, lit_of as coded_literal};

use crate::cnf::Lit;
use dai_base::Spent;

/// The variables that the solver's tables have room for: a literal takes 32 bits.
pub const MOST_VARS: usize = 0x7fff_ffff;

/// The literal as one number: twice its variable, and 1 more where it is positive.
pub fn code_of(var: usize, positive: bool) -> u32
    requires { var < MOST_VARS }
    ensures { result ≡ 2 * var + digit positive }
{
    let code = var as u32 * 2;
    if positive { code + 1 } else { code }
}

/// The literal that a number stands for.
pub fn lit_of(code: u32) -> Lit
    ensures { result ≡ coded_literal code }
{
    Lit {
        var: code as usize / 2,
        positive: code % 2 == 1,
    }
}

/// The literal of the same variable with the other sign.
pub fn negation(code: u32) -> u32
    ensures variable { result / 2 ≡ code / 2 }
    ensures sign { result % 2 + code % 2 ≡ 1 }
{
    if code % 2 == 0 { code + 1 } else { code - 1 }
}

/// Writes literals as numbers.
pub fn encode(lits: &[Lit], codes: &mut Vec<u32>) -> Result<(), Spent>
    ensures { OnOk result (codes.new.items ≡ map literal_code lits.now) }
{
    codes.clear();
    for lit in lits {
        if lit.var >= MOST_VARS {
            return Err(Spent);
        }
        codes.push(code_of(lit.var, lit.positive))?;
    }
    Ok(())
}
