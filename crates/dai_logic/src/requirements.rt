//! Requirements: those that a block begins with, and whether one stands anywhere in it.
ghost use Rattle.std.specs.Prelude.{◌≡◌, ◌<◌, nat_lt, length, None, MatchOption};
ghost use Rattle.dai_model.specs.Execution.{after_statements};
ghost use Rattle.dai_model.specs.Profile.{requirements_of, requirements_in};
ghost use Rattle.dai_logic.specs.Trees.{statement_of, statements_of};
ghost use Rattle.dai_logic.specs.Protocols.{protocol_of};
ghost use Rattle.dai_logic.specs.Environments.{environment_of};
ghost use Rattle.dai_logic.specs.Tables.{structure_of, Fits, IsRunnable};
ghost use Rattle.dai_logic.specs.Execution.{IsPassed};

use crate::environment::Env;
use crate::protocol::{Protocol, Step};
use crate::structure::Structure;
use crate::values::eval;

/// How many requirements the code begins with. None where one of them is false.
pub(crate) fn passed(
    protocol: &Protocol,
    code: &[Step],
    s: &Structure,
    env: &mut Env,
) -> Option<usize>
    requires fits { Fits (protocol_of protocol.now) s.now }
    requires code { IsRunnable (protocol_of protocol.now) s.now.sizes.items (environment_of env.old) (statements_of code.now) }
    ensures passed { MatchOption result (after_statements (protocol_of protocol.now) (environment_of env.old) (statements_of code.now) (structure_of (protocol_of protocol.now) s.now) ≡ None) (IsPassed (protocol_of protocol.now) s.now env.old code.now) }
    ensures unchanged { env.new ≡ env.old }
{
    for (number, step) in code.iter().enumerate() {
        let Step::Require { body } = step else {
            return Some(number);
        };
        if !eval(protocol, body, s, env) {
            return None;
        }
    }
    Some(code.len())
}

/// Whether a requirement stands anywhere in the code.
#[cycle(requirement)]
pub(crate) fn have_requirement(code: &[Step]) -> bool
    ensures { result ≡ nat_lt 0 (length (requirements_in (statements_of code.now))) }
{
    for step in code {
        if has_requirement(step) {
            return true;
        }
    }
    false
}

#[cycle(requirement)]
fn has_requirement(step: &Step) -> bool
    ensures { result ≡ nat_lt 0 (length (requirements_of (statement_of step.now))) }
{
    match step {
        Step::Require { .. } => true,
        Step::SetTable { .. } | Step::SetValue { .. } => false,
        Step::Cond { yes, no, .. } => have_requirement(yes) || have_requirement(no),
    }
}
