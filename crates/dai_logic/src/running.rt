//! Running statements, one after another, in a structure that changes.
ghost use Rattle.std.specs.Prelude.{◌≡◌, true, false, Some, None, IsSome};
ghost use Rattle.dai_model.specs.Protocol.{Block};
ghost use Rattle.dai_model.specs.Execution.{after_statement, after_statements};
ghost use Rattle.dai_logic.specs.Trees.{statement_of, statements_of};
ghost use Rattle.dai_logic.specs.Protocols.{protocol_of, block_named};
ghost use Rattle.dai_logic.specs.Environments.{environment_of};
ghost use Rattle.dai_logic.specs.Tables.{structure_of, tables_of, bits_of, Fits, IsRunnable, IsRunnableStatement, AreAsLong};

use crate::environment::Env;
use crate::protocol::{Protocol, Step};
use crate::structure::{BlockId, Structure};
use crate::updates::{update_table, update_value};
use crate::values::eval;

/// The statements of the block.
pub(crate) fn code_of(protocol: &Protocol, block: BlockId) -> &[Step]
    requires { IsSome (block_named (protocol_of protocol.now) block) }
    ensures { (called : Block) → block_named (protocol_of protocol.now) block ≡ Some called → statements_of result.now ≡ called.code }
{
    match block {
        BlockId::Init => &protocol.init.code,
        BlockId::Act(action) => &protocol.actions[action as usize].block.code,
    }
}

/// Runs the statements in order, each on what the one before it left. False where a requirement is false; the
/// structure then fits, and is of no matter. `spare` has a table as long as each of the structure's.
#[cycle(run)]
pub(crate) fn run(
    protocol: &Protocol,
    steps: &[Step],
    s: &mut Structure,
    spare: &mut Vec<Vec<bool>>,
    env: &mut Env,
) -> bool
    requires fits { Fits (protocol_of protocol.now) s.old }
    requires spare { AreAsLong (bits_of spare.old) (tables_of s.old) }
    requires code { IsRunnable (protocol_of protocol.now) s.old.sizes.items (environment_of env.old) (statements_of steps.now) }
    ensures passed { result ≡ true → after_statements (protocol_of protocol.now) (environment_of env.old) (statements_of steps.now) (structure_of (protocol_of protocol.now) s.old) ≡ Some (structure_of (protocol_of protocol.now) s.new) }
    ensures barred { result ≡ false → after_statements (protocol_of protocol.now) (environment_of env.old) (statements_of steps.now) (structure_of (protocol_of protocol.now) s.old) ≡ None }
    ensures fits { Fits (protocol_of protocol.now) s.new }
    ensures sizes { s.new.sizes.items ≡ s.old.sizes.items }
    ensures spare { AreAsLong (bits_of spare.new) (tables_of s.new) }
    ensures unchanged { env.new ≡ env.old }
{
    for step in steps {
        if !run_step(protocol, step, s, spare, env) {
            return false;
        }
    }
    true
}

#[cycle(run)]
fn run_step(
    protocol: &Protocol,
    step: &Step,
    s: &mut Structure,
    spare: &mut Vec<Vec<bool>>,
    env: &mut Env,
) -> bool
    requires fits { Fits (protocol_of protocol.now) s.old }
    requires spare { AreAsLong (bits_of spare.old) (tables_of s.old) }
    requires code { IsRunnableStatement (protocol_of protocol.now) s.old.sizes.items (environment_of env.old) (statement_of step.now) }
    ensures passed { result ≡ true → after_statement (protocol_of protocol.now) (environment_of env.old) (statement_of step.now) (structure_of (protocol_of protocol.now) s.old) ≡ Some (structure_of (protocol_of protocol.now) s.new) }
    ensures barred { result ≡ false → after_statement (protocol_of protocol.now) (environment_of env.old) (statement_of step.now) (structure_of (protocol_of protocol.now) s.old) ≡ None }
    ensures fits { Fits (protocol_of protocol.now) s.new }
    ensures sizes { s.new.sizes.items ≡ s.old.sizes.items }
    ensures spare { AreAsLong (bits_of spare.new) (tables_of s.new) }
    ensures unchanged { env.new ≡ env.old }
{
    match step {
        Step::Require { body } => eval(protocol, body, s, env),
        Step::SetTable { rel, args, body } => {
            update_table(protocol, *rel, args, body, s, spare, env);
            true
        }
        Step::SetValue { ind, to } => {
            update_value(protocol, *ind, *to, s, env);
            true
        }
        Step::Cond { cond, yes, no } => {
            if eval(protocol, cond, s, env) {
                run(protocol, yes, s, spare, env)
            } else {
                run(protocol, no, s, spare, env)
            }
        }
    }
}
