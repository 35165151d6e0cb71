//! What a block leaves.
ghost use Rattle.std.specs.Prelude.{◌≡◌, ◌≤◌, Some, None, length, drop, IfOk, if◌then◌else◌};
ghost use Rattle.std.specs.Option.{is_some};
ghost use Rattle.dai_model.specs.Protocol.{Block};
ghost use Rattle.dai_model.specs.Execution.{after_statements, executes};
ghost use Rattle.dai_logic.specs.Trees.{statements_of};
ghost use Rattle.dai_logic.specs.Environments.{environment_of};
ghost use Rattle.dai_logic.specs.Protocols.{protocol_of, block_named};
ghost use Rattle.dai_logic.specs.Tables.{structure_of, Fits, IsRunnable};
ghost use Rattle.dai_logic.specs.Execution.{IsCall, IsEntered, IsLeft, IsRoom, IsStepped};

use crate::bind::env;
use crate::copying::copy_into;
use crate::environment::Env;
use crate::protocol::{Protocol, Step};
use crate::requirements::{have_requirement, passed};
use crate::running::{code_of, run};
use crate::structure::{BlockId, Structure};
use crate::workspace::Workspace;
use dai_base::Spent;
use std::alloc::Global;

/// The structure that the block leaves from `s` with these arguments and choices. `None` comes exactly where
/// a requirement that is executed is false.
pub fn exec(
    alloc: Global,
    protocol: &Protocol,
    block: BlockId,
    s: &Structure,
    args: &[u16],
    choices: &[u16],
) -> Result<Option<Structure>, Spent>
    requires fits { Fits (protocol_of protocol.now) s.now }
    requires call { IsCall (protocol_of protocol.now) block s.now args.now choices.now }
    ensures { IfOk result (IsLeft (protocol_of protocol.now) block s.now args.now choices.now) }
{
    let mut env = env(alloc, args, choices)?;
    let mut work = Workspace::new(alloc, s)?;
    if step(protocol, block, s, &mut env, &mut work) {
        let Workspace { after, spare: _ } = work;
        Ok(Some(after))
    } else {
        Ok(None)
    }
}

/// Executes the block from `s` with the arguments and choices of the environment. True where there is a
/// structure after, which then stands in `work.after`; false exactly where a requirement that is executed is
/// false, and `work.after` is then of no matter. It takes no memory, and copies nothing before the requirements
/// that the block begins with are true.
pub fn step(
    protocol: &Protocol,
    block: BlockId,
    s: &Structure,
    env: &mut Env,
    work: &mut Workspace,
) -> bool
    requires fits { Fits (protocol_of protocol.now) s.now }
    requires call { IsEntered (protocol_of protocol.now) block s.now env.old }
    requires room { IsRoom s.now work.old }
    ensures stepped { IsStepped (protocol_of protocol.now) block s.now env.old work.new.after result }
    ensures room { IsRoom s.now work.new }
    ensures unchanged { env.new ≡ env.old }
{
    let code = code_of(protocol, block);
    match passed(protocol, code, s, env) {
        None => false,
        Some(front) => resume(protocol, behind(code, front), s, env, work),
    }
}

/// Whether the block leaves a structure from `s` with the arguments and choices of the environment. It takes no
/// memory. Nothing is copied where no requirement stands behind those that the block begins with; otherwise the
/// block is executed, and `work.after` is of no matter afterwards.
pub fn is_enabled(
    protocol: &Protocol,
    block: BlockId,
    s: &Structure,
    env: &mut Env,
    work: &mut Workspace,
) -> bool
    requires fits { Fits (protocol_of protocol.now) s.now }
    requires call { IsEntered (protocol_of protocol.now) block s.now env.old }
    requires room { IsRoom s.now work.old }
    ensures enabled { (called : Block) → block_named (protocol_of protocol.now) block ≡ Some called → result ≡ is_some (executes (protocol_of protocol.now) called (structure_of (protocol_of protocol.now) s.now) env.old.arguments env.old.choices) }
    ensures room { IsRoom s.now work.new }
    ensures unchanged { env.new ≡ env.old }
{
    let code = code_of(protocol, block);
    match passed(protocol, code, s, env) {
        None => false,
        Some(front) => {
            let rest = behind(code, front);
            !have_requirement(rest) || resume(protocol, rest, s, env, work)
        }
    }
}

/// The statements behind so many at the front.
fn behind(code: &[Step], front: usize) -> &[Step]
    requires { front ≤ length code.now }
    ensures { result.now ≡ drop front code.now }
{
    &code[front..]
}

/// Executes statements on a copy of the structure. False where a requirement that is executed is false.
fn resume(
    protocol: &Protocol,
    rest: &[Step],
    s: &Structure,
    env: &mut Env,
    work: &mut Workspace,
) -> bool
    requires fits { Fits (protocol_of protocol.now) s.now }
    requires code { IsRunnable (protocol_of protocol.now) s.now.sizes.items (environment_of env.old) (statements_of rest.now) }
    requires room { IsRoom s.now work.old }
    ensures left { after_statements (protocol_of protocol.now) (environment_of env.old) (statements_of rest.now) (structure_of (protocol_of protocol.now) s.now) ≡ (if result then Some (structure_of (protocol_of protocol.now) work.new.after) else None) }
    ensures fits { Fits (protocol_of protocol.now) work.new.after }
    ensures room { IsRoom s.now work.new }
    ensures unchanged { env.new ≡ env.old }
{
    copy_into(s, &mut work.after);
    run(protocol, rest, &mut work.after, &mut work.spare, env)
}
