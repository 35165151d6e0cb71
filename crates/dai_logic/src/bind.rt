//! Making an environment.
ghost use Rattle.std.specs.Prelude.{◌≡◌, IfOk};
ghost use Rattle.dai_model.specs.Value.{environment_of as block_environment};
ghost use Rattle.dai_logic.specs.Environments.{environment_of};

use crate::environment::Env;
use dai_base::Spent;
use std::alloc::Global;

/// An environment for a block with these arguments and choices, in which each variable is 0.
pub fn env(alloc: Global, args: &[u16], choices: &[u16]) -> Result<Env, Spent>
    ensures { IfOk result (λ e. environment_of e ≡ block_environment args.now choices.now) }
{
    Env::new(alloc, args, choices)
}
