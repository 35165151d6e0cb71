//! What the names in a formula stand for.
ghost use Rattle.std.specs.Prelude.{◌≡◌, ◌<◌, length, slice_index, IfOk, OnOk};
ghost use Rattle.dai_model.specs.Value.{environment_of as block_environment, bind};
ghost use Rattle.dai_logic.specs.Environments.{EnvironmentTables, environment_of, bound};

use dai_base::Spent;
use std::alloc::Global;
use std::marker::Model;

/// How many variables there are: those that a variable's number can name.
const VARIABLES: usize = 256;

/// The values of variables, of a block's parameters and of its locals. There is a place for each variable, so
/// that binding one takes no memory.
#[derive(Drop)]
pub struct Env {
    variables: [u16; VARIABLES],
    arguments: Vec<u16>,
    choices: Vec<u16>,
}

impl Model for Env {
    ghost Value = { EnvironmentTables };

    ghost view = { λ e. record { variables = e.variables; arguments = e.arguments.items; choices = e.choices.items } };
}

impl Env {
    /// An environment for a block with these arguments and choices, in which each variable is 0.
    pub fn new(alloc: Global, args: &[u16], choices: &[u16]) -> Result<Env, Spent>
        ensures { IfOk result (λ e. environment_of e ≡ block_environment args.now choices.now) }
    {
        Ok(Env {
            variables: [0; VARIABLES],
            arguments: Vec::from_slice(alloc, args)?,
            choices: Vec::from_slice(alloc, choices)?,
        })
    }

    /// Takes these arguments and choices in place of the ones that it has. It takes memory only where these
    /// are more than it ever had. After an error it has to enter others before it is used again.
    pub fn enter(&mut self, args: &[u16], choices: &[u16]) -> Result<(), Spent>
        ensures { OnOk result (self.new ≡ record self.old { arguments = args.now; choices = choices.now }) }
    {
        self.arguments.clear();
        self.arguments.extend_from_slice(args)?;
        self.choices.clear();
        self.choices.extend_from_slice(choices)?;
        Ok(())
    }

    /// The value of the variable.
    pub(crate) fn variable(&self, var: u8) -> u16
        ensures { result ≡ slice_index self.now.variables var }
    {
        self.variables[var as usize]
    }

    /// The value of the parameter.
    pub(crate) fn parameter(&self, par: u8) -> u16
        requires { par < length self.now.arguments }
        ensures { result ≡ slice_index self.now.arguments par }
    {
        self.arguments[par as usize]
    }

    /// The value of the local.
    pub(crate) fn choice(&self, loc: u8) -> u16
        requires { loc < length self.now.choices }
        ensures { result ≡ slice_index self.now.choices loc }
    {
        self.choices[loc as usize]
    }

    /// Lets the variable stand for the element, all else as before.
    pub(crate) fn bind(&mut self, var: u8, element: u16)
        ensures tables { self.new ≡ bound self.old var element }
        ensures bound { environment_of self.new ≡ bind (environment_of self.old) var element }
    {
        self.variables[var as usize] = element;
    }
}
