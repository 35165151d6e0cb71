//! The value of a formula in a structure (Tarski).
ghost use Rattle.std.specs.Prelude.{◌≡◌};
ghost use Rattle.dai_model.specs.Formula.{universal, existential};
ghost use Rattle.dai_model.specs.Value.{value_of, all_hold as all_hold_in, some_holds as some_hold_in, all_agree as all_agree_in};
ghost use Rattle.dai_logic.specs.Trees.{formula_of, formulas_of};
ghost use Rattle.dai_logic.specs.Protocols.{protocol_of};
ghost use Rattle.dai_logic.specs.Environments.{environment_of};
ghost use Rattle.dai_logic.specs.Tables.{structure_of, Fits, IsEvaluable, AreEvaluable};

use crate::environment::Env;
use crate::places::{is_at_most, is_less, is_same, relates};
use crate::protocol::{Formula, Protocol};
use crate::structure::Structure;

/// The value of the formula in the structure. The environment ends as it began. It takes no memory.
///
/// The structure fits the protocol, and the formula is well-sorted where each name that is free in it has the
/// type of the element that the environment gives it.
#[cycle(eval)]
pub fn eval(protocol: &Protocol, formula: &Formula, s: &Structure, env: &mut Env) -> bool
    requires fits { Fits (protocol_of protocol.now) s.now }
    requires formula { IsEvaluable (protocol_of protocol.now) s.now.sizes.items (environment_of env.old) (formula_of formula.now) }
    ensures value { result ≡ value_of (structure_of (protocol_of protocol.now) s.now) (environment_of env.old) (formula_of formula.now) }
    ensures unchanged { env.new ≡ env.old }
{
    match formula {
        Formula::Truth(value) => *value,
        Formula::Rel { rel, args } => relates(protocol, *rel, args, s, env),
        Formula::Same { left, right } => is_same(*left, *right, s, env),
        Formula::Less { left, right } => is_less(*left, *right, s, env),
        Formula::LessEq { left, right } => is_at_most(*left, *right, s, env),
        Formula::Not(body) => !eval(protocol, body, s, env),
        Formula::All(parts) => all_hold(protocol, parts, s, env),
        Formula::Any(parts) => some_holds(protocol, parts, s, env),
        Formula::Implies(left, right) => {
            !eval(protocol, left, s, env) || eval(protocol, right, s, env)
        }
        Formula::Iff(parts) => all_agree(protocol, parts, s, env),
        Formula::Forall { var, sort, body } => holds_for_all(protocol, *var, *sort, body, s, env),
        Formula::Exists { var, sort, body } => holds_for_some(protocol, *var, *sort, body, s, env),
    }
}

#[cycle(eval)]
fn all_hold(protocol: &Protocol, parts: &[Formula], s: &Structure, env: &mut Env) -> bool
    requires fits { Fits (protocol_of protocol.now) s.now }
    requires formulas { AreEvaluable (protocol_of protocol.now) s.now.sizes.items (environment_of env.old) (formulas_of parts.now) }
    ensures value { result ≡ all_hold_in (structure_of (protocol_of protocol.now) s.now) (environment_of env.old) (formulas_of parts.now) }
    ensures unchanged { env.new ≡ env.old }
{
    for part in parts {
        if !eval(protocol, part, s, env) {
            return false;
        }
    }
    true
}

#[cycle(eval)]
fn some_holds(protocol: &Protocol, parts: &[Formula], s: &Structure, env: &mut Env) -> bool
    requires fits { Fits (protocol_of protocol.now) s.now }
    requires formulas { AreEvaluable (protocol_of protocol.now) s.now.sizes.items (environment_of env.old) (formulas_of parts.now) }
    ensures value { result ≡ some_hold_in (structure_of (protocol_of protocol.now) s.now) (environment_of env.old) (formulas_of parts.now) }
    ensures unchanged { env.new ≡ env.old }
{
    for part in parts {
        if eval(protocol, part, s, env) {
            return true;
        }
    }
    false
}

/// A chain of `<->` by association: an even number of its parts is false.
#[cycle(eval)]
fn all_agree(protocol: &Protocol, parts: &[Formula], s: &Structure, env: &mut Env) -> bool
    requires fits { Fits (protocol_of protocol.now) s.now }
    requires formulas { AreEvaluable (protocol_of protocol.now) s.now.sizes.items (environment_of env.old) (formulas_of parts.now) }
    ensures value { result ≡ all_agree_in (structure_of (protocol_of protocol.now) s.now) (environment_of env.old) (formulas_of parts.now) }
    ensures unchanged { env.new ≡ env.old }
{
    let mut even = true;
    for part in parts {
        if !eval(protocol, part, s, env) {
            even = !even;
        }
    }
    even
}

/// Whether the body is true of each element of the type.
#[cycle(eval)]
fn holds_for_all(
    protocol: &Protocol,
    var: u8,
    sort: u8,
    body: &Formula,
    s: &Structure,
    env: &mut Env,
) -> bool
    requires fits { Fits (protocol_of protocol.now) s.now }
    requires formula { IsEvaluable (protocol_of protocol.now) s.now.sizes.items (environment_of env.old) (universal var sort (formula_of body.now)) }
    ensures value { result ≡ value_of (structure_of (protocol_of protocol.now) s.now) (environment_of env.old) (universal var sort (formula_of body.now)) }
    ensures unchanged { env.new ≡ env.old }
{
    let before = env.variable(var);
    for element in 0..s.sizes[sort as usize] {
        env.bind(var, element);
        if !eval(protocol, body, s, env) {
            env.bind(var, before);
            return false;
        }
    }
    env.bind(var, before);
    true
}

/// Whether the body is true of some element of the type.
#[cycle(eval)]
fn holds_for_some(
    protocol: &Protocol,
    var: u8,
    sort: u8,
    body: &Formula,
    s: &Structure,
    env: &mut Env,
) -> bool
    requires fits { Fits (protocol_of protocol.now) s.now }
    requires formula { IsEvaluable (protocol_of protocol.now) s.now.sizes.items (environment_of env.old) (existential var sort (formula_of body.now)) }
    ensures value { result ≡ value_of (structure_of (protocol_of protocol.now) s.now) (environment_of env.old) (existential var sort (formula_of body.now)) }
    ensures unchanged { env.new ≡ env.old }
{
    let before = env.variable(var);
    for element in 0..s.sizes[sort as usize] {
        env.bind(var, element);
        if eval(protocol, body, s, env) {
            env.bind(var, before);
            return true;
        }
    }
    env.bind(var, before);
    false
}
