//! Where a tuple of terms stands in its relation's table.
ghost use Rattle.std.specs.Prelude.{◌≡◌, ◌<◌, [], length, map, Some, IsSome, slice_get, slice_index_or};
ghost use Rattle.dai_model.specs.Protocol.{Relation};
ghost use Rattle.dai_model.specs.Formula.{relates, same, less, less_or_same};
ghost use Rattle.dai_model.specs.Value.{value_of, value_of_term};
ghost use Rattle.dai_model.specs.Protocol as Model;
ghost use Rattle.dai_logic.specs.Trees.{term_of};
ghost use Rattle.dai_logic.specs.Protocols.{protocol_of};
ghost use Rattle.dai_logic.specs.Environments.{environment_of};
ghost use Rattle.dai_logic.specs.Tables.{structure_of, tables_of, tuple_place, Fits, HasPlace, IsEvaluable};

use crate::environment::Env;
use crate::protocol::{Protocol, Term};
use crate::structure::Structure;

/// The types of the relation's arguments.
pub(crate) fn sorts_of(protocol: &Protocol, rel: u8) -> &[u8]
    requires { IsSome (slice_get (protocol_of protocol.now).relations rel) }
    ensures { (R : Relation) → slice_get (protocol_of protocol.now).relations rel ≡ Some R → result.now ≡ R.arguments }
{
    &protocol.relations[rel as usize].args
}

/// The table of the relation.
pub(crate) fn table_of(s: &Structure, rel: u8) -> &[bool]
    requires { rel < length (tables_of s.now) }
    ensures { result.now ≡ slice_index_or (tables_of s.now) rel [] }
{
    &s.tables[rel as usize]
}

/// The element that the term stands for.
pub(crate) fn element_of(term: Term, s: &Structure, env: &Env) -> u16
    requires { HasPlace s.now (environment_of env.now) (term_of term) }
    ensures { (P : Model.Protocol) → result ≡ value_of_term (structure_of P s.now) (environment_of env.now) (term_of term) }
{
    match term {
        Term::Var(var) => env.variable(var),
        Term::Ind(ind) => s.values[ind as usize],
        Term::Par(par) => env.parameter(par),
        Term::Loc(loc) => env.choice(loc),
    }
}

/// The place of the terms' tuple in the relation's table.
pub(crate) fn place_of(
    protocol: &Protocol,
    rel: u8,
    args: &[Term],
    s: &Structure,
    env: &Env,
) -> usize
    requires fits { Fits (protocol_of protocol.now) s.now }
    requires formula { IsEvaluable (protocol_of protocol.now) s.now.sizes.items (environment_of env.now) (relates rel (map term_of args.now)) }
    ensures { (R : Relation) → slice_get (protocol_of protocol.now).relations rel ≡ Some R → result ≡ tuple_place s.now.sizes.items R.arguments (map (value_of_term (structure_of (protocol_of protocol.now) s.now) (environment_of env.now)) (map term_of args.now)) }
{
    let sorts = sorts_of(protocol, rel);
    let mut place = 0;
    for (number, term) in args.iter().enumerate() {
        let size = s.sizes[sorts[number] as usize];
        place = place * size as usize + element_of(*term, s, env) as usize;
    }
    place
}

/// Whether the relation holds of the terms' tuple.
pub(crate) fn relates(protocol: &Protocol, rel: u8, args: &[Term], s: &Structure, env: &Env) -> bool
    requires fits { Fits (protocol_of protocol.now) s.now }
    requires formula { IsEvaluable (protocol_of protocol.now) s.now.sizes.items (environment_of env.now) (relates rel (map term_of args.now)) }
    ensures { result ≡ value_of (structure_of (protocol_of protocol.now) s.now) (environment_of env.now) (relates rel (map term_of args.now)) }
{
    let place = place_of(protocol, rel, args, s, env);
    table_of(s, rel)[place]
}

/// Whether the two terms stand for one element.
pub(crate) fn is_same(left: Term, right: Term, s: &Structure, env: &Env) -> bool
    requires left { HasPlace s.now (environment_of env.now) (term_of left) }
    requires right { HasPlace s.now (environment_of env.now) (term_of right) }
    ensures { (P : Model.Protocol) → result ≡ value_of (structure_of P s.now) (environment_of env.now) (same (term_of left) (term_of right)) }
{
    element_of(left, s, env) == element_of(right, s, env)
}

/// Whether the first term stands for a lower element than the second.
pub(crate) fn is_less(left: Term, right: Term, s: &Structure, env: &Env) -> bool
    requires left { HasPlace s.now (environment_of env.now) (term_of left) }
    requires right { HasPlace s.now (environment_of env.now) (term_of right) }
    ensures { (P : Model.Protocol) → result ≡ value_of (structure_of P s.now) (environment_of env.now) (less (term_of left) (term_of right)) }
{
    element_of(left, s, env) < element_of(right, s, env)
}

/// Whether the first term stands for no higher element than the second.
pub(crate) fn is_at_most(left: Term, right: Term, s: &Structure, env: &Env) -> bool
    requires left { HasPlace s.now (environment_of env.now) (term_of left) }
    requires right { HasPlace s.now (environment_of env.now) (term_of right) }
    ensures { (P : Model.Protocol) → result ≡ value_of (structure_of P s.now) (environment_of env.now) (less_or_same (term_of left) (term_of right)) }
{
    element_of(left, s, env) <= element_of(right, s, env)
}
