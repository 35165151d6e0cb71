ghost use Rattle.std.specs.Prelude.{◌≡◌, ◌<◌, IfOk, length, vec_len};
ghost use Rattle.std.specs.List.{All};
ghost use Rattle.dai_model.specs.Formula.{universal};
ghost use Rattle.dai_model.specs.Sizes.{needed_for_block};
ghost use Rattle.dai_cut.specs.Small.{AreEnough, IsUniversalClaim, bound_counts};
ghost use Rattle.dai_logic.specs.Parts.{action_of};
ghost use Rattle.dai_logic.specs.Protocols.{protocol_of};
ghost use Rattle.dai_logic.specs.Trees.{formula_of, term_of};
ghost use Rattle.dai_query.specs.Marks.{has_mark, look as look_of_the_model, marks as marks_of_the_model, all_but_one as all_but_one_of_the_model, one_of_two as one_of_two_of_the_model};

use crate::{Verdict, bounds, consecution, ground, moves};
use dai_base::{Spent, Text};
use dai_ground::asking::ask;
use dai_ground::found::Answer;
use dai_logic::{Action, Block, BlockId, Formula, Protocol, RelInfo, SortInfo, Step, Term};
use dai_samples::{relation, sort};
use std::alloc::Global;
use std::test::Fail;

/// One type and one relation of triples over it.
fn triples(alloc: Global) -> Result<Protocol, Spent>
    ensures { IfOk result (λ p. vec_len p.sorts ≡ 1) }
{
    let sort = SortInfo {
        name: Text::from_bytes(alloc, b"t")?,
        ordered: false,
    };
    let relation = RelInfo {
        name: Text::from_bytes(alloc, b"r")?,
        args: vec![in alloc; 0, 0, 0]?,
    };
    let init = Block {
        params: Vec::new(alloc),
        locals: Vec::new(alloc),
        code: Vec::new(alloc),
    };
    Ok(Protocol {
        sorts: vec![in alloc; sort]?,
        relations: vec![in alloc; relation]?,
        individuals: Vec::new(alloc),
        axioms: Vec::new(alloc),
        init,
        actions: Vec::new(alloc),
        invariants: Vec::new(alloc),
    })
}

#[test]
fn counts_of_triples(rt: HostRuntime) -> Result<(), Fail> {
    let protocol = triples(rt.alloc())?;
    let sizes = bounds(rt.alloc(), &protocol, &[4])?;
    assert_eq!(rt; sizes.as_slice(), [4].as_slice());
    for (size, want) in [(3, 64), (4, 64), (6, 216)] {
        assert_eq!(rt; sizes.len(), 1);
        assert_eq!(rt; ground(&protocol, &sizes, size), want, "size {size}");
    }
    assert_eq!(rt; moves(&protocol, 3), 0);
    Ok(())
}

/// The term has the mark of this number.
fn marked(alloc: Global, number: u8, term: Term) -> Result<Formula, Spent>
    ensures { IfOk result (λ f. formula_of f ≡ has_mark number (term_of term)) }
{
    Ok(Formula::Rel {
        rel: number,
        args: vec![in alloc; term]?,
    })
}

/// The one action: it asks for a marked element of each type.
fn look(alloc: Global) -> Result<Action, Spent>
    ensures { IfOk result (λ a. action_of a ≡ look_of_the_model) }
{
    let first = Step::Require {
        body: marked(alloc, 0, Term::Par(0))?,
    };
    let second = Step::Require {
        body: marked(alloc, 1, Term::Par(1))?,
    };
    Ok(Action {
        name: Text::from_bytes(alloc, b"look")?,
        block: Block {
            params: vec![in alloc; 0, 1]?,
            locals: Vec::new(alloc),
            code: vec![in alloc; first, second]?,
        },
    })
}

/// Two types with a mark over each, and an action that asks for a marked element of each and changes nothing.
fn marks(alloc: Global) -> Result<Protocol, Spent>
    ensures { IfOk result (λ p. protocol_of p ≡ marks_of_the_model) }
{
    let sorts = vec![in alloc; sort(alloc, b"s", false)?, sort(alloc, b"t", false)?]?;
    let relations = vec![in alloc; relation(alloc, b"p", &[0])?, relation(alloc, b"q", &[1])?]?;
    let init = Block {
        params: Vec::new(alloc),
        locals: Vec::new(alloc),
        code: Vec::new(alloc),
    };
    let actions = vec![in alloc; look(alloc)?]?;
    Ok(Protocol {
        sorts,
        relations,
        individuals: Vec::new(alloc),
        axioms: Vec::new(alloc),
        init,
        actions,
        invariants: Vec::new(alloc),
    })
}

/// The formula for all elements that the variable of this number and type may stand for.
fn for_all(alloc: Global, var: u8, sort: u8, body: Formula) -> Result<Formula, Spent>
    ensures { IfOk result (λ f. formula_of f ≡ universal var sort (formula_of body)) }
{
    Ok(Formula::Forall {
        var,
        sort,
        body: Box::new(alloc, body)?,
    })
}

/// At most one element of the first type has no mark.
fn all_but_one(alloc: Global) -> Result<Formula, Spent>
    ensures { IfOk result (λ f. formula_of f ≡ all_but_one_of_the_model) }
{
    let same = Formula::Same {
        left: Term::Var(0),
        right: Term::Var(1),
    };
    let first = marked(alloc, 0, Term::Var(0))?;
    let second = marked(alloc, 0, Term::Var(1))?;
    let parts = vec![in alloc; same, first, second]?;
    for_all(alloc, 0, 0, for_all(alloc, 1, 0, Formula::Any(parts))?)
}

/// Of each two elements, one of each type, one has its mark.
fn one_of_two(alloc: Global) -> Result<Formula, Spent>
    ensures { IfOk result (λ f. formula_of f ≡ one_of_two_of_the_model) }
{
    let first = marked(alloc, 0, Term::Var(0))?;
    let second = marked(alloc, 1, Term::Var(1))?;
    let parts = vec![in alloc; first, second]?;
    for_all(alloc, 0, 0, for_all(alloc, 1, 1, Formula::Any(parts))?)
}

/// The sizes that questions about goals with so many variables need.
fn computed(alloc: Global, protocol: &Protocol, vars: &[u8]) -> Result<Vec<u16>, Spent>
    requires protocol { protocol_of protocol.now ≡ marks_of_the_model }
    requires one_each { length vars.now ≡ 2 }
{
    bounds(alloc, protocol, vars)
}

/// Whether the action leads to the goal from all structures.
fn leads(alloc: Global, protocol: &Protocol, goal: &Formula, sizes: &[u16]) -> Result<bool, Spent>
    requires protocol { protocol_of protocol.now ≡ marks_of_the_model }
    requires goal { IsUniversalClaim marks_of_the_model (formula_of goal.now) }
    requires enough { AreEnough marks_of_the_model (needed_for_block marks_of_the_model look_of_the_model.block (bound_counts marks_of_the_model (formula_of goal.now))) sizes.now }
{
    let premises = Vec::new(alloc);
    match consecution(alloc, protocol, 0, sizes, &premises, goal)? {
        Verdict::Proved => Ok(true),
        Verdict::Counter(_) => Ok(false),
    }
}

/// Whether it does from those with at most so many elements of each type.
fn leads_up_to(
    alloc: Global,
    protocol: &Protocol,
    goal: &Formula,
    sizes: &[u16],
) -> Result<bool, Spent>
    requires protocol { protocol_of protocol.now ≡ marks_of_the_model }
    requires goal { IsUniversalClaim marks_of_the_model (formula_of goal.now) }
    requires one_each { length sizes.now ≡ 2 }
    requires inhabited { All (λ n. 0 < n) sizes.now }
{
    let premises = Vec::new(alloc);
    let look = Some(BlockId::Act(0));
    match ask(alloc, protocol, look, &premises, goal, sizes)? {
        Answer::Holds(_) => Ok(true),
        Answer::Broken(_) => Ok(false),
    }
}

#[test]
fn a_goal_that_needs_its_size_in_one_type(rt: HostRuntime) -> Result<(), Fail> {
    let alloc = rt.alloc();
    let protocol = marks(alloc)?;
    let goal = all_but_one(alloc)?;
    let sizes = computed(alloc, &protocol, &[2, 0])?;
    assert_eq!(rt; sizes.as_slice(), [3, 1].as_slice());
    assert!(rt; !leads(alloc, &protocol, &goal, &[3, 1])?);
    assert!(rt; leads_up_to(alloc, &protocol, &goal, &[2, 1])?);
    Ok(())
}

#[test]
fn a_goal_that_needs_its_size_in_two_types(rt: HostRuntime) -> Result<(), Fail> {
    let alloc = rt.alloc();
    let protocol = marks(alloc)?;
    let goal = one_of_two(alloc)?;
    let sizes = computed(alloc, &protocol, &[1, 1])?;
    assert_eq!(rt; sizes.as_slice(), [2, 2].as_slice());
    assert!(rt; !leads(alloc, &protocol, &goal, &[2, 2])?);
    assert!(rt; leads_up_to(alloc, &protocol, &goal, &[1, 2])?);
    assert!(rt; leads_up_to(alloc, &protocol, &goal, &[2, 1])?);
    Ok(())
}
