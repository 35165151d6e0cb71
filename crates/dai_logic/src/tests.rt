ghost use Rattle.std.specs.Prelude.{◌≡◌, ◌<◌, [], ◌∷◌, length, map, IfOk};
ghost use Rattle.dai_model.specs.Formula.{truth, relates, less, requirement, update_relation, update_individual, existential, universal, conditional, with_statement, no_statements};
ghost use Rattle.dai_model.specs.Formula as Model;
ghost use Rattle.dai_model.specs.Protocol as Protocols;
ghost use Rattle.dai_logic.specs.declared.structure.Structure.{Structure};
ghost use Rattle.dai_logic.specs.Execution.{IsCall};
ghost use Rattle.dai_logic.specs.Trees.{term_of, formula_of, statement_of, statements_of};
ghost use Rattle.dai_logic.specs.Parts.{block_of, action_of, relation_of};
ghost use Rattle.dai_logic.specs.Protocols.{protocol_of};
ghost use Rattle.dai_logic.specs.Sample.{begin, connect, turn, go, ask, sample, IsSampleState};

use crate::{
    Action, Block, BlockId, Formula, IndInfo, Layout, Protocol, RelInfo, SortInfo, Step, Structure,
    Term, Workspace, env, exec, is_enabled,
};
use dai_base::{Spent, Text};
use std::alloc::Global;
use std::process::Abort;
use std::test::Fail;

fn related(alloc: Global, rel: u8, args: &[Term]) -> Result<Formula, Spent>
    ensures { IfOk result (λ f. formula_of f ≡ relates rel (map term_of args.now)) }
{
    Ok(Formula::Rel {
        rel,
        args: Vec::from_slice(alloc, args)?,
    })
}

fn set(alloc: Global, rel: u8, args: &[Term], body: Formula) -> Result<Step, Spent>
    ensures { IfOk result (λ c. statement_of c ≡ update_relation rel (map term_of args.now) (formula_of body)) }
{
    Ok(Step::SetTable {
        rel,
        args: Vec::from_slice(alloc, args)?,
        body,
    })
}

fn begin_block(alloc: Global) -> Result<Block, Spent>
    ensures { IfOk result (λ b. block_of b ≡ begin) }
{
    let first = set(alloc, 1, &[Term::Var(0)], Formula::Truth(true))?;
    let second = set(
        alloc,
        0,
        &[Term::Var(0), Term::Var(1)],
        Formula::Truth(false),
    )?;
    Ok(Block {
        params: Vec::new(alloc),
        locals: Vec::new(alloc),
        code: vec![in alloc; first, second]?,
    })
}

fn connect_block(alloc: Global) -> Result<Block, Spent>
    ensures { IfOk result (λ b. block_of b ≡ connect) }
{
    let asked = Step::Require {
        body: related(alloc, 1, &[Term::Par(1)])?,
    };
    let first = set(
        alloc,
        0,
        &[Term::Par(0), Term::Par(1)],
        Formula::Truth(true),
    )?;
    let second = set(alloc, 1, &[Term::Par(1)], Formula::Truth(false))?;
    Ok(Block {
        params: vec![in alloc; 0, 0]?,
        locals: Vec::new(alloc),
        code: vec![in alloc; asked, first, second]?,
    })
}

fn turn_block(alloc: Global) -> Result<Block, Spent>
    ensures { IfOk result (λ b. block_of b ≡ turn) }
{
    let body = related(alloc, 0, &[Term::Var(1), Term::Var(0)])?;
    let only = set(alloc, 0, &[Term::Var(0), Term::Var(1)], body)?;
    Ok(Block {
        params: Vec::new(alloc),
        locals: Vec::new(alloc),
        code: vec![in alloc; only]?,
    })
}

fn go_step(alloc: Global) -> Result<Step, Spent>
    ensures { IfOk result (λ c. statement_of c ≡ conditional (less (Model.individual 0) (Model.parameter 0)) (with_statement (update_individual 0 (Model.parameter 0)) no_statements) (with_statement (update_individual 0 (Model.choice 0)) no_statements)) }
{
    let up = Step::SetValue {
        ind: 0,
        to: Term::Par(0),
    };
    let away = Step::SetValue {
        ind: 0,
        to: Term::Loc(0),
    };
    Ok(Step::Cond {
        cond: Formula::Less {
            left: Term::Ind(0),
            right: Term::Par(0),
        },
        yes: vec![in alloc; up]?,
        no: vec![in alloc; away]?,
    })
}

fn go_block(alloc: Global) -> Result<Block, Spent>
    ensures { IfOk result (λ b. block_of b ≡ go) }
{
    Ok(Block {
        params: vec![in alloc; 0]?,
        locals: vec![in alloc; 0]?,
        code: vec![in alloc; go_step(alloc)?]?,
    })
}

fn asked(alloc: Global) -> Result<Formula, Spent>
    ensures { IfOk result (λ f. formula_of f ≡ existential 0 0 (universal 1 0 (relates 0 (Model.variable 0 ∷ Model.variable 1 ∷ [])))) }
{
    let body = related(alloc, 0, &[Term::Var(0), Term::Var(1)])?;
    let all = Formula::Forall {
        var: 1,
        sort: 0,
        body: Box::new(alloc, body)?,
    };
    Ok(Formula::Exists {
        var: 0,
        sort: 0,
        body: Box::new(alloc, all)?,
    })
}

fn ask_block(alloc: Global) -> Result<Block, Spent>
    ensures { IfOk result (λ b. block_of b ≡ ask) }
{
    let only = Step::Require {
        body: asked(alloc)?,
    };
    Ok(Block {
        params: Vec::new(alloc),
        locals: Vec::new(alloc),
        code: vec![in alloc; only]?,
    })
}

fn action(alloc: Global, name: &[u8], block: Block) -> Result<Action, Spent>
    ensures { IfOk result (λ a. action_of a ≡ record { name = name.now; block = block_of block }) }
{
    Ok(Action {
        name: Text::from_bytes(alloc, name)?,
        block,
    })
}

fn actions(alloc: Global) -> Result<Vec<Action>, Spent>
    ensures { IfOk result (λ v. map action_of v.items ≡ sample.actions) }
{
    let first = action(alloc, b"connect", connect_block(alloc)?)?;
    let second = action(alloc, b"turn", turn_block(alloc)?)?;
    let third = action(alloc, b"go", go_block(alloc)?)?;
    let fourth = action(alloc, b"ask", ask_block(alloc)?)?;
    Ok(vec![in alloc; first, second, third, fourth]?)
}

fn relations(alloc: Global) -> Result<Vec<RelInfo>, Spent>
    ensures { IfOk result (λ v. map relation_of v.items ≡ sample.relations) }
{
    let first = RelInfo {
        name: Text::from_bytes(alloc, b"r")?,
        args: vec![in alloc; 0, 0]?,
    };
    let second = RelInfo {
        name: Text::from_bytes(alloc, b"u")?,
        args: vec![in alloc; 0]?,
    };
    Ok(vec![in alloc; first, second]?)
}

/// The protocol of the example.
fn protocol(alloc: Global) -> Result<Protocol, Spent>
    ensures { IfOk result (λ p. protocol_of p ≡ sample) }
{
    let only = SortInfo {
        name: Text::from_bytes(alloc, b"t")?,
        ordered: true,
    };
    let named = IndInfo {
        name: Text::from_bytes(alloc, b"c")?,
        sort: 0,
    };
    let sorts = vec![in alloc; only]?;
    let relations = relations(alloc)?;
    let individuals = vec![in alloc; named]?;
    let init = begin_block(alloc)?;
    let actions = actions(alloc)?;
    Ok(Protocol {
        sorts,
        relations,
        individuals,
        axioms: Vec::new(alloc),
        init,
        actions,
        invariants: Vec::new(alloc),
    })
}

/// Two elements, whether each pair is related, whether each is free, and the individual.
fn state(alloc: Global, r: &[bool], u: &[bool], c: u16) -> Result<Structure, Spent>
    requires pairs { length r.now ≡ 4 }
    requires elements { length u.now ≡ 2 }
    requires element { c < 2 }
    ensures { IfOk result IsSampleState }
{
    let first = Vec::from_slice(alloc, r)?;
    let second = Vec::from_slice(alloc, u)?;
    Ok(Structure {
        sizes: vec![in alloc; 2]?,
        tables: vec![in alloc; first, second]?,
        values: vec![in alloc; c]?,
    })
}

/// A state: whether each pair is related, whether each element is free, and the individual.
#[derive(Clone, Copy)]
struct Row {
    r: [bool; 4],
    u: [bool; 2],
    c: u16,
}

fn is_row(s: &Structure, want: Row) -> bool {
    let (Some(r), Some(u), Some(c)) = (s.tables.first(), s.tables.get(1), s.values.first()) else {
        return false;
    };
    r.as_slice() == want.r.as_slice() && u.as_slice() == want.u.as_slice() && *c == want.c
}

/// Checks what the block leaves, and that its enabledness is the same.
fn leaves(
    rt: &(impl Abort + AllocGlobal),
    block: BlockId,
    args: &[u16],
    choices: &[u16],
    before: Row,
    want: Option<Row>,
) -> Result<(), Fail>
    requires element { before.c < 2 }
    requires call { (P : Protocols.Protocol) (s : Structure) → P ≡ sample → s.sizes.items ≡ 2 ∷ [] → IsCall P block s args.now choices.now }
{
    let protocol = protocol(rt.alloc())?;
    let s = state(
        rt.alloc(),
        before.r.as_slice(),
        before.u.as_slice(),
        before.c,
    )?;
    let after = exec(rt.alloc(), &protocol, block, &s, args, choices)?;
    assert_eq!(rt; after.is_some(), want.is_some());
    if let (Some(after), Some(want)) = (&after, want) {
        assert!(rt; is_row(after, want));
    }
    let mut env = env(rt.alloc(), args, choices)?;
    let mut work = Workspace::new(rt.alloc(), &s)?;
    let enabled = is_enabled(&protocol, block, &s, &mut env, &mut work);
    assert_eq!(rt; enabled, want.is_some());
    Ok(())
}

#[test]
fn executes_blocks(rt: HostRuntime) -> Result<(), Fail> {
    let none = [false; 4];
    let free = [true; 2];
    let row = Row {
        r: none,
        u: free,
        c: 0,
    };
    let taken = Row {
        r: [false, true, false, false],
        u: [true, false],
        c: 0,
    };
    leaves(
        &rt,
        BlockId::Init,
        &[],
        &[],
        Row {
            r: [true; 4],
            u: [false; 2],
            c: 1,
        },
        Some(Row { c: 1, ..row }),
    )?;
    leaves(&rt, BlockId::Act(0), &[0, 1], &[], row, Some(taken))?;
    leaves(&rt, BlockId::Act(0), &[1, 1], &[], taken, None)?;
    let turned = [false, false, true, false];
    leaves(
        &rt,
        BlockId::Act(1),
        &[],
        &[],
        taken,
        Some(Row { r: turned, ..taken }),
    )?;
    leaves(
        &rt,
        BlockId::Act(2),
        &[1],
        &[0],
        row,
        Some(Row { c: 1, ..row }),
    )?;
    leaves(
        &rt,
        BlockId::Act(2),
        &[1],
        &[0],
        Row { c: 1, ..row },
        Some(row),
    )?;
    let all = Row {
        r: [false, false, true, true],
        ..row
    };
    leaves(&rt, BlockId::Act(3), &[], &[], all, Some(all))?;
    leaves(
        &rt,
        BlockId::Act(3),
        &[],
        &[],
        Row {
            r: [true, false, false, true],
            ..row
        },
        None,
    )
}

#[test]
fn numbers_tuples(rt: HostRuntime) -> Result<(), Fail> {
    let protocol = protocol(rt.alloc())?;
    let layout = Layout::of(rt.alloc(), &protocol, &[2])?;
    assert_eq!(rt; layout.count(0), 4);
    assert_eq!(rt; layout.place(0, &[1, 0]), 2);
    let mut tuple = [0, 1];
    layout.read(0, 2, &mut tuple);
    assert_eq!(rt; tuple, [1, 0]);
    Ok(())
}
