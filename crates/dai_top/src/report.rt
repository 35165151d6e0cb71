//! The report that a judge gives.
ghost use Rattle.std.specs.Prelude.{◌≡◌, ◌≤◌, IfOk};
ghost use Rattle.dai_logic.specs.Protocols.{protocol_of};
ghost use Rattle.dai_model.specs.Template.{Bounds};
ghost use Rattle.dai_model.specs.Report.{IsReport};
ghost use Rattle.dai_template.specs.Spaces.{IsSpaceOf};
ghost use Rattle.dai_top.specs.Answers.{IsStatusOf};

use crate::answers::Answer;
use dai_base::Spent;
use dai_logic::Protocol;
use dai_print::report_text;
use dai_template::Space;
use dai_weaken::{Judge, everything, greatest, missing};
use std::alloc::Global;

/// The report over the judge's class of structures, and its status: 0 where every invariant follows, else 1. It goes
/// down from the clause without literals, which stands for all others.
///
/// `Spent` is want of memory.
pub fn report<J: Judge>(
    alloc: Global,
    judge: &mut J,
    protocol: &Protocol,
    space: &Space,
) -> Result<Answer, Spent>
    requires judge { J.judges judge.old (protocol_of protocol.now) }
    requires space { (B : Bounds) × IsSpaceOf (protocol_of protocol.now) B space.now }
    ensures report { IfOk result (λ a. (B : Bounds) → IsSpaceOf (protocol_of protocol.now) B space.now → IsReport (J.class judge.old) (protocol_of protocol.now) B a.out.items) }
    ensures status { IfOk result (λ a. (B : Bounds) → IsSpaceOf (protocol_of protocol.now) B space.now → IsStatusOf (J.class judge.old) (protocol_of protocol.now) B a.status) }
    ensures low { IfOk result (λ a. a.status ≤ 1) }
    ensures judge { J.judges judge.new (protocol_of protocol.now) }
    ensures same { J.class judge.new ≡ J.class judge.old }
{
    let start = everything(alloc, space)?;
    let weakened = greatest(alloc, judge, protocol, space, start)?;
    let missing = missing(alloc, judge, protocol, space, &weakened.kept)?;
    let out = report_text(
        alloc,
        protocol,
        space,
        weakened.kept.clauses(),
        missing.as_slice(),
    )?;
    let status = if missing.is_empty() { 0 } else { 1 };
    Ok(Answer { status, out })
}
