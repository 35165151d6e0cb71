//! The answer to settings and the bytes of a file.
ghost use Rattle.std.specs.Prelude.{◌≡◌, ◌≤◌, length, vec_len, None, Some, IfOk, IfErr};
ghost use Rattle.dai_logic.specs.Protocols.{protocol_of};
ghost use Rattle.dai_model.specs.Template.{Bounds};
ghost use Rattle.dai_model.specs.Classes.{all_sizes};
ghost use Rattle.dai_model.specs.Report.{IsReport};
ghost use Rattle.dai_template.specs.Spaces.{IsSpaceOf};
ghost use Rattle.dai_model.specs.Sizes.{size_bounds};
ghost use Rattle.dai_model.specs.Shapes.{shapes_within};
ghost use Rattle.dai_model.specs.Limits.{atom_count};
ghost use Rattle.dai_print.specs.Counts.{counts_text as text_of_counts};
ghost use Rattle.dai_words.specs.declared.settings.Command.TheVariants.{Infer as infers, Space as counts_space};
ghost use Rattle.dai_words.specs.Readings.{choices_of};
ghost use Rattle.dai_words.specs.Words.{AreWithinRanges};
ghost use Rattle.dai_table.specs.Flags.{IsTableOf};
ghost use Rattle.dai_top.specs.Bounds.{bounds_of};
ghost use Rattle.dai_top.specs.Limits.{fault_of};
ghost use Rattle.dai_top.specs.Answers.{IsAnswerTo, IsStatusOf};
ghost use Rattle.dai_top.specs.Stops.{IsFaultThat, IsStop, answer_of};

use crate::bounds::bounds;
use crate::limits::within_limits;
use crate::report::report;
use crate::stop::{Stop, no_protocol};
use dai_front::read_protocol;
use dai_judge::SizedJudge;
use dai_logic::Protocol;
use dai_print::{Counts, counts_text};
use dai_query::{ground, moves};
use dai_table::{MOST_FLAGS, TruthTable};
use dai_template::{Space, atoms_within, templates_within};
use dai_words::{Command, Settings};
use std::alloc::Global;

/// A text for the output, and the status: 0 where the work is done and, for a report, every invariant follows, else
/// 1.
#[derive(Drop)]
pub struct Answer {
    pub status: u8,
    pub out: Vec<u8>,
}

/// The answer to settings, whose numbers are within their ranges, and the bytes of the file.
///
/// `Fault` comes exactly where the bytes or the settings are refused: by the first fault of the bytes; or else where
/// `--vars` names no type; or else by the first count above its limit. For `infer` the text is the report over
/// structures of all sizes, and the status tells whether every invariant follows; for `space` the text is that of the
/// counts, with status 0.
pub fn answer_to(alloc: Global, settings: &Settings, bytes: &[u8]) -> Result<Answer, Stop>
    requires short { length bytes.now ≤ 1048576 }
    requires ranges { AreWithinRanges (choices_of settings.now) }
    ensures refused { IfErr result (IsStop (choices_of settings.now) bytes.now) }
    ensures answered { IfOk result (λ a. IsAnswerTo (choices_of settings.now) bytes.now (answer_of a)) }
    ensures status { IfOk result (λ a. a.status ≤ 1) }
{
    match read_protocol(alloc, bytes) {
        Ok(protocol) => answer_on(alloc, settings, &protocol),
        Err(error) => Err(no_protocol(error)),
    }
}

/// The answer on a protocol.
fn answer_on(alloc: Global, settings: &Settings, protocol: &Protocol) -> Result<Answer, Stop>
    requires { AreWithinRanges (choices_of settings.now) }
    ensures refused { IfErr result (IsFaultThat (λ f. fault_of (choices_of settings.now) (protocol_of protocol.now) ≡ Some f)) }
    ensures accepted { IfOk result (λ _. fault_of (choices_of settings.now) (protocol_of protocol.now) ≡ None) }
    ensures reported { IfOk result (λ a. settings.now.command ≡ infers → IsReport all_sizes (protocol_of protocol.now) (bounds_of (protocol_of protocol.now) (choices_of settings.now)) a.out.items × IsStatusOf all_sizes (protocol_of protocol.now) (bounds_of (protocol_of protocol.now) (choices_of settings.now)) a.status) }
    ensures counted { IfOk result (λ a. settings.now.command ≡ counts_space → (a.status ≡ 0) × (a.out.items ≡ text_of_counts (protocol_of protocol.now) (bounds_of (protocol_of protocol.now) (choices_of settings.now)) settings.now.size)) }
    ensures status { IfOk result (λ a. a.status ≤ 1) }
{
    let vars = bounds(alloc, settings, protocol)?;
    let (space, sizes) = within_limits(alloc, protocol, &vars, settings.lits, settings.size)?;
    match settings.command {
        Command::Infer => infer(alloc, protocol, &space, &sizes),
        Command::Space => count(alloc, protocol, settings, &vars, &space, &sizes),
        Command::Sample | Command::Gen => unreachable!(),
    }
}

/// The report over structures of all sizes. A protocol of few flags is judged by its truth table, which is faster
/// there, and every other one by the solver.
fn infer(alloc: Global, protocol: &Protocol, space: &Space, sizes: &[u16]) -> Result<Answer, Stop>
    requires { (B : Bounds) × IsSpaceOf (protocol_of protocol.now) B space.now × (sizes.now ≡ size_bounds (protocol_of protocol.now) B.variables) }
    ensures spent { IfErr result (λ e. e ≡ Stop.Spent) }
    ensures reported { IfOk result (λ a. (B : Bounds) → IsSpaceOf (protocol_of protocol.now) B space.now → sizes.now ≡ size_bounds (protocol_of protocol.now) B.variables → IsReport all_sizes (protocol_of protocol.now) B a.out.items × IsStatusOf all_sizes (protocol_of protocol.now) B a.status) }
    ensures status { IfOk result (λ a. a.status ≤ 1) }
{
    if protocol.sorts.is_empty() && protocol.relations.len() <= MOST_FLAGS {
        return tabulated(alloc, protocol, space);
    }
    solved(alloc, protocol, space, sizes)
}

/// The report by the truth table.
fn tabulated(alloc: Global, protocol: &Protocol, space: &Space) -> Result<Answer, Stop>
    requires table { IsTableOf (protocol_of protocol.now) }
    requires space { (B : Bounds) × IsSpaceOf (protocol_of protocol.now) B space.now }
    ensures spent { IfErr result (λ e. e ≡ Stop.Spent) }
    ensures reported { IfOk result (λ a. (B : Bounds) → IsSpaceOf (protocol_of protocol.now) B space.now → IsReport all_sizes (protocol_of protocol.now) B a.out.items × IsStatusOf all_sizes (protocol_of protocol.now) B a.status) }
    ensures status { IfOk result (λ a. a.status ≤ 1) }
{
    let mut judge = TruthTable::new(alloc, protocol)?;
    Ok(report(alloc, &mut judge, protocol, space)?)
}

/// The report by the solver, from the structures up to the sizes that questions need.
fn solved(alloc: Global, protocol: &Protocol, space: &Space, sizes: &[u16]) -> Result<Answer, Stop>
    requires { (B : Bounds) × IsSpaceOf (protocol_of protocol.now) B space.now × (sizes.now ≡ size_bounds (protocol_of protocol.now) B.variables) }
    ensures spent { IfErr result (λ e. e ≡ Stop.Spent) }
    ensures reported { IfOk result (λ a. (B : Bounds) → IsSpaceOf (protocol_of protocol.now) B space.now → sizes.now ≡ size_bounds (protocol_of protocol.now) B.variables → IsReport all_sizes (protocol_of protocol.now) B a.out.items × IsStatusOf all_sizes (protocol_of protocol.now) B a.status) }
    ensures status { IfOk result (λ a. a.status ≤ 1) }
{
    let mut judge = SizedJudge::new(alloc, sizes)?;
    Ok(report(alloc, &mut judge, protocol, space)?)
}

/// The counts of the space, and of the sizes.
fn count(
    alloc: Global,
    protocol: &Protocol,
    settings: &Settings,
    vars: &[u8],
    space: &Space,
    sizes: &[u16],
) -> Result<Answer, Stop>
    requires space { IsSpaceOf (protocol_of protocol.now) (record { variables = vars.now; literals = settings.now.lits }) space.now }
    requires atoms { atom_count (protocol_of protocol.now) (record { variables = vars.now; literals = settings.now.lits }) ≤ 64 }
    requires sizes { sizes.now ≡ size_bounds (protocol_of protocol.now) vars.now }
    requires each { length vars.now ≡ vec_len protocol.now.sorts }
    requires long { length sizes.now ≡ vec_len protocol.now.sorts }
    requires few { settings.now.lits ≤ 8 }
    requires small { settings.now.size ≤ 6 }
    ensures spent { IfErr result (λ e. e ≡ Stop.Spent) }
    ensures counted { IfOk result (λ a. (a.status ≡ 0) × (a.out.items ≡ text_of_counts (protocol_of protocol.now) (record { variables = vars.now; literals = settings.now.lits }) settings.now.size)) }
{
    let counts = Counts {
        shapes: space.shapes.len() as u64,
        atoms: atoms_within(protocol, vars),
        templates: templates_within(alloc, protocol, vars, settings.lits)?,
        bounds: sizes,
        ground_atoms: ground(protocol, sizes, settings.size),
        moves: moves(protocol, settings.size as u8),
    };
    Ok(Answer {
        status: 0,
        out: counts_text(alloc, protocol, &counts)?,
    })
}
