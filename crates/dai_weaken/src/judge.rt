ghost use Rattle.std.specs.Prelude.{◌≡◌, ◌<◌, ◌↔◌, ℕ, List, IsTrue, length, map, IfOk};
ghost use Rattle.dai_model.specs.Clause as Model;
ghost use Rattle.dai_model.specs.Classes.{Class};
ghost use Rattle.dai_model.specs.Protocol.{Protocol as Meaning};
ghost use Rattle.dai_model.specs.Template.{Bounds};
ghost use Rattle.dai_model.specs.WellSorted.{IsWellSorted, closed_scope};
ghost use Rattle.dai_logic.specs.Protocols.{protocol_of};
ghost use Rattle.dai_logic.specs.Trees.{formula_of};
ghost use Rattle.dai_template.specs.Spaces.{IsClauseOf, clause_of};
ghost use Rattle.dai_template.specs.Lists.{clauses_of};
ghost use Rattle.dai_weaken.specs.Judging.{AnswersAtFirst, AnswersAfter, Follows};
ghost use Rattle.dai_weaken.specs.Questions.{IsGoal, ArePremises};

use dai_base::Spent;
use dai_logic::{BlockId, Formula, Protocol, Structure};
use dai_template::{Clause, Space};

/// How a state is reached that refutes a clause: the block leads from the state before to the state after, with
/// these arguments and choices. The state after doesn't meet the clause.
#[derive(Drop)]
pub struct Counterexample {
    pub block: BlockId,
    pub before: Structure,
    pub args: Vec<u16>,
    pub choices: Vec<u16>,
    pub after: Structure,
}

/// Who says whether clauses hold of one protocol, over a class of structures that never changes. A judge may remember
/// what it has found; no answer depends on it. `Spent` is want of memory, and the judge is as good as before.
pub trait Judge {
    /// Clauses that states before a step meet, made ready once for many questions.
    type Premises: Drop;

    /// The class of structures that it judges over.
    ghost class: { Self → Class };

    /// It judges this protocol.
    ghost judges: { Self → Meaning → Type 0 };

    /// These premises are those clauses, for this protocol.
    ghost prepared: { Self → Self.Premises → Meaning → List Model.Clause → Type 0 };

    /// Makes premises ready.
    fn prepare(
        &mut self,
        protocol: &Protocol,
        space: &Space,
        clauses: &[Clause],
    ) -> Result<Self::Premises, Spent>
        requires judge { judges self.old (protocol_of protocol.now) }
        requires clauses { ArePremises (protocol_of protocol.now) space.now clauses.now }
        ensures premises { IfOk result (λ premises. prepared self.new premises (protocol_of protocol.now) (clauses_of space.now clauses.now)) }
        ensures judge { judges self.new (protocol_of protocol.now) }
        ensures same { class self.new ≡ class self.old };

    /// An initial state that doesn't meet the clause. `None` says that there is none.
    fn initiation(
        &mut self,
        protocol: &Protocol,
        space: &Space,
        goal: &Clause,
    ) -> Result<Option<Counterexample>, Spent>
        requires judge { judges self.old (protocol_of protocol.now) }
        requires goal { IsGoal (protocol_of protocol.now) space.now goal.now }
        ensures answer { IfOk result (AnswersAtFirst (class self.old) (protocol_of protocol.now) (clause_of space.now goal.now)) }
        ensures judge { judges self.new (protocol_of protocol.now) }
        ensures same { class self.new ≡ class self.old }
        ensures premises { (premises : Self.Premises) (I : List Model.Clause) → prepared self.old premises (protocol_of protocol.now) I → prepared self.new premises (protocol_of protocol.now) I };

    /// A step by the action of this number, from a state that meets the premises to one that doesn't meet the
    /// clause. `None` says that there is none.
    fn consecution(
        &mut self,
        protocol: &Protocol,
        space: &Space,
        premises: &Self::Premises,
        action: u8,
        goal: &Clause,
    ) -> Result<Option<Counterexample>, Spent>
        requires judge { judges self.old (protocol_of protocol.now) }
        requires premises { (I : List Model.Clause) × prepared self.old premises.now (protocol_of protocol.now) I }
        requires action { action < length (protocol_of protocol.now).actions }
        requires goal { IsGoal (protocol_of protocol.now) space.now goal.now }
        ensures answer { IfOk result (λ answer. (I : List Model.Clause) → prepared self.old premises.now (protocol_of protocol.now) I → AnswersAfter (class self.old) (protocol_of protocol.now) I action (clause_of space.now goal.now) answer) }
        ensures judge { judges self.new (protocol_of protocol.now) }
        ensures same { class self.new ≡ class self.old }
        ensures premises { (premises : Self.Premises) (I : List Model.Clause) → prepared self.old premises (protocol_of protocol.now) I → prepared self.new premises (protocol_of protocol.now) I };

    /// Whether the closed formula is true in every structure that meets the axioms and the premises.
    fn entailed(
        &mut self,
        protocol: &Protocol,
        premises: &Self::Premises,
        formula: &Formula,
    ) -> Result<bool, Spent>
        requires judge { judges self.old (protocol_of protocol.now) }
        requires premises { (I : List Model.Clause) × prepared self.old premises.now (protocol_of protocol.now) I }
        requires closed { IsWellSorted (protocol_of protocol.now) closed_scope (formula_of formula.now) }
        ensures answer { IfOk result (λ answer. (I : List Model.Clause) → prepared self.old premises.now (protocol_of protocol.now) I → (IsTrue answer ↔ Follows (class self.old) (protocol_of protocol.now) I (formula_of formula.now))) }
        ensures judge { judges self.new (protocol_of protocol.now) }
        ensures same { class self.new ≡ class self.old }
        ensures premises { (premises : Self.Premises) (I : List Model.Clause) → prepared self.old premises (protocol_of protocol.now) I → prepared self.new premises (protocol_of protocol.now) I };
}
