//! The judge, and the question that all its answers rest on.
ghost use Rattle.std.specs.Prelude.{◌≡◌, ◌<◌, List, length, IfOk};
ghost use Rattle.std.specs.List.{All};
ghost use Rattle.dai_model.specs.Clause as Model;
ghost use Rattle.dai_model.specs.Protocol.{Protocol as Meaning};
ghost use Rattle.dai_logic.specs.Protocols.{protocol_of};
ghost use Rattle.dai_judge.specs.Answers.{found_in};
ghost use Rattle.dai_inquiry.specs.Keys.{clauses_in};
ghost use Rattle.dai_judge.specs.Memory.{picked_of};

use crate::keys::key_of;
use crate::memory::{Known, Memory};
use crate::premises::Premises;
use crate::recall::{Question, copied, recall};
use dai_base::Spent;
use dai_ground::found::{Answer, Found};
use dai_inquiry::by_block::{ByBlock, Tally};
use dai_inquiry::keys::{Key, copy};
use dai_logic::BlockId;
use dai_weaken::Counterexample;
use std::alloc::Global;

/// A judge over the structures with at most so many elements of each type. It judges every protocol that has as many
/// types as the judge has sizes, if each size is at least 1; once it was asked, the protocols of which all is true
/// that it remembers.
///
/// It remembers what it proved and the transitions that it showed, and asks the solver of the block's inquiry where these
/// don't answer.
#[derive(Drop)]
pub struct SizedJudge {
    pub(crate) alloc: Global,
    pub(crate) sizes: Vec<u16>,
    pub(crate) memory: Memory,
    pub(crate) inquiries: ByBlock,
}

/// What was found, by the block.
fn counterexample(block: BlockId, found: Found) -> Counterexample
    ensures block { result.block ≡ block }
    ensures found { found_in result ≡ found }
{
    let Found {
        before,
        args,
        choices,
        after,
    } = found;
    Counterexample {
        block,
        before,
        args,
        choices,
        after,
    }
}

/// The keys of these numbers.
fn picked(alloc: Global, keys: &[Key], numbers: &[usize]) -> Result<Vec<Key>, Spent>
    requires { All (λ k. k < length keys.now) numbers.now }
    ensures { IfOk result (λ ks. clauses_in ks.items ≡ picked_of (clauses_in keys.now) numbers.now) }
{
    let mut picked = Vec::with_capacity(alloc, numbers.len())?;
    for number in numbers {
        picked.push(copy(alloc, &keys[*number])?)?;
    }
    Ok(picked)
}

impl SizedJudge {
    ghost use Rattle.std.specs.Prelude.{[], Some, None};
    ghost use Rattle.dai_logic.specs.declared.structure.BlockId.TheVariants.{Init};
    ghost use Rattle.dai_model.specs.Classes.{up_to};
    ghost use Rattle.dai_template.specs.Spaces.{clause_of};
    ghost use Rattle.dai_ground.specs.Asking.{IsKnown as IsKnownBlock};
    ghost use Rattle.dai_weaken.specs.Questions.{IsGoal};
    ghost use Rattle.dai_judge.specs.Premises.{AreSizesFor};
    ghost use Rattle.dai_weaken.specs.Judging.{IsTransition};
    ghost use Rattle.dai_inquiry.specs.Keys.{clause_in};
    ghost use Rattle.dai_judge.specs.Memory.{Decides, Keeps};
    ghost use Rattle.dai_judge.specs.Ready.{IsReady, ArePremisesOf};

    /// A judge over the structures with at most so many elements of each type. `Spent` is want of memory.
    pub fn new(alloc: Global, sizes: &[u16]) -> Result<SizedJudge, Spent>
        ensures sizes { IfOk result (λ judge. judge.sizes.items ≡ sizes.now) }
        ensures ready { IfOk result (λ judge. (P : Meaning) → AreSizesFor P sizes.now → IsReady P judge) }
    {
        Ok(SizedJudge {
            alloc,
            sizes: Vec::from_slice(alloc, sizes)?,
            memory: Memory::new(alloc),
            inquiries: ByBlock::new(alloc),
        })
    }

    /// What the questions took that were put to the solver so far.
    ///
    /// # Errors
    /// `Spent` where there were 2^64 calls.
    pub fn tally(&self) -> Result<Tally, Spent>
        ensures { IfOk result (λ tally. tally.questions ≡ self.now.inquiries.questions) }
    {
        self.inquiries.tally()
    }

    /// How the block leads from a structure within the sizes that meets the axioms and the premises to one that breaks
    /// the goal. `None` says that it doesn't.
    pub(crate) fn decide(&mut self, question: &Question) -> Result<Option<Counterexample>, Spent>
        requires ready { IsReady (protocol_of question.now.protocol.now) self.old }
        requires known { IsKnownBlock (protocol_of question.now.protocol.now) (Some question.now.block) }
        requires alone { question.now.block ≡ Init → question.now.premises.now.keys.items ≡ [] }
        requires goal { IsGoal (protocol_of question.now.protocol.now) question.now.space.now question.now.goal.now }
        requires premises { (I : List Model.Clause) × ArePremisesOf (protocol_of question.now.protocol.now) I question.now.premises.now }
        ensures answer { IfOk result (λ answer. (I : List Model.Clause) → ArePremisesOf (protocol_of question.now.protocol.now) I question.now.premises.now → Decides (up_to self.old.sizes.items) (protocol_of question.now.protocol.now) question.now.block I (clause_of question.now.space.now question.now.goal.now) answer) }
        ensures ready { IsReady (protocol_of question.now.protocol.now) self.new }
        ensures same { self.new.sizes.items ≡ self.old.sizes.items }
    {
        let key = key_of(self.alloc, question.space, question.goal)?;
        if self
            .memory
            .knows(self.alloc, question.block, question.premises, &key)?
        {
            return Ok(None);
        }
        if let Some(x) = recall(question, self.memory.shown.as_slice())? {
            return Ok(Some(x));
        }
        self.find(question, key)
    }

    /// The same, by the solver.
    fn find(&mut self, question: &Question, key: Key) -> Result<Option<Counterexample>, Spent>
        requires ready { IsReady (protocol_of question.now.protocol.now) self.old }
        requires known { IsKnownBlock (protocol_of question.now.protocol.now) (Some question.now.block) }
        requires alone { question.now.block ≡ Init → question.now.premises.now.keys.items ≡ [] }
        requires goal { IsGoal (protocol_of question.now.protocol.now) question.now.space.now question.now.goal.now }
        requires key { clause_in key ≡ clause_of question.now.space.now question.now.goal.now }
        requires premises { (I : List Model.Clause) × ArePremisesOf (protocol_of question.now.protocol.now) I question.now.premises.now }
        ensures answer { IfOk result (λ answer. (I : List Model.Clause) → ArePremisesOf (protocol_of question.now.protocol.now) I question.now.premises.now → Decides (up_to self.old.sizes.items) (protocol_of question.now.protocol.now) question.now.block I (clause_of question.now.space.now question.now.goal.now) answer) }
        ensures ready { IsReady (protocol_of question.now.protocol.now) self.new }
        ensures same { self.new.sizes.items ≡ self.old.sizes.items }
    {
        let formula = question.space.formula(self.alloc, question.goal)?;
        let answer = self.inquiries.ask(
            self.alloc,
            question.protocol,
            question.block,
            question.premises.formulas.as_slice(),
            question.premises.keys.as_slice(),
            &formula,
            &key,
            self.sizes.as_slice(),
        )?;
        match answer {
            Answer::Holds(used) => self.learn(question, key, used.as_slice()),
            Answer::Broken(found) => self.show(counterexample(question.block, found)),
        }
    }

    /// Remembers that the block leads to the goal from the structures that meet the premises of these numbers.
    fn learn(
        &mut self,
        question: &Question,
        goal: Key,
        used: &[usize],
    ) -> Result<Option<Counterexample>, Spent>
        requires used { All (λ k. k < length question.now.premises.now.keys.items) used.now }
        ensures none { IfOk result (λ answer. answer ≡ None) }
        ensures ready { (P : Meaning) → IsReady P self.old → Keeps (up_to self.old.sizes.items) P question.now.block (picked_of (clauses_in question.now.premises.now.keys.items) used.now) (clause_in goal) → IsReady P self.new }
        ensures same { self.new.sizes.items ≡ self.old.sizes.items }
    {
        let needed = picked(self.alloc, question.premises.keys.as_slice(), used)?;
        self.memory.learn(
            self.alloc,
            Known {
                block: question.block,
                goal,
                needed,
            },
        )?;
        Ok(None)
    }

    /// Remembers the transition.
    fn show(&mut self, x: Counterexample) -> Result<Option<Counterexample>, Spent>
        ensures same_answer { IfOk result (λ answer. answer ≡ Some x) }
        ensures ready { (P : Meaning) → IsReady P self.old → IsTransition (up_to self.old.sizes.items) P x → IsReady P self.new }
        ensures same { self.new.sizes.items ≡ self.old.sizes.items }
    {
        self.memory.keep(copied(self.alloc, &x)?)?;
        Ok(Some(x))
    }
}
