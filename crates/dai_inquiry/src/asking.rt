//! Questions of an inquiry.
ghost use Rattle.std.specs.Prelude.{◌≡◌, ◌<◌, ℕ, true, List, IfOk, length, map};
ghost use Rattle.std.specs.List.{All};
ghost use Rattle.dai_model.specs.Formula as Model;
ghost use Rattle.dai_model.specs.WellSorted.{IsWellSorted, closed_scope};
ghost use Rattle.dai_trail.specs.Formula.{IsModelOf};
ghost use Rattle.dai_circuit.specs.Circuits.{Extends, all_value};
ghost use Rattle.dai_logic.specs.Protocols.{protocol_of, block_named};
ghost use Rattle.dai_logic.specs.Trees.{formula_of};
ghost use Rattle.dai_template.specs.ClauseFormulas.{formula_of_clause};
ghost use Rattle.dai_ground.specs.Asking.{IsScene};
ghost use Rattle.dai_ground.specs.Answers.{IsAnswerTo};
ghost use Rattle.dai_inquiry.specs.Keys.{clause_in, clauses_in};
ghost use Rattle.dai_inquiry.specs.Truths.{IsTruth, IsPick};
ghost use Rattle.dai_inquiry.specs.Inquiries.{IsInquiry, IsLater};
ghost use Rattle.dai_inquiry.specs.Asked.{AreAsked, parts_of, IsTurn};

use crate::asked::Asked;
use crate::inquiry::Inquiry;
use crate::keys::Key;
use crate::truths::Pick;
use dai_base::Spent;
use dai_circuit::{Bit, Circuit, Solved};
use dai_ground::candidates::Scene;
use dai_ground::finding::{first_unmet, found};
use dai_ground::found::{Answer, Found};
use dai_ground::requirements::ground_alone;
use dai_logic::{BlockId, Formula, Protocol};
use dai_picture::decode::decode;

/// Nothing is found, whatever meets the premises of these numbers; or something that meets all premises; or the number of
/// a premise that has to be asked for.
#[derive(Drop)]
enum Turn {
    Done(Vec<usize>),
    Shown(Found),
    Again(usize),
}

/// The bit that the closed formula is true in what the picture shows.
fn truth(circuit: &mut Circuit, scene: &Scene, formula: &Formula) -> Result<Bit, Spent>
    requires scene { IsScene (protocol_of scene.now.protocol.now) scene.now.frame.now scene.now.picture.now circuit.old.vars }
    requires closed { IsWellSorted (protocol_of scene.now.protocol.now) closed_scope (formula_of formula.now) }
    ensures extends { Extends circuit.old circuit.new }
    ensures truth { IfOk result (IsTruth (protocol_of scene.now.protocol.now) scene.now.frame.now scene.now.picture.now (formula_of formula.now) circuit.new) }
{
    ground_alone(circuit, scene, formula)
}

impl Inquiry {
    /// The block that is asked about.
    pub fn block(&self) -> BlockId
        ensures { result ≡ self.now.block }
    {
        self.block
    }

    /// What the model shows: a structure that meets all premises, with what the block leaves, or the first premise that
    /// it doesn't meet.
    fn read(&self, protocol: &Protocol, premises: &[Formula], model: &[bool]) -> Result<Turn, Spent>
        requires inquiry { (sizes : List ℕ) × IsInquiry (protocol_of protocol.now) sizes self.now }
        requires premises { All (IsWellSorted (protocol_of protocol.now) closed_scope) (map formula_of premises.now) }
        requires model { IsModelOf self.now.circuit model.now }
        ensures { IfOk result (λ t. (sizes : List ℕ) (f : Model.Formula) (asked : Asked) → IsInquiry (protocol_of protocol.now) sizes self.now → AreAsked (protocol_of protocol.now) self.now.pictures (map formula_of premises.now) f self.now.circuit asked → all_value (parts_of asked) model.now ≡ true → IsTurn (protocol_of protocol.now) (block_named (protocol_of protocol.now) self.now.block) (map formula_of premises.now) f sizes t) }
    {
        let decoded = decode(
            self.alloc,
            protocol,
            &self.pictures.frame,
            &self.pictures.before,
            model,
        )?;
        match first_unmet(self.alloc, protocol, premises, &decoded.structure)? {
            None => Ok(Turn::Shown(found(self.alloc, protocol, Some(self.block), decoded)?)),
            Some(number) => Ok(Turn::Again(number)),
        }
    }

    /// One turn: an assignment is looked for in which all is as it is asked for.
    fn take_turn(
        &mut self,
        protocol: &Protocol,
        premises: &[Formula],
        asked: &Asked,
    ) -> Result<Turn, Spent>
        requires inquiry { (sizes : List ℕ) × IsInquiry (protocol_of protocol.now) sizes self.old }
        requires premises { All (IsWellSorted (protocol_of protocol.now) closed_scope) (map formula_of premises.now) }
        requires asked { (f : Model.Formula) × AreAsked (protocol_of protocol.now) self.old.pictures (map formula_of premises.now) f self.old.circuit asked.now }
        ensures later { IsLater (protocol_of protocol.now) self.old self.new }
        ensures same { self.new.circuit ≡ self.old.circuit }
        ensures turn { IfOk result (λ t. (sizes : List ℕ) (f : Model.Formula) → IsInquiry (protocol_of protocol.now) sizes self.old → AreAsked (protocol_of protocol.now) self.old.pictures (map formula_of premises.now) f self.old.circuit asked.now → IsTurn (protocol_of protocol.now) (block_named (protocol_of protocol.now) self.old.block) (map formula_of premises.now) f sizes t) }
    {
        self.calls = self.calls.checked_add(1).ok_or(Spent)?;
        let parts = asked.parts(self.alloc)?;
        match self.circuit.solve_under(parts.as_slice())? {
            Solved::Core(core) => Ok(Turn::Done(asked.needed(self.alloc, core.as_slice())?)),
            Solved::Model(model) => self.read(protocol, premises, model.as_slice()),
        }
    }

    /// The bit that the goal is met in what the block leaves; it is grounded where it wasn't.
    fn goal_bit(&mut self, protocol: &Protocol, formula: &Formula, key: &Key) -> Result<Bit, Spent>
        requires inquiry { (sizes : List ℕ) × IsInquiry (protocol_of protocol.now) sizes self.old }
        requires closed { IsWellSorted (protocol_of protocol.now) closed_scope (formula_of formula.now) }
        requires key { formula_of formula.now ≡ formula_of_clause (protocol_of protocol.now) (clause_in key.now) }
        ensures later { IsLater (protocol_of protocol.now) self.old self.new }
        ensures truth { IfOk result (IsTruth (protocol_of protocol.now) self.old.pictures.frame self.old.pictures.after (formula_of formula.now) self.new.circuit) }
    {
        if let Some(bit) = self.goals.find(key) {
            return Ok(bit);
        }
        let scene = Scene {
            alloc: self.alloc,
            protocol,
            frame: &self.pictures.frame,
            picture: &self.pictures.after,
        };
        let vars = self.circuit.formula().vars();
        let bit = truth(&mut self.circuit, &scene, formula)?;
        let added = self.circuit.formula().vars() - vars;
        self.goal_vars = self.goal_vars.checked_add(added).ok_or(Spent)?;
        self.goals.keep(self.alloc, key, bit)?;
        Ok(bit)
    }

    /// The premise of this number with the bit that it is met, which is grounded for it.
    fn ground_premise(
        &mut self,
        protocol: &Protocol,
        premises: &[Formula],
        keys: &[Key],
        number: usize,
    ) -> Result<Pick, Spent>
        requires inquiry { (sizes : List ℕ) × IsInquiry (protocol_of protocol.now) sizes self.old }
        requires premises { All (IsWellSorted (protocol_of protocol.now) closed_scope) (map formula_of premises.now) }
        requires keys { map formula_of premises.now ≡ map (formula_of_clause (protocol_of protocol.now)) (clauses_in keys.now) }
        requires inside { number < length premises.now }
        requires named { number < length keys.now }
        ensures later { IsLater (protocol_of protocol.now) self.old self.new }
        ensures pick { IfOk result (IsPick (protocol_of protocol.now) self.old.pictures.frame self.old.pictures.before (map formula_of premises.now) self.new.circuit) }
    {
        let scene = Scene {
            alloc: self.alloc,
            protocol,
            frame: &self.pictures.frame,
            picture: &self.pictures.before,
        };
        let bit = truth(&mut self.circuit, &scene, &premises[number])?;
        self.premises.keep(self.alloc, &keys[number], bit)?;
        Ok(Pick { number, bit })
    }

    /// Looks, among the structures within the inquiry's sizes, for one that meets the axioms and the premises and from
    /// which the block leads to one in which the formula is false. `Holds` comes exactly where there is no such
    /// structure, and then there is none either that meets the premises of the numbers which it names. The formulas are
    /// those of clauses, each with its key.
    ///
    /// A premise is grounded once a structure that doesn't meet it has been shown, and asked for at once by every later
    /// question; the numbers are those of the core that the solver names (Eén and Sörensson, 2003).
    ///
    /// # Errors
    /// `Spent` where memory is wanting, and where there are too many variables or clauses for a formula. The inquiry may
    /// be asked again.
    pub fn ask(
        &mut self,
        protocol: &Protocol,
        premises: &[Formula],
        keys: &[Key],
        broken: &Formula,
        goal: &Key,
    ) -> Result<Answer, Spent>
        requires inquiry { (sizes : List ℕ) × IsInquiry (protocol_of protocol.now) sizes self.old }
        requires premises { All (IsWellSorted (protocol_of protocol.now) closed_scope) (map formula_of premises.now) }
        requires closed { IsWellSorted (protocol_of protocol.now) closed_scope (formula_of broken.now) }
        requires keys { map formula_of premises.now ≡ map (formula_of_clause (protocol_of protocol.now)) (clauses_in keys.now) }
        requires goal { formula_of broken.now ≡ formula_of_clause (protocol_of protocol.now) (clause_in goal.now) }
        ensures later { IsLater (protocol_of protocol.now) self.old self.new }
        ensures answer { IfOk result (λ answer. (sizes : List ℕ) → IsInquiry (protocol_of protocol.now) sizes self.old → IsAnswerTo (protocol_of protocol.now) (block_named (protocol_of protocol.now) self.old.block) (map formula_of premises.now) (formula_of broken.now) sizes answer) }
    {
        let goal = self.goal_bit(protocol, broken, goal)?;
        let mut asked = Asked {
            goal,
            premises: self.premises.known(self.alloc, keys)?,
        };
        for _turn in 0..u64::MAX {
            match self.take_turn(protocol, premises, &asked)? {
                Turn::Done(numbers) => return Ok(Answer::Holds(numbers)),
                Turn::Shown(found) => return Ok(Answer::Broken(found)),
                Turn::Again(number) => {
                    let pick = self.ground_premise(protocol, premises, keys, number)?;
                    asked.premises.push(pick)?;
                }
            }
        }
        Err(Spent)
    }
}
