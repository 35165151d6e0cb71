//! What answers a question that stands as clauses, and the question with one premise more.
ghost use Rattle.std.specs.Prelude.{◌≡◌, ◌∷◌, ◌++◌, [], ℕ, Bool, true, false, not, List, Option, IfOk, OnOk};
ghost use Rattle.dai_model.specs.Formula as Model;
ghost use Rattle.dai_model.specs.Protocol.{Block as CalledBlock};
ghost use Rattle.dai_model.specs.WellSorted.{IsWellSorted, closed_scope};
ghost use Rattle.dai_trail.specs.Formula.{IsModelOf, AreMetBy};
ghost use Rattle.dai_logic.specs.Protocols.{protocol_of};
ghost use Rattle.dai_logic.specs.Trees.{formula_of};
ghost use Rattle.dai_picture.specs.Worlds.{World, ShowsWorld};
ghost use Rattle.dai_ground.specs.Asking.{IsKnown, HasTruth, block_asked};
ghost use Rattle.dai_ground.specs.Questions.{IsQuestion, IsDecided, AgreeInFront, IsDecoded, IsAnswer, IsSceneOf, IsRefined};

use crate::candidates::Scene;
use crate::finding::{found, is_true};
use crate::found::Found;
use crate::restricting::restricted;
use crate::wide::Wide;
use dai_base::Spent;
use dai_logic::{BlockId, Formula, Protocol};
use dai_picture::decode::decode;
use dai_trail::Cnf;
use std::alloc::Global;
use std::mem;

impl Wide {
    /// What answers the question by an assignment that meets the clauses: the structure before, the arguments and the
    /// choices that it shows, and the structure after. The assignment has a value for each variable. Assignments that
    /// agree on the variables at the front give the same answer.
    ///
    /// # Errors
    /// `Spent` where memory is wanting.
    pub fn decode(
        &self,
        alloc: Global,
        protocol: &Protocol,
        block: Option<BlockId>,
        model: &[bool],
    ) -> Result<Found, Spent>
        requires known { IsKnown (protocol_of protocol.now) block }
        requires question { (exact : Bool) × (sizes : List ℕ) × (before : List Model.Formula) × (broken : Option Model.Formula) × IsQuestion (protocol_of protocol.now) (block_asked (protocol_of protocol.now) block) exact sizes before broken self.now }
        requires model { IsModelOf self.now.cnf model.now }
        ensures shown { IfOk result (IsDecoded (protocol_of protocol.now) (block_asked (protocol_of protocol.now) block) self.now model.now) }
        ensures answers { IfOk result (λ x. (exact : Bool) (sizes : List ℕ) (before : List Model.Formula) (broken : Option Model.Formula) → IsQuestion (protocol_of protocol.now) (block_asked (protocol_of protocol.now) block) exact sizes before broken self.now → IsAnswer (protocol_of protocol.now) (block_asked (protocol_of protocol.now) block) exact sizes before broken x) }
        ensures decides { IfOk result (λ x. IsDecided (protocol_of protocol.now) (block_asked (protocol_of protocol.now) block) self.now → (more : List Bool) → AgreeInFront self.now more model.now → IsDecoded (protocol_of protocol.now) (block_asked (protocol_of protocol.now) block) self.now more x) }
    {
        let decoded = decode(alloc, protocol, &self.frame, &self.picture, model)?;
        let answer = found(alloc, protocol, block, decoded)?;
        Ok(answer)
    }

    /// Adds that what is shown meets the closed premise.
    pub(crate) fn add(
        &mut self,
        alloc: Global,
        protocol: &Protocol,
        premise: &Formula,
    ) -> Result<(), Spent>
        requires scene { IsSceneOf (protocol_of protocol.now) self.old }
        requires closed { IsWellSorted (protocol_of protocol.now) closed_scope (formula_of premise.now) }
        ensures { OnOk result (IsRefined (protocol_of protocol.now) (formula_of premise.now) self.old self.new) }
    {
        let cnf = mem::replace(&mut self.cnf, Cnf::new(alloc, 0));
        let scene = Scene {
            alloc,
            protocol,
            frame: &self.frame,
            picture: &self.picture,
        };
        self.cnf = restricted(&scene, cnf, premise)?;
        Ok(())
    }

    /// Adds the closed premise to the question, unless the structure before that the assignment shows meets it; then
    /// the answer is false, and nothing changes. The assignment meets the clauses and has a value for each variable.
    /// After true no assignment that meets the clauses agrees with it on the variables at the front; each that meets
    /// them met the old ones and shows the same; and what was shown still is where its structure before meets the
    /// premise. New variables come after the old ones.
    ///
    /// # Errors
    /// `Spent` where memory is wanting, and where there are too many variables or clauses for a formula. The value is
    /// of no use then.
    pub fn refine(
        &mut self,
        alloc: Global,
        protocol: &Protocol,
        model: &[bool],
        premise: &Formula,
    ) -> Result<bool, Spent>
        requires question { (asked : Option CalledBlock) × (exact : Bool) × (sizes : List ℕ) × (before : List Model.Formula) × (broken : Option Model.Formula) × IsQuestion (protocol_of protocol.now) asked exact sizes before broken self.old }
        requires model { IsModelOf self.old.cnf model.now }
        requires closed { IsWellSorted (protocol_of protocol.now) closed_scope (formula_of premise.now) }
        ensures answer { IfOk result (λ added. (w : World) → ShowsWorld (protocol_of protocol.now) self.old.frame self.old.picture model.now w → HasTruth (formula_of premise.now) (not added) w.structure) }
        ensures kept { IfOk result (λ added. added ≡ false → self.new ≡ self.old) }
        ensures refined { IfOk result (λ added. added ≡ true → IsRefined (protocol_of protocol.now) (formula_of premise.now) self.old self.new) }
        ensures excluded { IfOk result (λ added. added ≡ true → (asked : Option CalledBlock) → IsDecided (protocol_of protocol.now) asked self.old → (bits : List Bool) → AreMetBy self.new.cnf bits → AgreeInFront self.old bits model.now → ⊥) }
        ensures question { IfOk result (λ added. added ≡ true → (asked : Option CalledBlock) (exact : Bool) (sizes : List ℕ) (before : List Model.Formula) (broken : Option Model.Formula) → IsQuestion (protocol_of protocol.now) asked exact sizes before broken self.old → IsQuestion (protocol_of protocol.now) asked exact sizes (before ++ formula_of premise.now ∷ []) broken self.new) }
    {
        let decoded = decode(alloc, protocol, &self.frame, &self.picture, model)?;
        if is_true(alloc, protocol, premise, &decoded.structure)? {
            return Ok(false);
        }
        self.add(alloc, protocol, premise)?;
        Ok(true)
    }
}
