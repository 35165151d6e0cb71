//! Bits of clauses that were grounded, to be found again.
ghost use Rattle.std.specs.Prelude.{◌≡◌, [], IsTrue, IfOk, IfSome, List, map};
ghost use Rattle.std.specs.List.{All};
ghost use Rattle.dai_model.specs.Formula as Model;
ghost use Rattle.dai_model.specs.Protocol.{Protocol};
ghost use Rattle.dai_trail.specs.Formula.{Formula};
ghost use Rattle.dai_picture.specs.declared.picture.Frame.{Frame};
ghost use Rattle.dai_picture.specs.declared.picture.Picture.{Picture};
ghost use Rattle.dai_template.specs.ClauseFormulas.{formula_of_clause};
ghost use Rattle.dai_inquiry.specs.Keys.{clause_in, clauses_in};
ghost use Rattle.dai_inquiry.specs.Truths.{IsTruth, AreTruths, IsPick};

use crate::keys::{Key, copy, is_same};
use dai_base::Spent;
use dai_circuit::Bit;
use indexmap::IndexMap;
use std::alloc::Global;

/// A clause, and the bit that it is met in what a picture shows.
#[derive(Drop)]
pub struct Truth {
    pub key: Key,
    pub bit: Bit,
}

/// Clauses and their bits in one picture. The places say where a clause stands, as a hint.
#[derive(Drop)]
pub struct Truths {
    pub(crate) kept: Vec<Truth>,
    pub(crate) places: IndexMap<Vec<u8>, usize>,
}

/// A premise by its number, and its bit.
#[derive(Clone, Copy, Debug, PartialEq, Eq)]
pub struct Pick {
    pub number: usize,
    pub bit: Bit,
}

impl Truths {
    /// No clause.
    pub(crate) fn new(alloc: Global) -> Truths
        ensures { result.kept.items ≡ [] }
    {
        Truths {
            kept: Vec::new(alloc),
            places: IndexMap::new(alloc),
        }
    }

    /// The bit that stands at the place, if it is the clause's.
    fn bit_at(&self, place: usize, key: &Key) -> Option<Bit>
        ensures { IfSome result (λ bit. (P : Protocol) (frame : Frame) (picture : Picture) (clauses : Formula) → AreTruths P frame picture clauses self.now.kept.items → IsTruth P frame picture (formula_of_clause P (clause_in key.now)) clauses bit) }
    {
        let truth = self.kept.get(place)?;
        if is_same(&truth.key, key) {
            Some(truth.bit)
        } else {
            None
        }
    }

    /// The bit of the clause, if it is kept. Where the hint is wrong there is none.
    pub(crate) fn find(&self, key: &Key) -> Option<Bit>
        ensures { IfSome result (λ bit. (P : Protocol) (frame : Frame) (picture : Picture) (clauses : Formula) → AreTruths P frame picture clauses self.now.kept.items → IsTruth P frame picture (formula_of_clause P (clause_in key.now)) clauses bit) }
    {
        let place = self.places.get(key.bytes.as_slice())?;
        self.bit_at(*place, key)
    }

    /// Keeps the bit of the clause.
    pub(crate) fn keep(&mut self, alloc: Global, key: &Key, bit: Bit) -> Result<(), Spent>
        ensures { (P : Protocol) (frame : Frame) (picture : Picture) (clauses : Formula) → AreTruths P frame picture clauses self.old.kept.items → IsTruth P frame picture (formula_of_clause P (clause_in key.now)) clauses bit → AreTruths P frame picture clauses self.new.kept.items }
    {
        let name = Vec::from_slice(alloc, &key.bytes)?;
        let key = copy(alloc, key)?;
        self.places.insert(name, self.kept.len())?;
        self.kept.push(Truth { key, bit })?;
        Ok(())
    }

    /// Those of the premises of which the bits are kept.
    pub(crate) fn known(&self, alloc: Global, keys: &[Key]) -> Result<Vec<Pick>, Spent>
        ensures { IfOk result (λ picks. (P : Protocol) (frame : Frame) (picture : Picture) (clauses : Formula) (premises : List Model.Formula) → AreTruths P frame picture clauses self.now.kept.items → premises ≡ map (formula_of_clause P) (clauses_in keys.now) → All (IsPick P frame picture premises clauses) picks.items) }
    {
        let mut picks = Vec::new(alloc);
        for number in 0..keys.len() {
            let Some(bit) = self.find(&keys[number]) else {
                continue;
            };
            picks.push(Pick { number, bit })?;
        }
        Ok(picks)
    }
}
