//! Clauses as formulas, and which clauses they are.
ghost use Rattle.std.specs.Prelude.{◌≡◌, [], map, IsTrue, IfOk};
ghost use Rattle.dai_model.specs.Protocol.{Protocol as Meaning};
ghost use Rattle.dai_logic.specs.Trees.{formula_of};
ghost use Rattle.dai_template.specs.ClauseFormulas.{formula_of_clause};
ghost use Rattle.dai_template.specs.Lists.{clauses_of};
ghost use Rattle.dai_weaken.specs.Questions.{ArePremises};
ghost use Rattle.dai_inquiry.specs.Keys.{clauses_in};

use crate::keys::key_of;
use dai_base::Spent;
use dai_inquiry::keys::{Key, is_same};
use dai_logic::Formula;
use dai_template::{Clause, Space};
use indexmap::IndexMap;
use std::alloc::Global;

/// Premises: the formula of each clause, and its key. The places say where a key stands, as a hint.
#[derive(Drop)]
pub struct Premises {
    pub(crate) formulas: Vec<Formula>,
    pub(crate) keys: Vec<Key>,
    pub(crate) places: IndexMap<Vec<u8>, usize>,
}

/// The formulas of the clauses.
pub(crate) fn formulas(
    alloc: Global,
    space: &Space,
    clauses: &[Clause],
) -> Result<Vec<Formula>, Spent>
    requires { (P : Meaning) × ArePremises P space.now clauses.now }
    ensures { IfOk result (λ fs. (P : Meaning) → ArePremises P space.now clauses.now → map formula_of fs.items ≡ map (formula_of_clause P) (clauses_of space.now clauses.now)) }
{
    let mut formulas = Vec::with_capacity(alloc, clauses.len())?;
    for clause in clauses {
        formulas.push(space.formula(alloc, clause)?)?;
    }
    Ok(formulas)
}

/// The keys of the clauses.
pub(crate) fn keys(alloc: Global, space: &Space, clauses: &[Clause]) -> Result<Vec<Key>, Spent>
    requires { (P : Meaning) × ArePremises P space.now clauses.now }
    ensures { IfOk result (λ ks. clauses_in ks.items ≡ clauses_of space.now clauses.now) }
{
    let mut keys = Vec::with_capacity(alloc, clauses.len())?;
    for clause in clauses {
        keys.push(key_of(alloc, space, clause)?)?;
    }
    Ok(keys)
}

/// Where each key stands.
pub(crate) fn places(alloc: Global, keys: &[Key]) -> Result<IndexMap<Vec<u8>, usize>, Spent> {
    let mut places = IndexMap::new(alloc);
    for (place, key) in keys.iter().enumerate() {
        places.insert(Vec::from_slice(alloc, &key.bytes)?, place)?;
    }
    Ok(places)
}

impl Premises {
    ghost use Rattle.std.specs.List.{Contains};
    ghost use Rattle.dai_inquiry.specs.Keys.{clause_in};
    ghost use Rattle.dai_judge.specs.Memory.{AreAmong};

    /// No premise.
    pub(crate) fn none(alloc: Global) -> Premises
        ensures formulas { result.formulas.items ≡ [] }
        ensures keys { result.keys.items ≡ [] }
    {
        Premises {
            formulas: Vec::new(alloc),
            keys: Vec::new(alloc),
            places: IndexMap::new(alloc),
        }
    }

    /// Whether the key stands there.
    fn is_at(&self, place: usize, key: &Key) -> bool
        ensures { IsTrue result → Contains (clauses_in self.now.keys.items) (clause_in key.now) }
    {
        match self.keys.get(place) {
            None => false,
            Some(own) => is_same(own, key),
        }
    }

    /// Whether the clause is one of the premises. Where the hint is wrong it says no.
    fn has(&self, key: &Key) -> bool
        ensures { IsTrue result → Contains (clauses_in self.now.keys.items) (clause_in key.now) }
    {
        match self.places.get(key.bytes.as_slice()) {
            None => false,
            Some(place) => self.is_at(*place, key),
        }
    }

    /// Whether each of the clauses is one of the premises.
    pub(crate) fn has_each(&self, keys: &[Key]) -> bool
        ensures { IsTrue result → AreAmong (clauses_in keys.now) (clauses_in self.now.keys.items) }
    {
        for key in keys {
            if !self.has(key) {
                return false;
            }
        }
        true
    }
}
