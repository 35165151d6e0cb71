ghost use Rattle.std.specs.Prelude.{◌≡◌, ◌≤◌, length, vec_len, IfOk};
ghost use Rattle.std.specs.List.{All};
ghost use Rattle.dai_logic.specs.Protocols.{protocol_of};
ghost use Rattle.dai_template.specs.Spaces.{IsSpaceOf};

use crate::beginning::everything;
use crate::descent::greatest;
use crate::following::missing;
use crate::judge::{Counterexample, Judge};
use dai_base::Spent;
use dai_logic::{Formula, Protocol};
use dai_samples::steps;
use dai_template::{Clause, Space};
use std::alloc::Global;
use std::test::Fail;

/// A judge over the structures that have no element of a protocol's one type. There are none, so all is true of them.
/// It counts what it is asked.
#[derive(Drop)]
struct Nowhere {
    rounds: u32,
    questions: u32,
}

/// Premises that no structure meets.
#[derive(Drop)]
struct NoPremises {}

impl Judge for Nowhere {
    ghost use Rattle.std.specs.Prelude.{[], ◌∷◌};
    ghost use Rattle.dai_model.specs.Classes.{up_to};
    ghost use Rattle.dai_model.specs.WellSorted.{IsProtocol};

    type Premises = NoPremises;

    ghost class = { λ nowhere. up_to (0 ∷ []) };

    ghost judges = { λ nowhere P. IsProtocol P };

    ghost prepared = { λ nowhere premises P I. Unit {0} };

    fn prepare(
        &mut self,
        _protocol: &Protocol,
        _space: &Space,
        _clauses: &[Clause],
    ) -> Result<NoPremises, Spent> {
        self.rounds = self.rounds.wrapping_add(1);
        Ok(NoPremises {})
    }

    fn initiation(
        &mut self,
        _protocol: &Protocol,
        _space: &Space,
        _goal: &Clause,
    ) -> Result<Option<Counterexample>, Spent> {
        self.questions = self.questions.wrapping_add(1);
        Ok(None)
    }

    fn consecution(
        &mut self,
        _protocol: &Protocol,
        _space: &Space,
        _premises: &NoPremises,
        _action: u8,
        _goal: &Clause,
    ) -> Result<Option<Counterexample>, Spent> {
        self.questions = self.questions.wrapping_add(1);
        Ok(None)
    }

    fn entailed(
        &mut self,
        _protocol: &Protocol,
        _premises: &NoPremises,
        _formula: &Formula,
    ) -> Result<bool, Spent> {
        Ok(true)
    }
}

/// The space of the protocol with clauses of two literals.
fn space_of(alloc: Global, protocol: &Protocol, vars: &[u8]) -> Result<Space, Fail>
    requires each { length vars.now ≡ vec_len protocol.now.sorts }
    requires few { All (λ bound. bound ≤ 4) vars.now }
    ensures { IfOk result (IsSpaceOf (protocol_of protocol.now) (record { variables = vars.now; literals = 2 })) }
{
    match Space::new(alloc, protocol, vars, 2) {
        Ok(space) => Ok(space),
        Err(_) => Err("no space".into()),
    }
}

/// Over no structure at all the clause that is below all others is the answer, and it is asked about once.
#[test]
fn nothing_falls_where_there_is_no_structure(rt: HostRuntime) -> Result<(), Fail> {
    let alloc = rt.alloc();
    let protocol = steps(alloc)?;
    let space = space_of(alloc, &protocol, &[2])?;
    let mut judge = Nowhere {
        rounds: 0,
        questions: 0,
    };
    let start = everything(alloc, &space)?;
    let weakened = greatest(alloc, &mut judge, &protocol, &space, start)?;
    assert_eq!(rt; weakened.strikes.len(), 0);
    assert_eq!(rt; weakened.kept.clauses().len(), 1);
    for clause in weakened.kept.clauses() {
        assert_eq!(rt; clause.shape, 0);
        assert_eq!(rt; clause.lits.len(), 0);
    }
    assert_eq!(rt; judge.rounds, 1);
    assert_eq!(rt; judge.questions, 1);
    let missing = missing(alloc, &mut judge, &protocol, &space, &weakened.kept)?;
    assert_eq!(rt; missing.len(), 0);
    Ok(())
}
