ghost use Rattle.std.specs.Prelude.{◌≡◌, ◌≤◌, length, vec_len, IfOk};
ghost use Rattle.std.specs.List.{All};
ghost use Rattle.dai_logic.specs.Protocols.{protocol_of};
ghost use Rattle.dai_print.specs.Texts.{ArePrintable};
ghost use Rattle.dai_template.specs.Spaces.{IsSpaceOf};

use crate::clauses::clause_text;
use crate::report::report_text;
use dai_base::Spent;
use dai_logic::Protocol;
use dai_samples::{locks, two_flags};
use dai_template::{Clause, Space};
use std::alloc::Global;
use std::test::Fail;

/// The space of the protocol within these bounds.
fn space_of(alloc: Global, protocol: &Protocol, vars: &[u8], most: u8) -> Result<Space, Fail>
    requires each { length vars.now ≡ vec_len protocol.now.sorts }
    requires variables { All (λ bound. bound ≤ 4) vars.now }
    requires literals { most ≤ 8 }
    ensures { IfOk result (IsSpaceOf (protocol_of protocol.now) (record { variables = vars.now; literals = most })) }
{
    match Space::new(alloc, protocol, vars, most) {
        Ok(space) => Ok(space),
        Err(_) => Err("no space".into()),
    }
}

/// How many of the clauses have this text.
fn count(
    alloc: Global,
    protocol: &Protocol,
    space: &Space,
    clauses: &[Clause],
    wanted: &str,
) -> Result<u32, Spent>
    requires { ArePrintable (protocol_of protocol.now) space.now clauses.now }
{
    let mut count = 0u32;
    for clause in clauses {
        let text = clause_text(alloc, protocol, space, clause)?;
        if text.as_slice() == wanted.as_bytes() {
            count = count.saturating_add(1);
        }
    }
    Ok(count)
}

/// How many of the canonical clauses of two literals about locks have this text.
fn count_of_locks(alloc: Global, wanted: &str) -> Result<u32, Fail> {
    let protocol = locks(alloc)?;
    let space = space_of(alloc, &protocol, &[2, 1], 2)?;
    let clauses = space.all(alloc)?;
    Ok(count(alloc, &protocol, &space, &clauses, wanted)?)
}

#[test]
fn texts_of_clauses(rt: HostRuntime) -> Result<(), Fail> {
    for (wanted, times) in [
        (
            "forall Client1:client, Server1:server. ~link(Client1,Server1) | ~semaphore(Server1)",
            1,
        ),
        (
            "forall Client1:client, Client2:client, Server1:server. Client1 ~= Client2 -> ~link(Client1,Server1) | ~link(Client2,Server1)",
            1,
        ),
        (
            "forall Client1:client, Client2:client, Server1:server. Client1 ~= Client2 -> ~link(Client2,Server1) | ~link(Client1,Server1)",
            0,
        ),
        ("false", 1),
    ] {
        assert_eq!(rt; count_of_locks(rt.alloc(), wanted)?, times, "{wanted}");
    }
    Ok(())
}

/// The report of the clause without literals over two flags.
fn report(alloc: Global, missing: &[u32]) -> Result<Vec<u8>, Fail> {
    let protocol = two_flags(alloc)?;
    let space = space_of(alloc, &protocol, &[], 0)?;
    let clauses = space.all(alloc)?;
    Ok(report_text(alloc, &protocol, &space, &clauses, missing)?)
}

#[test]
fn texts_of_reports(rt: HostRuntime) -> Result<(), Fail> {
    let found = report(rt.alloc(), &[])?;
    assert_eq!(rt;
        found.as_slice(),
        b"invariant [d1] false\nFOUND\n".as_slice()
    );
    let not_found = report(rt.alloc(), &[0])?;
    assert_eq!(rt;
        not_found.as_slice(),
        b"invariant [d1] false\nNOT FOUND excl\n".as_slice()
    );
    Ok(())
}
