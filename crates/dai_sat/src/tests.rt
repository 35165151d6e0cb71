use super::*;
use dai_base::Spent;
use std::alloc::Global;
use std::test::Fail;

/// The holes of the pigeons' formula.
const HOLES: usize = 6;

/// Whether the answer is a model of these bits.
fn is_model(answer: &Answer, bits: &[bool]) -> bool {
    match answer {
        Answer::Model(values) => values.as_slice() == bits,
        Answer::Unsat => false,
    }
}

/// Adds a clause of variables below the count.
fn add(cnf: &mut Cnf, lits: &[Lit]) -> Result<(), Spent> {
    let vars = cnf.vars();
    if lits.iter().all(|lit| lit.var < vars) {
        cnf.add(lits)?;
    }
    Ok(())
}

/// Two variables of which exactly one is true, and a free one, which is grown.
fn exactly_one(alloc: Global) -> Result<Cnf, Spent> {
    let mut cnf = Cnf::new(alloc, 2);
    let _ = cnf.grow();
    for positive in [true, false] {
        add(
            &mut cnf,
            &[Lit { var: 0, positive }, Lit { var: 1, positive }],
        )?;
    }
    Ok(cnf)
}

/// One pigeon more than holes: each pigeon has a hole, and no two share one.
fn pigeons(alloc: Global) -> Result<Cnf, Spent> {
    let mut cnf = Cnf::new(alloc, (HOLES + 1) * HOLES);
    for pigeon in 0..HOLES + 1 {
        let mut row = Vec::new(alloc);
        for hole in 0..HOLES {
            let var = pigeon * HOLES + hole;
            row.push(Lit {
                var,
                positive: true,
            })?;
        }
        add(&mut cnf, row.as_slice())?;
    }
    for hole in 0..HOLES {
        for second in 0..HOLES + 1 {
            for first in 0..second {
                let one = Lit {
                    var: first * HOLES + hole,
                    positive: false,
                };
                let other = Lit {
                    var: second * HOLES + hole,
                    positive: false,
                };
                add(&mut cnf, &[one, other])?;
            }
        }
    }
    Ok(cnf)
}

#[test]
fn empty_formula(rt: HostRuntime) -> Result<(), Fail> {
    let cnf = Cnf::new(rt.alloc(), 0);
    let answer = solve(rt.alloc(), &cnf, &Guide::new(0, |_| false))?;
    assert!(rt; is_model(&answer, &[]));
    Ok(())
}

#[test]
fn empty_clause(rt: HostRuntime) -> Result<(), Fail> {
    let mut cnf = Cnf::new(rt.alloc(), 1);
    add(&mut cnf, &[])?;
    let answer = solve(rt.alloc(), &cnf, &Guide::new(cnf.vars(), |_| false))?;
    assert!(rt; matches!(answer, Answer::Unsat));
    Ok(())
}

#[test]
fn least_models(rt: HostRuntime) -> Result<(), Fail> {
    let cnf = exactly_one(rt.alloc())?;
    let low = solve(rt.alloc(), &cnf, &Guide::new(cnf.vars(), |_| false))?;
    assert!(rt; is_model(&low, &[false, true, false]));
    let high = solve(rt.alloc(), &cnf, &Guide::new(cnf.vars(), |_| true))?;
    assert!(rt; is_model(&high, &[true, false, true]));
    Ok(())
}

#[test]
fn seven_pigeons(rt: HostRuntime) -> Result<(), Fail> {
    let cnf = pigeons(rt.alloc())?;
    let answer = solve(rt.alloc(), &cnf, &Guide::new(cnf.vars(), |_| false))?;
    assert!(rt; matches!(answer, Answer::Unsat));
    Ok(())
}

/// A literal from a number of DIMACS: variables count from 1, and a minus denies.
fn lit(word: i32) -> Lit {
    Lit {
        var: (word.unsigned_abs() as usize).saturating_sub(1),
        positive: word > 0,
    }
}

/// Literals from numbers of DIMACS.
fn lits(alloc: Global, words: &[i32]) -> Result<Vec<Lit>, Spent> {
    let mut all = Vec::new(alloc);
    for word in words {
        all.push(lit(*word))?;
    }
    Ok(all)
}

/// A solver over three variables with these clauses.
fn solver_of(alloc: Global, clauses: &[&[i32]]) -> Result<Solver, Spent> {
    let mut cnf = Cnf::new(alloc, 3);
    for clause in clauses {
        add(&mut cnf, lits(alloc, clause)?.as_slice())?;
    }
    Ok(Solver::new(alloc, cnf))
}

/// Adds a clause of variables below the count to a solver.
fn put(solver: &mut Solver, lits: &[Lit]) -> Result<(), Spent> {
    let vars = solver.formula().vars();
    if lits.iter().all(|lit| lit.var < vars) {
        solver.add(lits)?;
    }
    Ok(())
}

/// Asks under assumptions of variables below three: the values of a model, or the names that fail.
fn ask(alloc: Global, solver: &mut Solver, words: &[i32]) -> Result<Outcome, Spent> {
    let all = lits(alloc, words)?;
    let vars = solver.formula().vars();
    if all.iter().all(|lit| lit.var < vars) {
        return solver.solve_under(all.as_slice());
    }
    Err(Spent)
}

/// Whether the outcome is a model with these values first.
fn finds(outcome: &Outcome, bits: &[bool]) -> bool {
    match outcome {
        Outcome::Model(values) => bits.iter().zip(values).all(|(bit, value)| *bit == *value),
        Outcome::Unsat(_) => false,
    }
}

/// Whether the outcome names these literals, in this order.
fn fails(outcome: &Outcome, words: &[i32]) -> bool {
    match outcome {
        Outcome::Model(_) => false,
        Outcome::Unsat(names) => {
            names.len() == words.len()
                && words
                    .iter()
                    .all(|word| names.iter().any(|name| *name == lit(*word)))
        }
    }
}

#[test]
fn assumptions_and_units(rt: HostRuntime) -> Result<(), Fail> {
    let alloc = rt.alloc();
    let mut solver = solver_of(alloc, &[&[1], &[-1, 2], &[-2, -3]])?;
    assert!(rt; finds(&ask(alloc, &mut solver, &[])?, &[true, true, false]));
    assert!(rt; finds(&ask(alloc, &mut solver, &[1, -3, 1])?, &[true, true, false]));
    assert!(rt; fails(&ask(alloc, &mut solver, &[3])?, &[3]));
    assert!(rt; fails(&ask(alloc, &mut solver, &[2, -1])?, &[-1]));
    assert!(rt; finds(&ask(alloc, &mut solver, &[])?, &[true, true, false]));
    Ok(())
}

#[test]
fn assumptions_that_clash(rt: HostRuntime) -> Result<(), Fail> {
    let alloc = rt.alloc();
    let mut solver = solver_of(alloc, &[&[-1, -2], &[1, 2, 3]])?;
    assert!(rt; fails(&ask(alloc, &mut solver, &[3, -3])?, &[3, -3]));
    assert!(rt; fails(&ask(alloc, &mut solver, &[3, 1, 2])?, &[1, 2]));
    assert!(rt; fails(&ask(alloc, &mut solver, &[-1, -2, -3])?, &[-1, -2, -3]));
    assert!(rt; finds(&ask(alloc, &mut solver, &[-1, -2])?, &[false, false, true]));
    Ok(())
}

#[test]
fn clauses_between(rt: HostRuntime) -> Result<(), Fail> {
    let alloc = rt.alloc();
    let mut solver = solver_of(alloc, &[&[1, 2]])?;
    assert!(rt; finds(&ask(alloc, &mut solver, &[-1])?, &[false, true]));
    if solver.formula().vars() == 3 {
        assert!(rt; solver.grow() == 3);
    }
    put(&mut solver, lits(alloc, &[-2, 4])?.as_slice())?;
    assert!(rt; fails(&ask(alloc, &mut solver, &[-4, -1])?, &[-4, -1]));
    put(&mut solver, &[])?;
    assert!(rt; fails(&ask(alloc, &mut solver, &[1])?, &[]));
    Ok(())
}

#[test]
fn seven_pigeons_any(rt: HostRuntime) -> Result<(), Fail> {
    let alloc = rt.alloc();
    let mut solver = Solver::new(alloc, pigeons(alloc)?);
    assert!(rt;
        fails(&ask(alloc, &mut solver, &[1])?, &[]) || fails(&ask(alloc, &mut solver, &[])?, &[])
    );
    Ok(())
}
