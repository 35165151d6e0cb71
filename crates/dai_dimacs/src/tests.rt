use crate::ask::{Talk, answer_all};
use crate::read::{Reading, read};
use dai_base::Spent;
use std::alloc::Global;
use std::test::Fail;

/// The number of the line that is wrong, or 0 where the file is one of a formula.
fn wrong_line(alloc: Global, text: &str) -> Result<usize, Spent> {
    match read(alloc, text.as_bytes())? {
        Reading::Formula(_) => Ok(0),
        Reading::Malformed(line) => Ok(line),
    }
}

#[test]
fn finds_the_wrong_line(rt: HostRuntime) -> Result<(), Fail> {
    for (text, want) in [
        ("c front\np cnf 3 2\n1 -3 0 2\n3\t-1 0\n", 0),
        ("p cnf 3 2\n1 -3 0\nc in the middle\n2 0", 0),
        ("p cnf 0 1\n\n0", 0),
        ("1 0\n", 1),
        ("c\np cnf 3\n", 2),
        ("p cnf 3 2\n1 4 0\n2 0\n", 2),
        ("p cnf 3 1\n1 x 0\n", 2),
        ("p cnf 3 1\n1 0\n2 0\n", 3),
        ("p cnf 3 2\n1 0", 2),
        ("p cnf 3 1\n1 2", 2),
        ("\n\n", 3),
    ] {
        assert_eq!(rt; wrong_line(rt.alloc(), text)?, want, "at {text}");
    }
    Ok(())
}

#[test]
fn answers_between_clauses(rt: HostRuntime) -> Result<(), Fail> {
    let text = "p cnf 2 1\n1 2 0\na -1 0\n-2 0\na -1 0\n";
    match answer_all(rt.alloc(), text.as_bytes())? {
        Talk::Answers(said) => {
            let want = "s SATISFIABLE\nv -1 2 0\ns UNSATISFIABLE\nf -1 0\n";
            assert_eq!(rt; said.as_str(), want);
        }
        Talk::Malformed(line) => assert_eq!(rt; line, 0),
    }
    Ok(())
}
