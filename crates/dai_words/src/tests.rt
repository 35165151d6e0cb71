use crate::settings::{Command, Settings, WordsError};
use crate::words::read_words;
use std::alloc::Global;
use std::test::Fail;

/// The words of a line, between blanks; `""` is the empty word.
fn words_of(alloc: Global, line: &str) -> Result<Vec<String>, Fail> {
    let mut words = Vec::new(alloc);
    for word in line.split_whitespace() {
        let word = if word == "\"\"" { "" } else { word };
        words.push(String::from_str(alloc, word)?)?;
    }
    Ok(words)
}

fn read(alloc: Global, line: &str) -> Result<Result<Settings, WordsError>, Fail> {
    let words = words_of(alloc, line)?;
    Ok(read_words(alloc, words.as_slice()))
}

#[test]
fn refuses_the_first_bad_word(rt: HostRuntime) -> Result<(), Fail> {
    for (line, number, word) in [
        ("", 1u8, 1u32),
        ("infer", 1, 2),
        ("infer \"\"", 1, 2),
        ("infer -", 1, 2),
        ("\"\" ab.ivy", 1, 1),
        ("check ab.ivy", 1, 1),
        ("sample ab.ivy", 1, 1),
        ("gen 40", 1, 1),
        ("infer ab.ivy --lits 2 --lits 3", 1, 5),
        ("infer ab.ivy --lits 9", 2, 4),
        ("infer ab.ivy --fast yes", 1, 3),
        ("infer ab.ivy --evidence yes", 1, 3),
        ("infer ab.ivy --lits", 1, 4),
        ("infer ab.ivy --lits=2", 1, 3),
        ("infer ab.ivy --lits two", 1, 4),
        ("infer ab.ivy --lits 2 more", 1, 5),
        ("space ab.ivy --size 0", 2, 4),
        ("space ab.ivy --size 7", 2, 4),
        ("space ab.ivy --workers 0", 2, 4),
        ("space ab.ivy --workers 17", 2, 4),
        ("space ab.ivy --runs 1001", 2, 4),
        ("space ab.ivy --steps 1001", 2, 4),
        ("space ab.ivy --seed 18446744073709551616", 2, 4),
        ("space ab.ivy --size 3 --vars t=5", 2, 6),
        ("space ab.ivy --vars t=5,u", 1, 4),
        ("space ab.ivy --vars t=1,t=2", 1, 4),
        ("space ab.ivy --vars T=1", 1, 4),
        ("space ab.ivy --vars type=1", 1, 4),
        ("space ab.ivy --vars t==1", 1, 4),
        ("space ab.ivy --vars t=1,", 1, 4),
        ("space ab.ivy --vars \"\"", 1, 4),
    ] {
        match read(rt.alloc(), line)? {
            Ok(_) => assert_eq!(rt; (0u8, 0u32), (number, word), "{line}"),
            Err(error) => assert_eq!(rt; error, WordsError::Bad { number, word }, "{line}"),
        }
    }
    Ok(())
}

#[test]
fn reads_every_option(rt: HostRuntime) -> Result<(), Fail> {
    let line =
        "space lock.ivy --workers 16 --vars client=02,server=0 --seed 18446744073709551615 --lits 8 --size 6 --runs 0 --steps 1000";
    let Ok(settings) = read(rt.alloc(), line)? else {
        return Err("refused".into());
    };
    assert_eq!(rt; settings.command, Command::Space);
    assert_eq!(rt; settings.operand.as_str(), "lock.ivy");
    assert_eq!(rt; settings.count, 0);
    assert_eq!(rt; settings.vars.len(), 2);
    for (bound, name, most) in [(0, "client", 2u8), (1, "server", 0)] {
        if let Some((text, number)) = settings.vars.get(bound) {
            assert_eq!(rt; text.as_bytes(), name.as_bytes());
            assert_eq!(rt; *number, most);
        }
    }
    assert_eq!(rt; settings.vars_word, 6);
    assert_eq!(rt; settings.lits, 8);
    assert_eq!(rt; settings.seed, 18446744073709551615);
    assert_eq!(rt; (settings.runs, settings.steps), (0, 1000));
    assert_eq!(rt; (settings.size, settings.workers), (6, 16));
    Ok(())
}

#[test]
fn has_defaults(rt: HostRuntime) -> Result<(), Fail> {
    let Ok(settings) = read(rt.alloc(), "infer ab.ivy")? else {
        return Err("refused".into());
    };
    assert_eq!(rt; settings.command, Command::Infer);
    assert_eq!(rt; settings.vars.len(), 0);
    assert_eq!(rt; settings.vars_word, 0);
    assert_eq!(rt; (settings.lits, settings.seed), (2, 0));
    assert_eq!(rt; (settings.runs, settings.steps), (20, 30));
    assert_eq!(rt; (settings.size, settings.workers), (4, 1));
    assert_eq!(rt; settings.evidence, false);
    Ok(())
}
