//! Words, read.

use crate::{Command, WordsFault, command_of};
use std::alloc::Global;
use std::test::Fail;

/// What the words of a line ask for.
fn asked(alloc: Global, line: &str) -> Result<Result<Command, WordsFault>, Fail> {
    let mut words = Vec::new(alloc);
    for word in line.split(' ') {
        words.push(word.to_string(alloc)?)?;
    }
    Ok(command_of(alloc, words.as_slice()))
}

#[test]
fn lines_ask(rt: HostRuntime) -> Result<(), Fail> {
    let plain = Command::Replay {
        order: 0,
        history: false,
    };
    let whole = Command::Replay {
        order: 42,
        history: true,
    };
    let four = Command::Run {
        workers: 4,
        history: false,
    };
    let sixteen = Command::Run {
        workers: 16,
        history: true,
    };
    let rows = [
        ("solo", Ok(Command::Solo)),
        ("replay", Ok(plain)),
        ("replay --", Ok(plain)),
        ("replay --order 0042 --history", Ok(whole)),
        ("replay --history --order=42", Ok(whole)),
        ("run", Ok(four)),
        ("run --workers 16 --history", Ok(sixteen)),
        ("run --workers 0", Err(WordsFault::Usage)),
        ("run --workers 17", Err(WordsFault::Usage)),
        ("run --order 1", Err(WordsFault::Usage)),
        ("check", Ok(Command::Check)),
        ("check --history", Err(WordsFault::Usage)),
        ("gen 007", Ok(Command::Gen { number: 7 })),
        ("gen", Err(WordsFault::Usage)),
        ("gen 4294967296", Err(WordsFault::Usage)),
        ("", Err(WordsFault::Usage)),
        ("replay --order", Err(WordsFault::Usage)),
        ("replay --order 4294967296", Err(WordsFault::Usage)),
        ("replay --history=true", Err(WordsFault::Usage)),
        ("solo --history", Err(WordsFault::Usage)),
        ("solo solo", Err(WordsFault::Usage)),
        ("-- solo", Err(WordsFault::Usage)),
        ("help", Err(WordsFault::Usage)),
    ];
    for (line, wanted) in rows {
        assert_eq!(rt; asked(rt.alloc(), line)?, wanted, "at {line}");
    }
    Ok(())
}
