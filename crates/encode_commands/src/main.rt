// Reads commands as lines of text on standard input, and writes them as bytes to standard output.

#![tactic(auto)]

use command_text::{Expected, encode_line};
use std::io;
use std::io::{BufRead, BufReader, Write};
use std::process::ExitCode;
use thiserror::Error;

// Why the program stops before the end of its input.
#[derive(Debug, Drop, Error)]
enum Stop {
    #[error("line {number}: expected {expected}")]
    Line { number: usize, expected: Expected },
    #[error(transparent)]
    Failed(#[from] io::Error),
}

fn run(rt: &HostRuntime) -> Result<(), Stop> {
    let mut out = rt.stdout();
    for (i, line) in BufReader::new(rt.alloc(), rt.stdin())?
        .lines(rt.alloc())
        .enumerate()
    {
        let command = encode_line(line?.as_bytes()).map_err(|expected| Stop::Line {
            number: i.saturating_add(1),
            expected,
        })?;
        out.write_all(command.as_slice())?;
    }
    Ok(())
}

fn main(rt: HostRuntime) -> ExitCode {
    let Err(stop) = run(&rt) else {
        return ExitCode::SUCCESS;
    };
    // Standard error may be closed; the exit status says that the program failed all the same.
    let _ = eprintln!(rt; "{stop}");
    ExitCode::FAILURE
}
