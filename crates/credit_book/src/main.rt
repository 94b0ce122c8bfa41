// Runs the commands on standard input over a new book, and writes their lines to standard output.

#![tactic(auto)]

use book::Book;
use collateral::joined::Joined;
use runner::{MOST_INPUT, run_file};
use std::io;
use std::io::Read;
use std::process::ExitCode;

fn run(rt: &HostRuntime) -> io::Result<()> {
    // One byte past the longest input shows that it is too long.
    let mut input = Vec::new(rt.alloc());
    rt.stdin()
        .take(MOST_INPUT as u64 + 1)
        .read_to_end(&mut input)?;
    let mut book = Book::new(Joined::new());
    run_file(&mut book, &input, &mut rt.stdout())
}

fn main(rt: HostRuntime) -> ExitCode {
    let Err(error) = run(&rt) else {
        return ExitCode::SUCCESS;
    };
    // Standard error may be closed; the exit status says that the program failed all the same.
    let _ = eprintln!(rt; "credit_book: {error}");
    ExitCode::FAILURE
}
