// Tells stories on standard input: a line that begins with `=` is a heading, and each line below it a command, as text,
// or, behind a `!`, bytes as they stand. Each story is run as a command file over a new book, and its lines are
// printed.

#![tactic(auto)]

use anyhow::anyhow;
use book::Book;
use collateral::joined::Joined;
use command_text::encode_line;
use runner::run_file;
use std::io::{BufRead, BufReader};

// Runs the commands of one story.
fn tell(rt: &HostRuntime, input: &[u8]) -> anyhow::Result<()> {
    let mut book = Book::new(Joined::new());
    run_file(&mut book, input, &mut rt.stdout())?;
    Ok(())
}

fn run(rt: &HostRuntime) -> anyhow::Result<()> {
    let mut story = Vec::new(rt.alloc());
    for line in BufReader::new(rt.alloc(), rt.stdin())?.lines(rt.alloc()) {
        let line = line?;
        match line.as_bytes() {
            [b'=', ..] => {
                tell(rt, &story)?;
                story.clear();
                rt.println(&line)?;
            }
            [b'!', bytes @ ..] => story.extend_from_slice(bytes)?,
            text => match encode_line(text) {
                Ok(command) => story.extend_from_slice(command.as_slice())?,
                Err(_) => return Err(anyhow!("a line that is no command")),
            },
        }
    }
    tell(rt, &story)
}

fn main(rt: HostRuntime) -> anyhow::Result<()> {
    run(&rt)
}
