//! The program `npnp`: a run over the machine's files and its standard output, on the words of the command line.
#![tactic(auto)]

mod asked;
mod folders;
mod people;
mod progress;

ghost use Rattle.std.specs.Prelude.{◌≡◌, IfOk};
ghost use Rattle.shelf_core.specs.State.{Closed};

use crate::people::People;
use crate::progress::Progress;
use check_steps::{Command, command_asked};
use explain::Notice;
use npnp::outcome::Outcome;
use npnp::run::run;
use shelf_core::{DiskShelf, Shelf, StdSink};
use std::process::ExitCode;
use std::rt::Env;
use std::{env, io};

/// The status where memory is refused before the run begins.
const NO_MEMORY: u8 = 7;

fn main(rt: HostRuntime) -> ExitCode {
    match run_words(rt) {
        Ok(status) => ExitCode::from(status),
        Err(_) => ExitCode::from(NO_MEMORY),
    }
}

/// Does what the words of the command line ask for, and answers the status. An error comes before the run begins:
/// memory is refused, or a word isn't UTF-8.
fn run_words(rt: HostRuntime) -> io::Result<u8> {
    let words = words_after_name(&rt)?;
    match Notice::asked(&words) {
        Some(notice) => Ok(put_notice(&rt, notice)),
        None => Ok(run_explained(rt, &words)?.status()),
    }
}

/// Runs the program on the words, and says to people what they mean and what came of them.
fn run_explained(rt: HostRuntime, words: &[String]) -> io::Result<Outcome> {
    let people = People::new(rt.clone()?);
    people.warn(words);
    let mut shelf = shelf_for(rt.clone()?, words)?;
    let progress = Progress::new(&rt)?;
    let alloc = rt.alloc();
    let mut out = StdSink::watched(rt, progress);
    let outcome = run(alloc, words, &mut shelf, &mut out);
    // the report is put last
    let error = out.last_error().or(shelf.last_error());
    people.explain(words, &outcome, error);
    Ok(outcome)
}

/// The machine's files, where an account that is read may come through a long pipe.
fn shelf_for(rt: HostRuntime, words: &[String]) -> io::Result<DiskShelf<HostRuntime>>
    ensures { IfOk result (λ shelf. (⟦<DiskShelf<HostRuntime> as Shelf>⟧.state shelf).mode ≡ Closed) }
{
    let mut shelf = DiskShelf::new(rt);
    if let Some(account) = account_read(words) {
        shelf.expect_long(account)?;
    }
    Ok(shelf)
}

/// The account that the words ask to read.
fn account_read(words: &[String]) -> Option<&str> {
    match command_asked(words)? {
        Command::Check(check) => Some(check.account),
        Command::Restore(asked) => Some(asked.account),
        Command::Trim(asked) => Some(asked.account),
        Command::Convert(asked) => Some(asked.account),
        _ => None,
    }
}

/// Prints what the program says of itself, and answers the status.
fn put_notice<R: Print>(rt: &R, notice: Notice) -> u8 {
    match print!(rt; "{notice}") {
        Ok(()) => 0,
        Err(_) => Outcome::WriteFault.status(),
    }
}

/// The words of the command line after the program's name.
fn words_after_name<R: Env + AllocGlobal>(rt: &R) -> io::Result<Vec<String>> {
    Ok(env::args(rt)?.skip(1).collect(rt.alloc())?)
}
