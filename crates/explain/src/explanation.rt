//! What the end of a run means, for people.

ghost use Rattle.std.specs.Prelude.{◌≡◌};
ghost use Rattle.refusal_words.specs.Files.{SameFiles};
ghost use Rattle.shelf_core.specs.State.{Closed};

use crate::account_lines::LineSearch;
use crate::faults::FailedFile;
use crate::malformed::{put_malformed, put_malformed_models, put_unread, put_unread_models};
use crate::meanings::put_meaning;
use crate::notice::FORMS;
use crate::spending::{put_allowance, put_enough_of_one, put_enough_of_two, put_lines};
use crate::word_fault::fault_of_words;
use account_check::Why;
use check_steps::{Command, Outcome, ReadStop, Which, command_asked};
use hier_blif::HierFault;
use net_file::NetFault;
use query_core::Ledger;
use refusal_words::{TerminalText, put_refusal, seek_in};
use shelf_core::Shelf;
use std::alloc::Global;

/// What is known of a run that ended.
#[derive(Clone, Copy, Debug)]
pub struct EndedRun<'a> {
    /// The words of the command line.
    pub words: &'a [String],
    /// How the run ended.
    pub outcome: &'a Outcome,
    /// The file that failed, where one did.
    pub fault: Option<FailedFile<'a>>,
    /// Whether the files of `files_read_again` may be read once more: a pipe gives its bytes only once.
    pub readable: bool,
}

/// What the end of a run means, in lines that end with a line feed; nothing where the report says it all. Files are
/// read again for it, and none is changed. Where that fails, or there is no memory, less is said.
pub fn explain<S: Shelf>(alloc: Global, ended: &EndedRun<'_>, shelf: &mut S) -> String
    requires { (S.state shelf.old).mode ≡ Closed }
    ensures { SameFiles (S.state shelf.old) (S.state shelf.new) }
{
    let mut text = String::new(alloc);
    // what can't be said is left out
    let _ = put_explanation(alloc, ended, shelf, &mut text);
    text
}

/// The files that an explanation reads again.
pub fn files_read_again<'a>(words: &'a [String], outcome: &Outcome) -> [Option<&'a str>; 3] {
    match outcome {
        Outcome::Malformed { which, .. } => [name_of(words, *which), None, None],
        Outcome::BadHierarchy(_) => [name_of(words, Which::First), None, None],
        Outcome::Rejected { .. } => [name_of(words, Which::Account), None, None],
        Outcome::NoMatching => [Which::First, Which::Second, Which::Account].map(|which| name_of(
            words, which,
        )),
        Outcome::Spent(_) => [
            name_of(words, Which::First),
            name_of(words, Which::Second),
            None,
        ],
        _ => [None, None, None],
    }
}

/// The name of a file by its place among the words, where they name one there.
fn name_of(words: &[String], which: Which) -> Option<&str> {
    match (command_asked(words)?, which) {
        (Command::Match(asked), Which::First) => Some(asked.first),
        (Command::Match(asked), Which::Second) => Some(asked.second),
        (Command::Match(asked), Which::Account) => Some(asked.account),
        (Command::Check(check), Which::First) => Some(check.first),
        (Command::Check(check), Which::Second) => Some(check.second),
        (Command::Check(check), Which::Account) => Some(check.account),
        (Command::Restore(asked), Which::First) => Some(asked.first),
        (Command::Restore(asked), Which::Second) => Some(asked.second),
        (Command::Restore(asked), Which::Account) => Some(asked.account),
        (Command::Trim(asked), Which::First) => Some(asked.first),
        (Command::Trim(asked), Which::Second) => Some(asked.second),
        (Command::Trim(asked), Which::Account) => Some(asked.account),
        (Command::Convert(asked), Which::Account) => Some(asked.account),
        (Command::Flatten(asked), Which::First) => Some(asked.file),
        (Command::Sweep(asked), Which::First) => Some(asked.file),
        (Command::Info(info), Which::First) => Some(info.file),
        _ => None,
    }
}

fn put_explanation<S: Shelf>(
    alloc: Global,
    ended: &EndedRun<'_>,
    shelf: &mut S,
    text: &mut String,
) -> Result<(), ReadStop>
    requires { (S.state shelf.old).mode ≡ Closed }
    ensures { SameFiles (S.state shelf.old) (S.state shelf.new) }
{
    match ended.outcome {
        Outcome::Usage => put_usage(ended.words, text),
        Outcome::Absent(which) => put_file(ended, *which, "there is no such file", text),
        Outcome::TooLarge(which) => put_file(ended, *which, "longer than 67,108,864 bytes", text),
        Outcome::ReadFault => put_fault(ended.fault, "a file couldn't be read", text),
        Outcome::WriteFault => put_fault(ended.fault, "the report couldn't be written", text),
        Outcome::Malformed { which, kind, at } => {
            let fault = NetFault {
                kind: *kind,
                at: *at,
            };
            put_netlist_fault(alloc, ended, *which, fault, shelf, text)
        }
        Outcome::BadHierarchy(fault) => put_models_fault(alloc, ended, *fault, shelf, text),
        Outcome::Rejected { line, why } => { put_rejected(alloc, ended, *line, *why, shelf, text) }
        Outcome::Matched(_) => put_matched(ended.words, text),
        Outcome::NoMatching => put_no_matching(alloc, ended, shelf, text),
        Outcome::Spent(ledger) => put_spent(alloc, ended, ledger, shelf, text),
        Outcome::Swept {
            left: Some(ledger),
            ..
        } => put_allowance(alloc, ledger, text),
        _ => Ok(()),
    }
}

fn put_usage(words: &[String], text: &mut String) -> Result<(), ReadStop> {
    if let Some(fault) = fault_of_words(words) {
        writeln!(text, "npnp: {fault}")?;
    }
    Ok(text.push_str(FORMS)?)
}

/// Says how the second netlist of a match gets the first one's ports.
fn put_matched(words: &[String], text: &mut String) -> Result<(), ReadStop> {
    let Some(Command::Match(asked)) = command_asked(words) else {
        return Ok(());
    };
    let first = TerminalText::name(asked.first);
    let second = TerminalText::name(asked.second);
    let account = TerminalText::name(asked.account);
    writeln!(
        text,
        "npnp: `npnp restore {first} {second} {account} NEW` gives the names back: NEW is {second} \
         with the ports of {first}"
    )?;
    Ok(())
}

/// Says something of a file.
fn put_file(
    ended: &EndedRun<'_>,
    which: Which,
    what: &str,
    text: &mut String,
) -> Result<(), ReadStop> {
    match name_of(ended.words, which) {
        Some(name) => Ok(writeln!(text, "{}: {what}", TerminalText::name(name))?),
        None => Ok(()),
    }
}

/// Says which file failed, and why, or what failed where it wasn't a file.
fn put_fault(
    fault: Option<FailedFile<'_>>,
    otherwise: &str,
    text: &mut String,
) -> Result<(), ReadStop> {
    match fault {
        Some(fault) => Ok(writeln!(text, "{fault}")?),
        None => Ok(writeln!(text, "npnp: {otherwise}")?),
    }
}

fn put_netlist_fault<S: Shelf>(
    alloc: Global,
    ended: &EndedRun<'_>,
    which: Which,
    fault: NetFault,
    shelf: &mut S,
    text: &mut String,
) -> Result<(), ReadStop>
    requires { (S.state shelf.old).mode ≡ Closed }
    ensures { SameFiles (S.state shelf.old) (S.state shelf.new) }
{
    match name_of(ended.words, which) {
        Some(name) if ended.readable => put_malformed(alloc, name, fault, shelf, text),
        Some(name) => put_unread(name, fault, text),
        None => Ok(()),
    }
}

fn put_models_fault<S: Shelf>(
    alloc: Global,
    ended: &EndedRun<'_>,
    fault: HierFault,
    shelf: &mut S,
    text: &mut String,
) -> Result<(), ReadStop>
    requires { (S.state shelf.old).mode ≡ Closed }
    ensures { SameFiles (S.state shelf.old) (S.state shelf.new) }
{
    match name_of(ended.words, Which::First) {
        Some(name) if ended.readable => put_malformed_models(alloc, name, fault, shelf, text),
        Some(name) => put_unread_models(name, fault, text),
        None => Ok(()),
    }
}

/// Says of a rejected account which line is wrong, and what the line is.
fn put_rejected<S: Shelf>(
    alloc: Global,
    ended: &EndedRun<'_>,
    line: u64,
    why: Why,
    shelf: &mut S,
    text: &mut String,
) -> Result<(), ReadStop>
    requires { (S.state shelf.old).mode ≡ Closed }
    ensures { SameFiles (S.state shelf.old) (S.state shelf.new) }
{
    let Some(name) = name_of(ended.words, Which::Account) else {
        return Ok(());
    };
    write!(text, "{}:{line}: ", TerminalText::name(name))?;
    put_meaning(why, text)?;
    if !ended.readable {
        return Ok(());
    }
    let mut search = LineSearch::new(alloc, line);
    seek_in(alloc, shelf, name, &mut search)?;
    put_line(search.line(), text)
}

/// Shows a line, where it isn't empty.
fn put_line(line: &[u8], text: &mut String) -> Result<(), ReadStop> {
    if line.is_empty() {
        return Ok(());
    }
    Ok(writeln!(text, "  {}", TerminalText(line))?)
}

fn put_no_matching<S: Shelf>(
    alloc: Global,
    ended: &EndedRun<'_>,
    shelf: &mut S,
    text: &mut String,
) -> Result<(), ReadStop>
    requires { (S.state shelf.old).mode ≡ Closed }
    ensures { SameFiles (S.state shelf.old) (S.state shelf.new) }
{
    match command_asked(ended.words) {
        Some(Command::Match(asked)) if ended.readable => put_refusal(alloc, &asked, shelf, text),
        _ => Ok(()),
    }
}

/// Says that a budget was spent, on lines of which lengths, and what budget is enough for the circuits.
fn put_spent<S: Shelf>(
    alloc: Global,
    ended: &EndedRun<'_>,
    ledger: &Ledger,
    shelf: &mut S,
    text: &mut String,
) -> Result<(), ReadStop>
    requires { (S.state shelf.old).mode ≡ Closed }
    ensures { SameFiles (S.state shelf.old) (S.state shelf.new) }
{
    put_lines(alloc, ledger, text)?;
    match command_asked(ended.words) {
        Some(Command::Match(asked)) if ended.readable => {
            put_enough_of_two(alloc, &asked, shelf, text)
        }
        Some(Command::Info(asked)) if ended.readable => put_enough_of_one(
            alloc, &asked, shelf, text,
        ),
        _ => Ok(()),
    }
}
