//! Which word of the command line is of no form.

use check_steps::MOST_DIGITS;
use refusal_words::TerminalText;
use std::fmt;
use text_core::is_numeral;

/// What a word after a command's name is for.
#[derive(Clone, Copy, Debug, PartialEq, Eq)]
pub enum Slot {
    First,
    Second,
    Account,
    File,
    Number,
    Budget,
    Seed,
    Allowance,
    Old,
    New,
}

/// As the forms of the words call it.
impl fmt::Display for Slot {
    fn fmt<W: fmt::Write>(&self, f: &mut fmt::Formatter<W>) -> fmt::Result {
        f.write_str(match self {
            Slot::First => "FIRST",
            Slot::Second => "SECOND",
            Slot::Account => "ACCOUNT",
            Slot::File => "FILE",
            Slot::Number => "NUMBER",
            Slot::Budget => "BUDGET",
            Slot::Seed => "SEED",
            Slot::Allowance => "ALLOWANCE",
            Slot::Old => "OLD",
            Slot::New => "NEW",
        })
    }
}

/// The words after a command's name: so many are required, and the others may be left out.
#[derive(Clone, Copy)]
struct CommandForm {
    slots: &'static [Slot],
    required: usize,
}

/// The words after `match`, of which BUDGET and SEED may be left out.
const MATCH: &[Slot] = &[
    Slot::First,
    Slot::Second,
    Slot::Account,
    Slot::Budget,
    Slot::Seed,
];

/// The words after `check`.
const CHECK: &[Slot] = &[Slot::First, Slot::Second, Slot::Account];

/// The words after `restore`: those of a check, and the file that is written.
const RESTORE: &[Slot] = &[Slot::First, Slot::Second, Slot::Account, Slot::New];

/// The words after `trim`: those of a check, and the file that is written.
const TRIM: &[Slot] = &[Slot::First, Slot::Second, Slot::Old, Slot::New];

/// The words after `convert`: an account, and the file that is written.
const CONVERT: &[Slot] = &[Slot::Old, Slot::New];

/// The words after `flatten`: a file of models, and the file that is written.
const FLATTEN: &[Slot] = &[Slot::File, Slot::New];

/// The words after `sweep`, of which ALLOWANCE may be left out.
const SWEEP: &[Slot] = &[Slot::File, Slot::New, Slot::Allowance];

/// The words after `info`, of which BUDGET may be left out.
const INFO: &[Slot] = &[Slot::File, Slot::Budget];

/// The words after `make`: the pair's number, and the files that are written.
const MAKE: &[Slot] = &[Slot::Number, Slot::First, Slot::Second];

/// The words after `trial`.
const TRIAL: &[Slot] = &[Slot::Number];

/// The form of the words after a command's name, where there is such a command.
fn form_of(command: &str) -> Option<CommandForm> {
    let (slots, required) = match command {
        "match" => (MATCH, 3),
        "check" => (CHECK, 3),
        "restore" => (RESTORE, 4),
        "trim" => (TRIM, 4),
        "convert" => (CONVERT, 2),
        "flatten" => (FLATTEN, 2),
        "sweep" => (SWEEP, 2),
        "info" => (INFO, 1),
        "make" => (MAKE, 3),
        "trial" => (TRIAL, 1),
        _ => return None,
    };
    Some(CommandForm { slots, required })
}

/// Why the words of a command line are of no form.
#[derive(Clone, Copy, Debug, PartialEq, Eq)]
pub enum WordFault<'a> {
    /// There are no words.
    NoCommand,
    /// The first word is no command.
    UnknownCommand(&'a str),
    /// A word that asks for something else than a run has others beside it.
    NotAlone(&'a str),
    /// This word is required and isn't there.
    Missing(Slot),
    /// This word and those after it are more than the command takes.
    TooMany(&'a str),
    /// A file's name is empty.
    Empty(Slot),
    /// The word has a byte that is no digit, or none.
    NotANumber { slot: Slot, word: &'a str },
    /// The number has more than 20 digits, or isn't below 2^64.
    TooLarge { slot: Slot, word: &'a str },
    /// The name of a file that is written is also that of another file.
    SameFile { slot: Slot, other: Slot },
}

impl fmt::Display for WordFault<'_> {
    fn fmt<W: fmt::Write>(&self, f: &mut fmt::Formatter<W>) -> fmt::Result {
        match self {
            WordFault::NoCommand => write!(f, "no command is given"),
            WordFault::UnknownCommand(word) => write!(
                f,
                "`{}` is no command",
                TerminalText::name(word)
            ),
            WordFault::NotAlone(word) => write!(f, "`{word}` stands alone"),
            WordFault::Missing(slot) => write!(f, "{slot} is missing"),
            WordFault::TooMany(word) => write!(
                f,
                "`{}` is a word too many",
                TerminalText::name(word)
            ),
            WordFault::Empty(slot) => write!(f, "{slot} is an empty word"),
            WordFault::NotANumber { slot, word } => {
                write!(f, "{slot} is no number: `{}`", TerminalText::name(word))
            }
            WordFault::TooLarge { slot, word } => {
                write!(f, "{slot} is too large: `{}`", TerminalText::name(word))
            }
            WordFault::SameFile { slot, other } => {
                write!(
                    f,
                    "{slot} is the same word as {other}, and would be written over it"
                )
            }
        }
    }
}

/// The first word that is of no form, where the words are of none that `run` knows.
pub fn fault_of_words(words: &[String]) -> Option<WordFault<'_>> {
    let [command, operands @ ..] = words else {
        return Some(WordFault::NoCommand);
    };
    let command = command.as_str();
    if matches!(command, "--help" | "-h" | "--version") {
        return Some(WordFault::NotAlone(command));
    }
    let Some(form) = form_of(command) else {
        return Some(WordFault::UnknownCommand(command));
    };
    if let Some(fault) = fault_of_operands(form.slots, operands) {
        return Some(fault);
    }
    if let Some(word) = operands.get(form.slots.len()) {
        return Some(WordFault::TooMany(word.as_str()));
    }
    if operands.len() < form.required {
        let slot = form.slots.get(operands.len())?;
        return Some(WordFault::Missing(*slot));
    }
    same_file(command, operands)
}

/// The first word that isn't what it stands for.
fn fault_of_operands<'a>(slots: &[Slot], operands: &'a [String]) -> Option<WordFault<'a>> {
    for (slot, word) in slots.iter().zip(operands) {
        if let Some(fault) = fault_of_operand(*slot, word.as_str()) {
            return Some(fault);
        }
    }
    None
}

fn fault_of_operand(slot: Slot, word: &str) -> Option<WordFault<'_>> {
    match slot {
        Slot::Number | Slot::Budget | Slot::Seed | Slot::Allowance => fault_of_number(slot, word),
        _ if word.is_empty() => Some(WordFault::Empty(slot)),
        _ => None,
    }
}

fn fault_of_number(slot: Slot, word: &str) -> Option<WordFault<'_>> {
    if !is_numeral(word.as_bytes()) {
        return Some(WordFault::NotANumber { slot, word });
    }
    if (word.len() > MOST_DIGITS) | word.parse::<u64>().is_err() {
        return Some(WordFault::TooLarge { slot, word });
    }
    None
}

/// Two names of which one is that of a file to be written, where they are the same word.
fn same_file<'a>(command: &str, operands: &[String]) -> Option<WordFault<'a>> {
    match (command, operands) {
        ("match", [first, second, account, ..]) => {
            let others = [
                (Slot::First, first.as_str()),
                (Slot::Second, second.as_str()),
            ];
            same_as(Slot::Account, account.as_str(), &others)
        }
        ("restore", [first, second, account, new]) => {
            let others = [
                (Slot::First, first.as_str()),
                (Slot::Second, second.as_str()),
                (Slot::Account, account.as_str()),
            ];
            same_as(Slot::New, new.as_str(), &others)
        }
        ("trim", [first, second, old, new]) => {
            let others = [
                (Slot::First, first.as_str()),
                (Slot::Second, second.as_str()),
                (Slot::Old, old.as_str()),
            ];
            same_as(Slot::New, new.as_str(), &others)
        }
        ("convert", [old, new]) => same_as(Slot::New, new.as_str(), &[(Slot::Old, old.as_str())]),
        ("flatten", [file, new]) => {
            same_as(Slot::New, new.as_str(), &[(Slot::File, file.as_str())])
        }
        ("sweep", [file, new, ..]) => {
            same_as(Slot::New, new.as_str(), &[(Slot::File, file.as_str())])
        }
        ("make", [_, first, second]) => {
            same_as(
                Slot::Second,
                second.as_str(),
                &[(Slot::First, first.as_str())],
            )
        }
        _ => None,
    }
}

/// The first of other files that has the name of one to be written.
fn same_as<'a>(slot: Slot, name: &str, others: &[(Slot, &str)]) -> Option<WordFault<'a>> {
    for (other, word) in others.iter() {
        if *word == name {
            return Some(WordFault::SameFile {
                slot,
                other: *other,
            });
        }
    }
    None
}
