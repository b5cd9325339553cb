//! What a budget was spent on, and what budget is enough for circuits.

ghost use Rattle.std.specs.Prelude.{◌≡◌};
ghost use Rattle.refusal_words.specs.Files.{SameFiles};
ghost use Rattle.shelf_core.specs.State.{Closed};

use check_steps::{Info, Match, ReadStop, Which};
use net_core::Graphs;
use query_core::{ChargedLines, Ledger};
use refusal_words::netlist_again;
use shelf_core::Shelf;
use std::alloc::{AllocError, Global};
use work_bound::{enough, tens_enough};

/// How many lines have how many literals.
#[derive(Clone, Copy)]
struct Lengths {
    none: u64,
    one: u64,
    two: u64,
    /// Up to four.
    few: u64,
    /// Up to eight.
    some: u64,
    more: u64,
}

impl Lengths {
    /// No lines.
    fn new() -> Lengths {
        Lengths {
            none: 0,
            one: 0,
            two: 0,
            few: 0,
            some: 0,
            more: 0,
        }
    }

    fn add(&mut self, literals: usize) {
        match literals {
            0 => self.none = self.none.saturating_add(1),
            1 => self.one = self.one.saturating_add(1),
            2 => self.two = self.two.saturating_add(1),
            3 | 4 => self.few = self.few.saturating_add(1),
            5..=8 => self.some = self.some.saturating_add(1),
            _ => self.more = self.more.saturating_add(1),
        }
    }
}

/// Says that a budget was spent, and how many literals the lines have that were charged, the refused one among them.
pub(crate) fn put_lines(alloc: Global, ledger: &Ledger, text: &mut String) -> Result<(), ReadStop> {
    let budget = ledger.budget();
    writeln!(
        text,
        "npnp: the budget of {budget} learned clauses was spent"
    )?;
    put_charged(alloc, ledger, text)
}

/// Says that the allowance of a sweep was spent, and how many literals the lines have that were charged.
pub(crate) fn put_allowance(
    alloc: Global,
    ledger: &Ledger,
    text: &mut String,
) -> Result<(), ReadStop> {
    let allowance = ledger.budget();
    writeln!(
        text,
        "npnp: the allowance of {allowance} learned clauses was spent: signals that weren't compared by then stay as \
         they are"
    )?;
    put_charged(alloc, ledger, text)
}

/// Says how many literals the lines have that were charged.
fn put_charged(alloc: Global, ledger: &Ledger, text: &mut String) -> Result<(), ReadStop> {
    let mut lines = ledger.charged_lines();
    let lengths = lengths_of(alloc, ledger.learned().saturating_add(1), &mut lines)?;
    put_lengths(&lengths, text)
}

/// Counts the next `count` lines by length.
fn lengths_of(
    alloc: Global,
    count: u64,
    lines: &mut ChargedLines<'_>,
) -> Result<Lengths, AllocError> {
    let mut lengths = Lengths::new();
    for _line in 0..count {
        let Some(line) = lines.next_line(alloc)? else {
            return Ok(lengths);
        };
        lengths.add(line.clause.len());
    }
    Ok(lengths)
}

fn put_lengths(lengths: &Lengths, text: &mut String) -> Result<(), ReadStop> {
    write!(
        text,
        "npnp: lines by how many literals they have, with the refused one: {} of 0, {} of 1, {} of 2",
        lengths.none, lengths.one, lengths.two
    )?;
    Ok(writeln!(
        text,
        ", {} of 3 or 4, {} of 5 to 8, {} of more",
        lengths.few, lengths.some, lengths.more
    )?)
}

/// Says what budget is enough for a match of two netlists.
pub(crate) fn put_enough_of_two<S: Shelf>(
    alloc: Global,
    asked: &Match<'_>,
    shelf: &mut S,
    text: &mut String,
) -> Result<(), ReadStop>
    requires { (S.state shelf.old).mode ≡ Closed }
    ensures { SameFiles (S.state shelf.old) (S.state shelf.new) }
{
    let first = netlist_again(alloc, shelf, Which::First, asked.first)?;
    let second = netlist_again(alloc, shelf, Which::Second, asked.second)?;
    put_enough(&Graphs::new(&first.graph, &second.graph), text)
}

/// Says what budget is enough for `info` of a netlist.
pub(crate) fn put_enough_of_one<S: Shelf>(
    alloc: Global,
    asked: &Info<'_>,
    shelf: &mut S,
    text: &mut String,
) -> Result<(), ReadStop>
    requires { (S.state shelf.old).mode ≡ Closed }
    ensures { SameFiles (S.state shelf.old) (S.state shelf.new) }
{
    let named = netlist_again(alloc, shelf, Which::First, asked.file)?;
    put_enough(&Graphs::new(&named.graph, &named.graph), text)
}

fn put_enough(graphs: &Graphs<'_>, text: &mut String) -> Result<(), ReadStop> {
    match enough(graphs) {
        Some(lines) => Ok(writeln!(text, "npnp: {lines} are enough for these circuits")?),
        None => put_tens(tens_enough(graphs), text),
    }
}

/// No budget that the words can give is so large.
fn put_tens(tens: u64, text: &mut String) -> Result<(), ReadStop> {
    Ok(writeln!(
        text,
        "npnp: 10^{tens} are known to be enough for these circuits; fewer are likely to be"
    )?)
}
