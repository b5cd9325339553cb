//! The report of a run: what the program prints on its standard output.

ghost use Rattle.std.specs.Prelude.{◌≡◌, [], ◌∷◌, ◌++◌, OnOk, IfOk, codes};
ghost use Rattle.std.specs.Fmt.{decimal};
ghost use Rattle.port_report.specs.Reports.{names_of};
ghost use Rattle.check_steps.specs.Lines.{converted_line, file_word, flattened_line, line_of, malformed_line};
ghost use Rattle.check_steps.specs.Lines.{report_on, swept_line, tried_line};
ghost use Rattle.check_steps.specs.Lines.{trimmed_line};
ghost use Rattle.check_steps.specs.Judged.{IsMatchIfAny};

use crate::outcome::{Outcome, Which};
use net_file::Named;
use port_report::{put_match, put_rejected};
use query_core::Ledger;
use std::alloc::{AllocError, Global};
use text_core::put_decimal;

/// The report of an outcome of two netlists: a line that names it, and after that of a match a line for each input
/// and each output of the first netlist that says where it goes.
pub fn report_named(
    alloc: Global,
    first: &Named,
    second: &Named,
    outcome: &Outcome,
) -> Result<Vec<u8>, AllocError>
    requires { IsMatchIfAny first.now.graph second.now.graph outcome.now }
    ensures { IfOk result (λ text. text.items ≡ report_on (names_of first.now) (names_of second.now) outcome.now) }
{
    let mut text = report_line(alloc, outcome)?;
    if let Outcome::AcceptedMatch(matching) | Outcome::Matched(matching) = outcome {
        put_match(first, second, matching, &mut text)?;
    }
    Ok(text)
}

/// The line that names an outcome, by itself. A failed write has none.
pub fn report_line(alloc: Global, outcome: &Outcome) -> Result<Vec<u8>, AllocError>
    ensures { IfOk result (λ text. text.items ≡ line_of outcome.now) }
{
    let mut text = Vec::new(alloc);
    put_line(outcome, &mut text)?;
    Ok(text)
}

// Writes the line that names an outcome at the end of `out`.
fn put_line(outcome: &Outcome, out: &mut Vec<u8>) -> Result<(), AllocError>
    ensures { OnOk result (out.new.items ≡ out.old.items ++ line_of outcome.now) }
{
    match outcome {
        Outcome::AcceptedMatch(_) => out.extend_from_slice(b"accepted match\n"),
        Outcome::AcceptedRefusal => out.extend_from_slice(b"accepted refusal\n"),
        Outcome::Rejected { line, why } => put_rejected(*line, why.word(), out),
        Outcome::Matched(_) => out.extend_from_slice(b"matched\n"),
        Outcome::NoMatching => out.extend_from_slice(b"no matching\n"),
        Outcome::Spent(ledger) => put_count(b"spent ", ledger.learned(), out),
        Outcome::Informed => Ok(()),
        Outcome::Made => out.extend_from_slice(b"made 64 32 2000\n"),
        Outcome::Restored { gates } => put_count(b"restored ", *gates, out),
        Outcome::Trimmed { before, after } => put_trimmed(*before, *after, out),
        Outcome::Converted { from, to, records } => put_converted(*from, *to, *records, out),
        Outcome::Flattened {
            models,
            instances,
            gates,
        } => put_flattened(*models, *instances, *gates, out),
        Outcome::Swept {
            before,
            after,
            left,
        } => put_swept(*before, *after, left, out),
        Outcome::Tried { number, .. } => put_tried(*number, out),
        Outcome::Usage => out.extend_from_slice(b"usage\n"),
        Outcome::Absent(which) => put_file(b"absent ", *which, out),
        Outcome::TooLarge(which) => put_file(b"too large ", *which, out),
        Outcome::Malformed { which, kind, at } => put_malformed(*which, kind.number(), *at, out),
        Outcome::BadHierarchy(fault) => {
            put_malformed(Which::First, fault.kind.number(), fault.at, out)
        }
        Outcome::ReadFault => out.extend_from_slice(b"read fault\n"),
        Outcome::WriteFault => Ok(()),
        Outcome::Memory => out.extend_from_slice(b"out of memory\n"),
    }
}

// Writes a line that ends in a number: how many clauses were learned, or how many gates there are.
fn put_count(what: &[u8], count: u64, out: &mut Vec<u8>) -> Result<(), AllocError>
    ensures { OnOk result (out.new.items ≡ out.old.items ++ what.now ++ decimal count ++ 10 ∷ []) }
{
    out.extend_from_slice(what)?;
    put_decimal(count, out)?;
    out.extend_from_slice(b"\n")
}

// Writes the line of an account that was trimmed: how many records it had, and how many are left.
fn put_trimmed(before: u64, after: u64, out: &mut Vec<u8>) -> Result<(), AllocError>
    ensures { OnOk result (out.new.items ≡ out.old.items ++ trimmed_line before after) }
{
    out.extend_from_slice(b"trimmed ")?;
    put_decimal(before, out)?;
    out.extend_from_slice(b" ")?;
    put_decimal(after, out)?;
    out.extend_from_slice(b"\n")
}

// Writes the line of an account that was converted: the version that it had, the one that it has, and how many records
// it had.
fn put_converted(from: u8, to: u8, records: u64, out: &mut Vec<u8>) -> Result<(), AllocError>
    ensures { OnOk result (out.new.items ≡ out.old.items ++ converted_line from to records) }
{
    out.extend_from_slice(b"converted ")?;
    put_decimal(u64::from(from), out)?;
    out.extend_from_slice(b" ")?;
    put_decimal(u64::from(to), out)?;
    out.extend_from_slice(b" ")?;
    put_decimal(records, out)?;
    out.extend_from_slice(b"\n")
}

// Writes the line of a file of models that was flattened: how many models it has, how many instances, and how many gates.
fn put_flattened(
    models: u64,
    instances: u64,
    gates: u64,
    out: &mut Vec<u8>,
) -> Result<(), AllocError>
    ensures { OnOk result (out.new.items ≡ out.old.items ++ flattened_line models instances gates) }
{
    out.extend_from_slice(b"flattened ")?;
    put_decimal(models, out)?;
    out.extend_from_slice(b" ")?;
    put_decimal(instances, out)?;
    out.extend_from_slice(b" ")?;
    put_decimal(gates, out)?;
    out.extend_from_slice(b"\n")
}

// Writes the line of a netlist that was swept: how many gates it had, how many are left, and whether all signals were
// compared.
fn put_swept(
    before: u64,
    after: u64,
    left: &Option<Ledger>,
    out: &mut Vec<u8>,
) -> Result<(), AllocError>
    ensures { OnOk result (out.new.items ≡ out.old.items ++ swept_line before after left.now) }
{
    out.extend_from_slice(b"swept ")?;
    put_decimal(before, out)?;
    out.extend_from_slice(b" ")?;
    put_decimal(after, out)?;
    match left {
        None => out.extend_from_slice(b" whole\n"),
        Some(_) => out.extend_from_slice(b" spent\n"),
    }
}

// Writes the line of a pair that was tried: its number, the answer, the verdict on the account, and the numbers of
// inputs, outputs and gates of one netlist, which are those of every pair.
fn put_tried(number: u64, out: &mut Vec<u8>) -> Result<(), AllocError>
    ensures { OnOk result (out.new.items ≡ out.old.items ++ tried_line number) }
{
    out.extend_from_slice(b"trial ")?;
    put_decimal(number, out)?;
    out.extend_from_slice(b" matched accepted 64 32 2000\n")
}

// Writes a line that ends in the word for a file.
fn put_file(what: &[u8], which: Which, out: &mut Vec<u8>) -> Result<(), AllocError>
    ensures { OnOk result (out.new.items ≡ out.old.items ++ what.now ++ file_word which ++ 10 ∷ []) }
{
    out.extend_from_slice(what)?;
    put_word(which, out)?;
    out.extend_from_slice(b"\n")
}

// Writes the line of a malformed netlist: which file it is, the number of the fault's kind, and its offset.
fn put_malformed(which: Which, number: u8, at: u64, out: &mut Vec<u8>) -> Result<(), AllocError>
    ensures { OnOk result (out.new.items ≡ out.old.items ++ malformed_line which number at) }
{
    out.extend_from_slice(b"malformed ")?;
    put_word(which, out)?;
    out.extend_from_slice(b" ")?;
    put_decimal(u64::from(number), out)?;
    out.extend_from_slice(b" ")?;
    put_decimal(at, out)?;
    out.extend_from_slice(b"\n")
}

fn put_word(which: Which, out: &mut Vec<u8>) -> Result<(), AllocError>
    ensures { OnOk result (out.new.items ≡ out.old.items ++ file_word which) }
{
    match which {
        Which::First => out.extend_from_slice(b"first"),
        Which::Second => out.extend_from_slice(b"second"),
        Which::Account => out.extend_from_slice(b"account"),
    }
}
