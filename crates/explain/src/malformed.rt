//! Where a netlist is malformed, and what it is instead.

ghost use Rattle.std.specs.Prelude.{◌≡◌};
ghost use Rattle.refusal_words.specs.Files.{SameFiles};
ghost use Rattle.shelf_core.specs.State.{Closed};

use crate::looks::FileLook;
use crate::places::{line_around, place_of};
use crate::remedies::Remedy;
use check_steps::{File, NETLIST_LIMIT, ReadStop, read_file};
use hier_blif::HierFault;
use net_file::{NetFault, NetKind};
use refusal_words::TerminalText;
use shelf_core::Shelf;
use std::alloc::Global;

/// Says of a malformed netlist where its first fault stands, what its kind means, what the line is, and what helps.
pub(crate) fn put_malformed<S: Shelf>(
    alloc: Global,
    name: &str,
    fault: NetFault,
    shelf: &mut S,
    text: &mut String,
) -> Result<(), ReadStop>
    requires { (S.state shelf.old).mode ≡ Closed }
    ensures { SameFiles (S.state shelf.old) (S.state shelf.new) }
{
    match read_file(alloc, shelf, name, NETLIST_LIMIT)? {
        File::Bytes(bytes) => put_fault(name, &bytes, fault, text),
        _ => put_unread(name, fault, text),
    }
}

/// Says of a malformed netlist that can't be read again what its fault means.
pub(crate) fn put_unread(name: &str, fault: NetFault, text: &mut String) -> Result<(), ReadStop> {
    let (name, kind, at) = (TerminalText::name(name), fault.kind, fault.at);
    Ok(writeln!(text, "{name}: byte {at}: {kind}")?)
}

/// Says of a malformed file of models where its first fault stands, what its kind means, and what the line is.
pub(crate) fn put_malformed_models<S: Shelf>(
    alloc: Global,
    name: &str,
    fault: HierFault,
    shelf: &mut S,
    text: &mut String,
) -> Result<(), ReadStop>
    requires { (S.state shelf.old).mode ≡ Closed }
    ensures { SameFiles (S.state shelf.old) (S.state shelf.new) }
{
    match read_file(alloc, shelf, name, NETLIST_LIMIT)? {
        File::Bytes(bytes) => put_models_fault(name, &bytes, fault, text),
        _ => put_unread_models(name, fault, text),
    }
}

/// Says of a malformed file of models that can't be read again what its fault means.
pub(crate) fn put_unread_models(
    name: &str,
    fault: HierFault,
    text: &mut String,
) -> Result<(), ReadStop> {
    let (name, kind, at) = (TerminalText::name(name), fault.kind, fault.at);
    Ok(writeln!(text, "{name}: byte {at}: {kind}")?)
}

fn put_models_fault(
    name: &str,
    bytes: &[u8],
    fault: HierFault,
    text: &mut String,
) -> Result<(), ReadStop> {
    let at = fault.at.min(bytes.len() as u64) as usize;
    let (name, line) = (TerminalText::name(name), line_around(bytes, at));
    let (kind, place) = (fault.kind, place_of(bytes, at));
    writeln!(text, "{name}:{place}: {kind}")?;
    let look = FileLook::of(bytes);
    let is_text = match look {
        Some(look) => look.is_text(),
        None => true,
    };
    if is_text & !line.is_empty() {
        writeln!(text, "  {}", TerminalText(line))?;
    }
    if let Some(look) = look {
        writeln!(text, "{name}: {look}")?;
    }
    Ok(())
}

fn put_fault(name: &str, bytes: &[u8], fault: NetFault, text: &mut String) -> Result<(), ReadStop> {
    let at = fault.at.min(bytes.len() as u64) as usize;
    let line = line_around(bytes, at);
    let look = FileLook::of(bytes);
    if is_binary(fault.kind, bytes) {
        put_unread(name, fault, text)?;
    } else {
        let (kind, place) = (fault.kind, place_of(bytes, at));
        writeln!(text, "{}:{place}: {kind}", TerminalText::name(name))?;
    }
    if shows_line(fault.kind, look, line) {
        writeln!(text, "  {}", TerminalText(line))?;
    }
    put_help(name, look, Remedy::of(fault.kind, bytes, line), text)
}

/// Whether a fault stands in the part of a binary AIGER file that has no lines, or after it.
fn is_binary(kind: NetKind, bytes: &[u8]) -> bool {
    bytes.starts_with(b"aig ") & matches!(kind, NetKind::Delta | NetKind::BadSymbol)
}

/// Whether the line of a fault is text that says something.
fn shows_line(kind: NetKind, look: Option<FileLook>, line: &[u8]) -> bool {
    let is_text = match look {
        Some(look) => look.is_text(),
        None => true,
    };
    is_text & !line.is_empty() & (kind != NetKind::Delta)
}

fn put_help(
    name: &str,
    look: Option<FileLook>,
    remedy: Option<Remedy>,
    text: &mut String,
) -> Result<(), ReadStop> {
    let name = TerminalText::name(name);
    if let Some(look) = look {
        writeln!(text, "{name}: {look}")?;
    }
    if let Some(remedy) = remedy {
        writeln!(text, "{name}: {remedy}")?;
    }
    Ok(())
}
