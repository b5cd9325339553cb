//! The symbols after the body of an AIGER file: lines that name its ports.

ghost use Rattle.std.specs.Prelude.{◌≡◌, ◌≢◌, ℕ, ◌+◌, ◌<◌, ◌^◌, List, [], ◌∷◌, ◌++◌, length, Option, IfSome, IfNone};
ghost use Rattle.std.specs.Prelude.{IfOk, IfErr, OnOk, replicate, slice_index_or};
ghost use Rattle.std.specs.Fmt.{decimal as digits_of_number};
ghost use Rattle.circuits.specs.declared.port.PortKind.{PortKind};
ghost use Rattle.circuits.specs.declared.port.PortKind.TheVariants.{Input, Output};
ghost use Rattle.circuits.specs.Ports.{letter_of};
ghost use Rattle.aiger_reader.specs.Symbols.{is_comment, IsWithoutReturn, Port, Entry, NamesPort, BeginsPosition};
ghost use Rattle.aiger_reader.specs.Symbols.{port_at, AreSlots, ArePortSlots, IsPut, TakesName, TakesLine};
ghost use Rattle.aiger_reader.specs.Symbols.{ArePortNames, name_or, AreSymbols, IsSymbolStop, AreNames};

use crate::words::has_no_word;
use circuits::PortKind;
use items::Items;
use net_file::{Name, NetFault, NetKind, NetStop};
use std::alloc::{AllocError, Global};
use text_core::{Cursor, Span, decimal, put_decimal, word_length};

/// The names of all ports, at their positions.
#[derive(Drop)]
pub(crate) struct Symbols {
    pub(crate) inputs: Items<Name>,
    pub(crate) outputs: Items<Name>,
}

// A slot for each port, at its position, with the name that is given to it so far.
#[derive(Drop)]
struct PortSlots {
    inputs: Vec<Option<Name>>,
    outputs: Vec<Option<Name>>,
}

// A name that a line gives to a port.
#[derive(Clone, Copy)]
struct Symbol<'a> {
    kind: PortKind,
    position: u64,
    name: &'a [u8],
}

// Whether a line opens the comment.
fn opens_comment(line: &[u8]) -> bool
    ensures { result ≡ is_comment line.now }
{
    match line {
        [first, ..] => *first == b'c',
        [] => false,
    }
}

// The position that the bytes begin with, and what stands after the blank that follows it.
// `None` where they don't begin so, or the position is greater than any of 64 bits.
fn position_at_front(bytes: &[u8]) -> Option<(u64, &[u8])>
    ensures position { IfSome result (λ found. BeginsPosition bytes.now found.0 found.1.now) }
    ensures none { IfNone result ((position : ℕ) (tail : List ℕ) → position < 2 ^ 64
        → BeginsPosition bytes.now position tail → ⊥) }
{
    let count = word_length(bytes);
    let mut cursor = Cursor::new(bytes);
    let digits = cursor.take(count)?;
    let position = decimal(digits).ok()?;
    if count >= bytes.len() {
        return None;
    }
    Some((position, &bytes[count + 1..]))
}

// A name without a carriage return at its end.
fn without_return(tail: &[u8]) -> &[u8]
    ensures { IsWithoutReturn tail.now result.now }
{
    match tail {
        [name @ .., b'\r'] => name,
        _ => tail,
    }
}

// The name that a line gives, and its port.
// `None` where it gives none, or the port's position is greater than any of 64 bits.
fn symbol_on(line: &[u8]) -> Option<Symbol<'_>>
    ensures named { IfSome result (λ s. NamesPort line.now (port_at s.kind s.position) s.name.now) }
    ensures none { IfNone result ((port : Port) (name : List ℕ) → port.position < 2 ^ 64
        → NamesPort line.now port name → ⊥) }
{
    let [letter, rest @ ..] = line else {
        return None;
    };
    let kind = PortKind::from_letter(*letter)?;
    let (position, tail) = position_at_front(rest)?;
    let name = without_return(tail);
    if name.is_empty() {
        return None;
    }
    Some(Symbol {
        kind,
        position,
        name,
    })
}

// Puts a name into a slot, where that is there and has none. Says whether it was put.
fn put_name(
    alloc: Global,
    slots: &mut Vec<Option<Name>>,
    position: u64,
    name: &[u8],
) -> Result<bool, AllocError>
    ensures put { IfOk result (λ put. IsPut put slots.old.items position name.now slots.new.items) }
    ensures size { length slots.new.items ≡ length slots.old.items }
{
    if position >= slots.len() as u64 {
        return Ok(false);
    }
    let place = position as usize;
    if slots[place].is_some() {
        return Ok(false);
    }
    slots[place] = Some(Items::from_slice(alloc, name)?);
    Ok(true)
}

// Gives the port of a symbol its name, where the port is there and has none. Says whether it was given.
fn put_symbol(alloc: Global, symbol: &Symbol<'_>, ports: &mut PortSlots) -> Result<bool, AllocError>
    ensures inputs { length ports.new.inputs.items ≡ length ports.old.inputs.items }
    ensures outputs { length ports.new.outputs.items ≡ length ports.old.outputs.items }
    ensures put { IfOk result (λ put. (before : List Entry)
        → ArePortSlots before ports.old.inputs.items ports.old.outputs.items
        → TakesName put before (ports.old.inputs.items, ports.old.outputs.items)
        (ports.new.inputs.items, ports.new.outputs.items)
        (port_at symbol.now.kind symbol.now.position) symbol.now.name.now) }
{
    match symbol.kind {
        PortKind::Input => put_name(alloc, &mut ports.inputs, symbol.position, symbol.name),
        PortKind::Output => put_name(alloc, &mut ports.outputs, symbol.position, symbol.name),
    }
}

// Takes up what one line of the symbols gives. Says whether it gives no name, or one to a port that is there and
// has none.
fn add_symbol(alloc: Global, mut line: Span<'_>, ports: &mut PortSlots) -> Result<bool, AllocError>
    ensures inputs { length ports.new.inputs.items ≡ length ports.old.inputs.items }
    ensures outputs { length ports.new.outputs.items ≡ length ports.old.outputs.items }
    ensures added { IfOk result (λ added. (before : List Entry)
        → ArePortSlots before ports.old.inputs.items ports.old.outputs.items
        → TakesLine added before (ports.old.inputs.items, ports.old.outputs.items)
        (ports.new.inputs.items, ports.new.outputs.items) line.entry.bytes) }
{
    let text = line.bytes();
    if has_no_word(&mut line) {
        return Ok(true);
    }
    let Some(symbol) = symbol_on(text) else {
        return Ok(false);
    };
    put_symbol(alloc, &symbol, ports)
}

// Takes up the lines of the symbols one after another, until the comment or the end.
fn read_lines(alloc: Global, cursor: &mut Cursor<'_>, ports: &mut PortSlots) -> Result<(), NetStop>
    requires { ArePortSlots [] ports.old.inputs.items ports.old.outputs.items }
    ensures inputs { length ports.new.inputs.items ≡ length ports.old.inputs.items }
    ensures outputs { length ports.new.outputs.items ≡ length ports.old.outputs.items }
    ensures symbols { OnOk result ((entries : List Entry)
        × AreSymbols (length ports.old.inputs.items) (length ports.old.outputs.items) cursor.old.bytes entries
        × ArePortSlots entries ports.new.inputs.items ports.new.outputs.items) }
    ensures stop { IfErr result
        (IsSymbolStop (length ports.old.inputs.items) (length ports.old.outputs.items) cursor.old) }
{
    while let Some(line) = cursor.next_line() {
        if opens_comment(line.bytes()) {
            return Ok(());
        }
        let at = line.at();
        if !add_symbol(alloc, line, ports)? {
            return Err(NetStop::Fault(NetFault {
                kind: NetKind::BadSymbol,
                at,
            }));
        }
    }
    Ok(())
}

// Slots with no name in them.
fn empty_slots(alloc: Global, count: u32) -> Result<Vec<Option<Name>>, AllocError>
    ensures { IfOk result (λ slots. slots.items ≡ replicate count None) }
{
    let mut slots = Vec::new(alloc);
    for _ in 0..count {
        slots.push(None)?;
    }
    Ok(slots)
}

// PortSlots with no name in them.
fn empty_ports(alloc: Global, inputs: u32, outputs: u32) -> Result<PortSlots, AllocError>
    ensures inputs { IfOk result (λ ports. length ports.inputs.items ≡ inputs) }
    ensures outputs { IfOk result (λ ports. length ports.outputs.items ≡ outputs) }
    ensures empty { IfOk result (λ ports. ArePortSlots [] ports.inputs.items ports.outputs.items) }
{
    Ok(PortSlots {
        inputs: empty_slots(alloc, inputs)?,
        outputs: empty_slots(alloc, outputs)?,
    })
}

// The name of a port that has none: its letter and its position.
fn default_name(alloc: Global, kind: PortKind, position: usize) -> Result<Name, AllocError>
    ensures { IfOk result (λ name. name ≡ letter_of kind ∷ digits_of_number position) }
{
    let mut name = Vec::new(alloc);
    name.push(kind.letter())?;
    put_decimal(position as u64, &mut name)?;
    Ok(Items::from_vec(name))
}

// The name of a port whose slot has this.
fn name_of(
    alloc: Global,
    kind: PortKind,
    position: usize,
    given: &Option<Name>,
) -> Result<Name, AllocError>
    ensures { IfOk result (λ name. name ≡ name_or (port_at kind position) given.now) }
{
    match given {
        Some(name) => Items::from_slice(alloc, name.as_slice()),
        None => default_name(alloc, kind, position),
    }
}

// The names of all ports of a kind.
fn names_of(
    alloc: Global,
    kind: PortKind,
    slots: &[Option<Name>],
) -> Result<Items<Name>, AllocError>
    ensures { IfOk result (λ names. (entries : List Entry) → AreSlots entries kind slots.now
        → ArePortNames entries kind (length slots.now) names) }
{
    let mut names = Items::new(alloc);
    for (position, given) in slots.iter().enumerate() {
        names.push(name_of(alloc, kind, position, given)?)?;
    }
    Ok(names)
}

// The names of all ports.
fn all_names(alloc: Global, ports: &PortSlots) -> Result<Symbols, AllocError>
    ensures inputs { IfOk result (λ symbols. (entries : List Entry)
        → ArePortSlots entries ports.now.inputs.items ports.now.outputs.items
        → ArePortNames entries Input (length ports.now.inputs.items) symbols.inputs) }
    ensures outputs { IfOk result (λ symbols. (entries : List Entry)
        → ArePortSlots entries ports.now.inputs.items ports.now.outputs.items
        → ArePortNames entries Output (length ports.now.outputs.items) symbols.outputs) }
{
    Ok(Symbols {
        inputs: names_of(alloc, PortKind::Input, &ports.inputs)?,
        outputs: names_of(alloc, PortKind::Output, &ports.outputs)?,
    })
}

/// The names of n inputs and outputs, by the symbols that stand in what is left of a file.
///
/// A line that begins with `i` or `o` names an input or an output: the letter, the port's position in digits,
/// counted from 0, one blank (a space, a tab or a carriage return), and the name, which goes to the line's end
/// without a last carriage return and isn't empty. Lines of blanks alone are passed over. A line that begins with
/// `c` opens the comment, and nothing after it is read. A port that no line names is called by its letter and its
/// position, as `i0` and `o12`.
///
/// # Errors
///
/// A fault of the kind [`NetKind::BadSymbol`] at the first other line, and at the first that names a port which
/// isn't there or has a name already; [`NetStop::Memory`] only when out of memory.
pub(crate) fn read_symbols(
    alloc: Global,
    cursor: &mut Cursor<'_>,
    inputs: u32,
    outputs: u32,
) -> Result<Symbols, NetStop>
    ensures names { IfOk result (λ symbols. AreNames inputs outputs cursor.old.bytes symbols.inputs symbols.outputs) }
    ensures stop { IfErr result (IsSymbolStop inputs outputs cursor.old) }
{
    let mut ports = empty_ports(alloc, inputs, outputs)?;
    read_lines(alloc, cursor, &mut ports)?;
    let symbols = all_names(alloc, &ports)?;
    Ok(symbols)
}
