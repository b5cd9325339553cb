ghost use Rattle.std.specs.Prelude.{◌≡◌, ◌<◌, ◌≤◌, [], ◌∷◌, ◌++◌, length, codes, if◌then◌else◌, All, OnOk, OnErr};
ghost use Rattle.circuits.specs.Bijections.{IsSignedBijection};
ghost use Rattle.port_report.specs.Reports.{port_among, entry_line, entry_lines, table_text, names_of};
ghost use Rattle.text_core.specs.Extends.{Extends};

use net_core::Matching;
use net_file::{Name, Named};
use std::alloc::AllocError;
use text_core::{put_number, put_text, put_word};

/// Writes a matching at the end of `out` as a port table, which says where each port of the first circuit goes: a line
/// for each input in order, then one for each output, as `input 0 a = not input 1 b`. Names are written byte for byte.
/// When out of memory, a first part of the lines may stand after what stood in `out`.
pub fn put_match(
    first: &Named,
    second: &Named,
    matching: &Matching,
    out: &mut Vec<u8>,
) -> Result<(), AllocError>
    requires inputs { second.now.graph.inputs ≡ first.now.graph.inputs }
    requires outputs { length second.now.graph.outputs ≡ length first.now.graph.outputs }
    requires inputs_placed { IsSignedBijection first.now.graph.inputs matching.now.inputs }
    requires outputs_placed { IsSignedBijection (length first.now.graph.outputs) matching.now.outputs }
    ensures ok { OnOk result (out.new.items
        ≡ out.old.items ++ table_text (names_of first.now) (names_of second.now) matching.now) }
    ensures kept { OnErr result (Extends out.old.items out.new.items) }
{
    put_entries(
        b"input",
        &first.input_names,
        &second.input_names,
        &matching.inputs,
        out,
    )?;
    put_entries(
        b"output",
        &first.output_names,
        &second.output_names,
        &matching.outputs,
        out,
    )
}

// Writes where each port of a kind goes, on a line of its own.
fn put_entries(
    kind: &[u8],
    firsts: &[Name],
    seconds: &[Name],
    entries: &[(u32, bool)],
    out: &mut Vec<u8>,
) -> Result<(), AllocError>
    requires ports { length entries.now ≤ length firsts.now }
    requires places { All (λ entry. entry.0 < length seconds.now) entries.now }
    ensures ok { OnOk result (out.new.items
        ≡ out.old.items ++ entry_lines kind.now firsts.now seconds.now 0 entries.now) }
    ensures kept { Extends out.old.items out.new.items }
{
    for (port, entry) in entries.iter().enumerate() {
        put_entry(kind, firsts, seconds, port, *entry, out)?;
    }
    Ok(())
}

fn put_entry(
    kind: &[u8],
    firsts: &[Name],
    seconds: &[Name],
    port: usize,
    entry: (u32, bool),
    out: &mut Vec<u8>,
) -> Result<(), AllocError>
    requires port { port < length firsts.now }
    requires place { entry.0 < length seconds.now }
    ensures ok { OnOk result (out.new.items ≡ out.old.items ++ entry_line kind.now firsts.now seconds.now port entry) }
    ensures kept { Extends out.old.items out.new.items }
{
    put_port(kind, firsts, port, out)?;
    put_text(b" = ", out)?;
    put_place(kind, seconds, entry, out)
}

// Writes where a port goes, to the end of its line.
fn put_place(
    kind: &[u8],
    seconds: &[Name],
    entry: (u32, bool),
    out: &mut Vec<u8>,
) -> Result<(), AllocError>
    requires { entry.0 < length seconds.now }
    ensures ok { OnOk result (out.new.items ≡ out.old.items
        ++ ((if entry.1 then codes "not " else []) ++ (port_among kind.now seconds.now entry.0 ++ 10 ∷ []))) }
    ensures kept { Extends out.old.items out.new.items }
{
    let (place, inverted) = entry;
    out.extend_from_slice(sign(inverted))?;
    put_port(kind, seconds, place as usize, out)?;
    out.extend_from_slice(b"\n")
}

fn sign(inverted: bool) -> &'static [u8]
    ensures { result.now ≡ (if inverted then codes "not " else []) }
{
    if inverted { b"not " } else { b"" }
}

// Writes a port by its kind, its number and its name.
pub(crate) fn put_port(
    kind: &[u8],
    names: &[Name],
    port: usize,
    out: &mut Vec<u8>,
) -> Result<(), AllocError>
    requires { port < length names.now }
    ensures ok { OnOk result (out.new.items ≡ out.old.items ++ port_among kind.now names.now port) }
    ensures kept { Extends out.old.items out.new.items }
{
    put_word(kind, out)?;
    put_number(port as u64, out)?;
    out.extend_from_slice(&names[port])
}
