ghost use Rattle.std.specs.Prelude.{◌≡◌, ◌<◌, ◌≤◌, [], ◌∷◌, ◌++◌, length, All, OnOk, OnErr};
ghost use Rattle.port_report.specs.Infos.{IsInRange, count_line, info_text, input_line, input_lines, output_line};
ghost use Rattle.port_report.specs.Infos.{output_text, output_texts, pair_line, pair_lines, sym_word, unate_word};
ghost use Rattle.port_report.specs.Reports.{names_of};
ghost use Rattle.text_core.specs.Extends.{Extends};

use crate::table::put_port;
use claim_core::{OutputInfo, Sym, Unate};
use net_file::{Name, Named};
use std::alloc::AllocError;
use text_core::{put_last_number, put_last_word, put_number, put_word};

fn word_of_unate(unate: Unate) -> &'static [u8]
    ensures { result.now ≡ unate_word unate }
{
    match unate {
        Unate::Positive => b"positive",
        Unate::Negative => b"negative",
        Unate::Binate => b"binate",
    }
}

fn word_of_sym(sym: Sym) -> &'static [u8]
    ensures { result.now ≡ sym_word sym }
{
    match sym {
        Sym::Symmetric => b"symmetric",
        Sym::Skew => b"skew",
        Sym::Both => b"both",
    }
}

/// Writes at the end of `out` how many inputs, outputs and gates the circuit has, and then of each output how it
/// depends on which inputs, and which pairs of them may be exchanged. Names are written byte for byte.
/// When out of memory, a first part of the text may stand after what stood in `out`.
pub fn put_info(named: &Named, rows: &[OutputInfo], out: &mut Vec<u8>) -> Result<(), AllocError>
    requires rows { length rows.now ≡ length named.now.graph.outputs }
    requires inputs { All (IsInRange named.now.graph.inputs) rows.now }
    ensures ok { OnOk result (out.new.items ≡ out.old.items ++ info_text named.now rows.now) }
    ensures kept { OnErr result (Extends out.old.items out.new.items) }
{
    put_count(b"inputs", named.graph.inputs() as usize, out)?;
    put_count(b"outputs", named.graph.outputs().len(), out)?;
    put_count(b"gates", named.graph.gates().len(), out)?;
    put_outputs(named, rows, out)
}

fn put_count(word: &[u8], count: usize, out: &mut Vec<u8>) -> Result<(), AllocError>
    ensures ok { OnOk result (out.new.items ≡ out.old.items ++ count_line word.now count) }
    ensures kept { Extends out.old.items out.new.items }
{
    put_word(word, out)?;
    put_last_number(count as u64, out)
}

// Writes what is known of each output.
fn put_outputs(named: &Named, rows: &[OutputInfo], out: &mut Vec<u8>) -> Result<(), AllocError>
    requires rows { length rows.now ≤ length named.now.output_names }
    requires inputs { All (IsInRange (length named.now.input_names)) rows.now }
    ensures ok { OnOk result (out.new.items ≡ out.old.items ++ output_texts (names_of named.now) 0 rows.now) }
    ensures kept { Extends out.old.items out.new.items }
{
    for (port, row) in rows.iter().enumerate() {
        put_output(&named.input_names, &named.output_names, port, row, out)?;
    }
    Ok(())
}

fn put_output(
    inputs: &[Name],
    outputs: &[Name],
    port: usize,
    row: &OutputInfo,
    out: &mut Vec<u8>,
) -> Result<(), AllocError>
    requires port { port < length outputs.now }
    requires inputs { IsInRange (length inputs.now) row.now }
    ensures ok { OnOk result (out.new.items
        ≡ out.old.items ++ output_text (record { inputs = inputs.now; outputs = outputs.now }) port row.now) }
    ensures kept { Extends out.old.items out.new.items }
{
    put_output_line(outputs, port, row.support.len(), out)?;
    put_inputs(inputs, &row.support, out)?;
    put_pairs(&row.pairs, out)
}

fn put_output_line(
    names: &[Name],
    port: usize,
    support: usize,
    out: &mut Vec<u8>,
) -> Result<(), AllocError>
    requires { port < length names.now }
    ensures ok { OnOk result (out.new.items ≡ out.old.items ++ output_line names.now port support) }
    ensures kept { Extends out.old.items out.new.items }
{
    put_port(b"output", names, port, out)?;
    out.extend_from_slice(b" support ")?;
    put_last_number(support as u64, out)
}

fn put_inputs(names: &[Name], support: &[(u32, Unate)], out: &mut Vec<u8>) -> Result<(), AllocError>
    requires { All (λ entry. entry.0 < length names.now) support.now }
    ensures ok { OnOk result (out.new.items ≡ out.old.items ++ input_lines names.now support.now) }
    ensures kept { Extends out.old.items out.new.items }
{
    for entry in support.iter() {
        put_input(names, *entry, out)?;
    }
    Ok(())
}

fn put_input(names: &[Name], entry: (u32, Unate), out: &mut Vec<u8>) -> Result<(), AllocError>
    requires { entry.0 < length names.now }
    ensures ok { OnOk result (out.new.items ≡ out.old.items ++ input_line names.now entry) }
    ensures kept { Extends out.old.items out.new.items }
{
    let (input, unate) = entry;
    put_port(b"input", names, input as usize, out)?;
    out.extend_from_slice(b" ")?;
    put_last_word(word_of_unate(unate), out)
}

fn put_pairs(pairs: &[(u32, u32, Sym)], out: &mut Vec<u8>) -> Result<(), AllocError>
    ensures ok { OnOk result (out.new.items ≡ out.old.items ++ pair_lines pairs.now) }
    ensures kept { Extends out.old.items out.new.items }
{
    for pair in pairs.iter() {
        put_pair(*pair, out)?;
    }
    Ok(())
}

fn put_pair(pair: (u32, u32, Sym), out: &mut Vec<u8>) -> Result<(), AllocError>
    ensures ok { OnOk result (out.new.items ≡ out.old.items ++ pair_line pair) }
    ensures kept { Extends out.old.items out.new.items }
{
    let (first, second, symmetry) = pair;
    out.extend_from_slice(b"pair ")?;
    put_number(first as u64, out)?;
    put_number(second as u64, out)?;
    put_last_word(word_of_sym(symmetry), out)
}
