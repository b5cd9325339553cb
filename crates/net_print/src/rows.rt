//! What both forms of AIGER begin with: the header, and the lines of the outputs.

ghost use Rattle.std.specs.Prelude.{◌≡◌, [], ◌∷◌, ◌++◌, length, map, if◌then◌else◌, OnOk};
ghost use Rattle.text_core.specs.Extends.{Extends};
ghost use Rattle.net_print.specs.Rows.{rows_text, output_row, header_text, counts_text};

use net_core::{Graph, Lit};
use std::alloc::AllocError;
use text_core::{Parts, put_last_number, put_number, put_text};

/// The header's line, after the keyword of a form.
#[derive(Drop)]
pub(crate) struct Header<'a> {
    keyword: &'a [u8],
    graph: &'a Graph,
    is_printed: bool,
}

impl<'a> Header<'a> {
    pub(crate) fn new(keyword: &'a [u8], graph: &'a Graph) -> Header<'a>
        ensures { ⟦<Header<'a> as Parts>⟧.left result ≡ header_text keyword.now graph.now }
    {
        Header {
            keyword,
            graph,
            is_printed: false,
        }
    }
}

impl<'a> Parts for Header<'a> {
    ghost left = { λ header. if header.is_printed then [] else header_text header.keyword.now header.graph.now };

    ghost steps = { λ header. if header.is_printed then 0 else 1 };

    fn is_done(&self) -> bool {
        self.is_printed
    }

    fn put_next(&mut self, out: &mut Vec<u8>) -> Result<(), AllocError> {
        if self.is_printed {
            return Ok(());
        }
        put_header(self.keyword, self.graph, out)?;
        self.is_printed = true;
        Ok(())
    }
}

// Writes the header's line.
fn put_header(keyword: &[u8], graph: &Graph, out: &mut Vec<u8>) -> Result<(), AllocError>
    ensures ok { OnOk result (out.new.items ≡ out.old.items ++ header_text keyword.now graph.now) }
    ensures kept { Extends out.old.items out.new.items }
{
    let gates = graph.gates().len() as u64;
    put_text(keyword, out)?;
    put_counts(graph.inputs() as u64 + gates, graph.inputs(), out)?;
    put_number(graph.outputs().len() as u64, out)?;
    put_last_number(gates, out)
}

// Writes the greatest variable, the number of inputs, and that there are no latches.
fn put_counts(variables: u64, inputs: u32, out: &mut Vec<u8>) -> Result<(), AllocError>
    ensures ok { OnOk result (out.new.items ≡ out.old.items ++ counts_text variables inputs) }
    ensures kept { Extends out.old.items out.new.items }
{
    put_number(variables, out)?;
    put_number(inputs as u64, out)?;
    put_number(0, out)
}

/// A line for each output: its literal.
#[derive(Drop)]
pub(crate) struct OutputRows<'a> {
    outputs: &'a [Lit],
}

impl<'a> OutputRows<'a> {
    pub(crate) fn new(graph: &'a Graph) -> OutputRows<'a>
        ensures { ⟦<OutputRows<'a> as Parts>⟧.left result ≡ rows_text (map output_row graph.now.outputs) }
    {
        OutputRows {
            outputs: graph.outputs(),
        }
    }
}

impl<'a> Parts for OutputRows<'a> {
    ghost left = { λ rows. rows_text (map output_row rows.outputs.now) };

    ghost steps = { λ rows. length rows.outputs.now };

    fn is_done(&self) -> bool {
        self.outputs.is_empty()
    }

    fn put_next(&mut self, out: &mut Vec<u8>) -> Result<(), AllocError> {
        let [output, rest @ ..] = self.outputs else {
            return Ok(());
        };
        put_last_number(output.0 as u64, out)?;
        self.outputs = rest;
        Ok(())
    }
}
