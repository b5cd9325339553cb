//! The symbols that an AIGER file ends with: a name for each port.

ghost use Rattle.std.specs.Prelude.{◌≡◌, ◌+◌, ◌++◌, ◌<◌, ◌^◌, length, OnOk};
ghost use Rattle.text_core.specs.Lines.{text_of_lines};
ghost use Rattle.text_core.specs.Extends.{Extends};
ghost use Rattle.net_print.specs.Rows.{symbol_lines, symbol_text, symbols_text};

use net_file::{Name, Named};
use std::alloc::AllocError;
use text_core::{Chain, Parts, put_last_word, put_number};

/// A symbol for each input, then one for each output.
pub(crate) type Symbols<'a> = Chain<Names<'a>, Names<'a>>;

pub(crate) fn symbols_of<'a>(named: &'a Named) -> Symbols<'a>
    ensures { ⟦<Symbols<'a> as Parts>⟧.left result ≡ symbols_text named.now }
{
    let inputs = Names::new(b'i', &named.input_names);
    Chain::new(inputs, Names::new(b'o', &named.output_names))
}

/// A symbol for each port of a kind, by the letter of the kind.
#[derive(Drop)]
pub(crate) struct Names<'a> {
    letter: u8,
    position: u64,
    names: &'a [Name],
    ghost few: { position + length names.now < 2 ^ 64 },
}

impl<'a> Names<'a> {
    fn new(letter: u8, names: &'a [Name]) -> Names<'a>
        ensures { ⟦<Names<'a> as Parts>⟧.left result ≡ text_of_lines (symbol_lines letter 0 names.now) }
    {
        Names {
            letter,
            position: 0,
            names,
        }
    }
}

impl<'a> Parts for Names<'a> {
    ghost left = { λ symbols. text_of_lines (symbol_lines symbols.letter symbols.position symbols.names.now) };

    ghost steps = { λ symbols. length symbols.names.now };

    fn is_done(&self) -> bool {
        self.names.is_empty()
    }

    fn put_next(&mut self, out: &mut Vec<u8>) -> Result<(), AllocError> {
        let [name, rest @ ..] = self.names else {
            return Ok(());
        };
        put_symbol(self.letter, self.position, name, out)?;
        self.position += 1;
        self.names = rest;
        Ok(())
    }
}

fn put_symbol(letter: u8, position: u64, name: &[u8], out: &mut Vec<u8>) -> Result<(), AllocError>
    ensures ok { OnOk result (out.new.items ≡ out.old.items ++ symbol_text letter position name.now) }
    ensures kept { Extends out.old.items out.new.items }
{
    out.push(letter)?;
    put_number(position, out)?;
    put_last_word(name, out)
}
