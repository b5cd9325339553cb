//! Rows of covers.

ghost use Rattle.std.specs.Prelude.{◌≡◌, ◌+◌, ◌<◌, ◌∷◌, ◌&&◌, ◌||◌, not, true, false, None, Some, length};
ghost use Rattle.std.specs.Prelude.{slice_index_or, MatchOption, IfOk, IfErr};
ghost use Rattle.std.specs.List.{list_all};
ghost use Rattle.text_core.specs.Piece.{Piece};
ghost use Rattle.blif_reader.specs.Rows.{is_bit_byte, is_literal_byte, literal_bytes, output_byte, has_widths};
ghost use Rattle.blif_reader.specs.Rows.{has_good_bytes};
ghost use Rattle.blif_reader.specs.Reading.{words_left, lines_left};
ghost use Rattle.blif_reader.specs.Surveys.{words_in_row, is_mixed, fault_by_cover};

use crate::lines::JoinedLines;
use net_file::NetKind;
use text_core::Span;

/// What is known of the cover that the last `.names` line opened.
#[derive(Clone, Copy)]
pub struct OpenCover {
    /// How many operands it has.
    pub operands: usize,
    /// The byte for the output that its rows have so far, if there are any.
    pub output: Option<u8>,
}

/// The words of a row.
#[derive(Drop)]
pub struct RowWords<'a> {
    /// A byte for each operand; None where the word for the output stands alone.
    pub literals: Option<Span<'a>>,
    /// A byte for the output.
    pub output: Span<'a>,
}

/// The words of a row, of which `first` is the first. None where there are more than two, which no cover has; so a
/// long line takes no memory.
pub fn words_of_row<'a>(first: Span<'a>, lines: &mut JoinedLines<'a>) -> Option<RowWords<'a>>
    ensures row { MatchOption result
        (2 < 1 + length (words_left lines.old))
        (λ row. first.entry ∷ words_left lines.old ≡ words_in_row row) }
    ensures lines { lines_left lines.new ≡ lines_left lines.old }
{
    let Some(output) = lines.next_word() else {
        return Some(RowWords {
            literals: None,
            output: first,
        });
    };
    match lines.next_word() {
        Some(_) => None,
        None => Some(RowWords {
            literals: Some(first),
            output,
        }),
    }
}

impl OpenCover {
    /// The byte for the output, where nothing is wrong with a row of the cover.
    pub fn check_row(self, row: &RowWords<'_>) -> Result<u8, NetKind>
        ensures good { IfOk result (λ byte. (fault_by_cover (Some self) (words_in_row row.now) ≡ None)
            × (byte ≡ output_byte (words_in_row row.now))) }
        ensures fault { IfErr result (λ kind. fault_by_cover (Some self) (words_in_row row.now) ≡ Some kind) }
    {
        let Some(output) = self.output_of(row) else {
            return Err(NetKind::RowWidth);
        };
        if !has_good_bytes(row, output) {
            return Err(NetKind::RowChar);
        }
        if self.is_mixed_by(output) {
            return Err(NetKind::MixedCover);
        }
        Ok(output)
    }

    // The byte for the output, where the words of a row have the right lengths.
    fn output_of(self, row: &RowWords<'_>) -> Option<u8>
        ensures { MatchOption result (has_widths self.operands (words_in_row row.now) ≡ false)
            (λ byte. (has_widths self.operands (words_in_row row.now) ≡ true)
            × (byte ≡ output_byte (words_in_row row.now))) }
    {
        let operands = match &row.literals {
            Some(literals) => literals.bytes().len(),
            None => 0,
        };
        if operands != self.operands || row.literals.is_some() != (self.operands != 0) {
            return None;
        }
        match row.output.bytes() {
            [byte] => Some(*byte),
            _ => None,
        }
    }

    // Whether the rows before have another byte for the output.
    fn is_mixed_by(self, byte: u8) -> bool
        ensures { result ≡ is_mixed self.output byte }
    {
        match self.output {
            Some(other) => other != byte,
            None => false,
        }
    }
}

// Whether each byte of a row may stand at its place.
fn has_good_bytes(row: &RowWords<'_>, output: u8) -> bool
    requires { output ≡ output_byte (words_in_row row.now) }
    ensures { result ≡ has_good_bytes (words_in_row row.now) }
{
    match &row.literals {
        Some(literals) => has_good_literals(literals.bytes()) & is_bit_byte(output),
        None => is_bit_byte(output),
    }
}

fn has_good_literals(literals: &[u8]) -> bool
    ensures { result ≡ list_all is_literal_byte literals.now }
{
    literals.iter().all(|byte| is_literal_byte(*byte))
}

fn is_literal_byte(byte: u8) -> bool
    ensures { result ≡ is_literal_byte byte }
{
    is_bit_byte(byte) || byte == b'-'
}

fn is_bit_byte(byte: u8) -> bool
    ensures { result ≡ is_bit_byte byte }
{
    byte == b'0' || byte == b'1'
}
