//! Lines, words and numbers of a text that is given as bytes, and texts that are written piece by piece; numbers in
//! groups of seven bits.
#![tactic(auto, using(crate::proofs::Extending::extends_same, crate::proofs::Extending::extends_twice))]

mod chain;
mod laws;
mod leb128;
mod numbers;
mod parts;
mod pieces;
mod spans;

pub use chain::{Chain, Whole};
pub use laws::{
    lines_from_first_line, lines_of_text, number_from_decimal, pieces_of_text,
    words_from_first_word, words_of_line,
};
pub use leb128::put_leb128;
pub use numbers::{NumberFault, decimal, digits_in_front, is_numeral, put_decimal, value_of};
pub use parts::{Parts, put_all};
pub use pieces::{put_last_number, put_last_word, put_number, put_text, put_word};
pub use spans::{Cursor, Span, is_blank, line_length, next_word, word_length};
