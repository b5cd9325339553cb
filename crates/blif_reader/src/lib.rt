//! Reads netlists in the Berkeley Logic Interchange Format (BLIF).
#![tactic(auto)]

mod covers;
mod directive;
mod laws;
mod lines;
mod names;
mod ports;
mod rows;
mod survey;
mod whole;

pub use covers::trits_of;
pub use directive::Directive;
pub use laws::blif_is_a_format;
pub use lines::JoinedLines;
pub use names::{PortNames, add_name, find_name, name_ports};
pub use rows::{OpenCover, RowWords, words_of_row};
pub use survey::{PortWord, take_words};
pub use whole::read;
