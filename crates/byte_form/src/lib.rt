//! Values as bytes, one after the other: numbers in network byte order, and what is read from the front of bytes.
#![tactic(auto)]

mod laws;
mod numbers;
mod reader;

pub use laws::{one_list, one_number};
pub use numbers::{put_u32, put_u64};
pub use reader::ByteReader;
