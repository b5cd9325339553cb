//! Lists of bits, packed, and marks of numbers. An error comes only when out of memory.
#![tactic(auto)]

mod bits;
mod marks;

pub use bits::Bits;
pub use marks::Marks;
