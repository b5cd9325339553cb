//! Lists that contracts see as plain lists: their value is the list of the elements alone, without the capacity.
#![tactic(auto)]

mod list;
mod small;

pub use list::Items;
pub use small::Few;
