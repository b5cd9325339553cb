//! Accounts and netlists that are made of others, and written to files: the steps of `trim`, `convert`, `flatten` and
//! `sweep`.
#![tactic(auto)]

mod bytes_left;
mod converting;
mod ending;
mod flattening;
mod sweeping;
mod trimming;

pub use converting::convert_files;
pub use flattening::flatten_files;
pub use sweeping::sweep_files;
pub use trimming::trim_files;
