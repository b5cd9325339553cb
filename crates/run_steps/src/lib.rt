//! The steps of a run that ask no search, beside those of a check: an answer's account, a pair of
//! netlists, or another text, written.
#![tactic(auto)]

mod concluding;
mod making;
mod naming;
mod writing;

pub use concluding::{conclude, reported};
pub use making::{make_files, write_named, write_named_with_end};
pub use naming::symbol_names;
pub use writing::{write_account, write_text, write_with_end};
