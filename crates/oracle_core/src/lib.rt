//! The oracle, which decides claims about two circuits and compares their outputs, and what its ledger's entries are
//! worth.
#![tactic(auto)]

mod oracle;

pub use oracle::{Compared, Oracle};
