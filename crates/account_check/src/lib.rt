//! Checks accounts record by record. An account gives facts about the outputs of two circuits, each with its evidence,
//! and bans, pairs of ports that no match has all of, each with its reason. It concludes that pairs of ports are a
//! match, and two logs for each output prove it; or that there is no match, since a ban has no pairs or the circuits
//! differ in their numbers of ports.
#![tactic(auto)]

mod bans;
mod checker;
mod dropped;
mod fact_log;
mod fact_logs;
mod facts;
mod laws;
mod logs;
mod open_log;
mod pairs;
mod pieces;
mod reject;
mod verdict;
mod whole_account;

pub use account_core::Conclusion;
pub use account_file::Record;
pub use checker::Checker;
pub use laws::{
    accepted_match_is_right, accepted_refusal_is_right, every_prefix_is_right,
    one_fault_of_a_record, one_verdict,
};
pub use pieces::AccountCheck;
pub use reject::{RecordStop, Reject};
pub use verdict::{CheckStop, Verdict, Why};
pub use whole_account::check;
