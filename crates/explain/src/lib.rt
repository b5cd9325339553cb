//! What people are told beside the report: the forms of the words, and on standard error what a report means. All of it
//! is text that is made in memory; whoever calls says where it goes.
#![tactic(auto)]

mod account_lines;
mod explanation;
mod faults;
mod folder;
mod looks;
mod malformed;
mod meanings;
mod notice;
mod places;
mod remedies;
mod spending;
mod version;
mod word_fault;

pub use explanation::{EndedRun, explain, files_read_again};
pub use faults::FailedFile;
pub use folder::{FolderFault, Warning, folder_of, written_names};
pub use notice::Notice;
pub use word_fault::{Slot, WordFault, fault_of_words};
