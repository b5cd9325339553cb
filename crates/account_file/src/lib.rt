//! Accounts, read and written: as text, a line for each record, and as bytes (version 2).
#![tactic(auto)]

mod binary;
mod fault;
mod forms;
mod laws;
mod names;
mod next_record;
mod place;
mod reader;
mod record;
mod spelling;
mod values;
mod words;

pub use binary::{is_binary, put_record2};
pub use fault::{FileStop, RecordFault};
pub use laws::{
    account_or_fault, one_answer, one_fault, one_list_of_records, one_record, one_record_in_bytes,
};
pub use reader::Reader;
pub use record::Record;
pub use spelling::{put_ban, put_fails, put_holds, put_log_line, put_record};
