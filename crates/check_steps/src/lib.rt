//! What a check runs, from its words to its report: netlists and an account are read from a shelf, and the account is
//! judged. Nothing here searches or draws anything.
#![tactic(auto)]

mod checking;
mod files;
mod judging;
mod netlists;
mod outcome;
mod report;
mod words;

pub use checking::{Judgement, check_files, judge_files};
pub use files::{File, PIECE, ReadStop, read_file, read_whole, zeros};
pub use netlists::{NETLIST_LIMIT, read_netlist};
pub use outcome::{Ending, Outcome, Which};
pub use report::{report_line, report_named};
pub use words::{
    Check, Command, Convert, DEFAULT_ALLOWANCE, DEFAULT_BUDGET, DEFAULT_SEED, Flatten, Info,
    MOST_DIGITS, Make, Match, Restore, Sweep, Trial, Trim, command_asked,
};
