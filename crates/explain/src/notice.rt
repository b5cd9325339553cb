//! What the program says of itself.

use crate::version::{KIT, VERSION};
use std::fmt;

/// The forms of the words.
pub(crate) const FORMS: &str = "\
npnp match FIRST SECOND ACCOUNT [BUDGET [SEED]]
npnp check FIRST SECOND ACCOUNT
npnp restore FIRST SECOND ACCOUNT NEW
npnp trim FIRST SECOND OLD NEW
npnp convert OLD NEW
npnp flatten FILE NEW
npnp sweep FILE NEW [ALLOWANCE]
npnp info FILE [BUDGET]
npnp make NUMBER FIRST SECOND
npnp trial NUMBER
npnp --version
npnp --help
";

/// What the words mean, and how a run ends.
const MEANING: &str = "\
FIRST, SECOND and FILE are netlists, BLIF or AIGER (text or binary). `match` looks for a match, which gives every \
port of
FIRST its partner in SECOND, plain or inverted. It prints `matched` and the port table, or `no matching`, and writes
ACCOUNT, which proves either. `check` tests such an account, whoever wrote it. Where it proves a match, `restore` writes
NEW, as binary AIGER: the gates of SECOND with the ports of FIRST, with their names. `trim` tests the account OLD, and
writes NEW: OLD as text, without what its conclusion doesn't rest on. `convert` writes NEW: the account OLD in the other
version, 1 (text) or 2 (bytes). `flatten` writes NEW, as AIGER text: FILE, which is BLIF and may have several models
(`.subckt`), as one netlist. `sweep` writes NEW, as AIGER text: FILE with one signal in place of all that compute the
same, or the complement. `info` prints supports, unateness and symmetries. `make` writes the pair of netlists that NUMBER
gives, FIRST as binary AIGER and SECOND as BLIF: they match. `trial` makes it in memory, looks for its match and checks
the account.

BUDGET     how many clauses may be learned, by default 1000000000
SEED       chooses the vectors that are simulated, by default 1
ALLOWANCE  how many clauses may be learned to compare signals, by default 1000000; then the others stay as they are
NUMBER     gives the pair of netlists
All four are 1 to 20 decimal digits, below 18446744073709551616.

status  the report begins with
0       `matched`, `accepted match`, `restored`, `trimmed`, `converted`, `flattened`, `swept`, the rows of `info`, `made` or
        `trial`
1       `no matching` or `accepted refusal`
2       `rejected`: a line of the account is wrong
3       `spent`: the budget was spent before the answer
4       `usage`: the words are of none of these forms
5       `absent`, `too large` or `malformed`: a file isn't there, or is no netlist that is read
6       `read fault`, or nothing where a file or the report couldn't be written
7       `out of memory`

NPNP_PROGRESS  1: a long run says on standard error what it is at, as it does on a terminal; 0: it doesn't
NPNP_EXPLAIN   1: what a report means is said on standard error, as it is on a terminal; 0: it isn't
";

/// What one word asks the program to say of itself, in place of a run.
#[derive(Clone, Copy, Debug, PartialEq, Eq)]
pub enum Notice {
    /// The forms of the words, what they mean, and the statuses.
    Help,
    /// The version, and the kit that it is proved with.
    Version,
}

impl Notice {
    /// What the words ask for, where they are one word: `--help`, `-h` or `--version`.
    pub fn asked(words: &[String]) -> Option<Notice> {
        let [word] = words else {
            return None;
        };
        match word.as_str() {
            "--help" | "-h" => Some(Notice::Help),
            "--version" => Some(Notice::Version),
            _ => None,
        }
    }
}

/// In lines that end with a line feed.
impl fmt::Display for Notice {
    fn fmt<W: fmt::Write>(&self, f: &mut fmt::Formatter<W>) -> fmt::Result {
        match self {
            Notice::Help => write!(f, "{FORMS}\n{MEANING}"),
            Notice::Version => writeln!(f, "npnp {VERSION} ({KIT})"),
        }
    }
}
