ghost use Rattle.std.specs.Prelude.{All};
ghost use Rattle.account_file.specs.Spelling.{HasLine, line_props};

mod printing;

use account_core::{Ban, Fact};
use account_file::Record;
use cnf_core::{Log, LogLine};
pub use printing::last_line;

/// The lines of an account that are still to be printed. Its parts are lines: an account need never be whole in memory.
#[derive(Drop)]
pub struct AccountLines<'a> {
    pub(crate) front: &'a [Record],
    /// The other lines of a log that was begun.
    pub(crate) log: &'a [LogLine],
    pub(crate) facts: &'a [Fact],
    pub(crate) logs: &'a [Log],
    pub(crate) bans: &'a [Ban],
    pub(crate) back: &'a [Record],
    ghost front_has_lines: { All HasLine front.now } by { Prim.hlevel line_props },
    ghost back_has_lines: { All HasLine back.now } by { Prim.hlevel line_props },
}
