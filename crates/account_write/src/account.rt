ghost use Rattle.std.specs.Prelude.{All};
ghost use Rattle.account_file.specs.Spelling.{HasLine, line_props};

mod making;

use account_core::{Ban, Fact};
use account_file::Record;
use cnf_core::Log;
use items::Items;

/// The account of what a search came to, up to the last line. Each of its lines can be read back: it is printed once
/// where the account is made.
pub struct Account {
    /// The header, and for a match the pairs of its ports.
    front: Items<Record>,
    /// Each that holds is followed by the lines of its log.
    facts: Items<Fact>,
    logs: Items<Log>,
    bans: Items<Ban>,
    /// The conclusion that is drawn from bans.
    back: Items<Record>,
    ghost front_has_lines: { All HasLine front } by { Prim.hlevel line_props },
    ghost back_has_lines: { All HasLine back } by { Prim.hlevel line_props },
}

// By hand, so that each exit of a function has one call for it (docs/IDIOMS.md).
impl Drop for Account {
    fn drop(self) {
        let Account {
            front: _front,
            facts: _facts,
            logs: _logs,
            bans: _bans,
            back: _back,
        } = self;
    }
}
