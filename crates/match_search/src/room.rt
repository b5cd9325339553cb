use account_core::{Ban, Step};
use broken_claims::BYTES_OF_BAN;

/// How many bytes the bans may take. Searches that were measured with this bound took less than a gigabyte in all, with
/// facts and what isn't counted.
const MOST_BYTES: u64 = 600_000_000;

/// What a reference of a cover takes. A cover of 128 ports and as many others has 32,768 of them.
const BYTES_OF_REFERENCE: u64 = 16;

/// How much memory the bans of a search take, some of a book's, which come one after the other.
#[derive(Drop)]
pub(crate) struct BanRoom {
    /// How many bytes, about.
    taken: u64,
    /// How many of the book's bans were counted.
    counted: usize,
}

impl BanRoom {
    /// No bans, no memory.
    pub(crate) fn new() -> BanRoom {
        BanRoom {
            taken: 0,
            counted: 0,
        }
    }

    /// Counts those of a book's bans that weren't counted.
    pub(crate) fn count(&mut self, bans: &[Ban]) {
        if self.counted < bans.len() {
            self.add(&bans[self.counted..]);
        }
        self.counted = bans.len();
    }

    /// Whether the bans take all that they may.
    pub(crate) fn is_full(&self) -> bool {
        self.taken >= MOST_BYTES
    }

    fn add(&mut self, bans: &[Ban]) {
        for ban in bans.iter() {
            self.taken = self.taken.saturating_add(bytes_of(&ban.step));
        }
    }
}

// What a ban of this step takes. Bans of wide circuits have more pairs, and those by vectors a byte for each input
// beside. A tally's lists aren't counted: `MOST_ASKED` bounds those of all pairs of outputs.
fn bytes_of(step: &Step) -> u64 {
    let Step::Cover { refs, .. } = step else {
        return BYTES_OF_BAN as u64;
    };
    BYTES_OF_REFERENCE
        .saturating_mul(refs.len() as u64)
        .saturating_add(BYTES_OF_BAN as u64)
}
