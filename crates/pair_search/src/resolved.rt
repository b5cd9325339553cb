//! Ways that are resolved on.

use circuits::Pair;

/// An assigned pair that is taken out of a conflict, and a ban that it leads into beside the other pairs.
#[derive(Clone, Copy, Debug)]
pub struct Resolved {
    pub way: Pair,
    pub ban: u64,
}
