//! Where the bits of a group stand.

/// A number of 64 bits has ten groups of seven bits at most.
pub(crate) const MORE_GROUPS: u32 = 9;

/// The bit that is set where another group follows.
pub(crate) const MORE: u8 = 128;

/// The bit of a delta's first group that is set where it leads to a smaller number.
pub(crate) const NEGATIVE: u8 = 64;

/// A delta's first group has its low six bits: how many values these have.
pub(crate) const LOW_VALUES: u64 = 64;

/// How many values the seven bits of another group have.
pub(crate) const GROUP_VALUES: u64 = 128;
