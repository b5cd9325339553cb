//! How large a netlist may be that is read: the one place of these limits in code, as `specs/Limits.antt` is in
//! definitions. The readers and [`order`](crate::order) refuse what is larger.

/// The most inputs, and the most outputs. A search has tables by signed pairs of a port of each circuit: of so many
/// inputs, and as many outputs, there are 67,108,864.
pub const MAX_PORTS: u32 = 4_096;

/// The most gates of a graph in order, about forty times as many as the largest circuits that are matched have: numbers
/// for each are kept here and there, so that this bounds the memory that a file can ask for.
pub const MAX_GATES: u32 = 4_000_000;

/// The greatest variable of an AIGER file. Its ASCII form may leave gaps among the variables, and a number is kept for
/// each, defined or not: this bounds the memory that a short file can ask for.
pub const MAX_VARIABLES: u32 = 16_000_000;
