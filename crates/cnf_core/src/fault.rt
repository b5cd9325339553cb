/// The first thing that is wrong with a line of a log, in the order in which the tests are made.
#[derive(Clone, Copy, Debug, PartialEq, Eq)]
pub enum LineFault {
    /// An empty line was taken before.
    Closed,
    /// A literal's variable is none of the formula's.
    UnknownVariable,
    /// Two literals have one variable.
    TwiceVariable,
    /// A hint follows the conflict.
    AfterConflict,
    /// A hint names no clause that stands before the line.
    UnknownHint,
    /// A hint names a clause that is neither unit nor a conflict.
    NotUnit,
    /// The hints end without a conflict.
    NoConflict,
}
