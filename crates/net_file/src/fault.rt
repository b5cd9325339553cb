//! Why a file was not read as a netlist.

ghost use Rattle.std.specs.Prelude.{◌≡◌};
ghost use Rattle.net_file.specs.Kinds.{kind_number};

use std::alloc::{AllocError, AllocFailed};
use std::fmt;
use thiserror::Error;

/// What is wrong with a netlist's file. Each kind has a number, which the program prints.
#[derive(Clone, Copy, Debug, Drop, PartialEq, Eq)]
pub enum NetKind {
    /// 1: the file doesn't begin with a header of either AIGER form.
    Header,
    /// 2: the AIGER file has latches.
    Sequential,
    /// 3: the AIGER file has bad states, constraints, justice or fairness properties.
    Property,
    /// 4: there are more inputs than the limit.
    TooManyInputs,
    /// 5: there are more outputs than the limit.
    TooManyOutputs,
    /// 6: there are more gates, or AIGER variables, than the limit.
    TooManyGates,
    /// 7: an AIGER line hasn't exactly the required number of words, or a word isn't a number.
    BadLine,
    /// 8: an AIGER literal is above the greatest one; or what a line defines is odd, or the constant.
    BadLiteral,
    /// 9: the AIGER variable was defined before.
    Redefined,
    /// 10: an AIGER operand or output isn't defined anywhere.
    Undefined,
    /// 11: a delta of the binary AIGER form is cut off, too long or out of range.
    Delta,
    /// 12: an AIGER definition is on a cycle or above one.
    Cycle,
    /// 13: an AIGER symbol line isn't one, or names no port, or a port that has a name already.
    BadSymbol,
    /// 14: the AIGER file ends where a line is required.
    Truncated,
    /// 20: a BLIF directive isn't known, a `.names` line has no word after it, or a line stands after `.end`.
    Directive,
    /// 21: the BLIF file has a latch.
    Latch,
    /// 22: the BLIF file gives don't-cares.
    DontCare,
    /// 23: the BLIF file has a second model.
    SecondModel,
    /// 24: a row of a BLIF cover has a wrong number of words, or a word of a wrong length.
    RowWidth,
    /// 25: a row of a BLIF cover has a byte that may not stand at its place.
    RowChar,
    /// 26: a row of a BLIF cover is of the on-set where an earlier one is of the off-set, or the other way round.
    MixedCover,
    /// 27: a row of the BLIF file is in no cover.
    RowOutside,
    /// 28: the BLIF file has no `.inputs` line or no `.outputs` line.
    NoPortLine,
    /// 29: a name is given to two inputs of the BLIF file, or to two outputs.
    DuplicatePort,
    /// 30: a BLIF cover defines an input, or a name that an earlier one defines.
    NameRedefined,
    /// 31: a name that a BLIF file reads is neither an input nor defined by a cover.
    NameUndefined,
    /// 32: a BLIF cover is on a cycle or above one.
    CoverCycle,
}

impl NetKind {
    /// The kind's number.
    pub fn number(self) -> u8
        ensures { result ≡ kind_number self }
    {
        match self {
            NetKind::Header => 1,
            NetKind::Sequential => 2,
            NetKind::Property => 3,
            NetKind::TooManyInputs => 4,
            NetKind::TooManyOutputs => 5,
            NetKind::TooManyGates => 6,
            NetKind::BadLine => 7,
            NetKind::BadLiteral => 8,
            NetKind::Redefined => 9,
            NetKind::Undefined => 10,
            NetKind::Delta => 11,
            NetKind::Cycle => 12,
            NetKind::BadSymbol => 13,
            NetKind::Truncated => 14,
            NetKind::Directive => 20,
            NetKind::Latch => 21,
            NetKind::DontCare => 22,
            NetKind::SecondModel => 23,
            NetKind::RowWidth => 24,
            NetKind::RowChar => 25,
            NetKind::MixedCover => 26,
            NetKind::RowOutside => 27,
            NetKind::NoPortLine => 28,
            NetKind::DuplicatePort => 29,
            NetKind::NameRedefined => 30,
            NetKind::NameUndefined => 31,
            NetKind::CoverCycle => 32,
        }
    }

    /// What is wrong, in words.
    fn words(self) -> &'static str {
        match self {
            NetKind::Header => "no header of either AIGER form, or counts that do not fit",
            NetKind::Sequential => "latches: only combinational netlists are read",
            NetKind::Property =>
                "properties (bad states, constraints, justice, fairness) are not read",
            NetKind::TooManyInputs => "more inputs than 4,096",
            NetKind::TooManyOutputs => "more outputs than 4,096",
            NetKind::TooManyGates => "more gates than 4,000,000, or more variables than 16,000,000",
            NetKind::BadLine => "not the required number of words, or a word that is no number",
            NetKind::BadLiteral => "a literal out of range, or one that may not be defined",
            NetKind::Redefined => "a variable that was defined before",
            NetKind::Undefined => "a variable that no line defines",
            NetKind::Delta => "a delta that is cut off, too long or out of range",
            NetKind::Cycle => "a gate on a cycle, or above one",
            NetKind::BadSymbol =>
                "no symbol line, or a port that is not there or has a name already",
            NetKind::Truncated => "the file ends where a line is required",
            NetKind::Directive => "a directive that is not known or out of place",
            NetKind::Latch => "a latch: only combinational netlists are read",
            NetKind::DontCare => "don't-cares are not supported",
            NetKind::SecondModel => "a second model: one is read",
            NetKind::RowWidth => "a row of another width than the operands of its cover",
            NetKind::RowChar => "a byte that may not stand at its place in a row",
            NetKind::MixedCover => "rows of the on-set and of the off-set in one cover",
            NetKind::RowOutside => "a row outside a cover",
            NetKind::NoPortLine =>
                "the file ends, and there is no .inputs line or no .outputs line",
            NetKind::DuplicatePort => "a name of two inputs, or of two outputs",
            NetKind::NameRedefined => "a name that is defined twice",
            NetKind::NameUndefined => "a name that is neither an input nor defined",
            NetKind::CoverCycle => "a cover on a cycle, or above one",
        }
    }
}

impl fmt::Display for NetKind {
    fn fmt<W: fmt::Write>(&self, f: &mut fmt::Formatter<W>) -> fmt::Result {
        f.write_str(self.words())
    }
}

impl std::error::Error for NetKind {}

/// The first fault of a netlist's file.
#[derive(Clone, Copy, Debug, Drop, PartialEq, Eq, Error)]
#[error("{kind}, at offset {at}")]
pub struct NetFault {
    pub kind: NetKind,
    /// The offset in the file where it stands, counted from 0.
    pub at: u64,
}

/// Why a file was not read as a netlist.
#[derive(Clone, Copy, Debug, Drop, PartialEq, Eq, Error)]
pub enum NetStop {
    /// The file is malformed: its first fault.
    #[error("{0}")]
    Fault(NetFault),
    /// There was no memory for the netlist.
    #[error("out of memory")]
    Memory,
}

impl From<AllocError> for NetStop {
    ghost use Rattle.net_file.specs.declared.fault.NetStop.TheVariants.{Memory};

    ghost from_gives = { λ _ stop. stop ≡ Memory };

    fn from(_error: AllocError) -> NetStop {
        NetStop::Memory
    }
}

impl<T: Drop> From<AllocFailed<T>> for NetStop {
    ghost use Rattle.net_file.specs.declared.fault.NetStop.TheVariants.{Memory};

    ghost from_gives = { λ _ stop. stop ≡ Memory };

    fn from(_error: AllocFailed<T>) -> NetStop {
        NetStop::Memory
    }
}
