//! Why a file of models wasn't read.

ghost use Rattle.std.specs.Prelude.{◌≡◌};
ghost use Rattle.hier_blif.specs.Kinds.{kind_number, kind_of_row};

use net_file::NetKind;
use std::alloc::{AllocError, AllocFailed};
use std::fmt;
use thiserror::Error;

/// What is wrong with a file of models. Each kind has a number; those up to 32 have the numbers of the same faults of a
/// file of one model.
#[derive(Clone, Copy, Debug, Drop, PartialEq, Eq)]
pub enum HierKind {
    /// 4: the top has more inputs than the limit.
    TooManyInputs,
    /// 5: the top has more outputs than the limit.
    TooManyOutputs,
    /// 6: the flattened circuit has more gates than the limit.
    TooManyGates,
    /// 20: a directive isn't known, a `.names` or `.subckt` line has no word after it, or a line stands after `.end`
    /// and begins no model.
    Directive,
    /// 21: there is a latch.
    Sequential,
    /// 22: there are don't-cares.
    DontCare,
    /// 24: a row of a cover has a wrong number of words, or a word of a wrong length.
    RowWidth,
    /// 25: a row of a cover has a byte that may not stand at its place.
    RowChar,
    /// 26: a row of a cover is of the on-set where an earlier one is of the off-set, or the other way round.
    MixedCover,
    /// 27: a row is in no cover.
    RowOutside,
    /// 28: a model has no `.inputs` line or no `.outputs` line.
    NoPortLine,
    /// 29: a name is given to two inputs of a model, or to two outputs.
    DuplicatePort,
    /// 30: an input of a model, or a name that is defined before, is defined.
    Redefined,
    /// 31: a name that is read is neither an input of its model nor defined in it.
    Undefined,
    /// 32: a cover is on a cycle or above one.
    Cycle,
    /// 40: a `.model` line has no name, or that of an earlier model.
    ModelName,
    /// 41: an instance is of no model of the file.
    NoModel,
    /// 42: a word of a `.subckt` line isn't two names with `=` between them.
    Binding,
    /// 43: what is bound is no port of the model, or both an input and an output.
    Formal,
    /// 44: a port is bound twice on a line.
    FormalTwice,
    /// 45: an input of the model isn't bound.
    Unbound,
    /// 46: an instance's model has no depth: it, or a model in it, has an instance of itself in it.
    Recursion,
    /// 47: the flattened circuit has too many instances and covers.
    TooBig,
}

impl HierKind {
    /// The kind's number.
    pub fn number(self) -> u8
        ensures { result ≡ kind_number self }
    {
        match self {
            HierKind::TooManyInputs => 4,
            HierKind::TooManyOutputs => 5,
            HierKind::TooManyGates => 6,
            HierKind::Directive => 20,
            HierKind::Sequential => 21,
            HierKind::DontCare => 22,
            HierKind::RowWidth => 24,
            HierKind::RowChar => 25,
            HierKind::MixedCover => 26,
            HierKind::RowOutside => 27,
            HierKind::NoPortLine => 28,
            HierKind::DuplicatePort => 29,
            HierKind::Redefined => 30,
            HierKind::Undefined => 31,
            HierKind::Cycle => 32,
            HierKind::ModelName => 40,
            HierKind::NoModel => 41,
            HierKind::Binding => 42,
            HierKind::Formal => 43,
            HierKind::FormalTwice => 44,
            HierKind::Unbound => 45,
            HierKind::Recursion => 46,
            HierKind::TooBig => 47,
        }
    }

    /// The kind for what is wrong with a row of a cover.
    pub(crate) fn of_row(kind: NetKind) -> HierKind
        ensures { result ≡ kind_of_row kind }
    {
        match kind {
            NetKind::RowWidth => HierKind::RowWidth,
            NetKind::RowChar => HierKind::RowChar,
            NetKind::MixedCover => HierKind::MixedCover,
            _ => HierKind::RowOutside,
        }
    }

    /// What is wrong, in words.
    fn words(self) -> &'static str {
        match self {
            HierKind::TooManyInputs => "too many inputs",
            HierKind::TooManyOutputs => "too many outputs",
            HierKind::TooManyGates => "too many gates",
            HierKind::Directive => "a BLIF directive that is not known or out of place",
            HierKind::Sequential => "a latch in a BLIF file",
            HierKind::DontCare => "don't-cares in a BLIF file",
            HierKind::RowWidth => "a row of a BLIF cover of a wrong width",
            HierKind::RowChar => "a byte out of place in a row of a BLIF cover",
            HierKind::MixedCover => "rows of both the on-set and the off-set in a BLIF cover",
            HierKind::RowOutside => "a row outside a BLIF cover",
            HierKind::NoPortLine => "no inputs line or no outputs line in a BLIF model",
            HierKind::DuplicatePort => "a name of two ports of a BLIF model",
            HierKind::Redefined => "a name of a BLIF model that is defined twice",
            HierKind::Undefined => "a name of a BLIF model that is not defined",
            HierKind::Cycle => "a BLIF cover on a cycle or above one",
            HierKind::ModelName => "a BLIF model without a name, or with that of another",
            HierKind::NoModel => "an instance of no BLIF model",
            HierKind::Binding => "a malformed binding of an instance's port",
            HierKind::Formal => "a binding of what is no port",
            HierKind::FormalTwice => "a port that is bound twice",
            HierKind::Unbound => "an input that is not bound",
            HierKind::Recursion => "a BLIF model that has an instance of itself in it",
            HierKind::TooBig => "too many instances and covers",
        }
    }
}

impl fmt::Display for HierKind {
    fn fmt<W: fmt::Write>(&self, f: &mut fmt::Formatter<W>) -> fmt::Result {
        f.write_str(self.words())
    }
}

impl std::error::Error for HierKind {}

/// The first fault of a file of models.
#[derive(Clone, Copy, Debug, Drop, PartialEq, Eq, Error)]
#[error("{kind}, at offset {at}")]
pub struct HierFault {
    pub kind: HierKind,
    /// The offset in the file where it stands, counted from 0.
    pub at: u64,
}

/// Why a file of models was not read.
#[derive(Clone, Copy, Debug, Drop, PartialEq, Eq, Error)]
pub enum HierStop {
    /// The file is malformed: its first fault.
    #[error("{0}")]
    Fault(HierFault),
    /// There was no memory for the models.
    #[error("out of memory")]
    Memory,
}

impl From<AllocError> for HierStop {
    ghost use Rattle.hier_blif.specs.declared.fault.HierStop.TheVariants.{Memory};

    ghost from_gives = { λ _ stop. stop ≡ Memory };

    fn from(_error: AllocError) -> HierStop {
        HierStop::Memory
    }
}

impl<T: Drop> From<AllocFailed<T>> for HierStop {
    ghost use Rattle.hier_blif.specs.declared.fault.HierStop.TheVariants.{Memory};

    ghost from_gives = { λ _ stop. stop ≡ Memory };

    fn from(_error: AllocFailed<T>) -> HierStop {
        HierStop::Memory
    }
}

/// The stop for what is wrong at a place.
pub(crate) fn fault_at(at: u64, kind: HierKind) -> HierStop
    ensures { result ≡ HierStop.Fault (record { kind = kind; at = at }) }
{
    HierStop::Fault(HierFault { kind, at })
}
