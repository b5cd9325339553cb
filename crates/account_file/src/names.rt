//! The words of an account's lines that are names.

ghost use Rattle.account_file.specs.Forms.{kind_of, none_name_of, record_name_of, shape_name_of, side_of, step_name_of};
ghost use Rattle.account_file.specs.Forms.{tallied_of};

use crate::fault::RecordFault;
use crate::words::Word;
use account_core::Tallied;
use circuits::PortKind;
use net_core::Side;

/// The first word of a record's line.
#[derive(Clone, Copy, Drop)]
pub enum RecordName {
    Header,
    Fails,
    Holds,
    Line,
    Ban,
    None,
    Match,
    End,
}

/// The name of a claim's shape.
#[derive(Clone, Copy, Drop)]
pub enum ShapeName {
    Up,
    Down,
    Swap,
}

/// The name of a ban's step.
#[derive(Clone, Copy, Drop)]
pub enum StepName {
    Vector,
    Mismatch,
    Tally,
    Cover,
}

/// Why there is no match.
#[derive(Clone, Copy, Drop)]
pub enum NoneName {
    Ports,
    Ban,
}

impl Word for Side {
    ghost read = { side_of };

    fn read(word: &[u8]) -> Result<Side, RecordFault> {
        if word == b"a".as_slice() {
            Ok(Side::First)
        } else if word == b"b".as_slice() {
            Ok(Side::Second)
        } else {
            Err(RecordFault::Word)
        }
    }
}

impl Word for PortKind {
    ghost read = { kind_of };

    fn read(word: &[u8]) -> Result<PortKind, RecordFault> {
        if word == b"in".as_slice() {
            Ok(PortKind::Input)
        } else if word == b"out".as_slice() {
            Ok(PortKind::Output)
        } else {
            Err(RecordFault::Word)
        }
    }
}

impl Word for Tallied {
    ghost read = { tallied_of };

    fn read(word: &[u8]) -> Result<Tallied, RecordFault> {
        if word == b"support".as_slice() {
            Ok(Tallied::Support)
        } else if word == b"binate".as_slice() {
            Ok(Tallied::Binate)
        } else {
            Err(RecordFault::Word)
        }
    }
}

impl Word for ShapeName {
    ghost read = { shape_name_of };

    fn read(word: &[u8]) -> Result<ShapeName, RecordFault> {
        if word == b"up".as_slice() {
            Ok(ShapeName::Up)
        } else if word == b"down".as_slice() {
            Ok(ShapeName::Down)
        } else if word == b"swap".as_slice() {
            Ok(ShapeName::Swap)
        } else {
            Err(RecordFault::Word)
        }
    }
}

impl Word for StepName {
    ghost read = { step_name_of };

    fn read(word: &[u8]) -> Result<StepName, RecordFault> {
        if word == b"vector".as_slice() {
            Ok(StepName::Vector)
        } else if word == b"mismatch".as_slice() {
            Ok(StepName::Mismatch)
        } else if word == b"tally".as_slice() {
            Ok(StepName::Tally)
        } else if word == b"cover".as_slice() {
            Ok(StepName::Cover)
        } else {
            Err(RecordFault::Word)
        }
    }
}

impl Word for NoneName {
    ghost read = { none_name_of };

    fn read(word: &[u8]) -> Result<NoneName, RecordFault> {
        if word == b"ports".as_slice() {
            Ok(NoneName::Ports)
        } else if word == b"ban".as_slice() {
            Ok(NoneName::Ban)
        } else {
            Err(RecordFault::Word)
        }
    }
}

impl Word for RecordName {
    ghost read = { record_name_of };

    // Most lines are those of logs.
    fn read(word: &[u8]) -> Result<RecordName, RecordFault> {
        if word == b"l".as_slice() {
            Ok(RecordName::Line)
        } else if word == b"fails".as_slice() {
            Ok(RecordName::Fails)
        } else if word == b"holds".as_slice() {
            Ok(RecordName::Holds)
        } else if word == b"ban".as_slice() {
            Ok(RecordName::Ban)
        } else if word == b"match".as_slice() {
            Ok(RecordName::Match)
        } else if word == b"none".as_slice() {
            Ok(RecordName::None)
        } else if word == b"end".as_slice() {
            Ok(RecordName::End)
        } else if word == b"npnp".as_slice() {
            Ok(RecordName::Header)
        } else {
            Err(RecordFault::Word)
        }
    }
}
