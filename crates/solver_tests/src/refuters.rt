//! Logs whose derivations are worked out by hand.

ghost use Rattle.std.specs.Prelude.{◌∷◌, []};
ghost use Rattle.cnf_core.specs.declared.literal.SatLit.{SatLit as AnyLiteral};

use cnf_core::{Base, Clause3, LineFault, LogLine, SatLit};
use items::Items;
use refute_check::Refuter;
use std::alloc::{AllocError, Global};
use std::test::Fail;

/// An AND of two inputs is true and an OR of their negations, inverted, is true too: variable 0 is true, 1 and 2 are
/// the inputs, 3 and 4 the gates.
#[derive(Clone, Copy, Drop)]
struct AndOr;

impl Base for AndOr {
    ghost formula = { λ _. record {
      variables = 5;
      clauses =
          (record { 0 = 0 } ∷ [])
          ∷ (record { 0 = 7 } ∷ record { 0 = 2 } ∷ []) ∷ (record { 0 = 7 } ∷ record { 0 = 4 } ∷ [])
          ∷ (record { 0 = 6 } ∷ record { 0 = 3 } ∷ record { 0 = 5 } ∷ [])
          ∷ (record { 0 = 9 } ∷ record { 0 = 2 } ∷ []) ∷ (record { 0 = 9 } ∷ record { 0 = 4 } ∷ [])
          ∷ (record { 0 = 8 } ∷ record { 0 = 3 } ∷ record { 0 = 5 } ∷ [])
          ∷ (record { 0 = 6 } ∷ []) ∷ (record { 0 = 9 } ∷ []) ∷ [];
    } };

    fn variables(&self) -> u64 {
        5
    }

    fn count(&self) -> u64 {
        9
    }

    fn clause(&self, id: u64) -> Clause3 {
        match id {
            0 => Clause3::one(SatLit(0)),
            1 => Clause3::two(SatLit(7), SatLit(2)),
            2 => Clause3::two(SatLit(7), SatLit(4)),
            3 => Clause3::three(SatLit(6), SatLit(3), SatLit(5)),
            4 => Clause3::two(SatLit(9), SatLit(2)),
            5 => Clause3::two(SatLit(9), SatLit(4)),
            6 => Clause3::three(SatLit(8), SatLit(3), SatLit(5)),
            7 => Clause3::one(SatLit(6)),
            _ => Clause3::one(SatLit(9)),
        }
    }
}

fn line_of(alloc: Global, literals: &[u64], hints: &[u64]) -> Result<LogLine, AllocError> {
    let mut clause = Items::new(alloc);
    for literal in literals {
        clause.push(SatLit(*literal))?;
    }
    let hints = Items::from_slice(alloc, hints)?;
    Ok(LogLine { clause, hints })
}

/// What a refuter answers to a line, for which room is made, and whether it is closed then.
fn answer_to_line(
    refuter: &mut Refuter<AndOr>,
    line: &LogLine,
) -> Result<(Result<(), LineFault>, bool), AllocError> {
    refuter.reserve(line.clause.len())?;
    let answer = refuter.line(line);
    Ok((answer, refuter.closed()))
}

fn answer_to(
    alloc: Global,
    refuter: &mut Refuter<AndOr>,
    literals: &[u64],
    hints: &[u64],
) -> Result<(Result<(), LineFault>, bool), AllocError> {
    let line = line_of(alloc, literals, hints)?;
    answer_to_line(refuter, &line)
}

fn first_answer_to(
    alloc: Global,
    literals: &[u64],
    hints: &[u64],
) -> Result<(Result<(), LineFault>, bool), AllocError> {
    let mut refuter = Refuter::new(alloc, AndOr)?;
    answer_to(alloc, &mut refuter, literals, hints)
}

/// Literals and hints of a first line, and what is answered.
static FIRST_LINES: [(&[u64], &[u64], Result<(), LineFault>); 13] = [
    // both outputs are true, so both inputs are, and the OR isn't
    (&[], &[7, 8, 1, 2, 6], Ok(())),
    // the AND is false where an input is
    (&[7, 2], &[1], Ok(())),
    (&[2], &[7, 1], Ok(())),
    (&[10], &[0], Err(LineFault::UnknownVariable)),
    (&[2, 3, 10], &[0], Err(LineFault::UnknownVariable)),
    (&[2, 3], &[0], Err(LineFault::TwiceVariable)),
    (&[2, 2], &[0], Err(LineFault::TwiceVariable)),
    (&[], &[7, 8, 1, 2, 6, 0], Err(LineFault::AfterConflict)),
    (&[], &[7, 9], Err(LineFault::UnknownHint)),
    (&[], &[1], Err(LineFault::NotUnit)),
    (&[], &[0, 0], Err(LineFault::NotUnit)),
    (&[], &[7, 8], Err(LineFault::NoConflict)),
    (&[], &[7, 8, 1, 2], Err(LineFault::NoConflict)),
];

#[test]
fn takes_and_refuses_lines(rt: HostRuntime) -> Result<(), Fail> {
    for (literals, hints, answer) in FIRST_LINES.iter() {
        let given = first_answer_to(rt.alloc(), literals, hints)?;
        let closed = answer.is_ok() & literals.is_empty();
        assert_eq!(rt; given, (*answer, closed), "at {hints:?}");
    }
    Ok(())
}

/// Literals and hints of one line after the other, what is answered, and whether the log is closed then.
static LINES: [(&[u64], &[u64], Result<(), LineFault>, bool); 3] = [
    (&[2], &[7, 1], Ok(()), false),
    // the line taken has number 9
    (&[], &[9, 7, 2, 8, 6], Ok(()), true),
    (&[], &[9, 7, 2, 8, 6], Err(LineFault::Closed), true),
];

/// The number of the first of the lines that isn't answered so.
fn wrong_line(alloc: Global, refuter: &mut Refuter<AndOr>) -> Result<Option<usize>, AllocError> {
    for (number, (literals, hints, answer, closed)) in LINES.iter().enumerate() {
        if answer_to(alloc, refuter, literals, hints)? != (*answer, *closed) {
            return Ok(Some(number));
        }
    }
    Ok(None)
}

#[test]
fn uses_lines_and_closes(rt: HostRuntime) -> Result<(), Fail> {
    let mut refuter = Refuter::new(rt.alloc(), AndOr)?;
    assert_eq!(rt; wrong_line(rt.alloc(), &mut refuter)?, None);
    Ok(())
}
