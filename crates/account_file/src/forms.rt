//! The records that lines write.

ghost use Rattle.std.specs.Prelude.{◌≡◌};
ghost use Rattle.account_file.specs.Forms.{claim_of, none_by, record_by, record_in, record_in_front, shape_of, step_by};
ghost use Rattle.account_file.specs.Texts.{Answers, Gives, GivesOrStops};
ghost use Rattle.account_file.specs.Words.{words_of};

use crate::fault::{FileStop, RecordFault};
use crate::names::{NoneName, RecordName, ShapeName, StepName};
use crate::record::Record;
use crate::words::LineWords;
use account_core::{Ban, Conclusion, FactHead, Step};
use claim_core::{Claim, Shape};
use cnf_core::LogLine;
use items::Few;
use std::alloc::Global;

/// The record that a line writes, without its line feed.
pub(crate) fn read_line(alloc: Global, line: &[u8]) -> Result<Record, FileStop>
    ensures { Answers (λ entry. entry) result (record_in (words_of line.now)) }
{
    let mut words = LineWords::new(line);
    let entry = record(alloc, &mut words)?;
    match words.word() {
        None => Ok(entry),
        Some(_) => Err(FileStop::Fault(RecordFault::Word)),
    }
}

// The record that the words write.
fn record(alloc: Global, words: &mut LineWords<'_>) -> Result<Record, FileStop>
    ensures { GivesOrStops result words.new (record_in_front words.old) }
{
    match words.next::<RecordName>()? {
        RecordName::Header => header(words),
        RecordName::Fails => fails(alloc, words),
        RecordName::Holds => holds(words),
        RecordName::Line => line(alloc, words),
        RecordName::Ban => ban(alloc, words),
        RecordName::None => none(words),
        RecordName::Match => match_(alloc, words),
        RecordName::End => Ok(Record::End),
    }
}

fn header(words: &mut LineWords<'_>) -> Result<Record, FileStop>
    ensures { GivesOrStops result words.new (record_by RecordName.Header words.old) }
{
    words.name(b"1")?;
    Ok(Record::Header)
}

fn fails(alloc: Global, words: &mut LineWords<'_>) -> Result<Record, FileStop>
    ensures { GivesOrStops result words.new (record_by RecordName.Fails words.old) }
{
    let claim = claim(words)?;
    let bits = words.bits(alloc)?;
    Ok(Record::Fact(FactHead::Fails { claim, bits }))
}

fn holds(words: &mut LineWords<'_>) -> Result<Record, FileStop>
    ensures { GivesOrStops result words.new (record_by RecordName.Holds words.old) }
{
    let claim = claim(words)?;
    Ok(Record::Fact(FactHead::Holds { claim }))
}

fn claim(words: &mut LineWords<'_>) -> Result<Claim, RecordFault>
    ensures { Gives result words.new (claim_of words.old) }
{
    Ok(Claim {
        side: words.next()?,
        output: words.next()?,
        shape: shape(words)?,
    })
}

fn shape(words: &mut LineWords<'_>) -> Result<Shape, RecordFault>
    ensures { Gives result words.new (shape_of words.old) }
{
    match words.next::<ShapeName>()? {
        ShapeName::Up => Ok(Shape::Up(words.next()?)),
        ShapeName::Down => Ok(Shape::Down(words.next()?)),
        ShapeName::Swap => {
            let i = words.next()?;
            let j = words.next()?;
            let (a, b) = words.next()?;
            Ok(Shape::Swap { i, j, a, b })
        }
    }
}

// A line of a log.
fn line(alloc: Global, words: &mut LineWords<'_>) -> Result<Record, FileStop>
    ensures { GivesOrStops result words.new (record_by RecordName.Line words.old) }
{
    let clause = words.list(alloc)?;
    words.name(b":")?;
    let hints = words.list(alloc)?;
    Ok(Record::Line(LogLine { clause, hints }))
}

fn ban(alloc: Global, words: &mut LineWords<'_>) -> Result<Record, FileStop>
    ensures { GivesOrStops result words.new (record_by RecordName.Ban words.old) }
{
    let pairs = words.list(alloc)?;
    words.name(b":")?;
    let name = words.next()?;
    let step = step(alloc, name, words)?;
    Ok(Record::Ban(Ban {
        pairs: Few::from_slice(alloc, &pairs)?,
        step,
    }))
}

// A step of this name.
fn step(alloc: Global, name: StepName, words: &mut LineWords<'_>) -> Result<Step, FileStop>
    ensures { GivesOrStops result words.new (step_by name words.old) }
{
    match name {
        StepName::Vector => Ok(Step::Vector {
            output: words.next()?,
            bits: words.tris(alloc)?,
        }),
        StepName::Mismatch => Ok(Step::Mismatch {
            fails: words.next()?,
            holds: words.next()?,
        }),
        StepName::Tally => tally(alloc, words),
        StepName::Cover => cover(alloc, words),
    }
}

fn tally(alloc: Global, words: &mut LineWords<'_>) -> Result<Step, FileStop>
    ensures { GivesOrStops result words.new (step_by StepName.Tally words.old) }
{
    let kind = words.next()?;
    let have = words.list(alloc)?;
    words.name(b"/")?;
    let lack = words.list(alloc)?;
    Ok(Step::Tally { kind, have, lack })
}

fn cover(alloc: Global, words: &mut LineWords<'_>) -> Result<Step, FileStop>
    ensures { GivesOrStops result words.new (step_by StepName.Cover words.old) }
{
    let kind = words.next()?;
    let from = words.list(alloc)?;
    words.name(b"/")?;
    let to = words.list(alloc)?;
    words.name(b"/")?;
    let refs = words.list(alloc)?;
    Ok(Step::Cover {
        kind,
        from,
        to,
        refs,
    })
}

// The conclusion that there is no match.
fn none(words: &mut LineWords<'_>) -> Result<Record, FileStop>
    ensures { GivesOrStops result words.new (record_by RecordName.None words.old) }
{
    match words.next::<NoneName>()? {
        NoneName::Ports => Ok(Record::Conclusion(Conclusion::NonePorts)),
        NoneName::Ban => Ok(Record::Conclusion(Conclusion::NoneBan(words.next()?))),
    }
}

fn match_(alloc: Global, words: &mut LineWords<'_>) -> Result<Record, FileStop>
    ensures { GivesOrStops result words.new (record_by RecordName.Match words.old) }
{
    Ok(Record::Conclusion(Conclusion::Match(words.list(alloc)?)))
}
