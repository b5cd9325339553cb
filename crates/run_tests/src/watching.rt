//! What a run reports to its sink that it is at.

ghost use Rattle.std.specs.Prelude.{true};

use crate::files::{C17, C17_MOVED};
use crate::runs::{Ended, MATCH, files_of, note, run_on, status_of};
use shelf_core::{SafeShelf, SafeSink, ShelfStop, Sink};
use std::alloc::{AllocError, Global};
use std::cell::Cell;
use std::test::Fail;
use watch_core::{Stage, Watch};

/// How often three stages were reported to a sink, and whether they came one after the other.
#[derive(Clone, Copy, Debug, PartialEq, Eq)]
struct StageCounts {
    reading: u32,
    guessing: u32,
    proving: u32,
    in_order: bool,
}

impl StageCounts {
    /// The same, with one stage more.
    fn with(self, stage: Stage) -> StageCounts {
        match stage {
            Stage::Reading { .. } => StageCounts {
                reading: self.reading.saturating_add(1),
                in_order: self.in_order & (self.guessing == 0),
                ..self
            },
            Stage::Guessing { .. } => StageCounts {
                guessing: self.guessing.saturating_add(1),
                in_order: self.in_order & (self.reading == 2) & (self.proving == 0),
                ..self
            },
            Stage::Proving { .. } => StageCounts {
                proving: self.proving.saturating_add(1),
                in_order: self.in_order & (self.guessing == 1),
                ..self
            },
            _ => self,
        }
    }
}

/// A sink in memory that counts what is reported to it.
#[derive(Drop)]
struct Counting {
    sink: SafeSink,
    told: Cell<StageCounts>,
}

impl Counting {
    fn new(alloc: Global) -> Counting {
        Counting {
            sink: SafeSink::new(alloc),
            told: Cell::new(StageCounts {
                reading: 0,
                guessing: 0,
                proving: 0,
                in_order: true,
            }),
        }
    }
}

impl Watch for Counting {
    fn at(&self, stage: Stage) {
        self.told.set(self.told.get().with(stage))
    }
}

impl Sink for Counting {
    ghost tells = { true };

    ghost state = { λ counting. record { written = counting.sink; faults = 0; latest = 0 } };

    fn put(&mut self, piece: &[u8]) -> Result<(), ShelfStop> {
        self.sink.put(piece)
    }
}

/// Seeks the match of two netlists, and counts what is reported.
fn match_counted(alloc: Global, netlists: [&[u8]; 2]) -> Result<(Ended, StageCounts), AllocError> {
    let mut shelf = SafeShelf::new(alloc, files_of(alloc, netlists, None)?, 65_536)?;
    let mut sink = Counting::new(alloc);
    let status = status_of(alloc, MATCH, &mut shelf, &mut sink)?;
    let ended = note(
        alloc,
        status,
        sink.sink.written(),
        shelf.file("t"),
        shelf.calls(),
    )?;
    Ok((ended, sink.told.get()))
}

/// A match says that both files are read, then that a matching is guessed, and then of each output that it is proved;
/// the report and the account are those of a run that nobody watches.
#[test]
fn says_what_a_match_is_at(rt: HostRuntime) -> Result<(), Fail> {
    let alloc = rt.alloc();
    let silent = run_on(alloc, MATCH, [C17, C17_MOVED], None)?;
    let (ended, told) = match_counted(alloc, [C17, C17_MOVED])?;
    assert_eq!(rt;
        told,
        StageCounts {
            reading: 2,
            guessing: 1,
            proving: 2,
            in_order: true
        }
    );
    assert_eq!(rt; ended.outcome(), silent.outcome());
    Ok(())
}
