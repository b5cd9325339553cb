ghost use Rattle.std.specs.Prelude.{◌≡◌, ◌↔◌, [], true, Err};
ghost use Rattle.shelf_core.specs.Puts.{Puts};
ghost use Rattle.shelf_core.specs.Failing.{FailsNext, IsCounted};
ghost use Rattle.shelf_core.specs.Fakes.{failing_puts};

use crate::failing::Failing;
use crate::outside::{ShelfStop, Sink};
use crate::safe_sink::SafeSink;
use std::alloc::Global;
use watch_core::{Stage, Watch};

/// A sink in memory of which some calls fail, to try what a program does then. Its calls are numbered from 0. A call
/// whose number is among those to fail counts a fault and writes nothing; each other call does what it does on a
/// [`SafeSink`].
#[derive(Debug, Drop)]
pub struct MemSink {
    inside: SafeSink,
    failing: Failing,
}

impl MemSink {
    /// An empty sink that fails at the calls of these numbers.
    pub fn new(alloc: Global, fail: Vec<u64>) -> MemSink
        ensures empty { (⟦<MemSink as Sink>⟧.state result).written ≡ [] }
        ensures fail { failing_puts result ≡ record { numbers = fail.items; calls = 0; faults = 0; latest = 0 } }
    {
        MemSink {
            inside: SafeSink::new(alloc),
            failing: Failing::new(fail),
        }
    }

    /// The bytes that were written.
    pub fn written(&self) -> &[u8]
        ensures { result.now ≡ (⟦<MemSink as Sink>⟧.state self.now).written }
    {
        self.inside.written()
    }
}

impl Sink for MemSink {
    ghost tells = { true };

    ghost state = { λ sink.
        record { written = sink.inside; faults = sink.failing.faults; latest = sink.failing.latest } };

    fn put(&mut self, piece: &[u8]) -> Result<(), ShelfStop>
        ensures puts { Puts true piece.now (⟦<MemSink as Sink>⟧.state self.old)
            (⟦<MemSink as Sink>⟧.state self.new) result }
        ensures fails { (result ≡ Err ShelfStop.Failed) ↔ FailsNext (failing_puts self.old) }
        ensures kept { result ≡ Err ShelfStop.Failed
            → (⟦<MemSink as Sink>⟧.state self.new).written ≡ (⟦<MemSink as Sink>⟧.state self.old).written }
        ensures counted { IsCounted (failing_puts self.old) (failing_puts self.new) }
    {
        self.failing.next()?;
        self.inside.put(piece)
    }
}

impl Watch for MemSink {
    fn at(&self, stage: Stage) {
        self.inside.at(stage)
    }
}
