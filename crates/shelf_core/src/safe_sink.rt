ghost use Rattle.std.specs.Prelude.{◌≡◌, [], true};
ghost use Rattle.shelf_core.specs.Safe.{safe_sink};

use crate::outside::{ShelfStop, Sink};
use std::alloc::Global;
use std::marker::Model;
use watch_core::{Stage, Watch};

/// A sink in memory, which never fails: a call is refused only when out of memory. Contracts see the bytes that
/// were written.
#[derive(Debug, Drop)]
pub struct SafeSink {
    inside: Vec<u8>,
}

impl Model for SafeSink {
    ghost use Rattle.std.specs.Prelude.{List, ℕ};

    ghost Value = { List ℕ };

    ghost view = { λ sink. sink.inside.items };
}

impl SafeSink {
    /// An empty sink.
    pub fn new(alloc: Global) -> SafeSink
        ensures { result ≡ [] }
    {
        SafeSink {
            inside: Vec::new(alloc),
        }
    }

    /// The bytes that were written.
    pub fn written(&self) -> &[u8]
        ensures { result.now ≡ self.now }
    {
        self.inside.as_slice()
    }
}

impl Sink for SafeSink {
    ghost tells = { true };

    ghost state = { safe_sink };

    fn put(&mut self, piece: &[u8]) -> Result<(), ShelfStop> {
        self.inside.extend_from_slice(piece)?;
        Ok(())
    }
}

impl Watch for SafeSink {
    /// Nobody watches.
    fn at(&self, _stage: Stage) {}
}
