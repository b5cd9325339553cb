//! Calls that are made to fail.

ghost use Rattle.std.specs.Prelude.{◌≡◌, ◌↔◌, IsTrue, Err, IfErr, OnErr, OnOk, Contains};
ghost use Rattle.shelf_core.specs.Fault.{Rose};
ghost use Rattle.shelf_core.specs.Failing.{FailsNext, IsCounted};

use crate::outside::ShelfStop;
use std::marker::Model;

/// The numbers of the calls that fail, from 0, and how many calls and failures there were, each up to 2^64 - 1, and
/// failures before the last call.
#[derive(Debug, Drop)]
pub(crate) struct Failing {
    numbers: Vec<u64>,
    calls: u64,
    faults: u64,
    before: u64,
}

impl Model for Failing {
    ghost use Rattle.std.specs.Prelude.{◌-◌};
    ghost use Rattle.shelf_core.specs.Failing.{Failing as Failures};

    ghost Value = { Failures };

    ghost view = { λ a.
        record { numbers = a.numbers.items; calls = a.calls; faults = a.faults; latest = a.faults - a.before } };
}

impl Failing {
    /// The calls of these numbers are to fail; there were none so far.
    pub(crate) fn new(numbers: Vec<u64>) -> Failing
        ensures { result ≡ record { numbers = numbers.items; calls = 0; faults = 0; latest = 0 } }
    {
        Failing {
            numbers,
            calls: 0,
            faults: 0,
            before: 0,
        }
    }

    /// How many calls there were.
    pub(crate) fn calls(&self) -> u64
        ensures { result ≡ self.now.calls }
    {
        self.calls
    }

    /// Counts a call, and fails where it is to; then its failure is counted too.
    pub(crate) fn next(&mut self) -> Result<(), ShelfStop>
        ensures fails { IfErr result (λ stop. stop ≡ ShelfStop.Failed) }
        ensures next { (result ≡ Err ShelfStop.Failed) ↔ FailsNext self.old }
        ensures counted { IsCounted self.old self.new }
        ensures clean { OnOk result (self.new.faults ≡ self.old.faults) }
        ensures rose { OnErr result (Rose self.old.faults self.new.faults) }
    {
        let fails = is_among(&self.numbers, self.calls);
        self.calls = self.calls.saturating_add(1);
        self.before = self.faults;
        if fails {
            self.faults = self.faults.saturating_add(1);
            return Err(ShelfStop::Failed);
        }
        Ok(())
    }
}

/// Whether a number is one of these.
fn is_among(numbers: &[u64], number: u64) -> bool
    ensures { IsTrue result ↔ Contains numbers.now number }
{
    numbers.contains(&number)
}
