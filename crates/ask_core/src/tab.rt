//! What learned lines are charged to while a question is searched over dense variables.

ghost use Rattle.std.specs.Prelude.{◌≡◌, ◌≤◌, [], false, true, OnOk, OnErr, IfErr, ◌++◌, ◌∷◌};

use cnf_core::{Charge, LogLine, Stop};
use query_core::Lines;
use std::alloc::Global;
use std::marker::Model;
use watch_core::{Stage, Watch};

/// What is learned is reported once in this many lines. Thousands are learned in a second, and what is shown changes
/// once a second.
pub const REPORTED_EVERY: u64 = 64;

/// A budget, and for contracts alone the lines that were charged to it, a refused one last: the solver has them. A
/// watcher gets how many there are.
#[derive(Drop)]
pub struct Tab<'a, W: Watch> {
    budget: u64,
    learned: u64,
    spent: bool,
    lines: Lines,
    watch: &'a W,
}

impl<'a, W: Watch> Model for Tab<'a, W> {
    ghost use Rattle.std.specs.Prelude.{◌+◌, ◌≤◌, true, if◌then◌else◌};
    ghost use Rattle.cnf_core.specs.Charges.{Charging};

    ghost Value = { Charging (Unit {0}) };

    ghost view = { λ a. record {
      budget = a.budget;
      made = a.learned + (if a.spent then 1 else 0);
      opened = true;
      lines = a.lines;
      spent = a.spent;
      others = tt;
    } };

    ghost invariant = { λ a. a.learned ≤ a.budget };
}

impl<'a, W: Watch> Tab<'a, W> {
    /// A budget of which a part was spent before.
    pub fn new(alloc: Global, budget: u64, learned: u64, watch: &'a W) -> Tab<'a, W>
        requires { learned ≤ budget }
        ensures { result
            ≡ record { budget = budget; made = learned; opened = true; lines = []; spent = false; others = tt } }
    {
        Tab {
            budget,
            learned,
            spent: false,
            lines: Lines::new(alloc),
            watch,
        }
    }

    // Reports to the watcher how many lines were learned, once in many.
    fn report(&self) {
        if self.learned % REPORTED_EVERY == 0 {
            self.watch.at(Stage::Learning {
                learned: self.learned,
                budget: self.budget,
            });
        }
    }
}

impl<'a, W: Watch> Charge for Tab<'a, W> {
    ghost Others = { Unit {0} };

    ghost charging = { λ tab. tab };

    fn charge(&mut self, line: &LogLine) -> Result<(), Stop> {
        self.report();
        push(&mut self.lines, line)?;
        if self.learned == self.budget {
            self.spent = true;
            return Err(Stop::Spent(self.learned));
        }
        self.learned += 1;
        Ok(())
    }
}

// Adds a line. A refusal changes nothing.
fn push(lines: &mut Lines, line: &LogLine) -> Result<(), Stop>
    ensures pushed { OnOk result (lines.new ≡ lines.old ++ line.now ∷ []) }
    ensures refused { OnErr result (lines.new ≡ lines.old) }
    ensures stop { IfErr result (λ stop. stop ≡ Stop.Memory) }
{
    lines.push(line)?;
    Ok(())
}
