ghost use Rattle.std.specs.Prelude.{◌≡◌, true, false, OnOk, IfErr};
ghost use Rattle.cnf_core.specs.Charges.{Charging, IsCharged, IsRefused};

use crate::log::LogLine;
use crate::stop::Stop;

/// What learned lines are charged to. The lines are added to the entry that is open, and each of them costs one unit of
/// a budget.
pub trait Charge {
    /// What there is beside the lines of the open entry. No charge changes it.
    ghost Others: { Type 0 };

    /// The budget, what was charged to it, and the lines of the open entry.
    ghost charging: { Self → Charging Others };

    /// Adds a learned line to the open entry, for one unit of the budget.
    ///
    /// # Errors
    ///
    /// `Spent` exactly where the budget is spent: the line is kept as the last one and isn't counted. `Memory` where
    /// memory is refused, and nothing changes.
    fn charge(&mut self, line: &LogLine) -> Result<(), Stop>
        requires opened { (charging self.old).opened ≡ true }
        requires not_spent { (charging self.old).spent ≡ false }
        ensures charged { OnOk result (IsCharged (charging self.old) line.now (charging self.new)) }
        ensures refused { IfErr result (IsRefused (charging self.old) line.now (charging self.new)) };
}
