//! Lines, charged one after the other.

ghost use Rattle.std.specs.Prelude.{◌≡◌, true, false, OnOk, IfErr};
ghost use Rattle.ask_core.specs.Solved.{AreCharged, AreRefused};

use cnf_core::{Charge, LogLine, Stop};

/// Charges lines, up to one that is refused.
pub(crate) fn charge_all<L: Charge>(lines: &[LogLine], ledger: &mut L) -> Result<(), Stop>
    requires opened { (L.charging ledger.old).opened ≡ true }
    requires not_spent { (L.charging ledger.old).spent ≡ false }
    ensures charged { OnOk result (AreCharged (L.charging ledger.old) lines.now (L.charging ledger.new)) }
    ensures refused { IfErr result (AreRefused (L.charging ledger.old) lines.now (L.charging ledger.new)) }
{
    for line in lines.iter() {
        ledger.charge(line)?;
    }
    Ok(())
}
