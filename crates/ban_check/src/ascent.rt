ghost use Rattle.std.specs.Prelude.{◌↔◌, IsTrue};
ghost use Rattle.account_core.specs.Tallies.{Ascend};

/// Whether ports ascend.
pub(crate) fn ascend(ports: &[u32]) -> bool
    ensures { IsTrue result ↔ Ascend ports.now }
{
    let mut least = 0;
    for port in ports.iter() {
        if u64::from(*port) < least {
            return false;
        }
        least = u64::from(*port) + 1;
    }
    true
}
