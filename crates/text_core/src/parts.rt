ghost use Rattle.std.specs.Prelude.{◌≡◌, ℕ, ◌<◌, List, [], ◌++◌, IsFalse, IsTrue, OnOk};
ghost use Rattle.text_core.specs.Extends.{Extends};

use std::alloc::AllocError;

/// A text that is printed part by part, each of which is small beside it, so that it need never be whole in memory.
pub trait Parts {
    /// What is still to be printed.
    ghost left: { Self → List ℕ };

    /// How many steps there are at most to its end.
    ghost steps: { Self → ℕ };

    /// Whether all of it is printed.
    fn is_done(&self) -> bool
        ensures done { IsTrue result → left self.now ≡ [] }
        ensures last { IsTrue result → steps self.now ≡ 0 }
        ensures more { IsFalse result → 0 < steps self.now };

    /// Prints the next part at the end of `out`, if there is one.
    ///
    /// # Errors
    ///
    /// Only when out of memory. A first part of what was to be printed may stand in `out` then.
    fn put_next(&mut self, out: &mut Vec<u8>) -> Result<(), AllocError>
        ensures same { OnOk result (out.new.items ++ left self.new ≡ out.old.items ++ left self.old) }
        ensures fewer { OnOk result (0 < steps self.old → steps self.new < steps self.old) }
        ensures kept { Extends out.old.items out.new.items };
}

/// Prints all that is left of a text at the end of `out`.
///
/// # Errors
///
/// Only when out of memory. A first part of the text may stand in `out` then.
pub fn put_all<P: Parts + Drop>(parts: P, out: &mut Vec<u8>) -> Result<(), AllocError>
    ensures ok { OnOk result (out.new.items ≡ out.old.items ++ P.left parts) }
    ensures kept { Extends out.old.items out.new.items }
{
    let mut rest = parts;
    while !rest.is_done() {
        rest.put_next(out)?;
    }
    Ok(())
}
