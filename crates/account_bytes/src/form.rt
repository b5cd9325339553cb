//! Values that have a form in bytes.

ghost use Rattle.std.specs.Prelude.{◌≡◌, ℕ, List, ◌++◌, OnOk};
ghost use Rattle.byte_form.specs.Codes.{IsPrefixCode, BothFit, both_bytes};
ghost use Rattle.byte_form.proofs.CodeLemmas.{both_code};
ghost use Rattle.account_bytes.specs.Reading.{Reads};

use byte_form::ByteReader;
use std::alloc::{AllocError, AllocFailed, Global};

/// Why no value is read.
#[derive(Clone, Copy, Drop)]
pub(crate) enum FormStop {
    /// The bytes begin with those of no value.
    Malformed,
    /// Out of memory.
    Memory,
}

impl From<AllocError> for FormStop {
    ghost use Rattle.account_bytes.specs.declared.form.FormStop.TheVariants.{Memory};

    ghost from_gives = { λ _ stop. stop ≡ Memory };

    fn from(_error: AllocError) -> FormStop {
        FormStop::Memory
    }
}

impl<T: Drop> From<AllocFailed<T>> for FormStop {
    ghost use Rattle.account_bytes.specs.declared.form.FormStop.TheVariants.{Memory};

    ghost from_gives = { λ _ stop. stop ≡ Memory };

    fn from(_error: AllocFailed<T>) -> FormStop {
        FormStop::Memory
    }
}

/// What has one form in bytes, which says where it ends.
pub(crate) trait ByteForm: Sized {
    // The bytes of a value.
    ghost bytes: { Self → List ℕ };

    // Which values have bytes.
    ghost fits: { Self → Type 0 };

    // Writes the value at the end of `out`. Where memory runs out, a first part may stand there.
    fn put(&self, out: &mut Vec<u8>) -> Result<(), AllocError>
        ensures fits { OnOk result (fits self.now) }
        ensures bytes { OnOk result (out.new.items ≡ out.old.items ++ bytes self.now) };

    // Takes the value that the text begins with.
    fn read(alloc: Global, text: &mut ByteReader<'_>) -> Result<Self, FormStop>
        ensures { Reads bytes fits text.old result text.new };

    // No text begins with two values.
    ghost code: { IsPrefixCode bytes fits };
}

impl<A: ByteForm + Drop, B: ByteForm + Drop> ByteForm for (A, B) {
    ghost bytes = { both_bytes A.bytes B.bytes };

    ghost fits = { BothFit A.fits B.fits };

    ghost code = { both_code A.bytes A.fits B.bytes B.fits A.code B.code };

    fn put(&self, out: &mut Vec<u8>) -> Result<(), AllocError> {
        self.0.put(out)?;
        self.1.put(out)
    }

    fn read(alloc: Global, text: &mut ByteReader<'_>) -> Result<(A, B), FormStop> {
        let first = A::read(alloc, text)?;
        let second = B::read(alloc, text)?;
        Ok((first, second))
    }
}
