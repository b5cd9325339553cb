ghost use Rattle.std.specs.Prelude.{AllPairs, IfOk};
ghost use Rattle.account_core.specs.Assigned.{AreApart};
ghost use Rattle.class_refine.specs.Rows.{AreInputsOf};

use ban_book::cover::add_input;
use circuits::Pair;
use std::alloc::{AllocError, Global};

/// The assigned pairs of inputs, in the order that bans have.
pub(crate) fn inputs_of(alloc: Global, assigned: &[Pair]) -> Result<Vec<Pair>, AllocError>
    requires apart { AllPairs AreApart assigned.now }
    ensures { IfOk result (λ inputs. AreInputsOf assigned.now inputs.items) }
{
    let mut inputs = Vec::new(alloc);
    for pair in assigned.iter() {
        add_input(&mut inputs, assigned, *pair)?;
    }
    Ok(inputs)
}
