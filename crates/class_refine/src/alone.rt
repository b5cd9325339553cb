//! Bans that are within the assigned pairs alone.

ghost use Rattle.std.specs.Prelude.{◌≡◌, IfNone, IfOk, IfSome};
ghost use Rattle.ban_book.specs.Covering.{Covers};
ghost use Rattle.account_core.specs.Assigned.{AreAssignable};
ghost use Rattle.class_refine.specs.Rows.{AreGrounds, AreInputsOf, ShowNothingAt, decided};
ghost use Rattle.class_refine.specs.Refining.{AddsShown};
ghost use Rattle.class_refine.specs.Stable.{HaveNoBan, HaveNoSwapMismatch};

use crate::grounds::Grounds;
use crate::shown::ban_of_assigned;
use crate::swaps::swap_ban;
use ban_book::BanBook;
use circuits::Pair;
use std::alloc::{AllocError, Global};

/// The number of a ban within the assigned pairs: one of the book, or one that decided claims show of them, which is
/// made here.
pub(crate) fn exclude_assigned(
    alloc: Global,
    grounds: &Grounds<'_>,
    assigned: &[Pair],
    book: &mut BanBook,
) -> Result<Option<u64>, AllocError>
    requires grounds { AreGrounds grounds.now }
    requires assigned { AreAssignable grounds.now.graphs.now assigned.now }
    requires inputs { AreInputsOf assigned.now grounds.now.inputs.now }
    ensures adds { AddsShown grounds.now.graphs.now (decided grounds.now) book.old book.new }
    ensures found { IfOk result (λ dead. IfSome dead (Covers book.new assigned.now)) }
    ensures no_ban { IfOk result (λ dead. IfNone dead (HaveNoBan book.new assigned.now)) }
    ensures no_facts { IfOk result (λ dead. IfNone dead
        (ShowNothingAt grounds.now.graphs.now (decided grounds.now) grounds.now.inputs.now assigned.now)) }
    ensures no_swap { IfOk result
        (λ dead. IfNone dead (HaveNoSwapMismatch grounds.now.graphs.now (decided grounds.now) assigned.now)) }
{
    if let Some(number) = book.covering(assigned) {
        return Ok(Some(number));
    }
    match ban_of_assigned(alloc, grounds, assigned, grounds.inputs)? {
        Some(ban) => Ok(Some(book.hold(ban)?)),
        None => exclude_by_swaps(alloc, grounds, assigned, book),
    }
}

// The number of a ban within the assigned pairs that decided claims of two inputs show, which is made here. Where they
// show none, the bans stay as they are.
fn exclude_by_swaps(
    alloc: Global,
    grounds: &Grounds<'_>,
    assigned: &[Pair],
    book: &mut BanBook,
) -> Result<Option<u64>, AllocError>
    requires grounds { AreGrounds grounds.now }
    requires assigned { AreAssignable grounds.now.graphs.now assigned.now }
    ensures adds { AddsShown grounds.now.graphs.now (decided grounds.now) book.old book.new }
    ensures found { IfOk result (λ dead. IfSome dead (Covers book.new assigned.now)) }
    ensures same { IfOk result (λ dead. IfNone dead (book.new ≡ book.old)) }
    ensures no_swap { IfOk result
        (λ dead. IfNone dead (HaveNoSwapMismatch grounds.now.graphs.now (decided grounds.now) assigned.now)) }
{
    let Some(ban) = swap_ban(alloc, grounds, assigned)? else {
        return Ok(None);
    };
    Ok(Some(book.hold(ban)?))
}
