//! Going back from a conflict, one choice at a time.

ghost use Rattle.std.specs.Prelude.{◌∷◌, IfOk, IfSome, List, OnOk, take};
ghost use Rattle.account_core.specs.declared.step.Ban.{Ban as AnyBan};
ghost use Rattle.account_core.specs.Shown.{IsEmptyBan};
ghost use Rattle.ban_book.specs.Covering.{Covers};
ghost use Rattle.pair_domains.specs.Trails.{IsOpen, IsPairOf, assigned_in};
ghost use Rattle.pair_search.specs.ConflictSets.{IsBack, IsChoiceAt};
ghost use Rattle.pair_search.specs.Conflicts.{IsConflict};
ghost use Rattle.pair_search.specs.Grounded.{LearnsMore, StayGrounded};
ghost use Rattle.pair_search.specs.Justified.{IsJustifiedTrail};
ghost use Rattle.pair_search.specs.Progress.{IsTrail, StaysJustified};

use account_core::PairableGraphs;
use ban_book::BanBook;
use class_refine::Domains;
use pair_domains::Reason;
use pair_search::{
    Back, Conflict, LearnedBan, Mismatches, choice_between, conflict_set_of, resolve,
};
use std::alloc::{AllocError, Global};

/// Goes back from a conflict as `pair_search::turn_back` does, but no further than to the choice of the ban's latest
/// pair, where it was chosen: pairs that were chosen between the ban's other pairs and it stay assigned, with what was
/// deleted beside them. So nothing that was excluded there has to be excluded again, where bans aren't propagated.
pub(crate) fn step_back(
    alloc: Global,
    graphs: &PairableGraphs<'_>,
    domains: &mut Domains,
    made: &mut Mismatches,
    conflict: Conflict,
    book: &mut BanBook,
) -> Result<Option<u64>, AllocError>
    requires trail { IsTrail graphs.now book.old domains.old }
    requires conflict { IsConflict book.old domains.old conflict }
    ensures more { LearnsMore graphs.now domains.old.entries book.old book.new }
    ensures trail { OnOk result (IsTrail graphs.now book.new domains.new) }
    ensures grounded { OnOk result (StayGrounded domains.old.entries domains.new.entries) }
    ensures refusal { IfOk result (λ refusal. IfSome refusal (IsEmptyBan book.new)) }
{
    let set = conflict_set_of(alloc, graphs, domains, conflict, made, book)?;
    match resolve(alloc, graphs, domains, set, made, book)? {
        LearnedBan::Refusal(ban) => Ok(Some(ban)),
        LearnedBan::Back(back) => {
            let back = latest(domains, back);
            return_to(domains, back)?;
            Ok(None)
        }
    }
}

// The last choice before which a ban can be applied: that of its pair, where the pair was chosen.
fn latest(domains: &Domains, back: Back) -> Back
    requires { IsPairOf domains.now.inputs domains.now.outputs back.pair }
    ensures { (bans : List AnyBan) → IsBack bans domains.now back → IsBack bans domains.now result }
{
    let entries = domains.entries();
    let Some(own) = domains.place(back.pair) else {
        return back;
    };
    let Some(place) = choice_between(entries, own, own + 1) else {
        return back;
    };
    Back {
        place,
        pair: back.pair,
        ban: back.ban,
    }
}

// Goes back before a choice, and deletes there the pair that a ban has beside assigned ones.
fn return_to(domains: &mut Domains, back: Back) -> Result<(), AllocError>
    requires choice { IsChoiceAt domains.old.entries back.place }
    requires known { IsPairOf domains.old.inputs domains.old.outputs back.pair }
    requires open { IsOpen (take back.place domains.old.entries) back.pair }
    ensures { (bans : List AnyBan)
        → IsJustifiedTrail bans domains.old
        → Covers bans (back.pair ∷ assigned_in (take back.place domains.old.entries)) back.ban
        → OnOk result (StaysJustified bans domains.old domains.new) }
{
    // no pair has two entries
    let _lawful = domains.entries();
    domains.back_to(back.place);
    domains.delete(back.pair, Reason::Ban(back.ban))?;
    Ok(())
}
