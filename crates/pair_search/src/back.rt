//! Going back from conflicts.

ghost use Rattle.std.specs.Prelude.{◌≡◌, ◌<◌, ◌∷◌, IfNone, IfOk, IfSome, List, OnOk, take};
ghost use Rattle.account_core.specs.declared.step.Ban.{Ban as AnyBan};
ghost use Rattle.account_core.specs.Shown.{IsEmptyBan};
ghost use Rattle.ban_book.specs.Covering.{Covers};
ghost use Rattle.pair_domains.specs.Trails.{IsOpen, IsPairOf, assigned_in};
ghost use Rattle.pair_search.specs.ConflictSets.{IsChoiceAt, IsLearned};
ghost use Rattle.pair_search.specs.Grounded.{LearnsMore, StayGrounded};
ghost use Rattle.pair_search.specs.Justified.{IsJustifiedTrail};
ghost use Rattle.pair_search.specs.Conflicts.{IsConflict};
ghost use Rattle.pair_search.specs.Progress.{IsTrail, StaysJustified, left, level_zero};

use crate::conflict::{Conflict, conflict_set_of};
use crate::queue::Queue;
use crate::{Back, LearnedBan, Mismatches, choice_between, resolve};
use account_core::PairableGraphs;
use ban_book::BanBook;
use pair_domains::{Domains, Reason};
use std::alloc::{AllocError, Global};

/// Goes back from a conflict: resolves it to a ban, and deletes the ban's latest pair at the last choice before
/// which all others are assigned. It answers a ban without pairs where there is no such choice. Less is left than
/// before.
pub fn turn_back(
    alloc: Global,
    graphs: &PairableGraphs<'_>,
    domains: &mut Domains,
    queue: &mut Queue,
    conflict: Conflict,
    book: &mut BanBook,
) -> Result<Option<u64>, AllocError>
    requires trail { IsTrail graphs.now book.old domains.old }
    requires conflict { IsConflict book.old domains.old conflict }
    ensures more { LearnsMore graphs.now domains.old.entries book.old book.new }
    ensures trail { OnOk result (IsTrail graphs.now book.new domains.new) }
    ensures grounded { OnOk result (StayGrounded domains.old.entries domains.new.entries) }
    ensures less { IfOk result (λ refusal. IfNone refusal (left domains.new < left domains.old)) }
    ensures refusal { IfOk result (λ refusal. IfSome refusal (IsEmptyBan book.new)) }
{
    queue.add_new(domains, book.bans())?;
    match learn(alloc, graphs, domains, conflict, &mut queue.made, book)? {
        LearnedBan::Refusal(ban) => Ok(Some(ban)),
        LearnedBan::Back(back) => {
            queue.add_learned(domains, book.bans(), back.ban)?;
            go_back(domains, queue, back)?;
            Ok(None)
        }
    }
}

/// Starts over: what was assigned and deleted before the first choice stays, and all other pairs are open again. The
/// bans stay, so that what was learned isn't lost.
pub fn start_over(domains: &mut Domains, queue: &mut Queue)
    ensures entries { domains.new.entries ≡ level_zero domains.old.entries }
    ensures stays { (bans : List AnyBan)
        → IsJustifiedTrail bans domains.old
        → StaysJustified bans domains.old domains.new }
{
    let entries = domains.entries();
    if let Some(place) = choice_between(entries, 0, entries.len()) {
        domains.back_to(place);
        queue.head = queue.head.min(place);
    }
}

// What a conflict is resolved to.
fn learn(
    alloc: Global,
    graphs: &PairableGraphs<'_>,
    domains: &Domains,
    conflict: Conflict,
    made: &mut Mismatches,
    book: &mut BanBook,
) -> Result<LearnedBan, AllocError>
    requires trail { IsTrail graphs.now book.old domains.now }
    requires conflict { IsConflict book.old domains.now conflict }
    ensures more { LearnsMore graphs.now domains.now.entries book.old book.new }
    ensures trail { IsTrail graphs.now book.new domains.now }
    ensures learned { IfOk result (IsLearned book.new domains.now) }
{
    let set = conflict_set_of(alloc, graphs, domains, conflict, made, book)?;
    let learned = resolve(alloc, graphs, domains, set, made, book)?;
    Ok(learned)
}

// Goes back before a choice, and deletes there the pair that a ban has beside assigned ones.
fn go_back(domains: &mut Domains, queue: &mut Queue, back: Back) -> Result<(), AllocError>
    requires choice { IsChoiceAt domains.old.entries back.place }
    requires known { IsPairOf domains.old.inputs domains.old.outputs back.pair }
    requires open { IsOpen (take back.place domains.old.entries) back.pair }
    ensures stays { (bans : List AnyBan)
        → IsJustifiedTrail bans domains.old
        → Covers bans (back.pair ∷ assigned_in (take back.place domains.old.entries)) back.ban
        → OnOk result (StaysJustified bans domains.old domains.new) }
    ensures less { OnOk result (left domains.new < left domains.old) }
{
    // no pair has two entries
    let _lawful = domains.entries();
    domains.back_to(back.place);
    queue.head = queue.head.min(back.place);
    domains.delete(back.pair, Reason::Ban(back.ban))?;
    Ok(())
}
