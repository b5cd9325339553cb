//! Steps that name facts and bans by their new numbers.

ghost use Rattle.std.specs.Prelude.{◌≡◌, ◌<◌, All, length, map, option_to_list};
ghost use Rattle.std.specs.List.{flat_map};
ghost use Rattle.std.specs.Option.{option_map};
ghost use Rattle.refusal_core.specs.Names.{bans_named, facts_named};
ghost use Rattle.refusal_core.specs.Numbered.{at, numbered, numbered_ban};

use crate::numbering::Numbers;
use account_core::{Ban, Step};
use items::Items;

/// Gives the steps of bans the new numbers in place of the old ones.
pub(crate) fn renumber_all(bans: &mut Vec<Ban>, numbers: &Numbers)
    requires facts { All (λ ban. All (λ k. k < length numbers.now.facts) (facts_named ban.step)) bans.old.items }
    requires bans { All (λ ban. All (λ k. k < length numbers.now.bans) (bans_named ban.step)) bans.old.items }
    ensures { bans.new.items ≡ map (numbered_ban numbers.now.facts numbers.now.bans) bans.old.items }
{
    for place in 0..bans.len() {
        renumber(&mut bans[place].step, numbers);
    }
}

// Gives a step the new numbers.
fn renumber(step: &mut Step, numbers: &Numbers)
    requires facts { All (λ k. k < length numbers.now.facts) (facts_named step.old) }
    requires bans { All (λ k. k < length numbers.now.bans) (bans_named step.old) }
    ensures { step.new ≡ numbered numbers.now.facts numbers.now.bans step.old }
{
    match step {
        Step::Vector { output: _, bits: _ } => {}
        Step::Mismatch { fails, holds } => {
            *fails = numbers.facts[*fails as usize];
            *holds = numbers.facts[*holds as usize];
        }
        Step::Tally {
            kind: _,
            have,
            lack,
        } => {
            put_numbers(have, &numbers.facts);
            put_numbers(lack, &numbers.facts);
        }
        Step::Cover {
            kind: _,
            from: _,
            to: _,
            refs,
        } => put_references(refs, &numbers.bans),
    }
}

// Puts the new numbers in place of the old ones.
fn put_numbers(list: &mut Items<u64>, numbers: &[u64])
    requires { All (λ k. k < length numbers.now) list.old }
    ensures { list.new ≡ map (at numbers.now) list.old }
{
    for place in 0..list.len() {
        let number = numbers[list[place] as usize];
        list.set(place, number);
    }
}

// Puts references by the new numbers in place of those by the old ones.
fn put_references(list: &mut Items<Option<u64>>, numbers: &[u64])
    requires { All (λ k. k < length numbers.now) (flat_map option_to_list list.old) }
    ensures { list.new ≡ map (option_map (at numbers.now)) list.old }
{
    for place in 0..list.len() {
        let reference = referred(list[place], numbers);
        list.set(place, reference);
    }
}

fn referred(reference: Option<u64>, numbers: &[u64]) -> Option<u64>
    requires { All (λ k. k < length numbers.now) (option_to_list reference) }
    ensures { result ≡ option_map (at numbers.now) reference }
{
    let place = reference?;
    Some(numbers[place as usize])
}
