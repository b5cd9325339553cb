ghost use Rattle.std.specs.Prelude.{◌≡◌, ◌<◌, ◌^◌, All, IfOk, length};
ghost use Rattle.circuits.specs.Bijections.{IsSignedBijection};
ghost use Rattle.circuits.specs.Matches.{HavePorts};
ghost use Rattle.claim_core.specs.Queries.{IsQuery, IsWired};
ghost use Rattle.claim_core.specs.MatchQueries.{match_query, moved_feed};

use crate::feeds::Feeds;
use crate::query::{Cone, Feed, Query};
use items::Items;
use net_core::{Graphs, Matching, Side};
use std::alloc::{AllocError, Global};

/// Whether output `output` of the first circuit can have this value where the output that it goes to, inverted where
/// the matching says so, has not. The matching is right where no vector meets the query of any output and either value.
pub fn of_match(
    alloc: Global,
    graphs: &Graphs<'_>,
    matching: &Matching,
    output: u32,
    value: bool,
) -> Result<Query, AllocError>
    requires ports { HavePorts graphs.now.first graphs.now.second matching.now.inputs matching.now.outputs }
    requires output { output < length graphs.now.first.outputs }
    ensures query { IfOk result (λ query. query ≡ match_query graphs.now.first.inputs matching.now output value) }
    ensures fits { IfOk result (IsQuery graphs.now) }
{
    let inputs = graphs.first().inputs();
    let (place, sign) = matching.outputs[output as usize];
    let left = Cone {
        side: Side::First,
        output,
        feed: Feeds::straight(inputs),
    };
    let right = Cone {
        side: Side::Second,
        output: place,
        feed: moved(alloc, &matching.inputs)?,
    };
    Ok(Query {
        left,
        left_value: value,
        right,
        right_value: !value != sign,
    })
}

// Each input gets the bit of the input that goes to it.
fn moved(alloc: Global, entries: &[(u32, bool)]) -> Result<Feeds, AllocError>
    requires few { length entries.now < 2 ^ 32 }
    requires shape { IsSignedBijection (length entries.now) entries.now }
    ensures { IfOk result (λ feed. feed ≡ moved_feed entries.now) }
{
    let mut feed = vec![in alloc; Feed::Fixed(false); entries.len()]?;
    put_wires(entries, &mut feed);
    Ok(Feeds::from_items(Items::from_vec(feed)))
}

fn put_wires(entries: &[(u32, bool)], feed: &mut [Feed])
    requires few { length entries.now < 2 ^ 32 }
    requires shape { IsSignedBijection (length entries.now) entries.now }
    requires room { length feed.old ≡ length entries.now }
    requires wired { All (IsWired (length entries.now)) feed.old }
    ensures { feed.new ≡ moved_feed entries.now }
{
    for (i, (place, flip)) in entries.iter().enumerate() {
        feed[*place as usize] = Feed::Wire {
            place: i as u32,
            flip: *flip,
        };
    }
}
