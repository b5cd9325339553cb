//! The lists of watches, side by side in one vector.

ghost use Rattle.std.specs.Prelude.{◌≡◌, ℕ, ◌+◌, ◌<◌, ◌≤◌, IfOk, OnOk, OnErr, length, replicate, slice_index_or};
ghost use Rattle.watch_lists.specs.Lists.{list_at, list_of, none_listed, put_in, roomier_at, taken_from, watch_at};
ghost use Rattle.watch_lists.specs.Spans.{no_span};

use cnf_core::SatLit;
use std::alloc::{AllocError, Global};
use std::marker::Model;

/// The most places of a list that grows: 8 TB of watches, more than a machine has, so that twice as many, and 4, are
/// counted without overflow.
const MOST_PLACES: usize = 1_000_000_000_000;

/// Where the watches of a literal stand in the vector of all: at the first places from one on. Of those after them some
/// are room that was asked for.
#[derive(Clone, Copy)]
pub(crate) struct Span {
    start: usize,
    len: usize,
    room: usize,
    places: usize,
}

/// A list of watches for each literal, in no order, with room for some more. All stand in one vector, where a list of n
/// places that is full moves to the end, to 2 n + 4 places: so an empty one costs nothing but its span. Only `new` and
/// `make_room` take memory.
#[derive(Drop)]
pub(crate) struct ListStore {
    spans: Vec<Span>,
    watches: Vec<usize>,
}

impl Model for ListStore {
    ghost use Rattle.std.specs.Prelude.{List, map};
    ghost use Rattle.watch_lists.specs.Lists.{Listed};
    ghost use Rattle.watch_lists.specs.Spans.{AreLaid, listed_in};

    ghost Value = { List Listed };

    ghost view = { λ a. map (listed_in a.watches.items) a.spans.items };

    ghost invariant = { λ a. AreLaid a.watches.items a.spans.items };
}

impl ListStore {
    /// An empty list for each of n literals.
    pub(crate) fn new(alloc: Global, count: usize) -> Result<ListStore, AllocError>
        ensures { IfOk result (λ lists. lists ≡ replicate count none_listed) }
    {
        let spans = no_spans(alloc, count)?;
        Ok(ListStore {
            spans,
            watches: Vec::new(alloc),
        })
    }

    /// How many watches a literal has.
    pub(crate) fn count(&self, literal: SatLit) -> usize
        requires { literal.0 < length self.now }
        ensures { result ≡ length (list_of self.now literal.0) }
    {
        self.spans[literal.0 as usize].len
    }

    /// The watch at a place of a literal's list.
    pub(crate) fn at(&self, literal: SatLit, place: usize) -> usize
        requires known { literal.0 < length self.now }
        requires there { place < length (list_of self.now literal.0) }
        ensures { result ≡ watch_at (list_of self.now literal.0) place }
    {
        self.watches[self.spans[literal.0 as usize].start + place]
    }

    /// Takes the watch at a place of a literal's list out, which leaves room for another one. The last one comes in its
    /// place.
    pub(crate) fn take_out(&mut self, literal: SatLit, place: usize)
        requires known { literal.0 < length self.old }
        requires there { place < length (list_of self.old literal.0) }
        ensures { self.new ≡ taken_from literal.0 place self.old }
    {
        let span = self.spans[literal.0 as usize];
        let last = self.watches[span.start + (span.len - 1)];
        self.watches[span.start + place] = last;
        self.spans[literal.0 as usize] = Span {
            start: span.start,
            len: span.len - 1,
            room: span.room + 1,
            places: span.places,
        };
    }

    /// Adds a watch to a literal's list, which has room.
    pub(crate) fn push(&mut self, literal: SatLit, watch: usize)
        requires known { literal.0 < length self.old }
        requires room { 0 < (list_at self.old literal.0).room }
        ensures { self.new ≡ put_in literal.0 watch self.old }
    {
        let span = self.spans[literal.0 as usize];
        self.watches[span.start + span.len] = watch;
        self.spans[literal.0 as usize] = Span {
            start: span.start,
            len: span.len + 1,
            room: span.room - 1,
            places: span.places,
        };
    }

    /// Makes room for one watch more of a literal. A refusal changes nothing.
    pub(crate) fn make_room(&mut self, literal: SatLit) -> Result<(), AllocError>
        requires { literal.0 < length self.old }
        ensures made { OnOk result (self.new ≡ roomier_at literal.0 self.old) }
        ensures refused { OnErr result (self.new ≡ self.old) }
    {
        let span = self.spans[literal.0 as usize];
        if span.len + span.room < span.places {
            self.spans[literal.0 as usize] = Span {
                start: span.start,
                len: span.len,
                room: span.room + 1,
                places: span.places,
            };
            return Ok(());
        }
        // such a list wouldn't fit into memory
        if span.places > MOST_PLACES {
            return Err(AllocError);
        }
        let places = 2 * span.places + 4;
        let start = self.watches.len();
        self.watches.resize(start + places, 0)?;
        copy(&mut self.watches, span.start, start, span.len);
        self.spans[literal.0 as usize] = Span {
            start,
            len: span.len,
            room: span.room + 1,
            places,
        };
        Ok(())
    }
}

// The spans of n lists without places.
fn no_spans(alloc: Global, count: usize) -> Result<Vec<Span>, AllocError>
    ensures { IfOk result (λ spans. spans.items ≡ replicate count no_span) }
{
    let none = Span {
        start: 0,
        len: 0,
        room: 0,
        places: 0,
    };
    vec![in alloc; none; count]
}

// Copies what stands at some places to others after them.
fn copy(watches: &mut Vec<usize>, from: usize, to: usize, count: usize)
    requires apart { from + count ≤ to }
    requires within { to + count ≤ length watches.old.items }
    ensures size { length watches.new.items ≡ length watches.old.items }
    ensures front { (k : ℕ) → k < to → slice_index_or watches.new.items k 0 ≡ slice_index_or watches.old.items k 0 }
    ensures copied { (k : ℕ) → k < count → slice_index_or watches.new.items (to + k) 0
        ≡ slice_index_or watches.old.items (from + k) 0 }
{
    for k in 0..count {
        watches[to + k] = watches[from + k];
    }
}
