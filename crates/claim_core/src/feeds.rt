ghost use Rattle.std.specs.Prelude.{◌≡◌, ◌<◌, ◌==◌, false, IfOk, length, slice_index_or, fold, if◌then◌else◌};
ghost use Rattle.std.specs.Cmp.Lexicographic.{pointwise, lists_per, lists_equiv};
ghost use Rattle.std.specs.List.{flat_map};
ghost use Rattle.std.specs.Hash as fed;
ghost use Rattle.std.specs.Hash.{items_Alike};
ghost use Rattle.claim_core.specs.Feeds.{feeds_in, straight, value_at, values_feed};
ghost use Rattle.claim_core.specs.contracts.query.FeedPartialEq.TheImpl.{eq-value as feed_eq};
ghost use Rattle.claim_core.specs.contracts.query.FeedPartialEq.TheImpl.Laws as partial_laws;
ghost use Rattle.claim_core.specs.contracts.query.FeedEq.TheImpl.Laws as equal_laws;
ghost use Rattle.claim_core.specs.contracts.query.FeedHash.TheImpl.{hash_input-value as feed_writes};
ghost use Rattle.claim_core.specs.contracts.query.FeedHash.TheImpl.Laws as hash_laws;

use crate::claims::Shape;
use crate::query::Feed;
use items::Items;
use std::alloc::AllocError;
use std::hash::{Hash, Hasher};
use std::marker::Model;

/// What each input of a cone gets. Contracts see it as the list of the inputs' feeds, in order.
///
/// The feeds of a claim, and those that give each input its own bit, take no memory beside the value itself, however
/// many inputs there are.
#[derive(Debug)]
pub struct Feeds {
    form: Form,
}

/// How feeds are kept.
#[derive(Debug, Drop)]
enum Form {
    /// Each of n inputs gets its own bit.
    Straight(u32),
    /// The shape's inputs get its values, and each other one of n inputs gets its own bit.
    Valued(u32, Shape),
    Listed(Items<Feed>),
}

impl Model for Feeds {
    ghost use Rattle.std.specs.Prelude.{List};
    ghost use Rattle.claim_core.specs.declared.query.Feed.{Feed as AnyFeed};

    ghost Value = { List AnyFeed };

    ghost use Rattle.claim_core.specs.Feeds.{feeds_in};

    ghost view = { λ a. feeds_in a.form };
}

// By hand, so that each exit of a function has one call for it (docs/IDIOMS.md).
impl Drop for Feeds {
    fn drop(self) {
        let Feeds { form: _form } = self;
    }
}

impl Feeds {
    /// Each of n inputs gets its own bit.
    pub fn straight(inputs: u32) -> Feeds
        ensures { result ≡ straight inputs }
    {
        Feeds {
            form: Form::Straight(inputs),
        }
    }

    /// The shape's inputs get its values, and each other one of n inputs gets its own bit.
    pub fn valued(inputs: u32, shape: Shape) -> Feeds
        ensures { result ≡ values_feed inputs shape }
    {
        Feeds {
            form: Form::Valued(inputs, shape),
        }
    }

    /// The feeds of a list. It takes no memory.
    pub fn from_items(items: Items<Feed>) -> Feeds
        ensures { result ≡ items }
    {
        Feeds {
            form: Form::Listed(items),
        }
    }

    /// How many inputs there are.
    pub fn len(&self) -> usize
        ensures { result ≡ length self.now }
    {
        count_in(&self.form)
    }

    /// Whether there is no input.
    pub fn is_empty(&self) -> bool
        ensures { result ≡ (length self.now == 0) }
    {
        self.len() == 0
    }

    /// What an input gets.
    pub fn get(&self, input: usize) -> Feed
        requires { input < length self.now }
        ensures { result ≡ slice_index_or self.now input result }
    {
        entry_of(&self.form, input)
    }
}

// How many feeds there are.
fn count_in(form: &Form) -> usize
    ensures { result ≡ length (feeds_in form.now) }
{
    match form {
        Form::Straight(inputs) => *inputs as usize,
        Form::Valued(inputs, _) => *inputs as usize,
        Form::Listed(items) => items.len(),
    }
}

// The feed of an input.
fn entry_of(form: &Form, input: usize) -> Feed
    requires { input < length (feeds_in form.now) }
    ensures { result ≡ slice_index_or (feeds_in form.now) input result }
{
    match form {
        Form::Straight(inputs) => own_bit(place_of(input, *inputs)),
        Form::Valued(inputs, shape) => value_at(shape, place_of(input, *inputs)),
        Form::Listed(items) => items[input],
    }
}

// The number of one of n inputs.
fn place_of(input: usize, inputs: u32) -> u32
    requires { input < inputs }
    ensures { result ≡ input }
{
    input as u32
}

fn own_bit(input: u32) -> Feed
    ensures { result ≡ Feed.Wire input false }
{
    Feed::Wire {
        place: input,
        flip: false,
    }
}

// What an input gets, where the shape's inputs get its values.
fn value_at(shape: &Shape, input: u32) -> Feed
    ensures { result ≡ value_at shape.now input }
{
    match shape {
        Shape::Up(i) => fixed_at(*i, false, input),
        Shape::Down(i) => fixed_at(*i, true, input),
        Shape::Swap { i, j, a, b } => {
            if input == *j {
                Feed::Fixed(*b)
            } else {
                fixed_at(*i, *a, input)
            }
        }
    }
}

// What an input gets, where input `i` gets a fixed bit, and each other one its own.
fn fixed_at(i: u32, bit: bool, input: u32) -> Feed
    ensures { result ≡ (if input == i then Feed.Fixed bit else Feed.Wire input false) }
{
    if input == i {
        Feed::Fixed(bit)
    } else {
        own_bit(input)
    }
}

impl Clone for Feeds {
    ghost is_clone = { λ feeds copy. copy ≡ feeds };

    fn clone(&self) -> Result<Feeds, AllocError> {
        let form = copied(&self.form)?;
        Ok(Feeds { form })
    }
}

// An equal form.
fn copied(form: &Form) -> Result<Form, AllocError>
    ensures { IfOk result (λ copy. copy ≡ form.now) }
{
    match form {
        Form::Straight(inputs) => Ok(Form::Straight(*inputs)),
        Form::Valued(inputs, shape) => Ok(Form::Valued(*inputs, *shape)),
        Form::Listed(items) => listed(items),
    }
}

// Equal feeds, as a list.
fn listed(items: &Items<Feed>) -> Result<Form, AllocError>
    ensures { IfOk result (λ copy. copy ≡ Form.Listed items.now) }
{
    let copy = items.clone()?;
    Ok(Form::Listed(copy))
}

impl PartialEq for Feeds {
    ghost eq = { λ a b. pointwise feed_eq.it a b };

    ghost laws = { lists_per partial_laws.laws-law };

    fn eq(&self, other: &Self) -> bool {
        if self.len() != other.len() {
            return false;
        }
        same_entries(self, other)
    }
}

impl Eq for Feeds {
    ghost laws = { lists_equiv equal_laws.laws-law };
}

// Whether two lists of one length have the same feeds.
fn same_entries(one: &Feeds, other: &Feeds) -> bool
    requires { length one.now ≡ length other.now }
    ensures { result ≡ pointwise feed_eq.it one.now other.now }
{
    for input in 0..one.len() {
        if one.get(input) != other.get(input) {
            return false;
        }
    }
    true
}

impl Hash for Feeds {
    ghost hash_input = { λ feeds. fed.slice feed_writes.it feeds };

    ghost respects_eq = { (items_Alike (record { fed = hash_laws.respects_eq-law })).fed };

    fn hash<H: Hasher>(&self, state: &mut H) {
        self.len().hash(state);
        hash_entries(self, state);
    }
}

// Feeds each entry to a hasher.
fn hash_entries<H: Hasher>(feeds: &Feeds, state: &mut H)
    ensures { state.new ≡ fold H.write state.old (flat_map feed_writes.it feeds.now) }
{
    for input in 0..feeds.len() {
        feeds.get(input).hash(state);
    }
}
