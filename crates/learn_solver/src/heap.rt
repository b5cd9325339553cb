//! Numbers in a heap, by keys.

ghost use Rattle.std.specs.Prelude.{ℕ, ◌≡◌, ◌/◌, ◌<◌, ◌≤◌, true, false, All, IfOk, IfSome, IfNone, length, nat_lt};
ghost use Rattle.std.specs.Prelude.{replicate, slice_set};
ghost use Rattle.std.specs.List.{range_with_len};
ghost use Rattle.circuits.specs.Literals.{bit};
ghost use Rattle.learn_solver.specs.Heaps.{AreInverse, are_queued, exchanged};

use std::alloc::{AllocError, Global};
use std::marker::Model;

/// A priority queue of numbers below a bound. The one with the greatest key comes out first, and of those with the same
/// key the greatest number (a binary heap: Williams, 1964). Each number has a key, whether it is in the queue or not.
/// Contracts see which numbers are in it; no clause says which one comes out. Only `new` takes memory.
#[derive(Drop)]
pub(crate) struct Heap {
    keys: Vec<u64>,
    /// All numbers, those in the queue first. Of these the one at place k comes out before those at places 2 k + 1 and
    /// 2 k + 2.
    numbers: Vec<usize>,
    /// Where each number stands.
    places: Vec<usize>,
    queued: usize,
}

impl Model for Heap {
    ghost use Rattle.std.specs.Prelude.{Bool, List};
    ghost use Rattle.learn_solver.specs.Heaps.{IsKept, are_queued};

    ghost Value = { List Bool };

    ghost view = { λ a. are_queued a.queued a.places.items };

    ghost invariant = { λ a. IsKept a.keys.items a.numbers.items a.places.items a.queued };
}

impl Heap {
    /// None of n numbers. All keys are 0.
    pub(crate) fn new(alloc: Global, count: usize) -> Result<Heap, AllocError>
        ensures { IfOk result (λ heap. heap ≡ replicate count false) }
    {
        let keys = vec![in alloc; 0; count]?;
        let numbers = numbers_below(alloc, count)?;
        let places = numbers_below(alloc, count)?;
        Ok(Heap {
            keys,
            numbers,
            places,
            queued: 0,
        })
    }

    /// How many numbers there are.
    pub(crate) fn count(&self) -> usize
        ensures { result ≡ length self.now }
    {
        self.keys.len()
    }

    /// Whether a number is in the queue.
    pub(crate) fn has(&self, number: usize) -> bool
        requires { number < length self.now }
        ensures { result ≡ bit self.now number }
    {
        self.places[number] < self.queued
    }

    /// Takes all numbers out.
    pub(crate) fn clear(&mut self)
        ensures { self.new ≡ replicate (length self.old) false }
    {
        self.queued = 0;
    }

    /// Puts a number in, unless it is there.
    pub(crate) fn insert(&mut self, number: usize)
        requires { number < length self.old }
        ensures { self.new ≡ slice_set self.old number true }
    {
        if self.has(number) {
            return;
        }
        self.admit(number);
        self.lift(number);
    }

    /// Takes out the number that comes first, if there is one.
    pub(crate) fn pop(&mut self) -> Option<usize>
        ensures known { IfSome result (λ number. number < length self.old) }
        ensures queued { IfSome result (λ number. bit self.old number ≡ true) }
        ensures taken { IfSome result (λ number. self.new ≡ slice_set self.old number false) }
        ensures none { IfNone result (self.old ≡ replicate (length self.old) false) }
        ensures same { IfNone result (self.new ≡ self.old) }
    {
        if self.queued == 0 {
            return None;
        }
        let first = self.numbers[0];
        self.dismiss(first);
        sink(&self.keys, &mut self.numbers, &mut self.places, self.queued);
        Some(first)
    }

    /// Raises the key of a number.
    pub(crate) fn raise(&mut self, number: usize, by: u64)
        requires { number < length self.old }
        ensures { self.new ≡ self.old }
    {
        self.keys[number] = self.keys[number].saturating_add(by);
        if self.has(number) {
            self.lift(number);
        }
    }

    /// Divides all keys. A number whose key is greater may get the same one as another.
    pub(crate) fn divide_keys(&mut self, bits: u32)
        requires { bits < 64 }
        ensures { self.new ≡ self.old }
    {
        for key in self.keys.iter_mut() {
            *key >>= bits;
        }
    }

    // Puts in a number that isn't there, as the last one.
    fn admit(&mut self, number: usize)
        requires known { number < length self.old }
        requires loose { bit self.old number ≡ false }
        ensures { self.new ≡ slice_set self.old number true }
    {
        let place = self.places[number];
        exchange(&mut self.numbers, &mut self.places, place, self.queued);
        self.queued += 1;
    }

    // Takes a number out. The last one comes to its place.
    fn dismiss(&mut self, number: usize)
        requires known { number < length self.old }
        requires queued { bit self.old number ≡ true }
        ensures { self.new ≡ slice_set self.old number false }
    {
        let place = self.places[number];
        self.queued -= 1;
        exchange(&mut self.numbers, &mut self.places, place, self.queued);
    }

    // Moves a number forward, to where it comes after the one before it.
    fn lift(&mut self, number: usize)
        requires known { number < length self.old }
        requires queued { bit self.old number ≡ true }
        ensures { self.new ≡ self.old }
    {
        let place = self.places[number];
        lift_from(&self.keys, &mut self.numbers, &mut self.places, place);
    }
}

// Moves the number at a place forward, while it comes out before the one above it.
fn lift_from(keys: &[u64], numbers: &mut Vec<usize>, places: &mut Vec<usize>, place: usize)
    requires inverse { AreInverse (length keys.now) numbers.old.items places.old.items }
    requires there { place < length keys.now }
    ensures inverse { AreInverse (length keys.now) numbers.new.items places.new.items }
    ensures queued { (queued : ℕ) → place < queued
        → are_queued queued places.new.items ≡ are_queued queued places.old.items }
{
    let mut place = place;
    while place > 0 {
        let above = (place - 1) / 2;
        if !precedes(keys, numbers[place], numbers[above]) {
            return;
        }
        exchange(numbers, places, place, above);
        place = above;
    }
}

// Moves the first number back, while one of the two below it comes out before it.
fn sink(keys: &[u64], numbers: &mut Vec<usize>, places: &mut Vec<usize>, queued: usize)
    requires inverse { AreInverse (length keys.now) numbers.old.items places.old.items }
    requires within { queued ≤ length keys.now }
    ensures inverse { AreInverse (length keys.now) numbers.new.items places.new.items }
    ensures queued { are_queued queued places.new.items ≡ are_queued queued places.old.items }
{
    let mut place = 0;
    while place < queued / 2 {
        let below = first_below(keys, numbers, queued, place);
        if !precedes(keys, numbers[below], numbers[place]) {
            return;
        }
        exchange(numbers, places, place, below);
        place = below;
    }
}

// Which of the two places below one has the number that comes out first. There may be one of them alone.
fn first_below(keys: &[u64], numbers: &[usize], queued: usize, place: usize) -> usize
    requires known { All (λ number. number < length keys.now) numbers.now }
    requires within { queued ≤ length numbers.now }
    requires there { place < queued / 2 }
    ensures later { place < result }
    ensures there { result < queued }
{
    let below = 2 * place + 1;
    let last = below + 1 == queued;
    if last || precedes(keys, numbers[below], numbers[below + 1]) {
        return below;
    }
    below + 1
}

// Whether a number comes out before another one.
fn precedes(keys: &[u64], one: usize, other: usize) -> bool
    requires one { one < length keys.now }
    requires other { other < length keys.now }
{
    let key = keys[one];
    let other_key = keys[other];
    (key > other_key) | ((key == other_key) & (one > other))
}

// Swaps the numbers at two places.
fn exchange(numbers: &mut Vec<usize>, places: &mut Vec<usize>, one: usize, other: usize)
    requires inverse { AreInverse (length numbers.old.items) numbers.old.items places.old.items }
    requires one { one < length numbers.old.items }
    requires other { other < length numbers.old.items }
    ensures inverse { (count : ℕ) → AreInverse count numbers.old.items places.old.items
        → AreInverse count numbers.new.items places.new.items }
    ensures places { places.new.items ≡ exchanged one other places.old.items }
    ensures kept { (queued : ℕ) → nat_lt one queued ≡ nat_lt other queued
        → are_queued queued places.new.items ≡ are_queued queued places.old.items }
{
    let first = numbers[one];
    let second = numbers[other];
    numbers.swap(one, other);
    places[first] = other;
    places[second] = one;
}

// The numbers below n.
fn numbers_below(alloc: Global, count: usize) -> Result<Vec<usize>, AllocError>
    ensures { IfOk result (λ numbers. numbers.items ≡ range_with_len 0 count) }
{
    (0..count).collect(alloc)
}
