//! The list type and the standard traits at it. Comparisons and hashes are those of the slice.
ghost use Rattle.std.specs.Prelude.{◌≡◌, ◌^◌, ◌-◌, ◌<◌, ◌==◌, ◌↔◌, ◌∷◌, [], ◌++◌, length, take, slice_index_or};
ghost use Rattle.std.specs.Prelude.{slice_set, option_to_list, IsSome, IfOk, OnOk, OnErr, IfErr};
ghost use Rattle.std.specs.List.{AllZip};
ghost use Rattle.std.specs.Borrow.{sem};
ghost use Rattle.std.specs.Cmp.Lexicographic.{pointwise, lists_per, lists_equiv};
ghost use Rattle.std.specs.Fmt.{debug_list};
ghost use Rattle.std.specs.Hash as fed;
ghost use Rattle.std.specs.Hash.{items_Alike};
ghost use Rattle.std.specs.Iterator.Runs.{EveryRun, ItemsAre, ItemsMapTo};
ghost use Rattle.std.specs.Slice.Iter.{iter_rest, iter_steps};
ghost use Rattle.std.specs.Vec.Iter.{into_iter_items, into_iter_len, into_iter_steps};
ghost use Rattle.std.specs.declared.alloc.Global.{Global};
ghost use Rattle.items.specs.ListLends.{lends_elements};

use std::alloc::{AllocError, AllocFailed, Global};
use std::convert::AsSlice;
use std::hash::{Hash, Hasher};
use std::marker::Model;
use std::ops::{DerefSlice, Index};
use std::{fmt, slice, vec};

/// A growable list. Contracts see it as the list of its elements, in order; how much room it has is not part of its
/// value.
#[derive(Drop)]
pub struct Items<T> {
    inside: Vec<T>,
}

impl<T> Model for Items<T> {
    ghost use Rattle.std.specs.Prelude.{List};

    ghost Value = { List T };

    ghost view = { λ a. a.inside.items };
}

impl<T> Items<T> {
    /// The empty list. It takes no memory until an element comes.
    pub fn new(alloc: Global) -> Items<T>
        ensures { result ≡ [] }
    {
        Items {
            inside: Vec::new(alloc),
        }
    }

    /// The empty list with room for `capacity` elements. The error says that memory ran out.
    pub fn with_capacity(alloc: Global, capacity: usize) -> Result<Items<T>, AllocError>
        ensures { IfOk result (λ items. items ≡ []) }
    {
        let inside = Vec::with_capacity(alloc, capacity)?;
        Ok(Items { inside })
    }

    /// The list of a vector's elements. It takes no memory.
    pub fn from_vec(vec: Vec<T>) -> Items<T>
        ensures { result ≡ vec.items }
    {
        Items { inside: vec }
    }

    /// The elements as a vector. It takes no memory.
    pub fn into_vec(self) -> Vec<T>
        ensures { result.items ≡ self }
    {
        let Items { inside } = self;
        inside
    }

    /// Adds an element at the end. When out of memory, the list stays as it was and the error has the element.
    pub fn push(&mut self, item: T) -> Result<(), AllocFailed<T>>
        ensures ok { OnOk result (self.new ≡ self.old ++ item ∷ []) }
        ensures err { OnErr result (self.new ≡ self.old) }
        ensures item_returned { IfErr result (λ failed. failed.value ≡ item) }
    {
        self.inside.push(item)
    }

    /// Takes the last element off, if there is one.
    pub fn pop(&mut self) -> Option<T>
        ensures items { self.old ≡ self.new ++ option_to_list result }
        ensures rest { self.new ≡ take (length self.old - 1) self.old }
        ensures variant { IsSome result ↔ (0 < length self.old) }
    {
        self.inside.pop()
    }

    /// Puts `item` in the place of the element at `index`, which is dropped.
    pub fn set(&mut self, index: usize, item: T)
    where
        T: Drop,
        requires { index < length self.old }
        ensures { self.new ≡ slice_set self.old index item }
    {
        self.inside[index] = item;
    }

    /// Drops the elements from place `len` on. A list of at most `len` elements stays as it was.
    pub fn truncate(&mut self, len: usize)
    where
        T: Drop,
        ensures { self.new ≡ take len self.old }
    {
        self.inside.truncate(len);
    }

    /// Drops all the elements.
    pub fn clear(&mut self)
    where
        T: Drop,
        ensures { self.new ≡ [] }
    {
        self.inside.clear();
    }

    /// The number of elements.
    pub fn len(&self) -> usize
        ensures { result ≡ length self.now }
    {
        self.inside.len()
    }

    /// Whether there is no element.
    pub fn is_empty(&self) -> bool
        ensures { result ≡ (length self.now == 0) }
    {
        self.inside.is_empty()
    }

    /// The elements as a slice.
    pub fn as_slice(&self) -> &[T]
        ensures { result.now ≡ self.now }
    {
        self.inside.as_slice()
    }

    /// The elements as a slice to write to. What is left there when the borrow ends is the list.
    pub fn as_mut_slice(&mut self) -> &mut [T]
        ensures* writes_back { sem 𝓛 (lends_elements T.row self.entry result) }
        ensures value { result.now ≡ self.old }
    {
        self.inside.as_mut_slice()
    }
}

impl<T: Copy> Items<T> {
    /// A list of copies of a slice's elements. The error says that memory ran out.
    pub fn from_slice(alloc: Global, slice: &[T]) -> Result<Items<T>, AllocError>
        ensures { IfOk result (λ items. items ≡ slice.now) }
    {
        let inside = Vec::from_slice(alloc, slice)?;
        Ok(Items { inside })
    }

    /// Adds copies of a slice's elements at the end. When out of memory, the list stays as it was.
    pub fn extend_from_slice(&mut self, slice: &[T]) -> Result<(), AllocError>
        ensures ok { OnOk result (self.new ≡ self.old ++ slice.now) }
        ensures err { OnErr result (self.new ≡ self.old) }
    {
        self.inside.extend_from_slice(slice)
    }
}

impl<T> From<Vec<T>> for Items<T> {
    ghost from_gives = { λ vec items. items ≡ vec.items };

    fn from(vec: Vec<T>) -> Items<T> {
        Items::from_vec(vec)
    }
}

impl<T> DerefSlice for Items<T> {
    type Elem = T;

    ghost deref_gives = { λ items slice. (slice ≡ items) × (length slice ≡ length items) };

    fn deref(&self) -> &[T]
        ensures value { result.now ≡ self.now }
        ensures len { length result.now ≡ length self.now }
    {
        self.inside.as_slice()
    }
}

impl<T> Index<usize> for Items<T> {
    type Output = T;

    ghost can_index = { λ items index. index < length items };

    ghost index_gives = { λ items index item. item ≡ slice_index_or items index item };

    fn index(&self, index: usize) -> &T
        requires { index < length self.now }
        ensures { result.now ≡ slice_index_or self.now index result.now }
    {
        &self.inside[index]
    }
}

impl<T> AsSlice<T> for Items<T> {
    ghost items = { λ items. items };

    fn as_slice(&self) -> &[T] {
        self.as_slice()
    }
}

impl<T: Drop> IntoIterator for Items<T> {
    type Item = T;

    type IntoIter = vec::IntoIter<T>;

    ghost into_iter_gives = { λ items iter. (into_iter_items iter ≡ items) × (into_iter_len iter ≡ length items)
        × (into_iter_len iter < 2 ^ 64)
        × EveryRun (into_iter_steps {X = T} {Z = Global}) (λ p. ItemsAre p (into_iter_items p.from)) };

    fn into_iter(self) -> vec::IntoIter<T> {
        self.into_vec().into_iter()
    }
}

impl<'a, T> IntoIterator for &'a Items<T> {
    type Item = &'a T;

    type IntoIter = slice::Iter<'a, T>;

    ghost into_iter_gives = { λ items iter. (iter_rest iter ≡ items.now) × (length (iter_rest iter) < 2 ^ 64)
        × EveryRun (iter_steps {A = T}) (λ p. ItemsMapTo p (λ x. x.now) (iter_rest p.from)) };

    fn into_iter(self) -> slice::Iter<'a, T> {
        self.as_slice().iter()
    }
}

impl<T: Clone> Clone for Items<T> {
    ghost is_clone = { λ items copy. AllZip T.is_clone items copy };

    fn clone(&self) -> Result<Items<T>, AllocError> {
        let inside = self.inside.clone()?;
        Ok(Items { inside })
    }
}

impl<T: PartialEq> PartialEq for Items<T> {
    ghost eq = { λ a b. pointwise T.eq a b };

    ghost laws = { lists_per T.laws };

    fn eq(&self, other: &Self) -> bool {
        self.as_slice() == other.as_slice()
    }
}

impl<T: Eq> Eq for Items<T> {
    ghost laws = { lists_equiv T.Eq.laws };
}

impl<T: Hash> Hash for Items<T> {
    ghost hash_input = { λ items. fed.slice T.hash_input items };

    ghost respects_eq = { (items_Alike (record { fed = T.respects_eq })).fed };

    fn hash<H: Hasher>(&self, state: &mut H) {
        self.as_slice().hash(state);
    }
}

impl<T: fmt::Debug> fmt::Debug for Items<T> {
    ghost debug_output = { λ items. debug_list T.debug_output items };

    fn fmt<W: fmt::Write>(&self, f: &mut fmt::Formatter<W>) -> fmt::Result {
        fmt::Debug::fmt(&self.inside, f)
    }
}
