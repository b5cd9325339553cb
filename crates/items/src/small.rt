//! The short list type and the standard traits at it. Comparisons and hashes are those of the slice.
ghost use Rattle.std.specs.Prelude.{◌≡◌, ◌^◌, ◌<◌, ◌==◌, ◌∷◌, [], ◌++◌, length, slice_index_or, IfOk, OnOk, OnErr};
ghost use Rattle.std.specs.Prelude.{IfErr};
ghost use Rattle.std.specs.List.{AllZip};
ghost use Rattle.std.specs.Cmp.Lexicographic.{pointwise, lists_per, lists_equiv};
ghost use Rattle.std.specs.Hash as fed;
ghost use Rattle.std.specs.Hash.{items_Alike};
ghost use Rattle.std.specs.Iterator.Runs.{EveryRun, ItemsMapTo};
ghost use Rattle.std.specs.Slice.Iter.{iter_rest, iter_steps};

use smallvec::SmallVec;
use std::alloc::{AllocError, AllocFailed, Global};
use std::convert::AsSlice;
use std::default::MadeWith;
use std::hash::{Hash, Hasher};
use std::marker::Model;
use std::ops::{DerefSlice, Index};
use std::{fmt, slice};

/// A list that is mostly short: up to `N` elements lie in the value itself and take no memory, and more than that lie
/// in an allocation. Contracts see it as the list of its elements, in order, wherever they lie.
#[derive(Drop)]
pub struct Few<T, const N: usize> {
    inside: SmallVec<T, N>,
}

impl<T, const N: usize> Model for Few<T, N> {
    ghost use Rattle.std.specs.Prelude.{List};

    ghost Value = { List T };

    ghost view = { λ a. a.inside.items };
}

impl<T, const N: usize> Few<T, N> {
    /// The number of elements.
    pub fn len(&self) -> usize
        ensures { result ≡ length self.now }
    {
        self.inside.len()
    }

    /// Whether there is no element.
    pub fn is_empty(&self) -> bool
        ensures { result ≡ (length self.now == 0) }
    {
        self.inside.is_empty()
    }

    /// The elements as a slice.
    pub fn as_slice(&self) -> &[T]
        ensures { result.now ≡ self.now }
    {
        self.inside.as_slice()
    }
}

impl<T: MadeWith<Global> + Drop, const N: usize> Few<T, N> {
    /// The empty list. It takes no memory until more than `N` elements come.
    pub fn new(alloc: Global) -> Few<T, N>
        ensures { result ≡ [] }
    {
        Few {
            inside: SmallVec::new(alloc),
        }
    }

    /// Adds an element at the end. When out of memory, the list stays as it was and the error has the element.
    pub fn push(&mut self, item: T) -> Result<(), AllocFailed<T>>
        ensures ok { OnOk result (self.new ≡ self.old ++ item ∷ []) }
        ensures err { OnErr result (self.new ≡ self.old) }
        ensures item_returned { IfErr result (λ failed. failed.value ≡ item) }
    {
        self.inside.push(item)
    }
}

impl<T: MadeWith<Global> + Copy, const N: usize> Few<T, N> {
    /// A list of copies of a slice's elements. The error says that memory ran out.
    pub fn from_slice(alloc: Global, slice: &[T]) -> Result<Few<T, N>, AllocError>
        ensures { IfOk result (λ items. items ≡ slice.now) }
    {
        let inside = SmallVec::from_slice(alloc, slice)?;
        Ok(Few { inside })
    }
}

impl<T, const N: usize> DerefSlice for Few<T, N> {
    type Elem = T;

    ghost deref_gives = { λ items slice. slice ≡ items };

    fn deref(&self) -> &[T] {
        self.as_slice()
    }
}

impl<T, const N: usize> Index<usize> for Few<T, N> {
    type Output = T;

    ghost can_index = { λ items index. index < length items };

    ghost index_gives = { λ items index item. item ≡ slice_index_or items index item };

    fn index(&self, index: usize) -> &T
        requires { index < length self.now }
        ensures { result.now ≡ slice_index_or self.now index result.now }
    {
        &self.inside.as_slice()[index]
    }
}

impl<T, const N: usize> AsSlice<T> for Few<T, N> {
    ghost items = { λ items. items };

    fn as_slice(&self) -> &[T] {
        self.as_slice()
    }
}

impl<'a, T, const N: usize> IntoIterator for &'a Few<T, N> {
    type Item = &'a T;

    type IntoIter = slice::Iter<'a, T>;

    ghost into_iter_gives = { λ items iter. (iter_rest iter ≡ items.now) × (length (iter_rest iter) < 2 ^ 64)
        × EveryRun (iter_steps {A = T}) (λ p. ItemsMapTo p (λ x. x.now) (iter_rest p.from)) };

    fn into_iter(self) -> slice::Iter<'a, T> {
        self.as_slice().iter()
    }
}

impl<T: MadeWith<Global> + Clone, const N: usize> Clone for Few<T, N> {
    ghost is_clone = { λ items copy. AllZip T.is_clone items copy };

    fn clone(&self) -> Result<Few<T, N>, AllocError> {
        let inside = self.inside.clone()?;
        Ok(Few { inside })
    }
}

impl<T: PartialEq, const N: usize> PartialEq for Few<T, N> {
    ghost eq = { λ a b. pointwise T.eq a b };

    ghost laws = { lists_per T.laws };

    fn eq(&self, other: &Self) -> bool {
        self.as_slice() == other.as_slice()
    }
}

impl<T: Eq, const N: usize> Eq for Few<T, N> {
    ghost laws = { lists_equiv T.Eq.laws };
}

impl<T: Hash, const N: usize> Hash for Few<T, N> {
    ghost hash_input = { λ items. fed.slice T.hash_input items };

    ghost respects_eq = { (items_Alike (record { fed = T.respects_eq })).fed };

    fn hash<H: Hasher>(&self, state: &mut H) {
        self.as_slice().hash(state);
    }
}

impl<T: fmt::Debug, const N: usize> fmt::Debug for Few<T, N> {
    fn fmt<W: fmt::Write>(&self, f: &mut fmt::Formatter<W>) -> fmt::Result {
        f.debug_list().entries(self.as_slice()).finish()
    }
}
