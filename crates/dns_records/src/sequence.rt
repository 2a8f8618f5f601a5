//! Lists, as contracts see them.

ghost use Rattle.std.specs.Prelude.{◌≡◌, ◌<◌, ◌==◌, [], ◌∷◌, ◌++◌, IfOk, IsOk, OnOk, OnErr, length, option_copied, slice_get, slice_index_or, slice_set};
ghost use Rattle.std.specs.Fn.{CalledAt};
ghost use Rattle.std.specs.Iterator.Runs.{EveryRun, ItemsMapTo};
ghost use Rattle.std.specs.List.{remove};
ghost use Rattle.std.specs.List.Retain.{IsFiltered};
ghost use Rattle.std.specs.Slice.Iter.{iter_rest, iter_steps};

use std::alloc::{AllocError, Global};
use std::marker::Model;
use std::mem;
use std::slice::Iter;

/// A list of items: a section of a message (RFC 1035 section 4.1), the records of a set.
#[derive(Drop)]
pub struct Sequence<T> {
    items: Vec<T>,
}

impl<T> Model for Sequence<T> {
    ghost use Rattle.std.specs.Prelude.{List};

    ghost Value = { List T };

    ghost view = { λ s. s.items.items };
}

impl<T> Sequence<T> {
    /// A list without items.
    pub fn new(alloc: Global) -> Self
        ensures { result ≡ [] }
    {
        Sequence {
            items: Vec::new(alloc),
        }
    }

    /// The items of a vector. No memory is taken.
    pub fn from_vec(items: Vec<T>) -> Self
        ensures { result ≡ items.items }
    {
        Sequence { items }
    }

    /// The items, given back as a vector. No memory is taken.
    pub fn into_vec(self) -> Vec<T>
        ensures { result.items ≡ self }
    {
        self.items
    }

    /// The items, lent.
    pub fn as_slice(&self) -> &[T]
        ensures { result.now ≡ self.now }
    {
        self.items.as_slice()
    }

    /// Returns the number of items.
    pub fn len(&self) -> usize
        ensures { result ≡ length self.now }
    {
        self.items.len()
    }

    /// Returns `true` if there are no items.
    pub fn is_empty(&self) -> bool
        ensures { result ≡ (length self.now == 0) }
    {
        self.items.is_empty()
    }

    /// Returns the item at an index, if there is one.
    pub fn get(&self, index: usize) -> Option<&T>
        ensures { option_copied result ≡ slice_get self.now index }
    {
        self.items.get(index)
    }

    /// Returns the first item, if there is one.
    pub fn first(&self) -> Option<&T>
        ensures { option_copied result ≡ slice_get self.now 0 }
    {
        self.items.first()
    }

    /// Iterates over the items, in their order.
    pub fn iter(&self) -> Iter<'_, T>
        ensures items { iter_rest result ≡ self.now }
        ensures runs { EveryRun (iter_steps {A = T})
            (λ p. ItemsMapTo p (λ item. item.now) (iter_rest p.from)) }
    {
        self.items.iter()
    }

    /// Removes the item at an index, and returns it.
    pub fn remove(&mut self, index: usize) -> T
        requires { index < length self.old }
        ensures item { result ≡ slice_index_or self.old index result }
        ensures items { self.new ≡ remove self.old index }
    {
        self.items.remove(index)
    }

    /// Replaces all items by those of a vector, and returns the old ones. No memory is taken.
    pub fn replace(&mut self, items: Vec<T>) -> Vec<T>
        ensures old { result.items ≡ self.old }
        ensures new { self.new ≡ items.items }
    {
        mem::replace(&mut self.items, items)
    }

    /// Takes all items out, and leaves an empty list. No memory is taken.
    pub fn take(&mut self) -> Sequence<T>
        ensures items { result ≡ self.old }
        ensures empty { self.new ≡ [] }
    {
        let alloc = *self.items.allocator();
        mem::replace(self, Sequence::new(alloc))
    }
}

impl<T: Drop> Sequence<T> {
    /// Adds an item at the end. Refused by want of memory, it leaves the list as it was.
    pub fn push(&mut self, item: T) -> Result<(), AllocError>
        ensures ok { OnOk result (self.new ≡ self.old ++ item ∷ []) }
        ensures err { OnErr result (self.new ≡ self.old) }
    {
        self.items.push(item)?;
        Ok(())
    }

    /// Replaces the item at an index.
    pub fn set(&mut self, index: usize, item: T)
        requires { index < length self.old }
        ensures { self.new ≡ slice_set self.old index item }
    {
        self.items[index] = item;
    }

    /// Removes all items.
    pub fn clear(&mut self)
        ensures { self.new ≡ [] }
    {
        self.items.clear();
    }

    /// Keeps the items for which a function returns `true`, in their order.
    pub fn retain<F: FnMut(&T) -> bool>(&mut self, f: F)
        requires { F.IsAlwaysCallable f }
        ensures { IsFiltered (CalledAt F.FnMut) f self.old self.new }
    {
        self.items.retain(f);
    }
}

impl<T: Clone> Clone for Sequence<T> {
    ghost use Rattle.std.specs.List.{AllZip};

    ghost is_clone = { AllZip T.is_clone };

    /// Copies each item, in order. An empty list takes no memory.
    fn clone(&self) -> Result<Sequence<T>, AllocError>
        ensures copies { IfOk result (AllZip T.is_clone self.now) }
        ensures identical { IfOk result (λ copy.
            ((x y : T) → T.is_clone x y → y ≡ x) → copy ≡ self.now) }
        ensures empty { self.now ≡ [] → IsOk result }
    {
        let alloc = *self.items.allocator();
        if self.items.is_empty() {
            return Ok(Sequence::new(alloc));
        }
        let items = Vec::from_clones(alloc, self.items.as_slice())?;
        Ok(Sequence { items })
    }
}

impl<T: Drop> Extend<T> for Sequence<T> {
    ghost use Rattle.std.specs.Prelude.{◌≡◌, ◌++◌};

    ghost extend_gives = { λ old items new. new ≡ old ++ items };

    /// Adds the items of an iterator at the end, in their order. Refused by want of memory, it keeps those that it has added.
    fn extend<U: IntoIterator<Item = T>>(&mut self, items: U) -> Result<(), AllocError> {
        self.items.extend(items)
    }
}
