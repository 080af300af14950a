//! A container finds values by their keys, and has them in the order of their use.
//!
//! ```text
//! let mut pages = Keyed::new(rt.alloc()); // by a tree; `with_index` by another index
//! pages.insert(page)?;
//! let page = pages.peek(7)?; // the order stays
//! let page = pages.get(7)?; // it is before all others
//! let page = pages.remove(7)?;
//! ```

ghost use Rattle.std.specs.Prelude.{◌≡◌, ◌↔◌, ◌++◌, ◌∷◌, [], None, Some, Bool, List, filter, length, is_some, IsTrue, OnOk, IfOk, IfErr, MatchOption};
ghost use Rattle.std.specs.Fn.{FnReturnsAt};
ghost use Rattle.std.specs.Option.{option_copied};
ghost use Rattle.ic_keyed.specs.Keyed.{value_with, without, touched, with_values, BeginsWith, EndsWith, HaveOwnKeys, ReplacesLast};

use crate::InsertError;
use crate::store::{find, place_of};
use ic_container::Iter;
use ic_indexed::{ByKey, HasKey, Index, Indexed, NarrowByKey};
use ic_link_ops::{CoverError, NodeWords, PrevPlace};
use ic_rbtree::RBTree;
use std::alloc::{Allocator, Global};
use std::marker::Model;

/// A container of values with unique keys, in the order of their use.
///
/// A contract speaks of the list of the values, from the value that was used last to the oldest (`values`). It also speaks of the number of parts into
/// which the index divides the values (`parts`): one for a tree, and the number of chains for a hash table. No two values have the same key, and
/// `keys_differ` gives this fact to a proof.
///
/// Each call that searches costs O(log n) with a tree and O(1) on average with a hash table. Only `reserve` and the calls that add a value take
/// memory.
#[derive(Drop)]
pub struct Keyed<T: HasKey, I: Index<T, A>, A: Allocator = Global> {
    store: Indexed<T, I, A>,
}

/// A container of values with a tree as the index, whose searches take O(log n).
pub type TreeKeyed<T, A = Global> = Keyed<T, RBTree<ByKey<T>>, A>;

/// A container like `TreeKeyed`, over links of 4-byte words. The links take half the memory, and there can be at most 536,870,911 values.
pub type NarrowTreeKeyed<T, A = Global> = Keyed<T, RBTree<NarrowByKey<T>>, A>;

impl<T: HasKey, I: Index<T, A>, A: Allocator> Model for Keyed<T, I, A> {
    ghost use Rattle.ic_indexed.specs.Indexed.{values_of};
    ghost use Rattle.ic_keyed.specs.Keyed.{KeyedValues, HaveOwnKeys};
    ghost use Rattle.ic_keyed.specs.Kept.{keyed_code, keyed_of};

    ghost Value = { KeyedValues T };

    ghost coded = { keyed_code T.code };

    ghost view = { λ k. keyed_of k.store };

    ghost invariant = { λ k. HaveOwnKeys T.key_of (values_of k.store) };
}

impl<T: HasKey, A: Allocator> Keyed<T, RBTree<ByKey<T>>, A> {
    /// Makes a container without values, with a tree as the index. The call takes no memory. O(1).
    pub fn new(alloc: A) -> TreeKeyed<T, A>
    where
        A: Copy,
        ensures values { result.values ≡ [] }
        ensures parts { result.parts ≡ 1 }
    {
        Keyed::by_tree(alloc)
    }
}

impl<T: HasKey, W: NodeWords, O: PrevPlace, A: Allocator> Keyed<T, RBTree<ByKey<T, W, O>>, A> {
    /// Makes a container without values, with a tree over links of either width as the index: `NarrowTreeKeyed::by_tree(rt.alloc())`. The call takes no
    /// memory. O(1).
    pub fn by_tree(alloc: A) -> Keyed<T, RBTree<ByKey<T, W, O>>, A>
    where
        A: Copy,
        ensures values { result.values ≡ [] }
        ensures parts { result.parts ≡ 1 }
    {
        Keyed {
            store: Indexed::by_tree(alloc),
        }
    }
}

impl<T: HasKey, I: Index<T, A>, A: Allocator> Keyed<T, I, A> {
    ghost use Rattle.std.specs.Borrow.{sem};
    ghost use Rattle.ic_keyed.specs.Lends.{EndsAs};
    ghost use Rattle.ic_keyed.specs.Refusals.{IsRefused};
    ghost use Rattle.ic_keyed.specs.Tests.{AreAnswers, Tests, passing};

    /// Makes a container without values, with the given index, for example: `Keyed::with_index(rt.alloc(), HashIndex::new(buckets))`. The call takes no
    /// memory.
    ///
    /// The call requires that the index is new. O(1).
    pub fn with_index(alloc: A, index: I) -> Keyed<T, I, A>
    where
        A: Copy,
        requires new { I.IsNew index }
        ensures values { result.values ≡ [] }
        ensures parts { result.parts ≡ I.parts index }
    {
        Keyed {
            store: Indexed::with_index(alloc, index),
        }
    }

    /// Gives a caller's proof the fact that no two values have the same key. The call does nothing when it runs. O(1).
    #[inline]
    pub fn keys_differ(&self)
        ensures { HaveOwnKeys T.key_of self.now.values }
    {
        let _ = &self.store;
    }

    /// Returns how many values there are. O(1).
    #[inline]
    pub fn len(&self) -> usize
        ensures { result ≡ length self.now.values }
    {
        self.store.len()
    }

    /// Returns whether there is no value. O(1).
    #[inline]
    pub fn is_empty(&self) -> bool
        ensures { IsTrue result ↔ (self.now.values ≡ []) }
    {
        self.store.is_empty()
    }

    /// Makes room for the links of `additional` more values, so that inserting them takes memory only for the values themselves. The values and their order
    /// stay the same, even if the call is refused. The call makes at most two requests for memory. O(n) in the places that are new.
    pub fn reserve(&mut self, additional: usize) -> Result<(), CoverError>
        ensures { self.new ≡ self.old }
    {
        self.store.reserve(additional)
    }

    /// Returns a walk over the values, from the value that was used last to the oldest, or backwards from the oldest. The order of the values does not
    /// change. O(1).
    pub fn iter(&self) -> Iter<'_, T, A, I::Order>
        ensures { result ≡ self.now.values }
    {
        self.store.iter()
    }

    /// Returns the value with the key, if there is one, and how many values the search compared. The order of the values does not change.
    ///
    /// With a tree the search compares at most 2 log2(n + 1) of n values. With a hash table it compares at most the values in the chain of the key. O(log
    /// n) by a tree, and O(length of a chain) by a hash table.
    pub fn find(&self, key: u64) -> (Option<&T>, u64)
        ensures value { option_copied result.0 ≡ value_with T.key_of key self.now.values }
        ensures looks { I.IsFew self.now.parts key self.now.values result.1 }
    {
        let (place, looks) = find(&self.store, key);
        match place {
            Some(place) => (Some(self.store.at(place)), looks),
            None => (None, looks),
        }
    }

    /// Returns the value with the key, if there is one. The order of the values does not change. O(log n) by a tree, and O(length of a chain) by a hash
    /// table.
    pub fn peek(&self, key: u64) -> Option<&T>
        ensures { option_copied result ≡ value_with T.key_of key self.now.values }
    {
        let place = place_of(&self.store, key)?;
        Some(self.store.at(place))
    }

    /// Returns the value with the key, if there is one, and moves it to the front, because it is now the value that was used last. The other values keep
    /// their order. O(log n) by a tree, and O(length of a chain) by a hash table.
    pub fn get(&mut self, key: u64) -> Option<&T>
        ensures* touches { sem 𝓛 (EndsAs T.row I.row A.row I.Links.row I.Order.row T.HasKey I.Index I.Links.Tables I.Order.unlinked I.Order.is_linked I.Order.width I.Order.next_word I.Order.KeepsOthers I.Order.prev A.Allocator self.entry (touched T.key_of key self.old.values)) }
        ensures value { option_copied result ≡ value_with T.key_of key self.old.values }
    {
        let used = place_of(&self.store, key)?;
        self.store.move_to_front(used);
        Some(self.store.at(used))
    }

    /// Moves the value with the key to the front, and returns whether there is such a value. The other values keep their order. O(log n) by a tree, and
    /// O(length of a chain) by a hash table.
    pub fn touch(&mut self, key: u64) -> bool
        ensures found { result ≡ is_some (value_with T.key_of key self.old.values) }
        ensures touched { self.new ≡ with_values self.old (touched T.key_of key self.old.values) }
    {
        let Some(place) = place_of(&self.store, key) else {
            return false;
        };
        self.store.move_to_front(place);
        true
    }

    /// Returns the value that was used last, if there is one. The order of the values does not change. O(1).
    pub fn first(&self) -> Option<&T>
        ensures { MatchOption result (self.now.values ≡ []) (λ first. BeginsWith first.now self.now.values) }
    {
        let newest = self.store.first()?;
        Some(self.store.at(newest))
    }

    /// Returns the value that was used longest ago, if there is one. The order of the values does not change. O(1).
    pub fn last(&self) -> Option<&T>
        ensures { MatchOption result (self.now.values ≡ []) (λ last. EndsWith last.now self.now.values) }
    {
        let oldest = self.store.last()?;
        Some(self.store.at(oldest))
    }

    /// Adds a value at the front.
    ///
    /// The call is refused if another value has the key of the new value, or if there is no room for one more. If it is refused, the caller gets the value
    /// back, and nothing has changed. The call costs two searches, and at most three requests for memory. O(log n) by a tree, and O(length of a chain) by a
    /// hash table.
    pub fn insert(&mut self, value: T) -> Result<(), InsertError<T>>
        ensures inserted { OnOk result ((value_with T.key_of (T.key_of value) self.old.values ≡ None) × (self.new ≡ with_values self.old (value ∷ self.old.values))) }
        ensures refused { IfErr result (λ refused. IsRefused T.key_of value self.old.values refused × (self.new ≡ self.old)) }
    {
        if place_of(&self.store, *value.key()).is_some() {
            return Err(InsertError::KeyTaken(value));
        }
        match self.insert_new(value) {
            Ok(()) => {}
            Err(refused) => return Err(InsertError::NoRoom(refused)),
        }
        Ok(())
    }

    /// Adds a value before all others, without the search of `insert`. The call requires that no value in the container has the key of the new value.
    ///
    /// If there is no room for one more, the caller gets the value back, and nothing has changed.
    /// O(log n) by a tree, and O(length of a chain) by a hash table.
    pub fn insert_new(&mut self, value: T) -> Result<(), T>
        requires new { value_with T.key_of (T.key_of value) self.old.values ≡ None }
        ensures inserted { OnOk result (self.new ≡ with_values self.old (value ∷ self.old.values)) }
        ensures refused { IfErr result (λ back. (back ≡ value) × (self.new ≡ self.old)) }
    {
        match self.store.place_front(value) {
            Ok(_) => {}
            Err(refused) => return Err(refused.into_value()),
        }
        Ok(())
    }

    /// Replaces the value that has the same key as the given value, moves the given value to the front, and returns the old value. The other values keep
    /// their order.
    ///
    /// If no value in the container has this key, the call returns the given value as an error, and nothing has changed. The call makes one search. O(log n)
    /// by a tree, and O(length of a chain) by a hash table.
    pub fn replace(&mut self, value: T) -> Result<T, T>
        ensures replaced { IfOk result (λ gone. (value_with T.key_of (T.key_of value) self.old.values ≡ Some gone)
            × (self.new ≡ with_values self.old (value ∷ without T.key_of (T.key_of value) self.old.values))) }
        ensures absent { IfErr result (λ back. (back ≡ value) × (value_with T.key_of (T.key_of value) self.old.values ≡ None) × (self.new ≡ self.old)) }
    {
        let Some(place) = place_of(&self.store, *value.key()) else {
            return Err(value);
        };
        Ok(self.store.replace_and_touch(place, value))
    }

    /// Replaces the value that was used longest ago by the given value, moves the given value to the front, and returns the old value. The other values keep
    /// their order. The call requires that no value in the container has the key of the given value.
    ///
    /// If there is no value in the container, the call returns the given value as an error, and nothing has changed. The call costs two searches. O(log n) by
    /// a tree, and O(length of a chain) by a hash table.
    pub fn replace_last(&mut self, value: T) -> Result<T, T>
        requires new { value_with T.key_of (T.key_of value) self.old.values ≡ None }
        ensures replaced { IfOk result (λ last. ReplacesLast last value self.old self.new) }
        ensures empty { IfErr result (λ back. (back ≡ value) × (self.old.values ≡ []) × (self.new ≡ self.old)) }
    {
        let Some(oldest) = self.store.last() else {
            return Err(value);
        };
        Ok(self.store.replace_and_touch(oldest, value))
    }

    /// Removes the value with the key and returns it, if there is one. The other values keep their order. The call costs two searches. O(log n) by a tree,
    /// and O(length of a chain) by a hash table.
    pub fn remove(&mut self, key: u64) -> Option<T>
        ensures value { result ≡ value_with T.key_of key self.old.values }
        ensures removed { self.new ≡ with_values self.old (without T.key_of key self.old.values) }
    {
        let leaving = place_of(&self.store, key)?;
        Some(self.store.remove(leaving))
    }

    /// Removes the value that was used last and returns it, if there is one. The call costs about as much as a search. O(log n) by a tree, and O(length of
    /// a chain) by a hash table.
    pub fn pop_first(&mut self) -> Option<T>
        ensures { MatchOption result ((self.old.values ≡ []) × (self.new ≡ self.old)) (λ first. self.old ≡ with_values self.new (first ∷ self.new.values)) }
    {
        self.store.pop_first()
    }

    /// Removes the value that was used longest ago and returns it, if there is one. The call costs about as much as a search. O(log n) by a tree, and
    /// O(length of a chain) by a hash table.
    pub fn pop_last(&mut self) -> Option<T>
        ensures { MatchOption result ((self.old.values ≡ []) × (self.new ≡ self.old)) (λ last. self.old ≡ with_values self.new (self.new.values ++ last ∷ [])) }
    {
        self.store.pop_last()
    }

    /// Keeps the values that pass the test, in their order, and drops the other values. The call runs the test once for each value, beginning with the value
    /// that was used last. The call takes a few steps for each value, and about as long as a search for each value that it drops. O(n log n) by a tree.
    pub fn retain<F: Fn(&T) -> bool>(&mut self, keeps: F)
    where
        T: Drop,
        requires callable { F.IsAlwaysCallable keeps }
        ensures asked { (answers : List Bool) × AreAnswers (FnReturnsAt F.Fn keeps) self.old.values answers × (self.new ≡ with_values self.old (passing answers self.old.values)) }
        ensures kept { (holds : T → Bool) → Tests (FnReturnsAt F.Fn keeps) holds → self.new ≡ with_values self.old (filter holds self.old.values) }
    {
        for _asked in 0..self.len() {
            self.test_first(&keeps);
        }
    }

    // Calls the test with the first value. If the value passes, it moves to the back, and otherwise it is removed.
    fn test_first<F: Fn(&T) -> bool>(&mut self, keeps: &F)
    where
        T: Drop,
        requires callable { F.IsAlwaysCallable keeps.now }
        ensures parts { self.new.parts ≡ self.old.parts }
        ensures tested { (first : T) (rest : List T) → self.old.values ≡ first ∷ rest
            → (answer : Bool) × FnReturnsAt F.Fn keeps.now first answer × (self.new.values ≡ rest ++ passing (answer ∷ []) (first ∷ [])) }
    {
        let Some(first) = self.store.first() else {
            return;
        };
        if keeps(self.store.at(first)) {
            self.store.move_to_back(first);
        } else {
            self.store.remove(first);
        }
    }

    /// Removes all values and drops them. For each value the call costs about as much as a search. O(n log n) by a tree.
    pub fn clear(&mut self)
    where
        T: Drop,
        ensures { self.new ≡ with_values self.old [] }
    {
        for _popped in 0..self.len() {
            let _ = self.pop_last();
        }
    }
}
