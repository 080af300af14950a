//! Keyed calls of one tree. Each call returns how many looks it made, which are comparisons of keys. In a tree of n members a call makes at most 2
//! log2(n + 1) looks for each search.
//!
//! ```text
//! world.insert(tree, first)?;              // 0 looks
//! world.find(tree, 5)?                     // the first member of key 5
//! world.range(tree, Bound::Included(3), Bound::Unbounded)? // all from key 3 on
//! ```

use crate::World;
use crate::call::{Command, Refusal};
use crate::calls::collection_call::Call;
use crate::calls::insertion::{EntryAt, Insertion};
use crate::calls::kinds::is_tree;
use crate::calls::probes::{looks_in, probe_in_bound};
use crate::calls::search::Search;
use ic_rbtree::{Bound, KeyAdapter};
use ic_unsafe_ref::Place;
use std::alloc::Allocator;

impl<A: KeyAdapter, M: Allocator + Copy> World<A, M>
where
    A::Key: Drop,
{
    ghost use Rattle.ic_world.specs.Step.{Step};
    ghost use Rattle.ic_world.specs.Replies.{reply_of};
    ghost use Rattle.ic_world.specs.Calls.{found, looked, entry, range};

    /// Puts the cursor on the first member with this key, or to null if there is none. It returns the member and the number of looks. O(log n).
    ///
    /// Refused: `NoSuchCollection`, `WrongKind` for a list.
    pub fn find(&mut self, collection: usize, key: A::Key) -> Result<(Option<Place>, u64), Refusal>
        ensures { Step A.Key.cmp A.key_of self.old (Command.On collection (Call.Search (Search.Find key))) (reply_of (λ answer. found answer.0 answer.1) result) self.new }
    {
        self.call(collection, &Search::Find(key))
    }

    /// Puts the cursor on the first member that meets the bound, or to null if there is none. It returns the member and the number of looks. O(log
    /// n).
    ///
    /// Refused: `NoSuchCollection`, `WrongKind` for a list.
    pub fn lower_bound(
        &mut self,
        collection: usize,
        bound: Bound<A::Key>,
    ) -> Result<(Option<Place>, u64), Refusal>
        ensures { Step A.Key.cmp A.key_of self.old (Command.On collection (Call.Search (Search.LowerBound bound))) (reply_of (λ answer. found answer.0 answer.1) result) self.new }
    {
        self.call(collection, &Search::LowerBound(bound))
    }

    /// Puts the cursor on the last member that meets the bound, or to null if there is none. It returns the member and the number of looks. O(log n).
    ///
    /// Refused: `NoSuchCollection`, `WrongKind` for a list.
    pub fn upper_bound(
        &mut self,
        collection: usize,
        bound: Bound<A::Key>,
    ) -> Result<(Option<Place>, u64), Refusal>
        ensures { Step A.Key.cmp A.key_of self.old (Command.On collection (Call.Search (Search.UpperBound bound))) (reply_of (λ answer. found answer.0 answer.1) result) self.new }
    {
        self.call(collection, &Search::UpperBound(bound))
    }

    /// Inserts an object where its key belongs, after members with the same key, and puts the cursor on the object. O(log n).
    ///
    /// Refused: `NoSuchCollection`, `NoSuchObject`, `WrongKind` for a list, `AlreadyLinked`, each before any key is compared.
    pub fn insert(&mut self, collection: usize, object: Place) -> Result<u64, Refusal>
        ensures { Step A.Key.cmp A.key_of self.old (Command.On collection (Call.Insertion (Insertion.Insert object))) (reply_of (λ looks. looked looks) result) self.new }
    {
        self.call(collection, &Insertion::Insert(object))
    }

    /// Inserts an object where its key belongs, after members with the same key. The cursor stays. O(log n).
    ///
    /// Refused: `NoSuchCollection`, `NoSuchObject`, `WrongKind` for a list, `AlreadyLinked`, each before any key is compared.
    pub fn cursor_insert(&mut self, collection: usize, object: Place) -> Result<u64, Refusal>
        ensures { Step A.Key.cmp A.key_of self.old (Command.On collection (Call.Insertion (Insertion.CursorInsert object))) (reply_of (λ looks. looked looks) result) self.new }
    {
        self.call(collection, &Insertion::CursorInsert(object))
    }

    /// Puts the cursor on the first member with this key. If no member has it, the call inserts the object where the key belongs, and puts the cursor
    /// on the object.
    ///
    /// The call returns whether a member had the key, the member that the cursor is then on, and the number of looks. It does not read the key of the
    /// object. O(log n).
    ///
    /// Refused: `NoSuchCollection`, `NoSuchObject`, `WrongKind` for a list, `AlreadyLinked` if no member has the key and the object is already
    /// linked.
    pub fn entry(
        &mut self,
        collection: usize,
        key: A::Key,
        object: Place,
    ) -> Result<(bool, Place, u64), Refusal>
        ensures { Step A.Key.cmp A.key_of self.old (Command.On collection (Call.Enter key object)) (reply_of (λ e. entry e.0 e.1 e.2) result) self.new }
    {
        match self.call(collection, &EntryAt { key, object }) {
            Ok(Some(answer)) => Ok(answer),
            Ok(None) => Err(Refusal::AlreadyLinked),
            Err(refusal) => Err(refusal),
        }
    }

    /// Returns the members between two bounds, and the number of looks of the search for each bound. The cursor stays. O(log n + returned members).
    ///
    /// Refused: `NoSuchCollection`, `WrongKind` for a list, `OutOfMemory`.
    pub fn range(
        &self,
        collection: usize,
        min: Bound<A::Key>,
        max: Bound<A::Key>,
    ) -> Result<(Vec<Place, M>, u64, u64), Refusal>
        ensures { Step A.Key.cmp A.key_of self.now (Command.Range collection min max)
            (reply_of (λ answer. range answer.0.items answer.1 answer.2) result) self.now }
    {
        let Some((members, links)) = self.found(collection) else {
            return Err(Refusal::NoSuchCollection);
        };
        if !is_tree(members.kind()) {
            return Err(Refusal::WrongKind);
        }
        let mut from = probe_in_bound(self.adapter, &min);
        let mut to = probe_in_bound(self.adapter, &max);
        match members.range_by(
            self.alloc,
            links,
            &self.objects,
            self.adapter,
            &mut from,
            &mut to,
        ) {
            Ok(places) => Ok((places, looks_in(&from), looks_in(&to))),
            Err(_) => Err(Refusal::OutOfMemory),
        }
    }
}
