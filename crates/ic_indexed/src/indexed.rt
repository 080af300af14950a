//! A container finds its objects by their keys, and has them in an order. It is a pool, its two tables, the index and the list, as one value.
//!
//! ```text
//! indexed.place_front(job)?;
//! let (place, looks) = indexed.find(7);
//! indexed.move_to_front(place?); // before all others
//! ```

ghost use Rattle.std.specs.Prelude.{◌≡◌, ◌≤◌, ◌↔◌, ◌^◌, ◌∷◌, ◌++◌, [], true, None, Some, Err, List, length, OnOk, IfOk, IfErr, IfSome, IsTrue, MatchOption};
ghost use Rattle.ic_link_ops.specs.Prelude.{Place, Frees, Places, is_placed, object_at, with_object, object_there};
ghost use Rattle.ic_pool.specs.Refusals.{value_of};
ghost use Rattle.ic_container.specs.Orders.{IsWhole};
ghost use Rattle.ic_container.specs.Trees.{IsFound};
ghost use Rattle.ic_container.specs.Values.{first_value, last_value, Without};
ghost use Rattle.ic_indexed.specs.Indexed.{IsEmptyIndexed, order_in, values_of};

use crate::place::place;
use crate::replace_keyed::replace_keyed;
use crate::{ByKey, HasKey, Index, NarrowByKey};
use ic_container::{Iter, lists};
use ic_link_ops::{CoverError, NodeWords, PlainTable, PrevPlace};
use ic_linked_list::LinkedList;
use ic_pool::{PlaceError, Pool, Tables};
use ic_rbtree::RBTree;
use ic_unsafe_ref::{Place, UnsafeRef};
use std::alloc::{Allocator, Global};
use std::marker::Model;

/// A container whose objects are all in an index by their keys, and in a list. Several objects can have the same key.
///
/// A contract speaks of the objects by their places, of the places along the list, and of the number of parts into which the index divides the objects
/// (`IndexedOrder`). `values_of` is the list of the objects themselves.
#[derive(Drop)]
pub struct Indexed<T: HasKey, I: Index<T, A>, A: Allocator = Global> {
    pool: Pool<T, (I::Links, PlainTable<I::Order, A>), A>,
    index: I,
    in_order: LinkedList<T>,
}

/// A container whose objects are in a tree by their keys, and in a list.
pub type TreeIndexed<T, A = Global> = Indexed<T, RBTree<ByKey<T>>, A>;

/// A container like `TreeIndexed`, over links of 4-byte words. The links take half the memory, and there can be at most 536,870,911 objects.
pub type NarrowTreeIndexed<T, A = Global> = Indexed<T, RBTree<NarrowByKey<T>>, A>;

impl<T: HasKey, I: Index<T, A>, A: Allocator> Model for Indexed<T, I, A> {
    ghost use Rattle.ic_link_ops.specs.PlainTables.{linked_by, table};
    ghost use Rattle.ic_link_ops.specs.Readings.{neighbors_of};
    ghost use Rattle.ic_indexed.specs.Indexed.{IndexedOrder, IsIndexed, indexed_code, indexed_of};

    ghost Value = { IndexedOrder T };

    ghost coded = { indexed_code T.code };

    ghost view = { λ i. indexed_of (neighbors_of I.Order.next_word I.Order.is_linked I.Order.prev) (table I.Order.width I.Order.unlinked) i.pool.objects i.pool.links.1 i.in_order (I.parts i.index) };

    ghost invariant = { λ i. IsIndexed (neighbors_of I.Order.next_word I.Order.is_linked I.Order.prev) (linked_by I.Order.is_linked) (table I.Order.width I.Order.unlinked) (I.Has i.index i.pool.links.0) i.pool.objects i.pool.links.1 i.in_order };
}

impl<T: HasKey, A: Allocator> Indexed<T, RBTree<ByKey<T>>, A> {
    /// Makes a container without objects, with a tree as the index. The call takes no memory. O(1).
    pub fn new(alloc: A) -> TreeIndexed<T, A>
    where
        A: Copy,
        ensures { IsEmptyIndexed 1 result }
    {
        Indexed::by_tree(alloc)
    }
}

impl<T: HasKey, W: NodeWords, O: PrevPlace, A: Allocator> Indexed<T, RBTree<ByKey<T, W, O>>, A> {
    /// Makes a container without objects, with a tree over links of either width as the index: `NarrowTreeIndexed::by_tree(rt.alloc())`. The call takes no
    /// memory. O(1).
    pub fn by_tree(alloc: A) -> Indexed<T, RBTree<ByKey<T, W, O>>, A>
    where
        A: Copy,
        ensures { IsEmptyIndexed 1 result }
    {
        let links = (PlainTable::new(alloc), PlainTable::new(alloc));
        Indexed {
            pool: Pool::new(alloc, links),
            index: RBTree::new(ByKey::with_words()),
            in_order: LinkedList::new(),
        }
    }
}

impl<T: HasKey, I: Index<T, A>, A: Allocator> Indexed<T, I, A> {
    /// Makes a container without objects, with the given index, for example: `Indexed::with_index(rt.alloc(), HashIndex::new(buckets))`. The call takes no
    /// memory.
    ///
    /// The call requires that the index is new. O(1).
    pub fn with_index(alloc: A, index: I) -> Indexed<T, I, A>
    where
        A: Copy,
        requires new { I.IsNew index }
        ensures { IsEmptyIndexed (I.parts index) result }
    {
        let links = (index.new_links(alloc), PlainTable::new(alloc));
        Indexed {
            pool: Pool::new(alloc, links),
            index,
            in_order: LinkedList::new(),
        }
    }

    /// Returns how many objects there are. O(1).
    #[inline]
    pub fn len(&self) -> usize
        ensures { result ≡ length (values_of self.now) }
    {
        self.pool.len()
    }

    /// Returns whether there is no object. O(1).
    #[inline]
    pub fn is_empty(&self) -> bool
        ensures { IsTrue result ↔ (values_of self.now ≡ []) }
    {
        self.len() == 0
    }

    /// Makes room for the links of `additional` more objects, so that adding them takes memory only for the objects themselves. No object and no order
    /// changes, even if the call is refused. For each table it makes at most one request for memory. O(n) in the places that are new.
    pub fn reserve(&mut self, additional: usize) -> Result<(), CoverError>
        ensures { self.new ≡ self.old }
    {
        let count = self.pool.len().saturating_add(additional);
        self.pool.links.cover(count)
    }

    /// Returns a walk over the objects in their order, from both ends. O(1), and it takes no memory.
    pub fn iter(&self) -> Iter<'_, T, A, I::Order>
        ensures { result ≡ values_of self.now }
    {
        Iter::new(self.in_order.iter(&self.pool.links.1, &self.pool.objects))
    }

    /// Returns the place of an object with this key, if there is one. The call costs as much as `find`. O(log n) by a tree, and O(length of a chain) by a
    /// hash table.
    pub fn place_of(&self, key: u64) -> Option<Place>
        ensures found { IsFound T.key_of self.now.values key result }
        ensures whole { IsWhole (order_in self.now) }
    {
        self.find(key).0
    }

    /// Returns the place of an object with this key, if there is one, and how many objects the search compared.
    ///
    /// With a tree the search costs O(log n), and compares at most 2 log2(n + 1) of n objects. With a hash table it costs O(1) on average, and compares at
    /// most the objects in the chain of the key.
    pub fn find(&self, key: u64) -> (Option<Place>, u64)
        ensures found { IsFound T.key_of self.now.values key result.0 }
        ensures looks { I.IsFew self.now.parts key (values_of self.now) result.1 }
        ensures whole { IsWhole (order_in self.now) }
    {
        self.index
            .find_key(&self.pool.links.0, &self.pool.objects, key)
    }

    /// Returns the object at a place. The call requires that there is an object at the place. O(1).
    #[inline]
    pub fn at(&self, place: Place) -> &T
        requires placed { is_placed self.now.values place ≡ true }
        ensures { Some result.now ≡ object_at self.now.values place }
    {
        self.pool.objects.get(place).unwrap() // proved: one stands there
    }

    /// Returns the place of the first object, or `None` if there is no object. O(1).
    pub fn first(&self) -> Option<Place>
        ensures first { object_there self.now.values result ≡ first_value (values_of self.now) }
        ensures placed { IfSome result (λ place. is_placed self.now.values place ≡ true) }
    {
        self.in_order.first()
    }

    /// Returns the place of the last object, or `None` if there is no object. O(1).
    pub fn last(&self) -> Option<Place>
        ensures last { object_there self.now.values result ≡ last_value (values_of self.now) }
        ensures placed { IfSome result (λ place. is_placed self.now.values place ≡ true) }
    {
        self.in_order.last()
    }

    /// Moves the object at a place to the front. The other objects keep their order. The call requires that there is an object at the place. O(1), and it
    /// takes no memory.
    pub fn move_to_front(&mut self, place: Place)
        requires placed { is_placed self.old.values place ≡ true }
        ensures values { self.new.values ≡ self.old.values }
        ensures parts { self.new.parts ≡ self.old.parts }
        ensures moved { (value : T) → object_at self.old.values place ≡ Some value
            → (rest : List T) × Without value (values_of self.old) rest × (values_of self.new ≡ value ∷ rest) }
    {
        lists::move_to_front(&mut self.in_order, &mut self.pool.links.1, place);
    }

    /// Moves the object at a place to the back. In all other respects the call does what `move_to_front` does. O(1).
    pub fn move_to_back(&mut self, place: Place)
        requires placed { is_placed self.old.values place ≡ true }
        ensures values { self.new.values ≡ self.old.values }
        ensures parts { self.new.parts ≡ self.old.parts }
        ensures moved { (value : T) → object_at self.old.values place ≡ Some value
            → (rest : List T) × Without value (values_of self.old) rest × (values_of self.new ≡ rest ++ value ∷ []) }
    {
        lists::move_to_back(&mut self.in_order, &mut self.pool.links.1, place);
    }

    /// Removes the object at a place and returns it. The call requires that there is an object at the place. The other objects keep their order.
    ///
    /// The call costs about as much as a search of the index, which is O(log n) with a tree. The call takes no memory.
    pub fn remove(&mut self, place: Place) -> T
        requires placed { is_placed self.old.values place ≡ true }
        ensures value { object_at self.old.values place ≡ Some result }
        ensures freed { Frees self.old.values self.new.values place }
        ensures removed { Without result (values_of self.old) (values_of self.new) }
        ensures order { Without place self.old.order self.new.order }
        ensures parts { self.new.parts ≡ self.old.parts }
    {
        let object = UnsafeRef::new(place);
        self.index
            .remove_place(&mut self.pool.links.0, &self.pool.objects, place);
        lists::remove(&mut self.in_order, &mut self.pool.links.1, place);
        self.pool.remove(object)
    }

    /// Removes the first object and returns it, or returns `None` if there is no object. The other objects keep their order.
    ///
    /// The call costs about as much as a search of the index, which is O(log n) with a tree. The call takes no memory.
    pub fn pop_first(&mut self) -> Option<T>
        ensures popped { MatchOption result ((values_of self.old ≡ []) × (self.new ≡ self.old)) (λ first. values_of self.old ≡ first ∷ values_of self.new) }
        ensures parts { self.new.parts ≡ self.old.parts }
    {
        let place = self.in_order.first()?;
        Some(self.remove(place))
    }

    /// Removes the last object and returns it, or returns `None` if there is no object. In all other respects the call does what `pop_first` does. O(log
    /// n) by a tree, and O(length of a chain) by a hash table.
    pub fn pop_last(&mut self) -> Option<T>
        ensures popped { MatchOption result ((values_of self.old ≡ []) × (self.new ≡ self.old)) (λ last. values_of self.old ≡ values_of self.new ++ last ∷ []) }
        ensures parts { self.new.parts ≡ self.old.parts }
    {
        let place = self.in_order.last()?;
        Some(self.remove(place))
    }

    /// Replaces the object at a place by a value, moves it to the front, and returns the old object. The call requires that there is an object at the place.
    ///
    /// The call costs about as much as two searches of the index, which is O(log n) with a tree. The call takes no memory.
    pub fn replace_and_touch(&mut self, place: Place, value: T) -> T
        requires placed { is_placed self.old.values place ≡ true }
        ensures value { object_at self.old.values place ≡ Some result }
        ensures values { self.new.values ≡ with_object self.old.values place value }
        ensures parts { self.new.parts ≡ self.old.parts }
        ensures renewed { (rest : List T) × Without result (values_of self.old) rest × (values_of self.new ≡ value ∷ rest) }
    {
        let (objects, links) = (&mut self.pool.objects, &mut self.pool.links.0);
        let gone = replace_keyed(&mut self.index, links, objects, place, value);
        lists::move_to_front(&mut self.in_order, &mut self.pool.links.1, place);
        gone
    }

    /// Adds an object at the front.
    ///
    /// If the call is refused, the caller gets the value back, and nothing has changed. The error is `NoPlaceLeft` exactly if all 4,294,967,296 places are in
    /// use. Every other error is `OutOfMemory`. `OutOfMemory` is also the error if the links have 4-byte words, and all 536,870,911 places that such words
    /// can name are in use.
    ///
    /// The call costs about as much as a search of the index, which is O(log n) with a tree. The call makes at most three requests for memory.
    pub fn place_front(&mut self, value: T) -> Result<UnsafeRef<T>, PlaceError<T>>
        ensures placed { IfOk result (λ object. Places self.old.values self.new.values object value) }
        ensures added { OnOk result (values_of self.new ≡ value ∷ values_of self.old) }
        ensures parts { self.new.parts ≡ self.old.parts }
        ensures refused { IfErr result (λ refused. (value_of refused ≡ value) × (self.new ≡ self.old)) }
        ensures full { (result ≡ Err (PlaceError.NoPlaceLeft value)) ↔ 2 ^ 32 ≤ self.old.values.next }
    {
        let object = match place(&mut self.pool, &mut self.index, value) {
            Ok(object) => object,
            Err(refused) => return Err(refused),
        };
        lists::push_front(&mut self.in_order, &mut self.pool.links.1, object.place());
        Ok(object)
    }

    /// Adds an object at the back. In all other respects the call does what `place_front` does. O(log n) by a tree, and O(length of a chain) by a hash
    /// table.
    pub fn place_back(&mut self, value: T) -> Result<UnsafeRef<T>, PlaceError<T>>
        ensures placed { IfOk result (λ object. Places self.old.values self.new.values object value) }
        ensures added { OnOk result (values_of self.new ≡ values_of self.old ++ value ∷ []) }
        ensures parts { self.new.parts ≡ self.old.parts }
        ensures refused { IfErr result (λ refused. (value_of refused ≡ value) × (self.new ≡ self.old)) }
        ensures full { (result ≡ Err (PlaceError.NoPlaceLeft value)) ↔ 2 ^ 32 ≤ self.old.values.next }
    {
        let object = match place(&mut self.pool, &mut self.index, value) {
            Ok(object) => object,
            Err(refused) => return Err(refused),
        };
        lists::push_back(&mut self.in_order, &mut self.pool.links.1, object.place());
        Ok(object)
    }
}
