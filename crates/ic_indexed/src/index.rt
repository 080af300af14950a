//! An index finds objects by their keys. A tree is an index, for example.
//!
//! ```text
//! index.insert_place(&mut links, &objects, place); // where its key belongs
//! let (found, looks) = index.find_key(&links, &objects, 7);
//! index.remove_place(&mut links, &objects, place);
//! ```

ghost use Rattle.std.specs.Prelude.{◌≡◌, ℕ, true, List, Option, None, Some};
ghost use Rattle.ic_link_ops.specs.Prelude.{Place, Objects as Placed, Frees, is_placed, object_at, values_at};
ghost use Rattle.ic_unsafe_ref.proofs.Placing.{Puts};
ghost use Rattle.ic_container.specs.Trees.{IsFound, LacksOne};
ghost use Rattle.ic_indexed.specs.Indexed.{IsOrderOf};

use crate::HasKey;
use ic_link_ops::PrevPlace;
use ic_pool::Tables;
use ic_unsafe_ref::{Objects, Place};
use std::alloc::Allocator;

/// An index finds objects by their keys, with links in a table of its own.
pub trait Index<T: HasKey, A: Allocator>: Drop {
    /// The type of the table of the index's links.
    type Links: Tables + Drop;

    /// The type of the words of the list's links. They are as wide as the words of the index's links.
    type Order: PrevPlace;

    // THE INDEX HAS EACH OBJECT, and no other place is linked in its table.
    ghost Has: { Self → Self.Links → Placed T → Type 0 };

    // THE INDEX IS NEW: it has no object, and none of its links is written.
    ghost IsNew: { Self → Type 0 };

    // The number of parts into which the index divides the objects. A search compares only objects of one part, and no call changes the number of parts.
    ghost parts: { Self → ℕ };

    // `IsFew parts key values looks` bounds the looks (key comparisons) of a search for the key, in an index of the values with this number of parts.
    ghost IsFew: { ℕ → ℕ → List T → ℕ → Type 0 };

    /// Returns the table for the links of a new index. The table has no room for links yet, and the call allocates nothing. The call requires that the index
    /// is new.
    fn new_links(&self, alloc: A) -> Self::Links
        requires new { IsNew self.now }
        ensures none { (objects : Placed T) → ((place : Place) → object_at objects place ≡ None) → Has self.now result objects };

    /// Returns the place of an object with this key, if there is one, and how many objects the search compared. The call requires that the index has all
    /// objects.
    fn find_key(
        &self,
        links: &Self::Links,
        objects: &Objects<T, A>,
        key: u64,
    ) -> (Option<Place>, u64)
        requires all { Has self.now links.now objects.now }
        ensures found { IsFound T.key_of objects.now key result.0 }
        ensures looks { (order : List Place) → IsOrderOf objects.now order
            → IsFew (parts self.now) key (values_at objects.now order) result.1 };

    /// Inserts a new object where its key belongs. The call requires that the index has every other object, and that the index's table covers the place. The
    /// call takes no memory.
    fn insert_place(&mut self, links: &mut Self::Links, objects: &Objects<T, A>, place: Place)
        requires covered { Self.Links.Covers links.old place }
        requires lacks { LacksOne (Has self.old links.old) objects.now place }
        ensures has { Has self.new links.new objects.now }
        ensures parts { parts self.new ≡ parts self.old };

    /// Removes an object from the index. Afterwards the caller removes the object from its place. The call requires that the index has all objects, and that
    /// there is an object at the place.
    fn remove_place(&mut self, links: &mut Self::Links, objects: &Objects<T, A>, place: Place)
        requires all { Has self.old links.old objects.now }
        requires placed { is_placed objects.now place ≡ true }
        ensures removed { (less : Placed T) → Frees objects.now less place → Has self.new links.new less }
        ensures free { Self.Links.IsFree links.new place }
        ensures covered { Self.Links.Covers links.new place }
        ensures parts { parts self.new ≡ parts self.old };

    // The laws: the index has the same objects after its table has grown. It also has the same objects after another value with an equal key has replaced
    // the value of an object.
    ghost has_grown: { (index : Self) (old new : Self.Links) (objects : Placed T) → Self.Links.Keeps old new → Has index old objects → Has index new objects };

    ghost has_alike: { (index : Self) (links : Self.Links) (old new : Placed T) (place : Place) (out value : T) → object_at old place ≡ Some out
        → Puts old new place value → T.key_of value ≡ T.key_of out → Has index links old → Has index links new };
}
