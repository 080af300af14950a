//! What each kind of collection must implement so that cursors can work on it.
//!
//! ```text
//! let next = list.next_of(&links, &position);
//! if !list.insert_after_at(&mut links, &mut position, place) {
//!     // some list of this table has the place
//! }
//! ```

ghost use Rattle.std.specs.Prelude.{◌≡◌, true, List, Option, None};
ghost use Rattle.std.specs.declared.cmp.Ordering.{Ordering};
ghost use Rattle.ic_link_ops.specs.Prelude.{Place, Objects, is_placed, IsAfter, IsBefore, Table, IsCovered, site, MovesOn, MovesBack, RepresentsPlaced, InsertsBeside, RemovesThere, ReplacesThere, RemovesNext, ReplacesNext, SplicesBeside, SplitsAfter, SplitsBefore, WhereApart};
ghost use Rattle.ic_cursors.specs.Answers as answer;
ghost use Rattle.ic_cursors.specs.Edited.{Edited};
ghost use Rattle.ic_cursors.specs.Ordered.{InsertsAmong};

use crate::Position;
use ic_link_ops::LinkOps;
use ic_unsafe_ref::{Place, Values};

/// A collection of objects, and what a cursor stores about its position in the collection.
pub trait Collection {
    /// The type of the objects that are members of the collection.
    type Object;

    /// What a cursor stores about its position in a collection of this kind.
    type Position: Position;

    /// The head of a collection, for which a table represents a sequence.
    type Head;

    // The collection's head.
    ghost head_of: { Self → Self.Head };

    // What an edit leaves unchanged in the collection, apart from its head.
    ghost Keeps: { Self → Self → Type 0 };

    // The position at null, which is on no member of the collection.
    ghost null_of: { Self → Self.Position };

    /// The position at null, which is on no member of the collection.
    fn null_position(&self) -> Self::Position
        ensures position { result ≡ null_of self.now }
        ensures null { Self.Position.member result ≡ None };
}

/// A kind of collection over tables of the type `L`, in which a cursor can move to the next member and insert an object after its position.
pub trait CursorOps<L: LinkOps>: Collection {
    // The table represents the given sequence for the collection with the given head.
    ghost Represents: { Table L.Entry → Self.Head → List Place → Type 0 };

    // THE POSITION IS VALID in the collection over the table, and what the position stores besides its member is right.
    ghost IsValidAt: { L → Self → Self.Position → Type 0 };

    /// The position of a cursor after a move from the position `at` to the next member.
    fn next_of(&self, links: &L, at: &Self::Position) -> Self::Position
        requires stands { IsValidAt links.now self.now at.now }
        ensures moved { MovesOn Represents L.table (site links.now (Self.head_of self.now) (Self.Position.member at.now)) (Self.Position.member result) }
        ensures kept { IsValidAt links.now self.now result };

    /// Inserts the object after the position, and returns whether the object's link was acquired. The position does not change.
    fn insert_after_at(&mut self, links: &mut L, at: &mut Self::Position, object: Place) -> bool
        requires covered { IsCovered (L.table links.old) object }
        requires stands { IsValidAt links.old self.old at.old }
        ensures inserted { InsertsBeside Represents L.table L.Trace L.Refused IsAfter
            (site links.old (Self.head_of self.old) (Self.Position.member at.old)) object (answer.inserted {T = Self.Object} object result) (site links.new (Self.head_of self.new) (Self.Position.member at.new)) }
        ensures kept { Edited IsValidAt Self.Keeps self.old links.new self.new at.new };
}

/// A kind whose cursors move in both directions.
pub trait Bidirectional<L: LinkOps>: CursorOps<L> {
    /// The position of a cursor after a move from the position `at` to the previous member.
    fn prev_of(&self, links: &L, at: &Self::Position) -> Self::Position
        requires stands { Self.IsValidAt links.now self.now at.now }
        ensures moved { MovesBack Self.Represents L.table (site links.now (Self.head_of self.now) (Self.Position.member at.now)) (Self.Position.member result) }
        ensures kept { Self.IsValidAt links.now self.now result };

    /// Inserts the object before the position, and returns whether the object's link was acquired. The position does not change.
    fn insert_before_at(&mut self, links: &mut L, at: &mut Self::Position, object: Place) -> bool
        requires covered { IsCovered (L.table links.old) object }
        requires stands { Self.IsValidAt links.old self.old at.old }
        ensures inserted { InsertsBeside Self.Represents L.table L.Trace L.Refused IsBefore
            (site links.old (Self.head_of self.old) (Self.Position.member at.old)) object (answer.inserted {T = Self.Object} object result) (site links.new (Self.head_of self.new) (Self.Position.member at.new)) }
        ensures kept { Edited Self.IsValidAt Self.Keeps self.old links.new self.new at.new };

    /// Removes the member that the position is on. The position moves to the next member.
    fn remove_at(&mut self, links: &mut L, at: &mut Self::Position) -> Option<Place>
        requires stands { Self.IsValidAt links.old self.old at.old }
        ensures removed { RemovesThere Self.Represents L.table L.Trace
            (site links.old (Self.head_of self.old) (Self.Position.member at.old)) result (site links.new (Self.head_of self.new) (Self.Position.member at.new)) }
        ensures kept { Edited Self.IsValidAt Self.Keeps self.old links.new self.new at.new };

    /// Replaces the member that the position is on by the object, and returns whether the object's link was acquired. Afterwards the position is on
    /// the object. If the position is on no member, the call changes nothing, and its result has no meaning.
    fn replace_at(&mut self, links: &mut L, at: &mut Self::Position, object: Place) -> bool
        requires covered { IsCovered (L.table links.old) object }
        requires stands { Self.IsValidAt links.old self.old at.old }
        ensures replaced { ReplacesThere Self.Represents L.table L.Trace L.Refused
            (site links.old (Self.head_of self.old) (Self.Position.member at.old)) object (answer.replaced {T = Self.Object} (Self.Position.member at.old) object result) (site links.new (Self.head_of self.new) (Self.Position.member at.new)) }
        ensures kept { Edited Self.IsValidAt Self.Keeps self.old links.new self.new at.new };
}

/// A kind of collection that can be spliced and split after a position.
pub trait Splice<L: LinkOps>: CursorOps<L> {
    /// Inserts all members of the given collection after the position. The position does not change.
    fn splice_after_at(&mut self, links: &mut L, at: &mut Self::Position, given: Self)
        requires stands { Self.IsValidAt links.old self.old at.old }
        requires given { (s : List Place) × Self.Represents (L.table links.old) (Self.head_of given) s }
        ensures spliced { SplicesBeside Self.Represents L.table L.Trace IsAfter
            (site links.old (Self.head_of self.old) (Self.Position.member at.old)) (Self.head_of given) (site links.new (Self.head_of self.new) (Self.Position.member at.new)) }
        ensures kept { WhereApart Self.Represents L.table IsAfter (site links.old (Self.head_of self.old) (Self.Position.member at.old)) (Self.head_of given)
            (λ gap t. Self.IsValidAt links.new self.new at.new) }
        ensures rest { Self.Keeps self.old self.new };

    /// Removes the members after the position, and returns them as a collection. The position does not change.
    fn split_after_at(&mut self, links: &mut L, at: &mut Self::Position) -> Self
        requires stands { Self.IsValidAt links.old self.old at.old }
        ensures split { SplitsAfter Self.Represents L.table L.Trace
            (site links.old (Self.head_of self.old) (Self.Position.member at.old)) (Self.head_of result) (site links.new (Self.head_of self.new) (Self.Position.member at.new)) }
        ensures kept { Edited Self.IsValidAt Self.Keeps self.old links.new self.new at.new };
}

/// A kind of collection that can be spliced and split both after a position and before it.
pub trait BidirectionalSplice<L: LinkOps>: Splice<L> {
    /// Inserts all members of the given collection before the position. The position does not change.
    fn splice_before_at(&mut self, links: &mut L, at: &mut Self::Position, given: Self)
        requires stands { Self.IsValidAt links.old self.old at.old }
        requires given { (s : List Place) × Self.Represents (L.table links.old) (Self.head_of given) s }
        ensures spliced { SplicesBeside Self.Represents L.table L.Trace IsBefore
            (site links.old (Self.head_of self.old) (Self.Position.member at.old)) (Self.head_of given) (site links.new (Self.head_of self.new) (Self.Position.member at.new)) }
        ensures kept { WhereApart Self.Represents L.table IsBefore (site links.old (Self.head_of self.old) (Self.Position.member at.old)) (Self.head_of given)
            (λ gap t. Self.IsValidAt links.new self.new at.new) }
        ensures rest { Self.Keeps self.old self.new };

    /// Removes the members before the position, and returns them as a collection. The position does not change.
    fn split_before_at(&mut self, links: &mut L, at: &mut Self::Position) -> Self
        requires stands { Self.IsValidAt links.old self.old at.old }
        ensures split { SplitsBefore Self.Represents L.table L.Trace
            (site links.old (Self.head_of self.old) (Self.Position.member at.old)) (Self.head_of result) (site links.new (Self.head_of self.new) (Self.Position.member at.new)) }
        ensures kept { Edited Self.IsValidAt Self.Keeps self.old links.new self.new at.new };
}

/// A kind of collection in which the member after a position can be removed and replaced.
pub trait ForwardOnly<L: LinkOps>: CursorOps<L> {
    /// Removes the member after the position, or the first member if the position is on no member, and returns it. The position does not change.
    fn remove_next_at(&mut self, links: &mut L, at: &mut Self::Position) -> Option<Place>
        requires stands { Self.IsValidAt links.old self.old at.old }
        ensures removed { RemovesNext Self.Represents L.table L.Trace
            (site links.old (Self.head_of self.old) (Self.Position.member at.old)) result (site links.new (Self.head_of self.new) (Self.Position.member at.new)) }
        ensures kept { Edited Self.IsValidAt Self.Keeps self.old links.new self.new at.new };

    /// Replaces the member after the position, or the first member if the position is on no member, by the object. Returns the replaced member, or
    /// `None` if there is none, and whether the object's link was acquired. The position does not change.
    fn replace_next_at(
        &mut self,
        links: &mut L,
        at: &mut Self::Position,
        object: Place,
    ) -> (Option<Place>, bool)
        requires covered { IsCovered (L.table links.old) object }
        requires stands { Self.IsValidAt links.old self.old at.old }
        ensures replaced { ReplacesNext Self.Represents L.table L.Trace L.Refused (site links.old (Self.head_of self.old) (Self.Position.member at.old))
            object (answer.replaced {T = Self.Object} result.0 object result.1) (site links.new (Self.head_of self.new) (Self.Position.member at.new)) }
        ensures kept { Edited Self.IsValidAt Self.Keeps self.old links.new self.new at.new };
}

/// A kind whose collections keep their members in the order of the keys.
pub trait Ordered<L: LinkOps>: CursorOps<L> {
    // How the key of the object at the first place compares with the key of the member at the second place. The result is `Less` if the object's key is less.
    ghost order_of: { Self → Objects Self.Object → Place → Place → Ordering };

    /// Inserts the object in the order of the keys, after the members whose keys are not greater, and returns whether the object's link was acquired.
    /// The position does not change.
    fn insert_in_order<O: Values<Self::Object>>(
        &mut self,
        links: &mut L,
        objects: &O,
        at: &mut Self::Position,
        object: Place,
    ) -> bool
        requires covered { IsCovered (L.table links.old) object }
        requires placed { RepresentsPlaced (Self.Represents (L.table links.old) (Self.head_of self.old)) (O.values objects.now) }
        requires object { is_placed (O.values objects.now) object ≡ true }
        requires stands { Self.IsValidAt links.old self.old at.old }
        ensures inserted { InsertsAmong Self.Represents L.table L.Trace L.Refused (order_of self.old (O.values objects.now) object)
            (site links.old (Self.head_of self.old) (Self.Position.member at.old)) object (answer.inserted {T = Self.Object} object result) (site links.new (Self.head_of self.new) (Self.Position.member at.new)) }
        ensures kept { Edited Self.IsValidAt Self.Keeps self.old links.new self.new at.new };
}
