//! The calls of one collection. Each variant of `Call` has a type of its own with the trait `CollectionCall`, which also says what type the call
//! returns.
//!
//! ```text
//! Command::On(2, Call::Take(Gap::Front)) // `pop_front` of collection 2
//! ```

ghost use Rattle.std.specs.Prelude.{◌≡◌, true};
ghost use Rattle.std.specs.List.{list_all};
ghost use Rattle.ic_link_ops.specs.Prelude.{is_placed as place_is_placed, IsCovered, ArePlaced};
ghost use Rattle.ic_any_collection.specs.AnyTables.{table_in};
ghost use Rattle.ic_any_collection.specs.AnyCollection.{members_in, Held};
ghost use Rattle.ic_world.specs.Turns.{Each, Ran};
ghost use Rattle.ic_world.specs.Calls.{Reply, names, refusal_of, Replies};

use crate::call::Refusal;
use crate::calls::bulk_edit::BulkEdit;
use crate::calls::insertion::Insertion;
use crate::calls::search::Search;
use crate::calls::seek::Seek;
use ic_any_collection::{AnyCollection, AnyTable, Gap};
use ic_rbtree::KeyAdapter;
use ic_unsafe_ref::{Objects, Place};
use std::alloc::Allocator;

/// A direction in which a cursor moves.
#[derive(Clone, Copy)]
pub enum Neighbor {
    /// The cursor moves to the next member.
    Next,
    /// The cursor moves to the previous member.
    Prev,
}

/// A call that changes at most one collection and the links of its field. A call that only reads a collection, such as `show`, is not in this list. A
/// call that changes more, such as `fast_clear` or `take`, is not in it either.
#[derive(Clone, Copy)]
pub enum Call<K> {
    /// `push_front`, `push_back`, `insert_before`, `insert_after`: inserts an object into a gap.
    Put(Gap, Place),
    /// `pop_front`, `pop_back`, `remove`, `remove_next`: removes a member. `remove` removes the member that the cursor is on.
    Take(Gap),
    /// `replace_with`, `replace_next_with`: replaces a member by an object.
    Swap(Gap, Place),
    /// `move_next`, `move_prev`: moves the cursor to a neighbor.
    Move(Neighbor),
    /// `go_null`, `seek`, `seek_with_prev`, `seek_with_next`: moves the cursor to null or to a named member.
    Seek(Seek),
    /// `clear`, `reverse`: removes all members, or reverses their order.
    BulkEdit(BulkEdit),
    /// `find`, `lower_bound`, `upper_bound`: searches for a key.
    Search(Search<K>),
    /// `insert`, `cursor_insert`: inserts an object where its key belongs.
    Insertion(Insertion),
    /// `entry`: finds a member with the key, or inserts the object where the key belongs.
    Enter(K, Place),
}

/// A type whose values are calls of one collection.
pub trait CollectionCall<A: KeyAdapter> {
    /// The type of what the call returns.
    type Answer;

    ghost use Rattle.ic_world.specs.declared.calls.collection_call.Call.{Call};

    // `call` is the call as a value of `Call`. `reply` is the `Reply` by which contracts describe what an accepted call returns.
    ghost call: { Self → Call A.Key };

    ghost reply: { Self.Answer → Reply };

    /// Returns whether there is an object at each place that the call names.
    fn is_placed<M: Allocator>(&self, objects: &Objects<A::Value, M>) -> bool
        ensures { result ≡ list_all (place_is_placed objects.now) (names (call self.now)) };

    /// Makes the call. It requires that the table `links` represents a sequence for the collection `members`, and covers each place that the call
    /// names. There has to be an object at the place of each member, and at each place that the call names. A refused call changes nothing. If the
    /// collection's kind lacks the call, the refusal is `WrongKind`, and otherwise one of the call's own refusals.
    fn run<M: Allocator>(
        &self,
        members: &mut AnyCollection<A::Value>,
        links: &mut AnyTable<M>,
        objects: &Objects<A::Value, M>,
        adapter: A,
    ) -> Result<Self::Answer, Refusal>
        requires held { Held (table_in links.old) members.old }
        requires covered { Each (IsCovered (table_in links.old)) (names (call self.now)) }
        requires placed { ArePlaced objects.now (members_in (table_in links.old) members.old) }
        requires named { list_all (place_is_placed objects.now) (names (call self.now)) ≡ true }
        ensures { Ran (names (call self.now)) (refusal_of (call self.now))
            (λ a s t. Replies A.Key.cmp (A.key_of adapter) objects.now (call self.now) s (reply a) t)
            links.old links.new members.old members.new result };
}
