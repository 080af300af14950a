//! The calls of a world, and what they return.
//!
//! ```text
//! Command::On(0, Call::Put(Gap::Back, place)) // `push_back`: Answer::Done, or Answer::Refused(Refusal::AlreadyLinked)
//! ```

ghost use Rattle.std.specs.Prelude.{◌≡◌, ⊤};
ghost use Rattle.ic_world.specs.Refusals.{number_of};

use crate::calls::collection_call::Call;
use ic_any_collection::Kind;
use ic_rbtree::Bound;
use ic_unsafe_ref::Place;
use std::alloc::{AllocError, Allocator, Global};
use std::fmt;
use thiserror::Error;

/// Why a call was refused. A refused call changes nothing.
///
/// If several refusals apply, the call returns the refusal with the lowest number.
#[derive(Clone, Copy, PartialEq, Eq, Error)]
pub enum Refusal {
    /// There is no field with that number.
    #[error("NoSuchField")]
    NoSuchField = 1,
    /// There is no collection with that number.
    #[error("NoSuchCollection")]
    NoSuchCollection = 2,
    /// There is no object at the named place.
    #[error("NoSuchObject")]
    NoSuchObject = 3,
    /// The collection's kind lacks the call, the field cannot have collections of the kind, or two collections are of different kinds.
    #[error("WrongKind")]
    WrongKind = 4,
    /// A collection can't be spliced into itself.
    #[error("SameCollection")]
    SameCollection = 5,
    /// The two collections are of different fields.
    #[error("OtherField")]
    OtherField = 6,
    /// There is no member to replace.
    #[error("NothingThere")]
    NothingThere = 7,
    /// The object is not a member of the collection.
    #[error("NotAMember")]
    NotAMember = 8,
    /// The named neighbor is not the neighbor of the object.
    #[error("NotANeighbour")]
    NotANeighbour = 9,
    /// The object is already linked in the field of the collection.
    #[error("AlreadyLinked")]
    AlreadyLinked = 10,
    /// The object is a member of a collection of the field, so it can't be unlinked by force.
    #[error("IsMember")]
    IsMember = 11,
    /// The object is still linked in some field, so it can't be removed.
    #[error("StillLinked")]
    StillLinked = 12,
    /// All places are in use.
    #[error("TooManyObjects")]
    TooManyObjects = 13,
    /// There was not enough memory.
    #[error("OutOfMemory")]
    OutOfMemory = 14,
}

impl Refusal {
    /// Returns the number of the refusal, 1 to 14.
    #[inline]
    pub fn number(&self) -> u8
        ensures { result ≡ number_of self.now }
    {
        *self as u8
    }
}

impl fmt::Debug for Refusal {
    fn fmt<W: fmt::Write>(&self, f: &mut fmt::Formatter<W>) -> fmt::Result {
        write!(f, "{self}")
    }
}

/// A call of a world, with its arguments. Fields and collections are named by their numbers, and objects by their places.
#[derive(Copy)]
pub enum Command<V, K> {
    /// A call of one collection.
    On(usize, Call<K>),
    /// `place`: stores a value as a new object
    Place(V),
    /// `remove_object`: removes an object that is linked in no field
    RemoveObject(Place),
    /// `set_value`: replaces the value of an object
    SetValue(Place, V),
    /// `add_field`: makes a field with a table of that kind
    AddField(Kind),
    /// `open`: makes an empty collection of that kind in a field
    Open(usize, Kind),
    /// `dispose`: unlinks all members of a collection and disposes of it
    Dispose(usize),
    /// `fast_clear`: removes all members of a collection, but leaves them linked
    FastClear(usize),
    /// `take`: moves all members of a collection into a new collection
    Take(usize),
    /// `show`: returns the members of a collection, from the front
    Show(usize),
    /// `show_back`: returns the members of a collection, from the back
    ShowBack(usize),
    /// `current`: returns the member that the cursor of a collection is on
    Current(usize),
    /// `splice_after`: moves all members of the second collection after the cursor of the first collection
    SpliceAfter(usize, usize),
    /// `splice_before`: moves all members of the second collection before the cursor of the first collection
    SpliceBefore(usize, usize),
    /// `split_after`: moves the members after the cursor into a new list
    SplitAfter(usize),
    /// `split_before`: moves the members before the cursor into a new list
    SplitBefore(usize),
    /// `range`: returns the members of a tree between two bounds
    Range(usize, Bound<K>, Bound<K>),
    /// `is_linked`: returns whether an object is linked in a field
    IsLinked(usize, Place),
    /// `force_unlink`: unlinks an object in a field, if it is a member of no collection of this field
    ForceUnlink(usize, Place),
}

impl<V: Copy, K: Copy> Clone for Command<V, K> {
    ghost is_clone = { λ command copy. copy ≡ command };

    ghost is_infallible = { λ _. ⊤ };

    /// Returns a copy of the command. This method never fails.
    fn clone(&self) -> Result<Self, AllocError> {
        Ok(*self)
    }
}

/// What a call returns.
#[derive(Drop)]
pub enum Answer<M: Allocator = Global> {
    /// The call is done and returns nothing else.
    Done,
    /// The call has no object to return.
    Nothing,
    /// The place of an object.
    Object(Place),
    /// The number of the field that the call has made.
    Field(usize),
    /// The number of the collection that the call has made.
    Collection(usize),
    /// The members of a collection, in order.
    Items(Vec<Place, M>),
    /// Whether the named object is linked in the field.
    Linked(bool),
    /// The member that a search found, and how many keys the search compared.
    Found(Option<Place>, u64),
    /// The call is done, and it compared this many keys.
    Looked(u64),
    /// The members between two bounds, in order, and how many keys each of the two searches compared.
    Range(Vec<Place, M>, u64, u64),
    /// Whether a member had the key, that member or the inserted object, and how many keys were compared.
    Entry(bool, Place, u64),
    /// The call was refused, and nothing has changed.
    Refused(Refusal),
}
