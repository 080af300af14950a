//! Calls that move the cursor of one collection: to a neighbor, to null, or to a named member.
//!
//! ```text
//! Move(Neighbor::Next).run(&mut members, &mut links, &objects, adapter)?; // from null to the first member
//! Seek::On(place).run(&mut members, &mut links, &objects, adapter)?;       // the cursor is on it, if it is a member
//! ```

ghost use Rattle.std.specs.Prelude.{◌≡◌, true, Some};
ghost use Rattle.std.specs.List.{list_all};
ghost use Rattle.ic_link_ops.specs.Prelude.{is_placed as place_is_placed, IsAfter, IsBefore, IsCovered};
ghost use Rattle.ic_any_collection.specs.AnyTables.{table_in};
ghost use Rattle.ic_any_collection.specs.Edits.{AtGap};
ghost use Rattle.ic_any_collection.specs.AnyCollection.{kind_in, members_in, Held};
ghost use Rattle.ic_any_collection.specs.AnyCollection as kinds;
ghost use Rattle.ic_world.specs.Calls.{named_if, beside_of};
ghost use Rattle.ic_world.specs.Seeks.{Sought};

use crate::call::Refusal;
use crate::calls::collection_call::{CollectionCall, Neighbor};
use crate::calls::kinds::{has_before, has_pointer, is_xor, same_position};
use ic_any_collection::{AnyCollection, AnyTable};
use ic_rbtree::KeyAdapter;
use ic_unsafe_ref::{Objects, Place};
use std::alloc::Allocator;

/// Moves the cursor to a neighbor, or from null to the first or the last member.
#[derive(Clone, Copy)]
pub struct Move(pub Neighbor);

/// The position to which a seek moves the cursor.
#[derive(Clone, Copy)]
pub enum Seek {
    /// The cursor goes to null.
    Null,
    /// The cursor goes to a member, which is named by its place.
    On(Place),
    /// The cursor goes to the member of an XOR list at the `Place`. The `Option<Place>` names the member's neighbor in the direction `Neighbor`, or
    /// is `None` if the member has no such neighbor.
    With(Neighbor, Place, Option<Place>),
}

impl<A: KeyAdapter> CollectionCall<A> for Move {
    ghost use Rattle.ic_world.specs.declared.calls.collection_call.Call.TheVariants as one;
    ghost use Rattle.ic_world.specs.Calls.{object_or_nothing};

    type Answer = Option<Place>;

    ghost call = { λ c. one.Move c.0 };

    ghost reply = { object_or_nothing };

    #[inline]
    fn is_placed<M: Allocator>(&self, objects: &Objects<A::Value, M>) -> bool {
        let _ = objects;
        true
    }

    #[inline(always)]
    fn run<M: Allocator>(
        &self,
        members: &mut AnyCollection<A::Value>,
        links: &mut AnyTable<M>,
        objects: &Objects<A::Value, M>,
        adapter: A,
    ) -> Result<Option<Place>, Refusal> {
        let _ = objects;
        let _ = adapter;
        match self.0 {
            Neighbor::Next => Ok(members.move_next(links)),
            Neighbor::Prev => {
                if !has_before(members.kind()) {
                    return Err(Refusal::WrongKind);
                }
                Ok(members.move_prev(links))
            }
        }
    }
}

// Returns whether there is an object at the place, if a place is given.
#[inline]
fn is_placed_if_any<T, M: Allocator>(objects: &Objects<T, M>, place: Option<Place>) -> bool
    ensures { result ≡ list_all (place_is_placed objects.now) (named_if place) }
{
    match place {
        None => true,
        Some(place) => objects.is_placed(place),
    }
}

impl<A: KeyAdapter> CollectionCall<A> for Seek {
    ghost use Rattle.ic_world.specs.declared.calls.collection_call.Call.TheVariants.{Seek as seek};
    ghost use Rattle.ic_world.specs.Calls.{done};

    type Answer = ();

    ghost call = { seek };

    ghost reply = { λ _. done };

    #[inline]
    fn is_placed<M: Allocator>(&self, objects: &Objects<A::Value, M>) -> bool {
        match *self {
            Seek::Null => true,
            Seek::On(object) => objects.is_placed(object),
            Seek::With(_, object, beside) => objects.is_placed(object)
                && is_placed_if_any(objects, beside),
        }
    }

    #[inline(always)]
    fn run<M: Allocator>(
        &self,
        members: &mut AnyCollection<A::Value>,
        links: &mut AnyTable<M>,
        objects: &Objects<A::Value, M>,
        adapter: A,
    ) -> Result<(), Refusal> {
        let _ = objects;
        let _ = adapter;
        match *self {
            Seek::Null => {
                members.go_null();
                Ok(())
            }
            Seek::On(object) => {
                if !has_pointer(members.kind()) {
                    return Err(Refusal::WrongKind);
                }
                seek_on(members, links, object)
            }
            Seek::With(way, object, beside) => {
                if !is_xor(members.kind()) {
                    return Err(Refusal::WrongKind);
                }
                seek_with(members, links, way, object, beside)
            }
        }
    }
}

// Puts the cursor on the member `object`, or returns the refusal `NotAMember`. It writes no table.
fn seek_on<T, M: Allocator>(
    members: &mut AnyCollection<T>,
    links: &AnyTable<M>,
    object: Place,
) -> Result<(), Refusal>
    requires held { Held (table_in links.now) members.old }
    requires can { kinds.has_pointer (kind_in members.old) ≡ true }
    requires covered { IsCovered (table_in links.now) object }
    ensures { Sought (Seek.On object) object (table_in links.now) members.old result members.new }
{
    // An unlinked object is not a member, so that no walk is needed.
    if !links.is_linked(object) {
        return Err(Refusal::NotAMember);
    }
    if !members.contains(links, object) {
        return Err(Refusal::NotAMember);
    }
    members.stand_on(links, None, object);
    Ok(())
}

// Returns the neighbor of the member `object` in the direction `way`, or `None` if there is none. `prev` is the member before `object`, if any.
#[inline]
fn neighbor<T, M: Allocator>(
    members: &AnyCollection<T>,
    links: &AnyTable<M>,
    way: Neighbor,
    prev: Option<Place>,
    object: Place,
) -> Option<Place>
    requires held { Held (table_in links.now) members.now }
    requires member { AtGap (members_in (table_in links.now) members.now) (λ gap. IsAfter gap prev × IsBefore gap (Some object)) }
    ensures { result ≡ beside_of way (members_in (table_in links.now) members.now) object }
{
    match way {
        Neighbor::Prev => prev,
        Neighbor::Next => members.after(links, prev, object),
    }
}

// Puts the cursor of an XOR list on the member `object`, if `beside` is its neighbor in the direction `way`. Otherwise it returns a refusal.
fn seek_with<T, M: Allocator>(
    members: &mut AnyCollection<T>,
    links: &AnyTable<M>,
    way: Neighbor,
    object: Place,
    beside: Option<Place>,
) -> Result<(), Refusal>
    requires held { Held (table_in links.now) members.old }
    requires covered { IsCovered (table_in links.now) object }
    ensures { Sought (Seek.With way object beside) object (table_in links.now) members.old result members.new }
{
    // An unlinked object is not a member, so that no walk is needed.
    if !links.is_linked(object) {
        return Err(Refusal::NotAMember);
    }
    let Some(prev) = members.find_prev(links, object) else {
        return Err(Refusal::NotAMember);
    };
    if !same_position(beside, neighbor(members, links, way, prev, object)) {
        return Err(Refusal::NotANeighbour);
    }
    members.stand_on(links, prev, object);
    Ok(())
}
