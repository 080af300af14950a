//! Calls that edit at a gap: they insert an object into the gap, or remove or replace the member after the gap.
//!
//! ```text
//! Put(Gap::Back, place).run(&mut members, &mut links, &objects, adapter)?; // after all members
//! Take(Gap::Front).run(&mut members, &mut links, &objects, adapter)?       // the first member, or none
//! ```

ghost use Rattle.ic_world.specs.Calls as calls;
ghost use Rattle.ic_world.specs.declared.calls.collection_call.Call.TheVariants as one;

use crate::call::Refusal;
use crate::calls::collection_call::CollectionCall;
use ic_any_collection::{AnyCollection, AnyTable, Gap};
use ic_rbtree::KeyAdapter;
use ic_unsafe_ref::{Objects, Place};
use std::alloc::Allocator;

/// Inserts an object into the gap. If the gap is at an end, the cursor goes to null.
#[derive(Clone, Copy)]
pub struct Put(pub Gap, pub Place);

/// Removes the member after the gap, or the last member if the gap is at the back. If the gap is at an end, the cursor goes to null. Otherwise a
/// cursor that is on the removed member goes to the next member.
#[derive(Clone, Copy)]
pub struct Take(pub Gap);

/// Replaces the member after the gap by an object. A cursor that is on the replaced member goes to the object.
#[derive(Clone, Copy)]
pub struct Swap(pub Gap, pub Place);

impl<A: KeyAdapter> CollectionCall<A> for Put {
    type Answer = ();

    ghost call = { λ c. one.Put c.0 c.1 };

    ghost reply = { λ _. calls.done };

    #[inline]
    fn is_placed<M: Allocator>(&self, objects: &Objects<A::Value, M>) -> bool {
        objects.is_placed(self.1)
    }

    #[inline(always)]
    fn run<M: Allocator>(
        &self,
        members: &mut AnyCollection<A::Value>,
        links: &mut AnyTable<M>,
        objects: &Objects<A::Value, M>,
        adapter: A,
    ) -> Result<(), Refusal> {
        let _ = objects;
        let _ = adapter;
        if !self.0.can_insert(members.kind()) {
            return Err(Refusal::WrongKind);
        }
        if !members.insert(links, self.0, self.1) {
            return Err(Refusal::AlreadyLinked);
        }
        Ok(())
    }
}

impl<A: KeyAdapter> CollectionCall<A> for Take {
    type Answer = Option<Place>;

    ghost call = { λ c. one.Take c.0 };

    ghost reply = { calls.object_or_nothing };

    #[inline]
    fn is_placed<M: Allocator>(&self, objects: &Objects<A::Value, M>) -> bool {
        let _ = objects;
        true
    }

    #[inline(always)]
    fn run<M: Allocator>(
        &self,
        members: &mut AnyCollection<A::Value>,
        links: &mut AnyTable<M>,
        objects: &Objects<A::Value, M>,
        adapter: A,
    ) -> Result<Option<Place>, Refusal> {
        let _ = objects;
        let _ = adapter;
        if !self.0.can_remove(members.kind()) {
            return Err(Refusal::WrongKind);
        }
        Ok(members.remove(links, self.0))
    }
}

impl<A: KeyAdapter> CollectionCall<A> for Swap {
    type Answer = Place;

    ghost call = { λ c. one.Swap c.0 c.1 };

    ghost reply = { calls.object };

    #[inline]
    fn is_placed<M: Allocator>(&self, objects: &Objects<A::Value, M>) -> bool {
        objects.is_placed(self.1)
    }

    #[inline(always)]
    fn run<M: Allocator>(
        &self,
        members: &mut AnyCollection<A::Value>,
        links: &mut AnyTable<M>,
        objects: &Objects<A::Value, M>,
        adapter: A,
    ) -> Result<Place, Refusal> {
        let _ = objects;
        let _ = adapter;
        if !self.0.can_replace(members.kind()) {
            return Err(Refusal::WrongKind);
        }
        let (out, acquired) = members.replace(links, self.0, self.1);
        let Some(out) = out else {
            return Err(Refusal::NothingThere);
        };
        if !acquired {
            return Err(Refusal::AlreadyLinked);
        }
        Ok(out)
    }
}
