//! Calls of one tree that insert an object where a key belongs.
//!
//! ```text
//! Insertion::Insert(place).run(&mut members, &mut links, &objects, adapter)? // how many objects were looked at
//! EntryAt(&5, place).run(&mut members, &mut links, &objects, adapter)?       // the member of key 5, or the object
//! ```

ghost use Rattle.std.specs.Prelude.{◌≡◌};
ghost use Rattle.ic_rbtree.specs.KeyProbe.{looks_of};
ghost use Rattle.ic_world.specs.Replies.{looked_if};

use crate::call::Refusal;
use crate::calls::collection_call::CollectionCall;
use crate::calls::kinds::is_tree;
use crate::calls::probes::own_probe;
use ic_any_collection::{AnyCollection, AnyTable};
use ic_rbtree::{KeyAdapter, KeyProbe};
use ic_unsafe_ref::{Objects, Place};
use std::alloc::Allocator;

// Returns the result of an insert: how many keys its probe compared, or the refusal.
#[inline]
fn looked<A: KeyAdapter>(acquired: bool, probe: &KeyProbe<'_, A>) -> Result<u64, Refusal>
    ensures { result ≡ looked_if (looks_of probe.now) acquired }
{
    if !acquired {
        return Err(Refusal::AlreadyLinked);
    }
    Ok(probe.looks())
}

/// Inserts an object where its own key belongs, after members with the same key.
#[derive(Clone, Copy)]
pub enum Insertion {
    /// Inserts the object, and puts the cursor on the object.
    Insert(Place),
    /// Inserts the object, and leaves the cursor where it is.
    CursorInsert(Place),
}

impl<A: KeyAdapter> CollectionCall<A> for Insertion {
    ghost use Rattle.ic_world.specs.declared.calls.collection_call.Call.TheVariants.{Insertion as insertion};
    ghost use Rattle.ic_world.specs.Calls.{looked};

    type Answer = u64;

    ghost call = { insertion };

    ghost reply = { looked };

    #[inline]
    fn is_placed<M: Allocator>(&self, objects: &Objects<A::Value, M>) -> bool {
        match *self {
            Insertion::Insert(object) => objects.is_placed(object),
            Insertion::CursorInsert(object) => objects.is_placed(object),
        }
    }

    fn run<M: Allocator>(
        &self,
        members: &mut AnyCollection<A::Value>,
        links: &mut AnyTable<M>,
        objects: &Objects<A::Value, M>,
        adapter: A,
    ) -> Result<u64, Refusal> {
        if !is_tree(members.kind()) {
            return Err(Refusal::WrongKind);
        }
        match *self {
            Insertion::Insert(object) => {
                let mut probe = own_probe(adapter, objects, object);
                let acquired = members.insert_by(links, objects, &mut probe, object);
                looked(acquired, &probe)
            }
            Insertion::CursorInsert(object) => {
                let mut probe = own_probe(adapter, objects, object);
                let acquired = members.cursor_insert_by(links, objects, &mut probe, object);
                looked(acquired, &probe)
            }
        }
    }
}

/// Searches for a member with the key. If no member has the key, the call inserts the object where the key belongs.
#[derive(Clone, Copy)]
pub struct EntryAt<K> {
    pub key: K,
    pub object: Place,
}

impl<A: KeyAdapter> CollectionCall<A> for EntryAt<A::Key> {
    ghost use Rattle.ic_world.specs.declared.calls.collection_call.Call.TheVariants.{Enter as enter};
    ghost use Rattle.ic_world.specs.Replies.{entry_or_linked};

    // `None` means that no member has the key and the object is already linked.
    type Answer = Option<(bool, Place, u64)>;

    ghost call = { λ e. enter e.key e.object };

    ghost reply = { entry_or_linked };

    #[inline]
    fn is_placed<M: Allocator>(&self, objects: &Objects<A::Value, M>) -> bool {
        objects.is_placed(self.object)
    }

    fn run<M: Allocator>(
        &self,
        members: &mut AnyCollection<A::Value>,
        links: &mut AnyTable<M>,
        objects: &Objects<A::Value, M>,
        adapter: A,
    ) -> Result<Option<(bool, Place, u64)>, Refusal> {
        if !is_tree(members.kind()) {
            return Err(Refusal::WrongKind);
        }
        let mut probe = KeyProbe::new(adapter, &self.key);
        match members.entry_by(links, objects, &mut probe, self.object) {
            Some((is_member, place)) => Ok(Some((is_member, place, probe.looks()))),
            None => Ok(None),
        }
    }
}
