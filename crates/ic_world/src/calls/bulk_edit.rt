//! Calls on all members of one collection.
//!
//! ```text
//! BulkEdit::Clear.run(&mut members, &mut links, &objects, adapter)?; // all members go out, and are unlinked
//! ```

use crate::call::Refusal;
use crate::calls::collection_call::CollectionCall;
use crate::calls::kinds::is_xor;
use ic_any_collection::{AnyCollection, AnyTable};
use ic_rbtree::KeyAdapter;
use ic_unsafe_ref::Objects;
use std::alloc::Allocator;

/// What a call does with all members of a collection. The call also puts the cursor to null.
#[derive(Clone, Copy)]
pub enum BulkEdit {
    /// Removes and unlinks all members.
    Clear,
    /// Reverses the order of all members.
    Reverse,
}

impl<A: KeyAdapter> CollectionCall<A> for BulkEdit {
    ghost use Rattle.ic_world.specs.declared.calls.collection_call.Call.TheVariants.{BulkEdit as whole};
    ghost use Rattle.ic_world.specs.Calls.{done};

    type Answer = ();

    ghost call = { whole };

    ghost reply = { λ _. done };

    #[inline]
    fn is_placed<M: Allocator>(&self, objects: &Objects<A::Value, M>) -> bool {
        let _ = objects;
        true
    }

    #[inline(always)]
    fn run<M: Allocator>(
        &self,
        members: &mut AnyCollection<A::Value>,
        links: &mut AnyTable<M>,
        objects: &Objects<A::Value, M>,
        adapter: A,
    ) -> Result<(), Refusal> {
        let _ = objects;
        let _ = adapter;
        match self {
            BulkEdit::Clear => {
                members.unlink_all(links);
                Ok(())
            }
            BulkEdit::Reverse => {
                if !is_xor(members.kind()) {
                    return Err(Refusal::WrongKind);
                }
                members.reverse(links);
                Ok(())
            }
        }
    }
}
