//! Searches of one tree by keys. A search puts the tree's cursor on the member that it finds.
//!
//! ```text
//! Search::Find(5).run(&mut members, &mut links, &objects, adapter)? // the first member of key 5, with the looks
//! ```

use crate::call::Refusal;
use crate::calls::collection_call::CollectionCall;
use crate::calls::kinds::is_tree;
use crate::calls::probes::{looks_in, probe_in_bound};
use ic_any_collection::{AnyCollection, AnyTable};
use ic_rbtree::{Bound, KeyAdapter, KeyProbe};
use ic_unsafe_ref::{Objects, Place};
use std::alloc::Allocator;

/// What a search looks for.
#[derive(Clone, Copy)]
pub enum Search<K> {
    /// The first member with a key.
    Find(K),
    /// The first member that meets a bound.
    LowerBound(Bound<K>),
    /// The last member that meets a bound.
    UpperBound(Bound<K>),
}

impl<A: KeyAdapter> CollectionCall<A> for Search<A::Key> {
    ghost use Rattle.ic_world.specs.declared.calls.collection_call.Call.TheVariants.{Search as search};
    ghost use Rattle.ic_world.specs.Calls.{found};

    type Answer = (Option<Place>, u64);

    ghost call = { search };

    ghost reply = { λ answer. found answer.0 answer.1 };

    #[inline]
    fn is_placed<M: Allocator>(&self, objects: &Objects<A::Value, M>) -> bool {
        let _ = objects;
        true
    }

    fn run<M: Allocator>(
        &self,
        members: &mut AnyCollection<A::Value>,
        links: &mut AnyTable<M>,
        objects: &Objects<A::Value, M>,
        adapter: A,
    ) -> Result<(Option<Place>, u64), Refusal> {
        if !is_tree(members.kind()) {
            return Err(Refusal::WrongKind);
        }
        match self {
            Search::Find(key) => {
                let mut probe = KeyProbe::new(adapter, key);
                let found = members.find_by(links, objects, &mut probe);
                Ok((found, probe.looks()))
            }
            Search::LowerBound(bound) => {
                let mut probe = probe_in_bound(adapter, bound);
                let found = members.lower_bound_by(links, objects, &mut probe);
                Ok((found, looks_in(&probe)))
            }
            Search::UpperBound(bound) => {
                let mut probe = probe_in_bound(adapter, bound);
                let found = members.upper_bound_by(links, objects, &mut probe);
                Ok((found, looks_in(&probe)))
            }
        }
    }
}
