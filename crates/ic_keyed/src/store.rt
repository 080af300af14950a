//! These functions find a value by its key.

ghost use Rattle.std.specs.Prelude.{◌≡◌, true, IfSome};
ghost use Rattle.ic_link_ops.specs.Prelude.{is_placed, object_there};
ghost use Rattle.ic_indexed.specs.Indexed.{values_of};
ghost use Rattle.ic_keyed.specs.Keyed.{value_with, HaveOwnKeys};

use ic_indexed::{HasKey, Index, Indexed};
use ic_unsafe_ref::Place;
use std::alloc::Allocator;

// Returns the place of the value with the key, if there is one, and how many values the search compared.
pub(crate) fn find<T: HasKey, I: Index<T, A>, A: Allocator>(
    store: &Indexed<T, I, A>,
    key: u64,
) -> (Option<Place>, u64)
    requires { HaveOwnKeys T.key_of (values_of store.now) }
    ensures found { object_there store.now.values result.0 ≡ value_with T.key_of key (values_of store.now) }
    ensures placed { IfSome result.0 (λ place. is_placed store.now.values place ≡ true) }
    ensures looks { I.IsFew store.now.parts key (values_of store.now) result.1 }
{
    store.find(key)
}

// Returns the place of the value with the key, if there is one, without the number of comparisons.
pub(crate) fn place_of<T: HasKey, I: Index<T, A>, A: Allocator>(
    store: &Indexed<T, I, A>,
    key: u64,
) -> Option<Place>
    requires { HaveOwnKeys T.key_of (values_of store.now) }
    ensures found { object_there store.now.values result ≡ value_with T.key_of key (values_of store.now) }
    ensures placed { IfSome result (λ place. is_placed store.now.values place ≡ true) }
{
    find(store, key).0
}
