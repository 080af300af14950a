//! The probes with which keyed calls compare keys, and the number of comparisons that a probe has made.
//!
//! ```text
//! let mut probe = probe_in_bound(adapter, &Bound::Included(5));
//! members.lower_bound_by(links, objects, &mut probe);
//! looks_in(&probe) // how often the probe was asked
//! ```

ghost use Rattle.std.specs.Prelude.{◌≡◌, true};
ghost use Rattle.ic_unsafe_ref.specs.Objects.{Objects as Placed, is_placed};
ghost use Rattle.ic_rbtree.specs.Prelude.{compared_within, order_of, own_order, key_order, looks_of, HasAdapter};
ghost use Rattle.ic_world.specs.Looks.{looks_within};

use ic_rbtree::{Bound, KeyAdapter, KeyProbe};
use ic_unsafe_ref::{Objects, Place};
use std::alloc::Allocator;

/// Returns the bound with a new probe for its key. The new probe has compared nothing yet. A bound without a key has no probe.
#[inline]
pub(crate) fn probe_in_bound<'k, A: KeyAdapter>(
    adapter: A,
    bound: &'k Bound<A::Key>,
) -> Bound<KeyProbe<'k, A>>
    ensures order { (objects : Placed A.Value) → compared_within (key_order A.Key.cmp A.key_of) objects result
        ≡ compared_within (order_of A.Key.cmp (A.key_of adapter)) objects bound.now }
    ensures adapter { HasAdapter adapter result }
    ensures none { looks_within result ≡ 0 }
{
    match bound {
        Bound::Included(key) => Bound::Included(KeyProbe::new(adapter, key)),
        Bound::Excluded(key) => Bound::Excluded(KeyProbe::new(adapter, key)),
        Bound::Unbounded => Bound::Unbounded,
    }
}

/// Returns how many keys the probe of a bound has compared.
#[inline]
pub(crate) fn looks_in<A: KeyAdapter>(bound: &Bound<KeyProbe<'_, A>>) -> u64
    ensures { result ≡ looks_within bound.now }
{
    match bound {
        Bound::Included(probe) => probe.looks(),
        Bound::Excluded(probe) => probe.looks(),
        Bound::Unbounded => 0,
    }
}

/// Returns a new probe for the key of an object. The new probe has compared nothing yet. It requires that the object exists.
#[inline]
pub(crate) fn own_probe<'k, A: KeyAdapter, M: Allocator>(
    adapter: A,
    objects: &'k Objects<A::Value, M>,
    object: Place,
) -> KeyProbe<'k, A>
    requires placed { is_placed objects.now object ≡ true }
    ensures order { key_order A.Key.cmp A.key_of result ≡ own_order A.Key.cmp (A.key_of adapter) objects.now object }
    ensures none { looks_of result ≡ 0 }
{
    let value = objects.get(object).unwrap(); // proved: it is placed
    KeyProbe::new(adapter, adapter.get_key(value))
}
