//! How a search compares its key with the objects of a tree.
//!
//! ```text
//! let mut probe = KeyProbe::new(ByDeadline, &5);
//! let cursor = tree.find_by(&links, &objects, &mut probe);
//! probe.looks() // how many objects it was compared with
//! ```

ghost use Rattle.std.specs.Prelude.{◌≡◌, ℕ, ◌+◌, ◌<◌};
ghost use Rattle.std.specs.declared.cmp.Ordering.{Ordering};
ghost use Rattle.ic_unsafe_ref.specs.Objects.{Objects};
ghost use Rattle.ic_rbtree.specs.Comparing.{order_there, compared_within, HasRoomWithin};
ghost use Rattle.ic_rbtree.specs.KeyProbe.{adapter_of, key_of_probe, key_order, looks_of, probe_of, HasAdapter};

use crate::{Bound, KeyAdapter};
use std::cmp::Ordering;

/// A search key of any form, and how it compares with a value.
///
/// A descent in a tree calls `compare` once for each member that the descent passes. A look is one call of `compare`.
pub trait Probe<V> {
    // How the searched key compares with a value: `Less` if the searched key is less than the key of the value.
    ghost order: { Self → V → Ordering };

    // The number of looks (comparisons) that the probe has made.
    ghost count: { Self → ℕ };

    /// Compares the searched key with `value`: `Less` if the key is less.
    ///
    /// It requires that the probe has counted less than `u64::MAX` looks (comparisons). The call counts one look more, and does not change how the probe
    /// compares.
    fn compare(&mut self, value: &V) -> Ordering
        requires room { count self.old < 18446744073709551615 }
        ensures answer { result ≡ order self.old value.now }
        ensures counted { count self.new ≡ count self.old + 1 }
        ensures same { order self.new ≡ order self.old };
}

/// A search for a key, which finds the keys of objects by the adapter of a tree.
#[derive(Drop)]
pub struct KeyProbe<'k, A: KeyAdapter>
where
    A::Key: 'k,
{
    adapter: A,
    key: &'k A::Key,
    looks: u64,
}

impl<'k, A: KeyAdapter> KeyProbe<'k, A> {
    /// A search for `key` that has made no look (comparison) yet. O(1).
    #[inline]
    pub fn new(adapter: A, key: &'k A::Key) -> KeyProbe<'k, A>
        ensures adapter { adapter_of result ≡ adapter }
        ensures key { key_of_probe result ≡ key.now }
        ensures none { looks_of result ≡ 0 }
    {
        KeyProbe {
            adapter,
            key,
            looks: 0,
        }
    }

    /// The number of looks that the search has made, which is the number of objects with which its key was compared. O(1).
    #[inline]
    pub fn looks(&self) -> u64
        ensures { result ≡ looks_of self.now }
    {
        self.looks
    }
}

impl<A: KeyAdapter> Probe<A::Value> for KeyProbe<'_, A> {
    ghost order = { key_order A.Key.cmp A.key_of };

    ghost count = { looks_of };

    #[inline]
    fn compare(&mut self, value: &A::Value) -> Ordering {
        self.looks += 1;
        // The value's key `v` is the first operand. A search for the first equal member then chooses a child by `v < k`, for which the processor tests one
        // flag. It would test more than one flag for `k > v`.
        self.adapter.get_key(value).cmp(self.key).reverse()
    }
}

/// A search for a key that compares in the form that an insert uses. An insert goes left at a member if its key `k` is less than the member's key `v`. Here `k`
/// is the first operand, so that the processor tests one flag, for `k < v`.
#[derive(Drop)]
pub(crate) struct KeyFirst<'k, A: KeyAdapter>
where
    A::Key: 'k,
{
    probe: KeyProbe<'k, A>,
}

impl<'k, A: KeyAdapter> KeyFirst<'k, A> {
    #[inline]
    pub(crate) fn new(adapter: A, key: &'k A::Key) -> KeyFirst<'k, A>
        ensures adapter { adapter_of (probe_of result) ≡ adapter }
        ensures key { key_of_probe (probe_of result) ≡ key.now }
        ensures none { looks_of (probe_of result) ≡ 0 }
    {
        KeyFirst {
            probe: KeyProbe::new(adapter, key),
        }
    }
}

impl<A: KeyAdapter> Probe<A::Value> for KeyFirst<'_, A> {
    ghost order = { λ p. key_order A.Key.cmp A.key_of (probe_of p) };

    ghost count = { λ p. looks_of (probe_of p) };

    #[inline]
    fn compare(&mut self, value: &A::Value) -> Ordering {
        self.probe.looks += 1;
        self.probe.key.cmp(self.probe.adapter.get_key(value))
    }
}

// Returns `bound` with a search for its key instead of the key. The search has made no comparison yet.
#[inline]
pub(crate) fn probe_in_bound<'k, A: KeyAdapter>(
    adapter: A,
    bound: Bound<&'k A::Key>,
) -> Bound<KeyProbe<'k, A>>
    ensures order { (objects : Objects A.Value)
        → compared_within (key_order A.Key.cmp A.key_of) objects result
        ≡ compared_within (order_there A.Key.cmp (A.key_of adapter)) objects bound.entry }
    ensures adapter { HasAdapter adapter result }
    ensures room { HasRoomWithin looks_of result }
{
    match bound {
        Bound::Included(key) => Bound::Included(KeyProbe::new(adapter, key)),
        Bound::Excluded(key) => Bound::Excluded(KeyProbe::new(adapter, key)),
        Bound::Unbounded => Bound::Unbounded,
    }
}
