//! A merge compares two values by the call `compare` of this trait.
//!
//! ```text
//! let mut order = ByKeys::new(ByDeadline); // the order of a keyed tree
//! order.looks() // how often two objects were compared
//! ```

ghost use Rattle.std.specs.Prelude.{◌≡◌, ◌≤◌, ◌<◌, ◌+◌, ℕ, ⊤};
ghost use Rattle.std.specs.declared.cmp.Ordering.{Ordering};
ghost use Rattle.ic_tree_merges.specs.Compares.{adapter_of, looks_of};

use ic_rbtree::KeyAdapter;
use std::cmp::Ordering;

/// An order of values, by which a merge compares them. The order may count its calls.
pub trait Compares<V> {
    // How a first value compares with a second one. The result is `Less` if the first value goes before the second.
    ghost order: { Self → V → V → Ordering };

    // The number of comparisons (looks) that the order has counted.
    ghost looks: { Self → ℕ };

    // `Counts` holds if the order counts every comparison.
    ghost Counts: { Type 0 };

    /// Compares `a` with `b`, and returns `Less` if `a` goes before `b`. The call does not change how values compare, and counts at most one comparison
    /// more.
    fn compare(&mut self, a: &V, b: &V) -> Ordering
        ensures answer { result ≡ order self.old a.now b.now }
        ensures same { order self.new ≡ order self.old }
        ensures counted { looks self.new ≤ looks self.old + 1 }
        ensures each_counted { Counts → looks self.old < 18446744073709551615 → looks self.new ≡ looks self.old + 1 };
}

/// The order of the keys that an adapter finds, which is the order of a keyed tree.
#[derive(Drop)]
pub struct ByKeys<A> {
    adapter: A,
    looks: u64,
}

impl<A> ByKeys<A> {
    /// Makes the order of the keys that this adapter finds. It has counted no comparison yet. O(1).
    #[inline]
    pub fn new(adapter: A) -> ByKeys<A>
        ensures adapter { adapter_of result ≡ adapter }
        ensures none { looks_of result ≡ 0 }
    {
        ByKeys { adapter, looks: 0 }
    }

    /// The number of looks of this order, which is how often it has compared two values. The count stays at `u64::MAX` once it has reached that value.
    /// O(1).
    #[inline]
    pub fn looks(&self) -> u64
        ensures { result ≡ looks_of self.now }
    {
        self.looks
    }
}

impl<A: KeyAdapter> Compares<A::Value> for ByKeys<A> {
    ghost use Rattle.ic_tree_merges.specs.Compares.{by_keys};

    ghost order = { by_keys A.Key.cmp A.key_of };

    ghost looks = { looks_of };

    ghost Counts = { ⊤ };

    #[inline]
    fn compare(&mut self, a: &A::Value, b: &A::Value) -> Ordering {
        self.looks = self.looks.saturating_add(1);
        self.adapter.get_key(a).cmp(self.adapter.get_key(b))
    }
}
