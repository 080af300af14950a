//! A search compares its key with the objects of a chain.
//!
//! ```text
//! let mut probe = KeyProbe::new(ById, &5);
//! let found = table.find_by(&links, &objects, &mut probe);
//! probe.looks() // how many objects it was compared with
//! ```

ghost use Rattle.std.specs.Prelude.{◌≡◌, ℕ, ◌+◌, ◌<◌, Bool};
ghost use Rattle.ic_hash_table.specs.KeyProbe.{adapter_of, key_of_probe, looks_of, key_equal, key_hash};

use crate::HashAdapter;

/// A search key of any form, which has a hash and can be compared with values.
///
/// A search calls `is_equal` once for each member that it visits. Each of these calls is a *look*.
pub trait Probe<V> {
    // Whether the searched key equals a value.
    ghost equal: { Self → V → Bool };

    // The hash of the searched key.
    ghost hash: { Self → ℕ };

    // The number of looks (calls of `is_equal`) that the probe has made.
    ghost count: { Self → ℕ };

    /// The hash of the searched key. O(1).
    fn hash(&self) -> u64
        ensures { result ≡ hash self.now };

    /// Whether the searched key equals `value`. The call counts as one look.
    ///
    /// It requires that the count of looks is below `u64::MAX`. The probe counts one look more, and keeps its key and its hash.
    fn is_equal(&mut self, value: &V) -> bool
        requires room { count self.old < 18446744073709551615 }
        ensures answer { result ≡ equal self.old value.now }
        ensures counted { count self.new ≡ count self.old + 1 }
        ensures same { equal self.new ≡ equal self.old }
        ensures hash { hash self.new ≡ hash self.old };
}

/// A search for a key by the adapter of a hash table.
#[derive(Drop)]
pub struct KeyProbe<'k, A: HashAdapter>
where
    A::Key: 'k,
{
    adapter: A,
    key: &'k A::Key,
    looks: u64,
}

impl<'k, A: HashAdapter> KeyProbe<'k, A> {
    /// A search for `key` that has not compared any object yet. O(1).
    #[inline]
    pub fn new(adapter: A, key: &'k A::Key) -> KeyProbe<'k, A>
        ensures adapter { adapter_of result ≡ adapter }
        ensures key { key_of_probe result ≡ key.now }
        ensures none { looks_of result ≡ 0 }
    {
        KeyProbe {
            adapter,
            key,
            looks: 0,
        }
    }

    /// The number of looks that the search has made, which is how many objects it has compared with its key. O(1).
    #[inline]
    pub fn looks(&self) -> u64
        ensures { result ≡ looks_of self.now }
    {
        self.looks
    }
}

impl<A: HashAdapter> Probe<A::Value> for KeyProbe<'_, A> {
    ghost equal = { key_equal A.Key.eq A.key_of };

    ghost hash = { key_hash A.hash_of };

    ghost count = { looks_of };

    #[inline]
    fn hash(&self) -> u64 {
        self.adapter.hash(self.key)
    }

    #[inline]
    fn is_equal(&mut self, value: &A::Value) -> bool {
        self.looks += 1;
        self.key == self.adapter.get_key(value)
    }
}
