//! The slots decide in which chain a hash belongs, by linear hashing (Litwin, 1980). Chains come into use one at a time.
//!
//! ```text
//! // With six chains in use the mask is 7. A hash that ends in binary 110 or 111 belongs in chain 2 or 3, until those are in use.
//! let at = slots.slot(hash);
//! ```

ghost use Rattle.std.specs.Prelude.{◌≡◌, ◌<◌, ◌≤◌};
ghost use Rattle.ic_hash_table.specs.Slots.{slot_of, split_of, IsWellFormed, IsSplit};

/// Stores how many chains are in use, and the mask of the current round of growth. The chains in use have more than half of the numbers from 0 to the mask.
#[derive(Clone, Copy)]
pub struct Slots {
    used: usize,
    mask: usize,
}

impl Slots {
    // The slots of a table with `count` chains, all of which are in use.
    pub(crate) fn all(count: usize) -> Slots
        requires some { 1 ≤ count }
        requires few { count ≤ 4294967296 }
        ensures used { result.used ≡ count }
        ensures well_formed { IsWellFormed result }
    {
        let mut mask = 0;
        while mask < count - 1 {
            mask = 2 * mask + 1;
        }
        Slots { used: count, mask }
    }

    /// The number of the chain where `hash` belongs, which is made of the bits of `hash` within the mask. If the chain of this number is not in use yet, the
    /// bits within half of the mask are the number. O(1).
    #[inline]
    pub fn slot(&self, hash: u64) -> usize
        requires well_formed { IsWellFormed self.now }
        ensures slot { result ≡ slot_of self.now hash }
        ensures in_bounds { result < self.now.used }
        ensures few { result < 18446744073709551615 }
    {
        let at = hash as usize & self.mask;
        if at < self.used {
            at
        } else {
            at & (self.mask >> 1)
        }
    }

    // The slots with one more chain in use. If all numbers within the mask are in use, the next round of growth begins, with a mask of one bit more.
    pub(crate) fn grown(self) -> Slots
        requires well_formed { IsWellFormed self }
        requires few { self.used < 4294967296 }
        ensures well_formed { IsWellFormed result }
        ensures splits { IsSplit self result }
    {
        let mask = if self.used > self.mask {
            2 * self.mask + 1
        } else {
            self.mask
        };
        Slots {
            used: self.used + 1,
            mask,
        }
    }

    // The slots with one chain less in use, so that `shrunk` undoes `grown`.
    pub(crate) fn shrunk(self) -> Slots
        requires well_formed { IsWellFormed self }
        requires more { 2 ≤ self.used }
        ensures well_formed { IsWellFormed result }
        ensures splits { IsSplit result self }
    {
        let half = self.mask >> 1;
        let mask = if self.used == half + 2 {
            half
        } else {
            self.mask
        };
        Slots {
            used: self.used - 1,
            mask,
        }
    }

    // The number of the chain that had the members of chain `last` before chain `last` came into use.
    pub(crate) fn split(&self, last: usize) -> usize
        ensures { result ≡ split_of self.now last }
    {
        last & (self.mask >> 1)
    }

    // How many chains are in use.
    pub(crate) fn used(&self) -> usize
        ensures { result ≡ self.now.used }
    {
        self.used
    }
}
