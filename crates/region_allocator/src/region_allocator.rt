//! The type `RegionAllocator` and its calls.
//!
//! ```text
//! let mut space = RegionAllocator::new(rt.alloc());
//! space.free(0, 100)?;
//! space.allocate(30) // Some(0)
//! space.is_free(0) // false
//! ```

ghost use Rattle.std.specs.Prelude.{◌≡◌, ◌↔◌, [], true, false, OnOk, OnSome, IsErr, IfErr, IfSome, IfNone, IsTrue};

use crate::FreeError;
use crate::free_regions::FreeRegions;
use crate::region::{ByStart, Region};
use ic_augmented::{Augmented, Greatest};
use ic_link_ops::rbtree::LinkOps;
use ic_pool::Pool;
use ic_rbtree::RBTree;
use std::alloc::{Allocator, Global};
use std::marker::Model;

/// An allocator of ranges of addresses.
///
/// A contract sees the free regions in the order of their addresses, and whether all places are in use. No region is empty, and no two of them touch
/// or share an address.
#[derive(Drop)]
pub struct RegionAllocator<A: Allocator = Global> {
    regions: FreeRegions<A>,
}

impl<A: Allocator> Model for RegionAllocator<A> {
    ghost use Rattle.region_allocator.specs.Regions.{Space};
    ghost use Rattle.region_allocator.specs.Kept.{represented_space, IsKept};

    ghost Value = { Space };

    ghost view = { λ s. represented_space s.regions };

    ghost invariant = { λ s. IsKept s.regions };
}

impl<A: Allocator> RegionAllocator<A> {
    ghost use Rattle.region_allocator.specs.Regions.{region_of, IsFree, AreRegionsApart, FreesRegion, AllocatesRegion, IsFirstFit, AreShorter};
    ghost use Rattle.region_allocator.specs.Refusals.{IsNew, IsRefused};

    /// Makes an allocator with no free address. It takes no memory.
    pub fn new(alloc: A) -> RegionAllocator<A>
    where
        A: Copy,
        ensures empty { result.regions ≡ [] }
        ensures room { result.is_full ≡ false }
    {
        let links = Augmented {
            links: LinkOps::new(alloc),
            summaries: Greatest::new(alloc),
        };
        RegionAllocator {
            regions: FreeRegions {
                pool: Pool::new(alloc, links),
                by_start: RBTree::new(ByStart),
            },
        }
    }

    /// Frees `length` addresses from `start` on. These addresses and the free regions that touch them become one region. O(log n).
    ///
    /// If the call is refused, nothing has changed. The error is `Empty` exactly if `length` is 0, else `TooLong` exactly if the addresses end after
    /// `u64::MAX`, and else `Overlaps` exactly if one of the addresses is already free. Only a region that no free region touches needs a place and
    /// memory, in at most three requests. If such a region is refused, the error is `TooManyRegions` exactly if all 4,294,967,296 places are in use,
    /// and otherwise `OutOfMemory`.
    pub fn free(&mut self, start: u64, length: u64) -> Result<(), FreeError>
        ensures freed { OnOk result (FreesRegion (region_of start length) self.old.regions self.new.regions) }
        ensures refused { IfErr result (λ error. (self.new ≡ self.old) × IsRefused (region_of start length) self.old error) }
        ensures full { self.old.is_full ≡ true → IsNew (region_of start length) self.old → IsErr result }
        ensures apart { OnOk result (AreRegionsApart self.new.regions) }
    {
        if length == 0 {
            return Err(FreeError::Empty);
        }
        if length > u64::MAX - start {
            return Err(FreeError::TooLong);
        }
        self.regions.add(Region { start, length })
    }

    /// Allocates `length` consecutive addresses, and returns the first one, which is the start of the first free region that is long enough. It takes
    /// no memory.
    ///
    /// `None` means that all free regions are shorter, and then nothing has changed. For the length 0 it allocates nothing, and returns the start of
    /// the first free region. O(log n) on average over many calls: it updates the greatest lengths that the calls since the last `allocate` made
    /// stale, in O(log n) for each call.
    pub fn allocate(&mut self, length: u64) -> Option<u64>
        ensures allocated { IfSome result (λ start. AllocatesRegion (region_of start length) self.old.regions self.new.regions) }
        ensures first_fit { IfSome result (λ start. IsFirstFit (region_of start length) self.old.regions) }
        ensures none { IfNone result ((self.new ≡ self.old) × AreShorter self.old.regions length) }
        ensures apart { OnSome result (AreRegionsApart self.new.regions) }
    {
        let found = self.regions.first_fit(length)?;
        let start = found.region.start;
        self.regions.cut(found, length);
        Some(start)
    }

    /// Returns whether the address is free. O(log n).
    pub fn is_free(&self, address: u64) -> bool
        ensures { IsTrue result ↔ IsFree self.now.regions address }
    {
        match self.regions.below(address) {
            Some(found) => address < found.region.end(),
            None => false,
        }
    }

    /// Returns whether no address is free. O(1).
    pub fn is_empty(&self) -> bool
        ensures { IsTrue result ↔ (self.now.regions ≡ []) }
    {
        self.regions.by_start.is_empty()
    }
}
