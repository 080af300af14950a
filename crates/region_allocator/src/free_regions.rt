//! The free regions, in a tree that is sorted by their starts and stores the greatest length of each subtree.

ghost use Rattle.std.specs.Prelude.{◌≡◌, ◌≢◌, ◌≤◌, ◌+◌, ℕ, true, Option, Some, OnOk, IfOk, IsErr, IfErr};
ghost use Rattle.std.specs.List.{AllByRecursion};
ghost use Rattle.ic_link_ops.specs.Prelude.{Place, object_at, is_placed};
ghost use Rattle.region_allocator.specs.declared.neighbors.Found.{Found};
ghost use Rattle.region_allocator.specs.declared.region.Region.{Region};
ghost use Rattle.region_allocator.specs.Regions.{region_of, IsRegion, AreApart, FreesRegion, AllocatesRegion};
ghost use Rattle.region_allocator.specs.Refusals.{IsNew, IsRefused};
ghost use Rattle.region_allocator.specs.Kept.{regions_of, represented_space, IsKept};
ghost use Rattle.region_allocator.specs.Changes.{Adds, Changes, FitsFor};
ghost use Rattle.region_allocator.specs.Neighbors.{IsFound, FitsFirst, AreNeighbors, Touches};

use crate::FreeError;
use crate::neighbors::{Found, ending_at, look_up, starting_at};
use crate::region::{ByStart, Region};
use ic_augmented::{Augmented, Greatest, first_greater, refresh, set_value};
use ic_link_ops::rbtree::LinkOps;
use ic_pool::{PlaceError, Pool};
use ic_rbtree::{Bound, RBTree};
use ic_unsafe_ref::UnsafeRef;
use std::alloc::{Allocator, Global};

/// The free regions, which are objects, each linked in the tree. The table of links stores the length of each region beside its link.
#[derive(Drop)]
pub(crate) struct FreeRegions<A: Allocator = Global> {
    pub(crate) pool: Pool<Region, Augmented<LinkOps<A>, Greatest<A>>, A>,
    pub(crate) by_start: RBTree<ByStart>,
}

impl<A: Allocator> FreeRegions<A> {
    // Returns the last region that starts at the address or below it. It makes one search, in O(log n).
    pub(crate) fn below(&self, address: u64) -> Option<Found>
        requires kept { IsKept self.now }
        ensures { (above : Option Found) × AreNeighbors self.now.pool.objects (regions_of self.now) address result above }
    {
        let cursor = self.by_start.upper_bound(
            &self.pool.links.links,
            &self.pool.objects,
            Bound::Included(&address),
        );
        look_up(&self.pool.objects, cursor.clone_pointer())
    }

    // Returns the last region that starts at the address or below it, and the first that starts above it. It makes one search, in O(log n).
    pub(crate) fn neighbors(&self, address: u64) -> (Option<Found>, Option<Found>)
        requires kept { IsKept self.now }
        ensures { AreNeighbors self.now.pool.objects (regions_of self.now) address result.0 result.1 }
    {
        let below = self.by_start.upper_bound(
            &self.pool.links.links,
            &self.pool.objects,
            Bound::Included(&address),
        );
        let above = below.peek_next();
        (
            look_up(&self.pool.objects, below.clone_pointer()),
            look_up(&self.pool.objects, above.clone_pointer()),
        )
    }

    // Returns the free regions that touch the given region, before and after it. The call is refused if a free region shares an address with the given one.
    pub(crate) fn touching(
        &self,
        region: Region,
    ) -> Result<(Option<Found>, Option<Found>), FreeError>
        requires kept { IsKept self.now }
        requires region { IsRegion region }
        ensures touched { IfOk result (λ found. Touches self.now.pool.objects (regions_of self.now) region found.0 found.1) }
        ensures refused { IfErr result (IsRefused region (represented_space self.now)) }
    {
        let (below, above) = self.neighbors(region.start);
        let front = match ending_at(below, region.start) {
            Ok(front) => front,
            Err(error) => return Err(error),
        };
        match starting_at(above, region.end()) {
            Ok(back) => Ok((front, back)),
            Err(error) => Err(error),
        }
    }

    // Returns the first region with at least this length. It updates the greatest lengths that edits have made stale, in O(log n + v) for v stale lengths.
    pub(crate) fn first_fit(&mut self, length: u64) -> Option<Found>
        requires kept { IsKept self.old }
        ensures kept { IsKept self.new }
        ensures same { represented_space self.new ≡ represented_space self.old }
        ensures first { FitsFirst self.new.pool.objects (regions_of self.new) length result }
    {
        refresh(&self.by_start, &mut self.pool.links);
        match first_greater(&self.by_start, &self.pool.links, length.saturating_sub(1)) {
            Some(place) => look_up(&self.pool.objects, Some(UnsafeRef::new(place))),
            None => None,
        }
    }

    // Makes a new object with the region as its value, and inserts the object into the tree.
    pub(crate) fn put_in(&mut self, region: Region) -> Result<(), FreeError>
        requires kept { IsKept self.old }
        requires region { IsRegion region }
        requires apart { AllByRecursion (AreApart region) (regions_of self.old) }
        ensures kept { IsKept self.new }
        ensures put { OnOk result (Adds region (regions_of self.old) (regions_of self.new)) }
        ensures full { (represented_space self.old).is_full ≡ true → IsErr result }
        ensures refused { IfErr result (λ error. (represented_space self.new ≡ represented_space self.old)
            × IsRefused region (represented_space self.old) error) }
    {
        let object = match self.pool.place(region) {
            Ok(object) => object,
            Err(PlaceError::NoPlaceLeft(_)) => return Err(FreeError::TooManyRegions),
            Err(PlaceError::OutOfMemory(_)) => return Err(FreeError::OutOfMemory),
        };
        let Pool { objects, links } = &mut self.pool;
        set_value(links, object.place(), region.length);
        let _ = self.by_start.insert(links, objects, object); // proved: it is not linked
        Ok(())
    }

    // Removes the object from the tree, and frees its place.
    pub(crate) fn take_out(&mut self, object: UnsafeRef<Region>)
        requires kept { IsKept self.old }
        requires placed { is_placed self.old.pool.objects object ≡ true }
        ensures kept { IsKept self.new }
        ensures taken { (out : Region) → object_at self.old.pool.objects object ≡ Some out
            → Adds out (regions_of self.new) (regions_of self.old) }
        ensures others { (p : Place) → p ≢ object → object_at self.new.pool.objects p ≡ object_at self.old.pool.objects p }
    {
        self.by_start.remove(&mut self.pool.links, &object);
        self.pool.remove(object);
    }

    // Gives an object another region as its value. The object stays between its neighbors in the tree, and the length beside its link changes.
    pub(crate) fn resize(&mut self, object: UnsafeRef<Region>, region: Region)
        requires kept { IsKept self.old }
        requires placed { is_placed self.old.pool.objects object ≡ true }
        requires fits { (out : Region) → object_at self.old.pool.objects object ≡ Some out
            → FitsFor out region (regions_of self.old) }
        ensures kept { IsKept self.new }
        ensures resized { (out : Region) → object_at self.old.pool.objects object ≡ Some out
            → Changes out region (regions_of self.old) (regions_of self.new) }
    {
        *self.pool.get_mut(&object).unwrap() = region; // proved: it is placed
        set_value(&mut self.pool.links, object.place(), region.length);
    }

    // Adds a region to the free regions, and joins it with the free regions that it touches.
    pub(crate) fn add(&mut self, region: Region) -> Result<(), FreeError>
        requires kept { IsKept self.old }
        requires region { IsRegion region }
        ensures kept { IsKept self.new }
        ensures freed { OnOk result (FreesRegion region (regions_of self.old) (regions_of self.new)) }
        ensures full { (represented_space self.old).is_full ≡ true → IsNew region (represented_space self.old) → IsErr result }
        ensures refused { IfErr result (λ error. (represented_space self.new ≡ represented_space self.old)
            × IsRefused region (represented_space self.old) error) }
    {
        let (front, back) = match self.touching(region) {
            Ok(found) => found,
            Err(error) => return Err(error),
        };
        match front {
            None => match back {
                None => self.put_in(region),
                Some(back) => {
                    let start = region.start;
                    let length = region.length + back.region.length;
                    self.resize(back.object, Region { start, length });
                    Ok(())
                }
            },
            Some(front) => match back {
                None => {
                    let start = front.region.start;
                    let length = front.region.length + region.length;
                    self.resize(front.object, Region { start, length });
                    Ok(())
                }
                Some(back) => {
                    let start = front.region.start;
                    let length = front.region.length + region.length + back.region.length;
                    self.take_out(back.object);
                    self.resize(front.object, Region { start, length });
                    Ok(())
                }
            },
        }
    }

    // Removes the first `length` addresses of a free region that a search has found.
    pub(crate) fn cut(&mut self, found: Found, length: u64)
        requires kept { IsKept self.old }
        requires found { IsFound self.old.pool.objects found }
        requires enough { length ≤ found.region.length }
        ensures kept { IsKept self.new }
        ensures cut { AllocatesRegion (region_of found.region.start length) (regions_of self.old) (regions_of self.new) }
    {
        let rest = found.region.length - length;
        if rest == 0 {
            self.take_out(found.object);
            return;
        }
        let left = Region {
            start: found.region.start + length,
            length: rest,
        };
        self.resize(found.object, left);
    }
}
