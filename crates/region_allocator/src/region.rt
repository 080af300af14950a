//! Free regions, which are the objects in the allocator's pool.

ghost use Rattle.std.specs.Prelude.{◌≡◌, ◌<◌, ◌^◌};
ghost use Rattle.region_allocator.specs.Regions.{end_of};

use ic_rbtree::KeyAdapter;

/// A region, which is a number of consecutive addresses.
#[derive(Clone, Copy)]
pub struct Region {
    pub(crate) start: u64,
    pub(crate) length: u64,
}

impl Region {
    // Returns the first address after the region.
    #[inline]
    pub(crate) fn end(&self) -> u64
        requires fits { end_of self.now < 2 ^ 64 }
        ensures { result ≡ end_of self.now }
    {
        self.start + self.length
    }
}

/// The order of regions by their starts.
#[derive(Clone, Copy)]
pub(crate) struct ByStart;

impl KeyAdapter for ByStart {
    type Value = Region;

    type Key = u64;

    ghost key_of = { λ a region. region.start };

    #[inline]
    fn get_key<'v>(&self, region: &'v Region) -> &'v u64 {
        &region.start
    }
}
