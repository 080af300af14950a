//! The regions that a search finds, and whether they touch a region that is to be freed.

ghost use Rattle.std.specs.Prelude.{◌≡◌, ◌<◌, ◌^◌, IfSome};
ghost use Rattle.region_allocator.specs.Regions.{end_of};
ghost use Rattle.region_allocator.specs.Neighbors.{found_at, EndsBy, StartsFrom};

use crate::FreeError;
use crate::region::Region;
use ic_unsafe_ref::{Objects, UnsafeRef};
use std::alloc::Allocator;

/// A free region that a search has found, with its object.
#[derive(Drop)]
pub(crate) struct Found {
    pub(crate) object: UnsafeRef<Region>,
    pub(crate) region: Region,
}

// Returns the object with its region, or `None` if the search found no object.
pub(crate) fn look_up<A: Allocator>(
    objects: &Objects<Region, A>,
    object: Option<UnsafeRef<Region>>,
) -> Option<Found>
    ensures { result ≡ found_at objects.now object }
{
    let object = object?;
    let region = *objects.get(object.place())?;
    Some(Found { object, region })
}

// Returns the region before the address `start` if it ends at this address. The call is refused if the region ends after the address.
pub(crate) fn ending_at(below: Option<Found>, start: u64) -> Result<Option<Found>, FreeError>
    requires fits { IfSome below (λ found. end_of found.region < 2 ^ 64) }
    ensures { EndsBy below start result }
{
    let Some(found) = below else {
        return Ok(None);
    };
    let end = found.region.end();
    if end > start {
        return Err(FreeError::Overlaps);
    }
    if end < start {
        return Ok(None);
    }
    Ok(Some(found))
}

// Returns the region after the address `end` if it starts at this address. The call is refused if the region starts before the address.
pub(crate) fn starting_at(above: Option<Found>, end: u64) -> Result<Option<Found>, FreeError>
    ensures { StartsFrom above end result }
{
    let Some(found) = above else {
        return Ok(None);
    };
    if found.region.start < end {
        return Err(FreeError::Overlaps);
    }
    if end < found.region.start {
        return Ok(None);
    }
    Ok(Some(found))
}
