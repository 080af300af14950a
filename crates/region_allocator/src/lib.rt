//! An allocator of ranges of addresses, for example addresses of a disk, of a heap or of virtual memory.
//!
//! ```text
//! let mut space = RegionAllocator::new(rt.alloc());
//! space.free(0, 100)?; // the addresses 0 to 99 are free
//! let block = space.allocate(30); // Some(0): the addresses 0 to 29
//! space.free(0, 30)?; // free again, and one region with those after
//! ```
//!
//! Each free region is one object with a link in one tree, which is sorted by the regions' starts. A search of the tree finds the neighbors of a
//! region. It also finds the first region that is long enough, because the tree keeps the greatest length of each subtree.
#![tactic(auto)]

mod free_error;
mod free_regions;
mod neighbors;
mod region;
mod region_allocator;

pub use free_error::FreeError;
pub use region_allocator::RegionAllocator;
