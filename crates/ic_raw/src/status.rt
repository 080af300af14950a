//! Each call returns one of the statuses of this module.
//!
//! ```text
//! if (ic_list_push_back(links, places, &list, place) != IC_OK) ..
//! ```

/// The call was accepted and has made its edit or found its member.
pub const OK: u32 = 0;

/// A place that the caller names does not belong to the table, or the caller names no place to insert. A call also returns this status if an array
/// has fewer elements than the table has places, or if there are no buckets.
pub const OUT_OF_RANGE: u32 = 1;

/// The place to insert is already linked.
pub const LINKED: u32 = 2;

/// A place that must be a member is not linked.
pub const NOT_LINKED: u32 = 3;

/// The caller named no place where a member or a head is needed, or there is no member to find or to remove.
pub const NULL: u32 = 4;

/// The links contradict one another or the arguments. For example, the caller names a place that is not a member of the list.
pub const BROKEN: u32 = 5;

/// The number that a caller passes to name no place.
pub const NONE: u32 = 4_294_967_295;
