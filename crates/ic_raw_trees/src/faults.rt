//! Functions that return the fault of a place. They read only the words of the table.
//!
//! ```text
//! place_fault(table, place)  // OK: it is one of the table, and not linked
//! member_fault(table, place) // NOT_LINKED: so it is no member
//! ```

ghost use Rattle.std.specs.Prelude.{◌≡◌, ◌≢◌, Some};
ghost use Rattle.ic_raw.specs.declared.status.TheConstants.{NULL};
ghost use Rattle.ic_raw.specs.Tree.{fault_at, fault_of};

use ic_raw::{RawTable, RawThree};
use ic_unsafe_ref::Place;

// Returns the fault of a place that the caller wants to insert, or `OK` if the place has no fault.
pub(crate) fn place_fault(table: &mut [RawThree], place: Place) -> u32
    ensures fault { result ≡ fault_of table.old (Some place) }
    ensures named { result ≢ NULL }
    ensures kept { table.new ≡ table.old }
{
    RawTable::new(table).place_fault(Some(place))
}

// Returns the fault of a place that must be a member, or `OK` if the place has no fault.
pub(crate) fn member_fault(table: &mut [RawThree], member: Place) -> u32
    ensures fault { result ≡ fault_at table.old (Some member) }
    ensures named { result ≢ NULL }
    ensures kept { table.new ≡ table.old }
{
    RawTable::new(table).member_fault(Some(member))
}
