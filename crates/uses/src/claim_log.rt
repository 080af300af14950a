//! Checks a log of claims: whether the recorded results are the results that the claims return.
//!
//! ```text
//! let mut core = Core::new(alloc, 100)?; // nobody holds any of the places
//! let is_right = claim_log::is_right(alloc, &mut core, &calls, &told)?;
//! ```

ghost use Rattle.std.specs.Prelude.{◌≡◌, ◌<◌, ◌↔◌, length, All, IsTrue, IfOk, OnOk, OnErr};
ghost use Rattle.ic_unsafe_ref.specs.Places.{index_of};
ghost use Rattle.ic_atomic.specs.ClaimMap.{target, map_of};
ghost use Rattle.ic_atomic.specs.LastChange.{answers_read_off, map_read_off};

use ic_atomic::{Core, Step};
use std::alloc::{AllocError, Allocator};

/// Returns whether a log is right: for each logged call, the recorded result is the one that the claims return. O(calls).
///
/// A logged call is the number of a party, and the step that this party made.
///
/// It requires that each logged call is on one of the core's places. At first, the core has the holders before the first logged call. Afterwards it
/// has the holders after the last logged call. `Err` means that there was not enough memory for the results, and then the core has not changed.
pub fn is_right<A: Allocator>(
    alloc: A,
    core: &mut Core,
    calls: &[(usize, Step)],
    answered: &[bool],
) -> Result<bool, AllocError>
    requires { All (λ call. index_of (target call.1) < length core.old) calls.now }
    ensures right { IfOk result (λ is_right. IsTrue is_right ↔ (answers_read_off (map_of core.old) calls.now ≡ answered.now)) }
    ensures holders { OnOk result (map_of core.new ≡ map_read_off (map_of core.old) calls.now) }
    ensures places { length core.new ≡ length core.old }
    ensures refused { OnErr result (core.new ≡ core.old) }
{
    let mut answers = Vec::new(alloc);
    core.replay(calls, &mut answers)?;
    Ok(answers.as_slice() == answered)
}
