//! Two threads claim the same place, and exactly one of the claims returns true.
//!
//! ```text
//! let (claims, mut holders) = Claims::new(rt.alloc(), 1000, 2)?;
//! let (first, second) = race(&rt, &claims, &mut holders, place); // (true, false) or (false, true)
//! ```

ghost use Rattle.std.specs.Prelude.{◌≡◌, ◌<◌, ◌∷◌, [], false, not, map, vec_len, All};
ghost use Rattle.ic_unsafe_ref.specs.Places.{index_of};
ghost use Rattle.ic_atomic.specs.Prelude.{holds, places_of, holders_of, record_of, IsOf};
ghost use Rattle.uses.specs.Race.{CanClaim, HasClaimed};

use ic_atomic::{Claims, Holder};
use ic_unsafe_ref::Place;
use std::thread;
use std::thread::Threads;

// Claims the place for a holder, and returns the holder and whether the claim succeeded. A thread owns the holder during the call.
fn claim_by(claims: &Claims, mut holder: Holder, place: Place) -> (Holder, bool)
    requires { CanClaim claims.now place holder }
    ensures { HasClaimed claims.now place holder result.0 result.1 }
{
    let is_claimed = claims.claim(&mut holder, place);
    (holder, is_claimed)
}

/// Lets two threads claim the same place, each with its own holder, and returns the results of both claims. Exactly one of the results is true, and
/// the holder with this result now holds the place.
///
/// Exactly one claim succeeds, in whatever order the threads reach the place. The contract leaves open which claim succeeds. The contract of `claim` alone
/// does not say that exactly one does, because it speaks of only one holder. `audit` brings the records of both holders together. If both results were
/// true, both holders would hold the place, but no place has two holders. If both results were false, another holder would hold the place, but there is no
/// other holder.
///
/// It requires that `holders` has two holders, which are the only holders of the claims, and that neither of them holds the place. Afterwards each
/// holder holds the place exactly if its result is true. O(1). It takes no memory except that of one more thread. If that thread cannot be started,
/// this thread makes both claims.
pub fn race<R: Threads + Sync>(
    rt: &R,
    claims: &Claims,
    holders: &mut Vec<Holder>,
    place: Place,
) -> (bool, bool)
    requires place { index_of place < places_of claims.now }
    requires two { (vec_len holders.old ≡ 2) × (holders_of claims.now ≡ 2) }
    requires made { All (λ h. IsOf claims.now h) holders.old.items }
    requires free { All (λ h. holds place (record_of h) ≡ false) holders.old.items }
    ensures just_one { result.1 ≡ not result.0 }
    ensures made { All (λ h. IsOf claims.now h) holders.new.items }
    ensures held { map (λ h. holds place (record_of h)) holders.new.items ≡ result.0 ∷ result.1 ∷ [] }
{
    let second = holders.take_last();
    let first = holders.take_last();
    let ((first, first_answer), (second, second_answer)) = thread::join(
        rt,
        move || -> (Holder, bool)
            requires { CanClaim claims.now place first }
            ensures { HasClaimed claims.entry.now place first result.0 result.1 }
        { claim_by(claims, first, place) },
        move || -> (Holder, bool)
            requires { CanClaim claims.now place second }
            ensures { HasClaimed claims.entry.now place second result.0 result.1 }
        { claim_by(claims, second, place) },
    );
    holders.push_reserved(first);
    holders.push_reserved(second);
    claims.audit(holders);
    (first_answer, second_answer)
}
