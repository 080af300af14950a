//! A pool of objects that threads share. Each thread takes objects and gives them back, without a lock.
//!
//! ```text
//! if let Some(place) = shared_pool::take(&claims, &mut holder) {
//!     // the object at that place is this thread's alone
//!     shared_pool::give_back(&claims, &mut holder, place);
//! }
//! ```

ghost use Rattle.std.specs.Prelude.{◌≡◌, ◌++◌, ◌∷◌, [], ◌<◌, ◌≤◌, true, IfSome, IfNone};
ghost use Rattle.ic_unsafe_ref.specs.Places.{index_of};
ghost use Rattle.ic_atomic.specs.declared.step.Step.TheVariants.{Release};
ghost use Rattle.ic_atomic.specs.Records.{event, holds, GivesUp};
ghost use Rattle.ic_atomic.specs.Holders.{places_of, record_of, IsOf};
ghost use Rattle.uses.specs.Pool.{TakesOut, TakesNone};

use ic_atomic::{Claims, Holder};
use ic_unsafe_ref::Place;
use std::alloc::Allocator;

/// Takes an object from the pool, at the first place that nobody holds when this holder tries it. `None` means that each place was held by somebody
/// when it was tried.
///
/// The pool consists of the claims' places. It requires that there are at most 4,294,967,296 places, and that the holder was made with the claims.
/// Nobody else takes the object until this holder gives it back. It makes one claim for each place that it tries, in O(places). It takes no memory,
/// and waits for nobody.
pub fn take<A: Allocator>(claims: &Claims<A>, holder: &mut Holder) -> Option<Place>
    requires small { places_of claims.now ≤ 4294967296 }
    requires made { IsOf claims.now holder.old }
    ensures made { IsOf claims.now holder.new }
    ensures taken { IfSome result (λ place. TakesOut (places_of claims.now) (record_of holder.old) (record_of holder.new) place) }
    ensures none { IfNone result (TakesNone (places_of claims.now) (record_of holder.old) (record_of holder.new)) }
{
    for index in 0..claims.places() {
        if let Some(place) = Place::new(index) {
            if claims.claim(holder, place) {
                return Some(place);
            }
        }
    }
    None
}

/// Gives an object back, so that any thread may take it.
///
/// It requires that this holder has taken the object. It makes one release, in O(1), and takes no memory.
pub fn give_back<A: Allocator>(claims: &Claims<A>, holder: &mut Holder, place: Place)
    requires place { index_of place < places_of claims.now }
    requires made { IsOf claims.now holder.old }
    requires taken { holds place (record_of holder.old) ≡ true }
    ensures made { IsOf claims.now holder.new }
    ensures given { GivesUp (record_of holder.old) (record_of holder.new) place }
    ensures step { record_of holder.new ≡ record_of holder.old ++ event (Release place) 1 ∷ [] }
{
    claims.release(holder, place);
}
