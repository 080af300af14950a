//! Tests of new claims and cores: their numbers of places and holders, each request for memory refused in turn, and the texts of their errors.

ghost use Rattle.std.specs.Prelude.{All};
ghost use Rattle.ic_atomic.specs.Holders.{IsOf};

use ic_atomic::{Claims, ClaimsError, Core, Holder, Step};
use ic_test_support::rationed::Rationed;
use ic_unsafe_ref::Place;
use std::alloc::Global;
use std::fmt::Write;

// A row has the number of the request for memory that is refused, the number of places, the number of holders, and the number and the text of the
// expected error. The text is empty if no error is expected.
type Making = (u64, usize, usize, &'static str);

// The number of a request that never comes, so that no request is refused.
const NONE: u64 = u64::MAX;

// Claims with one place and one holder make four requests for memory. The requests are for the list of words, the table's own words, the table's empty
// row of slots, and the holders. After a refusal, the same call must succeed. There must be no fifth request, neither by an audit nor by a claim.
const MAKINGS: &[Making] = &[
    (NONE, 0, 2, ""),
    (NONE, 4_294_967_297, 1, "1 TooManyPlaces"),
    (NONE, 3, 0, ""),
    (NONE, 4, 3, ""),
    (0, 1, 1, "2 OutOfMemory"),
    (NONE, 1, 1, ""),
    (1, 1, 1, "2 OutOfMemory"),
    (NONE, 1, 1, ""),
    (2, 1, 1, "2 OutOfMemory"),
    (NONE, 1, 1, ""),
    (3, 1, 1, "2 OutOfMemory"),
    (NONE, 1, 1, ""),
    (4, 1, 1, ""),
];

// Lets each holder in turn try to claim place 0, each time after an audit of all holders. Returns whether only the first holder can claim the place.
fn is_first_alone(claims: &Claims<&Rationed>, holders: &mut Vec<Holder, &Rationed>) -> bool
    requires { All (λ h. IsOf claims.now h) holders.old.items }
{
    let mut as_wanted = true;
    let Some(place) = Place::new(0) else {
        return false;
    };
    if claims.places() == 0 {
        return true;
    }
    for index in 0..holders.len() {
        claims.audit(holders);
        if index < holders.len() {
            as_wanted &= claims.claim(&mut holders[index], place) == (index == 0);
        }
    }
    as_wanted
}

// Makes the claims of the row. Returns whether they have the numbers of places and holders of the row, or whether the error has the text of the row.
fn is_made_so(memory: &Rationed, making: &Making, text: &mut String) -> bool {
    let (request, places, holders, wanted) = *making;
    memory.refuse(request);
    match Claims::new(memory, places, holders) {
        Ok((claims, mut made)) => {
            let is_made = (claims.places() == places) & (made.len() == holders);
            is_made & wanted.is_empty() & is_first_alone(&claims, &mut made)
        }
        Err(error) => {
            text.clear();
            write!(text, "{} {error}", error as u8).is_ok() && text.as_str() == wanted
        }
    }
}

fn are_made_so(alloc: Global, memory: &Rationed, makings: &[Making]) -> bool {
    let mut text = String::new(alloc);
    let mut as_wanted = true;
    for making in makings {
        as_wanted &= is_made_so(memory, making, &mut text);
    }
    as_wanted
}

// The test makes the claims of each row, and they must have the right numbers of places and holders, or the error of the row.
// Promise: claims without memory, texts of errors of claims, always-out-of-memory in claims.
#[test]
fn limits_and_each_request_refused_in_turn(rt: HostRuntime) {
    let memory = Rationed::new(rt.alloc(), NONE);
    assert!(rt; are_made_so(rt.alloc(), &memory, MAKINGS));
}

// Returns whether a replay that is refused memory changes nothing, so that a second replay of the same calls returns the right results. A new core and
// a replay each make one request for memory.
fn is_replayed(memory: &Rationed) -> bool {
    memory.refuse(1);
    let (Ok(mut core), Some(third)) = (Core::new(memory, 4), Place::new(3)) else {
        return false;
    };
    let mut answers = Vec::new(memory);
    let calls = [
        (0, Step::Claim(third)),
        (1, Step::Claim(third)),
        (1, Step::Look(third)),
        (0, Step::Look(third)),
        (0, Step::Release(third)),
        (1, Step::Claim(third)),
        (0, Step::Claim(third)),
    ];
    let is_refused = core.replay(&calls, &mut answers).is_err() && answers.is_empty();
    let is_done = core.replay(&calls, &mut answers).is_ok();
    is_refused & is_done
        && answers.as_slice() == [true, false, true, true, true, true, false].as_slice()
}

// A core must be refused if it has more places than can exist, or if there is no memory. A replay that is refused memory must change nothing.
// Promise: a core without memory, always-out-of-memory in a core.
#[test]
fn a_core_is_refused_memory(rt: HostRuntime) {
    let memory = Rationed::new(rt.alloc(), 0);
    let is_too_many = matches!(
        Core::new(&memory, 4_294_967_297),
        Err(ClaimsError::TooManyPlaces)
    );
    let is_refused = matches!(Core::new(&memory, 1), Err(ClaimsError::OutOfMemory));
    assert!(rt; is_too_many & is_refused && is_replayed(&memory));
}
