//! A test of steps that two parties make in turn, on cores and on holders of claims.

ghost use Rattle.std.specs.Prelude.{◌≡◌};
ghost use Rattle.ic_atomic.specs.ClaimMap.{target};

use crate::equipped::{Act, equipped};
use ic_atomic::{Claims, Core, Step};
use ic_unsafe_ref::Place;
use std::alloc::Global;
use std::process::Abort;

// A row has a step: how many of the two parties still exist, the party that makes the step, what the step does, the index of the place, and the
// expected result.
type Row = (usize, usize, Act, usize, bool);

const A: usize = 0;

const B: usize = 1;

// At place 3 a party must find the claim of the other party. At place 0 a release by the party that does not hold the place must change nothing.
const IN_TURN: &[Row] = &[
    (2, A, Act::Claim, 3, true),
    (2, B, Act::Claim, 3, false),
    (2, B, Act::Look, 3, true),
    (2, A, Act::Look, 3, true),
    (2, A, Act::Release, 3, true),
    (2, B, Act::Claim, 3, true),
    (2, A, Act::Claim, 3, false),
    (2, B, Act::Release, 3, true),
    (2, B, Act::Release, 0, false),
    (2, A, Act::Claim, 0, true),
    (2, B, Act::Release, 0, false),
    (2, B, Act::Look, 0, true),
    (2, A, Act::Release, 0, true),
    (2, B, Act::Look, 0, false),
];

// The place must still be claimed after the party that claimed it is dropped. The dropped party is the second one, because the last parties are dropped
// first.
const LEFT: &[Row] = &[
    (2, B, Act::Claim, 0, true),
    (2, B, Act::Look, 0, true),
    (1, A, Act::Claim, 0, false),
    (1, A, Act::Look, 0, true),
];

// Returns the step of a core that does `act` with the place.
fn step(act: Act, place: Place) -> Step
    ensures { target result ≡ place }
{
    match act {
        Act::Claim => Step::Claim(place),
        Act::Release => Step::Release(place),
        Act::Look => Step::Look(place),
    }
}

// Returns whether two new cores return the results of the rows, one by `apply` and one by `replay`. No party is removed from a core.
fn is_right_of_cores(rt: &impl Abort, alloc: Global, places: usize, rows: &[Row]) -> bool {
    let mut applied = Core::new(alloc, places).expect(rt, "a core");
    let mut replayed = Core::new(alloc, places).expect(rt, "a core");
    let mut answers = Vec::new(alloc);
    let mut as_wanted = true;
    for (_, party, act, index, answer) in rows {
        match Place::new(*index) {
            Some(place) if *index < places => {
                let call = (*party, step(*act, place));
                as_wanted &= applied.apply(call.0, call.1) == *answer;
                as_wanted &= replayed.replay(&[call], &mut answers).is_ok();
                as_wanted &= answers.pop() == Some(*answer);
            }
            _ => as_wanted = false,
        }
    }
    as_wanted
}

// Returns whether the holders of new claims return the results of the rows.
fn is_right_of_claims(rt: &impl Abort, alloc: Global, places: usize, rows: &[Row]) -> bool {
    let (claims, holders) = Claims::new(alloc, places, 2).expect(rt, "claims");
    let mut equipped = equipped(alloc, &claims, holders);
    let mut as_wanted = true;
    for (parties, party, act, index, answer) in rows {
        equipped.truncate(*parties);
        as_wanted &= match equipped.get_mut(*party) {
            Some(hand) => hand.make(*act, *index) == *answer,
            None => false,
        };
    }
    as_wanted
}

// The test makes the steps of the rows on cores and on holders of claims, and each step must have the result of its row.
// Promise: claims in turn, a holder that left.
#[test]
fn cores_and_holders_in_turn(rt: HostRuntime) {
    let alloc = rt.alloc();
    let of_cores = is_right_of_cores(&rt, alloc, 4, IN_TURN)
        & is_right_of_cores(&rt, alloc, 1, LEFT);
    let of_claims = is_right_of_claims(&rt, alloc, 4, IN_TURN)
        & is_right_of_claims(&rt, alloc, 1, LEFT);
    assert!(rt; of_cores & of_claims);
    Core::<Global>::last_changes_tell();
}
