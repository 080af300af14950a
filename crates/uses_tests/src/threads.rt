//! Tests of threads that claim places, of a job that is given up, and of a log of claims.

ghost use Rattle.std.specs.Prelude.{◌≡◌, ◌≤◌, [], All};
ghost use Rattle.ic_link_ops.specs.Prelude.{Place, IsUnlinked};
ghost use Rattle.ic_link_ops.specs.DoublyEntries.{is_linked, plain_table};
ghost use Rattle.ic_atomic.specs.Prelude.{links_of, places_of, record_of, IsOf};

use crate::fixtures::{MEMORY, UNLINKED, check, reference};
use ic_atomic::linked_list::AtomicLinkOps;
use ic_atomic::{Claims, Core, Holder, Step};
use ic_link_ops::PlainTable;
use ic_linked_list::LinkedList;
use ic_test_support::rationed::Rationed;
use ic_unsafe_ref::Place;
use std::alloc::Global;
use std::process::Abort;
use std::thread;
use uses::claim_log::is_right;
use uses::race::race;
use uses::shared_jobs::give_up;
use uses::shared_pool::{give_back, take};

const ROUNDS: usize = 1000;

// Takes an object and gives it back, once for each round. In each round there must be an object to take.
fn visit(rt: &impl Abort, claims: &Claims, holder: &mut Holder)
    requires small { places_of claims.now ≤ 4294967296 }
    requires made { IsOf claims.now holder.old }
{
    for _ in 0..ROUNDS {
        let place = take(claims, holder).expect(rt, "an object");
        give_back(claims, holder, place);
    }
}

#[test]
fn threads_claim_a_place_and_share_the_others(rt: HostRuntime) {
    let (claims, mut holders) = Claims::new(rt.alloc(), 3, 2).expect(&rt, MEMORY);
    let place = Place::new(0).expect(&rt, "the first place");
    let (first, second) = race(&rt, &claims, &mut holders, place);
    thread::for_each_mut(
        &rt,
        &mut holders,
        2,
        &|_, holder: &mut Holder|
            requires small { places_of claims ≤ 4294967296 }
            requires made { IsOf claims holder.now }
        { visit(&rt, &claims, holder) },
    );
    check(&rt, first != second);
}

// Makes links over all places of the claims, for the last of these holders. No holder has made a step yet.
fn next_links<'c>(
    rt: &impl Abort,
    alloc: Global,
    claims: &'c Claims,
    holders: &mut Vec<Holder>,
) -> AtomicLinkOps<'c>
    requires fresh { All (λ h. IsOf claims.now h × (record_of h ≡ [])) holders.old.items }
    ensures fresh { All (λ h. IsOf claims.now h × (record_of h ≡ [])) holders.new.items }
    ensures nothing { (p : Place) → IsUnlinked is_linked (plain_table (links_of result)) p }
    ensures covers { places_of claims.now ≤ (plain_table (links_of result)).extent.places }
{
    let holder = holders.pop().expect(rt, "a holder");
    let mut table = PlainTable::new(alloc);
    table.cover(claims.places()).expect(rt, MEMORY);
    AtomicLinkOps::new(claims, holder, table)
}

#[test]
fn a_job_is_given_up_by_the_worker_that_has_it(rt: HostRuntime) {
    let (claims, mut holders) = Claims::new(rt.alloc(), 5, 2).expect(&rt, MEMORY);
    let mut links = next_links(&rt, rt.alloc(), &claims, &mut holders);
    let mut other_links = next_links(&rt, rt.alloc(), &claims, &mut holders);
    let (mut jobs, mut other_jobs) = (LinkedList::new(), LinkedList::new());
    let job = reference(&rt, 2);
    jobs.push_back(&mut links, reference(&rt, 2))
        .expect(&rt, UNLINKED);
    let by_other = give_up(&mut other_jobs, &mut other_links, &job);
    let by_owner = give_up(&mut jobs, &mut links, &job);
    check(
        &rt,
        !by_other && by_owner && other_jobs.push_back(&mut other_links, job).is_ok(),
    );
}

#[test]
fn a_log_is_right_or_not(rt: HostRuntime) {
    let short = Rationed::new(rt.alloc(), 0);
    let mut core = Core::new(rt.alloc(), 2).expect(&rt, MEMORY);
    let (first, second) = (
        Place::new(0).expect(&rt, "a place"),
        Place::new(1).expect(&rt, "a place"),
    );
    let calls = [
        (0, Step::Claim(first)),
        (1, Step::Claim(first)),
        (1, Step::Look(second)),
        (0, Step::Release(first)),
        (1, Step::Claim(first)),
    ];
    let answered = [true, false, false, true, true];
    let refused = is_right(&short, &mut core, &calls, &answered);
    let right = is_right(&short, &mut core, &calls, &answered);
    let wrong = is_right(&short, &mut core, &[(0, Step::Claim(first))], &[true]);
    check(
        &rt,
        refused.is_err() && matches!(right, Ok(true)) && matches!(wrong, Ok(false)),
    );
}
