//! A test of rings over places that several parties claim.

ghost use Rattle.std.specs.Prelude.{◌≡◌, [], All};
ghost use Rattle.ic_link_ops.specs.DoublyEntries.{plain_table};
ghost use Rattle.ic_atomic.specs.Prelude.{links_of, places_of, record_of, IsOf};

use crate::ring;
use ic_atomic::linked_list::AtomicLinkOps;
use ic_atomic::{Claims, Holder};
use ic_link_ops::PlainTable;
use ic_link_ops::linked_list::LinkOps;
use ic_test_support::objects::{TENS, eight_objects};
use std::alloc::Global;
use std::process::Abort;

// Makes links over the places 0 to 7, for the last of these holders. No holder has made a step yet.
fn claimed_links<'c>(
    rt: &impl Abort,
    alloc: Global,
    claims: &'c Claims,
    mut holders: Vec<Holder>,
) -> AtomicLinkOps<'c>
    requires places { places_of claims.now ≡ 8 }
    requires fresh { All (λ h. IsOf claims.now h × (record_of h ≡ [])) holders.items }
    ensures covers { (plain_table (links_of result)).extent.places ≡ 8 }
{
    let holder = holders.pop().expect(rt, "a holder");
    let mut links = PlainTable::new(alloc);
    links.cover(8).expect(rt, "memory for links");
    AtomicLinkOps::new(claims, holder, links)
}

#[test]
fn two_rings_over_claims(rt: HostRuntime) {
    let alloc = rt.alloc();
    let (objects, _): (_, LinkOps) = eight_objects(alloc, TENS).expect(&rt, "memory");
    let (claims, holders) = Claims::new(alloc, 8, 1).expect(&rt, "claims");
    let mut links = claimed_links(&rt, alloc, &claims, holders);
    ring::play(&rt, alloc, &mut links, &objects);
}
