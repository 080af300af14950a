//! Tests of links over claims. A place that one party has linked cannot be linked by another party until the first party gives it up.

ghost use Rattle.std.specs.Prelude.{◌≡◌, [], All};
ghost use Rattle.ic_atomic.specs.Holders.{record_of, IsOf};

use crate::collections::ByValue;
use crate::equipped::{Act, HolderWithClaims, equipped};
use crate::parties::{are_linked, are_seen, is_cleared, take_off, take_turns};
use ic_atomic::{
    AtomicLinkOps, Claims, Gate, Holder, gather, linked_list, rbtree, singly_linked_list,
    xor_linked_list,
};
use ic_link_ops::{PlainTable, TwoNarrowWords, Words};
use ic_linked_list::LinkedList;
use ic_rbtree::RBTree;
use ic_singly_linked_list::SinglyLinkedList;
use ic_unsafe_ref::{Place, UnsafeRef};
use ic_xor_linked_list::XorLinkedList;
use std::alloc::Global;
use std::cell::{Cell, RefCell};
use std::process::Abort;
use std::thread;

// Makes links over all places of the claims, for the last of these holders. No holder has made a step yet.
fn next_links<'c, W: Words>(
    rt: &impl Abort,
    alloc: Global,
    claims: &'c Claims,
    holders: &mut Vec<Holder>,
) -> AtomicLinkOps<'c, PlainTable<W, Global>, Global>
    requires fresh { All (λ h. IsOf claims.now h × (record_of h ≡ [])) holders.old.items }
    ensures fresh { All (λ h. IsOf claims.now h × (record_of h ≡ [])) holders.new.items }
{
    let holder = holders.pop().expect(rt, "a holder");
    let mut table = PlainTable::new(alloc);
    table.cover(claims.places()).expect(rt, "room");
    AtomicLinkOps::new(claims, holder, table)
}

// A gate that checks places by a holder of its own, each time that a worker reports. The place that was gathered last must be held, and the next place
// must not be held yet. Places are offered in order, from the first one on.
#[derive(Drop)]
struct Watch<'c> {
    hand: RefCell<HolderWithClaims<'c>>,
    // How often the last place was held and the next place was not held.
    right: Cell<usize>,
}

impl Gate for Watch<'_> {
    ghost Reported = { λ gate worker answered. Unit {0} };

    fn passed(&self, _worker: usize, answered: usize) {
        let Ok(mut hand) = self.hand.try_borrow_mut() else {
            return;
        };
        let is_last_held = answered == 0 || hand.make(Act::Look, answered - 1);
        if is_last_held & !hand.make(Act::Look, answered) {
            self.right.set(self.right.get().wrapping_add(1));
        }
    }
}

// Gathers the first two places into a list, removes the first one from the list, inserts it again, and gives it up by force. Returns whether all these
// calls succeeded and the reports to the gate came in time.
// Promise: a gate between claims.
fn gathers(links: &mut linked_list::AtomicLinkOps, watch: &Watch) -> bool {
    let mut list: LinkedList<u64> = LinkedList::new();
    let (Some(first), Some(second)) = (Place::new(0), Place::new(1)) else {
        return false;
    };
    let offered = [UnsafeRef::new(first), UnsafeRef::new(second)];
    if links.covers() < 2 || gather(1, &offered, &mut list, links, watch) != 2 {
        return false;
    }
    let is_taken = match list.pop_front(links) {
        Some(taken) => taken.place() == first,
        None => false,
    };
    if links.covers() == 0 || list.push_back(links, UnsafeRef::new(first)).is_err() {
        return false;
    }
    if links.covers() == 0 || !links.holds(first) {
        return false;
    }
    links.force_unlink(first);
    is_taken && !links.is_linked(first) && watch.right.get() == 3
}

// Inserts the object at `place` into a list, and returns whether the place was free. Then the list and its links are dropped, so that the place stays
// linked.
fn is_left_linked(mut links: linked_list::AtomicLinkOps, place: Place) -> bool {
    let mut list: LinkedList<u64> = LinkedList::new();
    place.index() < links.covers() && list.push_back(&mut links, UnsafeRef::new(place)).is_ok()
}

// Returns whether the object at `place` is held by another party, so that an insert is refused to this party.
fn is_held_by_another(links: &mut linked_list::AtomicLinkOps, place: Place) -> bool {
    let mut list: LinkedList<u64> = LinkedList::new();
    if place.index() >= links.covers() || links.holds(place) {
        return false;
    }
    links.is_linked(place) && list.push_back(links, UnsafeRef::new(place)).is_err()
}

// Links over claims, of one of four kinds.
#[derive(Drop)]
enum AnyLinks<'c> {
    Singly(singly_linked_list::AtomicLinkOps<'c>),
    Doubly(linked_list::AtomicLinkOps<'c>),
    Xor(xor_linked_list::AtomicLinkOps<'c>),
    Tree(rbtree::AtomicLinkOps<'c>),
}

fn turns_with(links: AnyLinks) -> bool {
    match links {
        AnyLinks::Singly(links) => take_turns(SinglyLinkedList::new(), links),
        AnyLinks::Doubly(links) => take_turns(LinkedList::new(), links),
        AnyLinks::Xor(links) => take_turns(XorLinkedList::new(), links),
        AnyLinks::Tree(links) => take_turns(RBTree::new(ByValue), links),
    }
}

// Two parties in turn must see each other's places, and four parties in threads must share the places. If the links of a party are dropped while they
// hold a place, the place must still be refused to another party.
// Promise: four tables of claims.
// Promise: links that are dropped.
#[test]
fn parties_share_places(rt: HostRuntime) {
    let alloc = rt.alloc();
    let (claims, mut holders) = Claims::new(alloc, 100, 7).expect(&rt, "claims");
    let mut last: linked_list::AtomicLinkOps = next_links(&rt, alloc, &claims, &mut holders);
    let mut doubly = next_links(&rt, alloc, &claims, &mut holders);
    let is_list_seen = are_seen(LinkedList::new(), &mut doubly, &mut last);
    let left = next_links(&rt, alloc, &claims, &mut holders);
    let mut tree = next_links(&rt, alloc, &claims, &mut holders);
    let is_tree_seen = are_seen(RBTree::new(ByValue), &mut tree, &mut last);
    let is_tree_cleared = is_cleared(&mut tree, &mut last);
    let four = [
        AnyLinks::Singly(next_links(&rt, alloc, &claims, &mut holders)),
        AnyLinks::Doubly(doubly),
        AnyLinks::Xor(next_links(&rt, alloc, &claims, &mut holders)),
        AnyLinks::Tree(tree),
    ];
    let four = Vec::from_array(alloc, four).expect(&rt, "room");
    let had = thread::map_vec(&rt, four, &turns_with).expect(&rt, "room");
    let is_free = are_linked(&mut last, 0);
    let watch = Watch {
        hand: RefCell::new(
            equipped(alloc, &claims, holders)
                .pop()
                .expect(&rt, "a hand"),
        ),
        right: Cell::new(0),
    };
    let is_gathered = gathers(&mut last, &watch);
    let is_left_held = match Place::new(99) {
        Some(place) => is_left_linked(left, place) && is_held_by_another(&mut last, place),
        None => false,
    };
    let covered = last.into_parts().1.covers();
    assert!(rt;
        is_list_seen
            & is_tree_seen
            & is_tree_cleared
            & had.contains(&true)
            & is_free
            & is_gathered
            & is_left_held
            & (covered == 100)
    );
}

// One party has links with words of 4 bytes, and a second party has links with words of 8 bytes. The members of each party must be refused to the other
// party.
// Promise: claims over 4-byte words.
#[test]
fn parties_share_places_over_narrow_links(rt: HostRuntime) {
    let alloc = rt.alloc();
    let (claims, mut holders) = Claims::new(alloc, 100, 2).expect(&rt, "claims");
    let mut wide: linked_list::AtomicLinkOps = next_links(&rt, alloc, &claims, &mut holders);
    let mut narrow: AtomicLinkOps<PlainTable<TwoNarrowWords>> = next_links(
        &rt,
        alloc,
        &claims,
        &mut holders,
    );
    let is_narrow_seen = are_seen(LinkedList::new(), &mut narrow, &mut wide);
    let is_wide_seen = are_seen(LinkedList::new(), &mut wide, &mut narrow);
    assert!(rt; is_narrow_seen & is_wide_seen);
    assert!(rt; take_off(&mut narrow) == Some([0, 2, 1]) && take_off(&mut wide) == Some([0, 2, 1]));
}
