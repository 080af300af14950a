//! A hash table grows and shrinks by one chain at a time.
//!
//! ```text
//! if table.len() > 2 * table.chains() {
//!     table.grow_one(&mut links, &objects); // splits one chain
//! } else if 2 * table.len() < table.chains() {
//!     table.shrink_one(&mut links); // joins two
//! }
//! ```

ghost use Rattle.std.specs.Prelude.{◌≡◌, ◌≢◌, ◌↔◌, ◌+◌, ◌<◌, ◌≤◌, length, IsTrue, true, false, Option, None, Some, List, [], ◌∷◌};
ghost use Rattle.std.specs.Bool.{OnTrue, OnFalse};
ghost use Rattle.ic_link_ops.specs.Prelude.{Place, is_placed, IsAbsent, IsLinked, IsNameable, ChangesOnlyIn, RepresentsPlaced};
ghost use Rattle.ic_hash_table.specs.HashTable.{number};
ghost use Rattle.ic_hash_table.specs.Searches.{matches};
ghost use Rattle.ic_hash_table.specs.Slots.{IsWellFormed};
ghost use Rattle.ic_hash_table.specs.Growth.{belongs_at, IsParted};
ghost use Rattle.ic_hash_table.specs.Chains.{RepresentsFrom};

use crate::chain_edits::{join_chains, link_front};
use crate::{BucketsFor, HashAdapter, HashTable, Slots};
use ic_link_ops::LinkOps;
use ic_link_ops::singly_linked_list::SinglyLinkedListOps;
use ic_unsafe_ref::{Place, Values};

// Whether the object at `place` belongs in chain `to`, by the hash of its key.
#[inline]
fn belongs<A: HashAdapter, O: Values<A::Value>>(
    adapter: A,
    slots: Slots,
    objects: &O,
    place: Place,
    to: usize,
) -> bool
    requires placed { is_placed (O.values objects.now) place ≡ true }
    requires well_formed { IsWellFormed slots }
    ensures { result ≡ matches (belongs_at slots (number A.key_of A.hash_of adapter) to) (O.values objects.now) place }
{
    let key = adapter.get_key(objects.value(place));
    slots.slot(adapter.hash(key)) == to
}

// Inserts the linked `place` at the front of one of two chains, which begin with the members `halves`. If `moves` is true, it is inserted into the second
// chain, and otherwise into the first. Returns the new first members of both chains.
#[inline]
fn link_either<L: SinglyLinkedListOps>(
    links: &mut L,
    place: Place,
    moves: bool,
    halves: (Option<Place>, Option<Place>),
) -> (Option<Place>, Option<Place>)
    requires linked { IsLinked L.linked (L.table links.old) place }
    requires first { IsNameable L.CanName halves.0 }
    requires second { IsNameable L.CanName halves.1 }
    ensures stays { moves ≡ false → (result.1 ≡ halves.1)
        × ((s : List Place) → RepresentsFrom L.successor (L.table links.old) halves.0 s → IsAbsent place s → RepresentsFrom L.successor (L.table links.new) result.0 (place ∷ s)) }
    ensures moves { moves ≡ true → (result.0 ≡ halves.0)
        × ((s : List Place) → RepresentsFrom L.successor (L.table links.old) halves.1 s → IsAbsent place s → RepresentsFrom L.successor (L.table links.new) result.1 (place ∷ s)) }
    ensures others { (q : Place) → q ≢ place → (L.table links.new).entry q ≡ (L.table links.old).entry q }
    ensures extent { (L.table links.new).extent ≡ (L.table links.old).extent }
    ensures trace_stays { L.Trace links.old links.new [] }
{
    if moves {
        (halves.0, link_front(links, place, halves.1))
    } else {
        (link_front(links, place, halves.0), halves.1)
    }
}

// Splits the chain that begins with `front` in two. Returns the first of the members that stay, and the first of the members that belong in chain `to`. No link
// is acquired or released.
pub(crate) fn part_chain<A: HashAdapter, L: SinglyLinkedListOps, O: Values<A::Value>>(
    adapter: A,
    slots: Slots,
    links: &mut L,
    objects: &O,
    front: Option<Place>,
    to: usize,
) -> (Option<Place>, Option<Place>)
    requires well_formed { IsWellFormed slots }
    requires placed { RepresentsPlaced (RepresentsFrom L.successor (L.table links.old) front) (O.values objects.now) }
    ensures parted { (chain : List Place) → RepresentsFrom L.successor (L.table links.old) front chain
        → IsParted L.successor (matches (belongs_at slots (number A.key_of A.hash_of adapter) to) (O.values objects.now))
        (L.table links.new) chain None result.0 result.1 }
    ensures frame { (chain : List Place) → RepresentsFrom L.successor (L.table links.old) front chain
        → ChangesOnlyIn (L.table links.old) (L.table links.new) chain }
    ensures trace_stays { L.Trace links.old links.new [] }
{
    let mut halves = (None, None);
    let mut rest = front;
    while let Some(place) = rest {
        rest = links.next(place);
        let moves = belongs(adapter, slots, objects, place, to);
        halves = link_either(links, place, moves, halves);
    }
    halves
}

impl<A: HashAdapter, B> HashTable<A, B> {
    ghost use Rattle.ic_hash_table.specs.HashTable.{slots_of, fronts_of, Holds, HoldsSome, IsRepresented, ChangesOnlyInChains};
    ghost use Rattle.ic_unsafe_ref.specs.Objects.{Objects};
    ghost use Rattle.ic_hash_table.specs.Growth.{HoldsSameMembers};
    ghost use Rattle.ic_hash_table.specs.SideBySide.{HoldsSideBySide};

    /// Takes one more bucket into use, and splits the members of one chain between that chain and a new one. Returns false, and
    /// changes nothing, if all buckets or 4,294,967,295 buckets are in use.
    ///
    /// It requires that `objects` has every member, with the key that the member was inserted by. All members stay in the table, in some order. Members
    /// with equal keys that were side by side stay side by side. O(members of the split chain), with one hash and one write for each member. The call
    /// compares no keys, acquires and releases no link, and takes no memory.
    pub fn grow_one<L: SinglyLinkedListOps, O: Values<A::Value>>(
        &mut self,
        links: &mut L,
        objects: &O,
    ) -> bool
    where
        B: BucketsFor<L>,
        requires held { HoldsSome L.successor (number A.key_of A.hash_of) B.fronts (L.table links.old) self.old (O.values objects.now) }
        ensures holds { (s : List Place) → Holds L.successor (number A.key_of A.hash_of) B.fronts (L.table links.old) self.old (O.values objects.now) s
            → OnTrue result (HoldsSameMembers L.successor (number A.key_of A.hash_of) B.fronts (L.table links.new) self.new (O.values objects.now) s) }
        ensures beside { HoldsSideBySide L.successor (number A.key_of A.hash_of) B.fronts A.Key.eq A.key_of (L.table links.old) self.old (O.values objects.now)
            → HoldsSideBySide L.successor (number A.key_of A.hash_of) B.fronts A.Key.eq A.key_of (L.table links.new) self.new (O.values objects.now) }
        ensures answer { IsTrue result ↔ (((slots_of self.old).used < length (fronts_of B.fronts self.old)) × ((slots_of self.old).used < 4294967295)) }
        ensures used { OnTrue result ((slots_of self.new).used ≡ (slots_of self.old).used + 1) }
        ensures full { OnFalse result ((self.new ≡ self.old) × (links.new ≡ links.old)) }
        ensures trace_stays { L.Trace links.old links.new [] }
        ensures kept { ChangesOnlyInChains L.successor B.fronts B.Rewrites (L.table links.old) (L.table links.new) self.old self.new [] }
    {
        let to = self.slots.used();
        if to >= self.buckets.count() || to >= 4294967295 {
            return false;
        }
        let slots = self.slots.grown();
        let from = slots.split(to);
        let (stays, moves) = part_chain(
            self.adapter,
            slots,
            links,
            objects,
            self.buckets.front(from),
            to,
        );
        self.buckets.set_front(from, stays);
        self.buckets.set_front(to, moves);
        self.slots = slots;
        true
    }

    /// Takes the last bucket out of use, and its members return to the chain from which growth had split them. Returns false, and changes nothing, if only
    /// one bucket is in use. The call undoes [`grow_one`](HashTable::grow_one), except for the order of the members.
    ///
    /// It requires that the links represent the table's chains, and reads no object. All members stay in the table, in some order. Members with equal keys
    /// that were side by side stay side by side. O(members of the last chain). The call computes no hash, compares no keys, acquires and releases no link,
    /// and takes no memory.
    pub fn shrink_one<L: SinglyLinkedListOps>(&mut self, links: &mut L) -> bool
    where
        B: BucketsFor<L>,
        requires shown { (s : List Place) × IsRepresented L.successor B.fronts (L.table links.old) self.old s }
        ensures holds { (objects : Objects A.Value) (s : List Place) → Holds L.successor (number A.key_of A.hash_of) B.fronts (L.table links.old) self.old objects s
            → OnTrue result (HoldsSameMembers L.successor (number A.key_of A.hash_of) B.fronts (L.table links.new) self.new objects s) }
        ensures beside { (objects : Objects A.Value) → HoldsSideBySide L.successor (number A.key_of A.hash_of) B.fronts A.Key.eq A.key_of (L.table links.old) self.old objects
            → HoldsSideBySide L.successor (number A.key_of A.hash_of) B.fronts A.Key.eq A.key_of (L.table links.new) self.new objects }
        ensures answer { IsTrue result ↔ (2 ≤ (slots_of self.old).used) }
        ensures used { OnTrue result ((slots_of self.old).used ≡ (slots_of self.new).used + 1) }
        ensures last { OnFalse result ((self.new ≡ self.old) × (links.new ≡ links.old)) }
        ensures trace_stays { L.Trace links.old links.new [] }
        ensures kept { ChangesOnlyInChains L.successor B.fronts B.Rewrites (L.table links.old) (L.table links.new) self.old self.new [] }
    {
        if self.slots.used() < 2 {
            return false;
        }
        let slots = self.slots.shrunk();
        let last = slots.used();
        let to = self.slots.split(last);
        let front = join_chains(links, self.buckets.front(last), self.buckets.front(to));
        self.buckets.set_front(last, None);
        self.buckets.set_front(to, front);
        self.slots = slots;
        true
    }
}
