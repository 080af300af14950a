//! What a worker has: its own links, its own list, and the places that the worker is to claim.

ghost use Rattle.std.specs.Prelude.{◌≡◌, ◌≤◌, [], Bool, List, All, IfOk, length};
ghost use Rattle.ic_link_ops.specs.Prelude.{Place, IsCovered, IsUnlinked};
ghost use Rattle.ic_link_ops.specs.LinkedList.{Represents, RepresentsSome};
ghost use Rattle.ic_atomic.specs.Gathering.{claims_of_each, chosen};
ghost use Rattle.ic_atomic.specs.Holders.{places_of, record_of, IsOf};
ghost use Rattle.ic_link_ops.specs.DoublyEntries.{PlainRepresents, PlainRepresentsSome};
ghost use Rattle.ic_workers.specs.Claimed.{IsRow};
ghost use Rattle.ic_workers.specs.Parties.{IsReady, HasGathered};

use ic_atomic::{AtomicLinkOps, Claims, Gate, Holder, PlainLinkOps, gather};
use ic_link_ops::linked_list::{LinkOps, LinkedListOps};
use ic_linked_list::LinkedList;
use ic_unsafe_ref::{Place, UnsafeRef};
use std::alloc::{AllocError, Allocator};
use std::snapshot::Snapshot;
use std::thread::Promise;

// What all workers share: the claim words, and the places that the workers are to claim.
#[derive(Drop)]
pub(crate) struct Offer<'c, A: Allocator> {
    pub(crate) claims: &'c Claims<A>,
    pub(crate) offered: &'c [UnsafeRef<()>],
}

// A worker's own holder, table and list, with the places that the worker is to claim. The objects have a size of 0 bytes, since only their places matter.
#[derive(Drop)]
pub(crate) struct Party<'c, A: Allocator> {
    claims: &'c Claims<A>,
    offered: &'c [UnsafeRef<()>],
    holder: Holder,
    table: LinkOps<A>,
    list: LinkedList<()>,
}

impl<'c, A: Allocator + Copy> Party<'c, A> {
    // Makes a party that has not claimed any of the offered places.
    pub(crate) fn new(
        alloc: A,
        offer: &Offer<'c, A>,
        holder: Holder,
    ) -> Result<Party<'c, A>, AllocError>
        requires made { IsOf offer.now.claims.now holder }
        requires fresh { record_of holder ≡ [] }
        requires row { IsRow 0 offer.now.offered.now }
        requires long { length offer.now.offered.now ≡ places_of offer.now.claims.now }
        ensures { IfOk result (λ party. IsReady offer.now.claims.now party) }
    {
        let mut table = LinkOps::new(alloc);
        match table.cover(offer.claims.places()) {
            Ok(()) => Ok(Party {
                claims: offer.claims,
                offered: offer.offered,
                holder,
                table,
                list: LinkedList::new(),
            }),
            Err(_) => Err(AllocError),
        }
    }
}

impl<A: Allocator> Party<'_, A> {
    // Tries to claim each offered place, and appends to the party's list the places whose claims succeed. The party reports to the gate under the number
    // `number`.
    pub(crate) fn work<G: Gate>(self, number: usize, gate: &G) -> Gathered<A>
        requires { IsReady self.claims.now self }
        ensures gathered { HasGathered self.entry.claims.now result }
        ensures reported { G.Reported gate.now number (places_of self.entry.claims.now) }
    {
        let Party {
            claims,
            offered,
            holder,
            table,
            mut list,
        } = self;
        let (holder, table) = claim_each(number, claims, offered, holder, &mut list, table, gate);
        Gathered {
            holder,
            table,
            list,
        }
    }
}

// Tries to claim each offered place for the holder, which holds no place yet, and appends to the empty list the places whose claims succeed. Returns the
// holder, and the table, which represents the list. The holder reports to the gate under the number `number`.
fn claim_each<L: PlainLinkOps + LinkedListOps, A: Allocator, G: Gate>(
    number: usize,
    claims: &Claims<A>,
    offered: &[UnsafeRef<()>],
    holder: Holder,
    list: &mut LinkedList<()>,
    table: L,
    gate: &G,
) -> (Holder, L)
    requires made { IsOf claims.now holder }
    requires fresh { record_of holder ≡ [] }
    requires unlinked { (p : Place) → IsUnlinked L.linked (L.table table) p }
    requires claimable { (L.table table).extent.places ≤ places_of claims.now }
    requires covered { All (IsCovered (L.table table)) offered.now }
    requires empty { Represents L.neighbors (L.table table) list.old [] }
    ensures made { IsOf claims.now result.0 }
    ensures claimed { (got : List Bool) × (length got ≡ length offered.now)
        × (record_of result.0 ≡ claims_of_each offered.now got)
        × Represents L.neighbors (L.table result.1) list.new (chosen offered.now got) }
    ensures reported { G.Reported gate.now number (length offered.now) }
{
    let mut links = AtomicLinkOps::new(claims, holder, table);
    gather(number, offered, list, &mut links, gate);
    links.into_parts()
}

// What a worker returns: its holder, and its list with the table that represents this list.
#[derive(Drop)]
pub(crate) struct Gathered<A: Allocator> {
    holder: Holder,
    table: LinkOps<A>,
    list: LinkedList<()>,
}

impl<A: Allocator> Gathered<A> {
    // Returns the worker's holder, and the places in its list.
    pub(crate) fn into_places<B: Allocator>(
        self,
        alloc: B,
    ) -> Result<(Holder, Vec<Place, B>), AllocError>
        requires { PlainRepresentsSome self.table self.list }
        ensures holder { IfOk result (λ taken. taken.0 ≡ self.holder) }
        ensures places { (s : List Place) → PlainRepresents self.table self.list s → IfOk result (λ taken. taken.1.items ≡ s) }
    {
        let Gathered {
            holder,
            table,
            list,
        } = self;
        let places = members(alloc, &list, &table)?;
        Ok((holder, places))
    }
}

// Returns the members of a list.
fn members<L: LinkedListOps, A: Allocator>(
    alloc: A,
    list: &LinkedList<()>,
    links: &L,
) -> Result<Vec<Place, A>, AllocError>
    requires { RepresentsSome L.neighbors (L.table links.now) list.now }
    ensures { (s : List Place) → Represents L.neighbors (L.table links.now) list.now s → IfOk result (λ places. places.items ≡ s) }
{
    let mut places = Vec::new(alloc);
    let mut cursor = list.front(links);
    while let Some(place) = cursor.get_ptr() {
        places.push(place)?;
        cursor.move_next();
    }
    Ok(places)
}

// What a worker's thread guarantees about its result: the worker has tried to claim each place of the claims, and has reported each try to the gate under the
// number `number`.
#[derive(Drop)]
pub(crate) struct ClaimedAll<A: Allocator, G> {
    pub(crate) claims: Snapshot<Claims<A>>,
    pub(crate) gate: Snapshot<G>,
    pub(crate) number: usize,
}

impl<A: Allocator, G: Gate> Promise<Gathered<A>> for ClaimedAll<A, G> {
    ghost kept_by = { λ promise gathered. HasGathered promise.claims.value gathered
        × G.Reported promise.gate.value promise.number (places_of promise.claims.value) };
}
