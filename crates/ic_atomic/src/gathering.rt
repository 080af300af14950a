//! Several parties are offered the same places, and each place goes to one of them.
//!
//! ```text
//! // in each thread, with links and a list of its own
//! let got = gather(1, &offered, &mut list, &mut links, &gate); // how many of the offered objects are in its list
//! ```

ghost use Rattle.std.specs.Prelude.{◌≡◌, ℕ, ◌++◌, List, Bool, length, All};
ghost use Rattle.ic_link_ops.specs.Prelude.{Place, IsCovered, ChangesOnlyIn};
ghost use Rattle.ic_link_ops.specs.LinkedList.{Represents, RepresentsSome};
ghost use Rattle.ic_atomic.specs.AtomicLinks.{claims_of, record_in, links_of};
ghost use Rattle.ic_atomic.specs.Gathering.{claims_of_each, chosen, IsNext};

use crate::AtomicLinkOps;
use crate::plain_link_ops::PlainLinkOps;
use ic_link_ops::linked_list::LinkedListOps;
use ic_linked_list::LinkedList;
use ic_unsafe_ref::UnsafeRef;
use std::alloc::Allocator;

/// A gate that each worker calls to report its progress. The gate may delay the worker in this call.
pub trait Gate {
    // The statement that the gate was called for the worker with the first number, after as many results as the second number. Only `passed` makes this
    // statement true.
    ghost Reported: { Self → ℕ → ℕ → Type 0 };

    /// Records that the worker with the number `worker` has received `answered` results.
    ///
    /// The call requires that `answered` is 0, or one more than in an earlier call for this worker.
    fn passed(&self, worker: usize, answered: usize)
        requires in_order { IsNext (Reported self.now worker) answered }
        ensures reported { Reported self.now worker answered };
}

/// Inserts each offered object whose place nobody holds at the back of the party's list, and returns how many objects were inserted.
///
/// The call requires that the table covers the offered places and represents a sequence for the list. The call claims each place once, in the order in which
/// the places are offered. An object that some party already holds stays where it is, also if the calling party holds it. The call reports 0 to the gate before
/// the first claim, and i after claim number i. O(offered). The call takes no memory, and waits for nothing except the gate.
pub fn gather<T, L: PlainLinkOps + LinkedListOps, A: Allocator, G: Gate>(
    worker: usize,
    offered: &[UnsafeRef<T>],
    list: &mut LinkedList<T>,
    links: &mut AtomicLinkOps<'_, L, A>,
    gate: &G,
) -> usize
    requires covered { All (IsCovered (L.table (links_of links.old))) offered.now }
    requires shown { RepresentsSome L.neighbors (L.table (links_of links.old)) list.old }
    ensures gathered { (got : List Bool) × (length got ≡ length offered.now)
        × (record_in links.new ≡ record_in links.old ++ claims_of_each offered.now got)
        × (result ≡ length (chosen offered.now got))
        × ((s : List Place) → Represents L.neighbors (L.table (links_of links.old)) list.old s
        → Represents L.neighbors (L.table (links_of links.new)) list.new (s ++ chosen offered.now got)) }
    ensures claims { claims_of links.new ≡ claims_of links.old }
    ensures reported { G.Reported gate.now worker (length offered.now) }
    ensures frame { (s : List Place) → Represents L.neighbors (L.table (links_of links.old)) list.old s
        → ChangesOnlyIn (L.table (links_of links.old)) (L.table (links_of links.new)) (offered.now ++ s) }
{
    gate.passed(worker, 0);
    let mut pushed = 0;
    let mut answered = 0;
    for object in offered {
        if list
            .push_back(links, UnsafeRef::new(object.place()))
            .is_ok()
        {
            pushed += 1;
        }
        answered += 1;
        gate.passed(worker, answered);
    }
    pushed
}
