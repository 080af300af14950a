//! A queue of values sorted by deadline. The value with the earliest deadline is taken first, and among values with equal deadlines the one that was
//! scheduled first.
//!
//! ```text
//! let mut timers = RBTree::new(ByDeadline::new());
//! timer_queue::schedule(&mut timers, &mut links, &objects, timer)?;
//! let due = timer_queue::take_due(&mut timers, &mut links, &objects, now); // that timer, if its deadline is at most `now`
//! timer_queue::take_all_due(&mut timers, &mut links, &objects, now, &mut expired)?; // and all others that are due
//! timer_queue::cancel(&mut timers, &mut links, other);
//! ```

ghost use Rattle.std.specs.Prelude.{◌≡◌, ◌++◌, ◌∷◌, [], ◌≤◌, ◌<◌, true, List, OnOk, OnErr, OnSome, IfErr, IfSome, IfNone, vec_len, vec_capacity};
ghost use Rattle.std.specs.List.{AllByRecursion};
ghost use Rattle.std.specs.Option.{option_copied};
ghost use Rattle.ic_link_ops.specs.Prelude.{Place, is_placed, first, at_front, IsCovered, ChangesOnlyIn, HasMember, RepresentsAt, acquires, releases, releases_each, Removes};
ghost use Rattle.ic_link_ops.specs.RedBlackTree.{Represents};
ghost use Rattle.ic_rbtree.specs.CursorMut.{tree_of, links_of, site_of, SameBorrows};
ghost use Rattle.ic_rbtree.specs.Prelude.{root_of, if_passes, InsertsInOrder};
ghost use Rattle.ic_rbtree.specs.SortedObjects.{against, key_at, RepresentsSorted, StaysSorted};
ghost use Rattle.scheduler.specs.Timers.{due, is_due, handed_back, ComesFirst, IsAtFront};

mod deadline;

pub use deadline::{ByDeadline, HasDeadline};
use ic_link_ops::rbtree::RBTreeOps;
use ic_link_ops::{AlreadyLinked, LinkOps};
use ic_rbtree::{CursorMut, RBTree};
use ic_unsafe_ref::{Objects, UnsafeRef};
use std::alloc::{AllocFailed, Allocator};

/// Inserts a timer into the queue, after all timers with the same deadline or an earlier one, unless its link is refused. O(log n), and it takes no
/// memory.
///
/// It requires that the timer is an object and the table covers its place. It also requires that the timers in the queue are objects, sorted by their
/// deadlines, as every call of this module leaves them. If the link is refused, the caller gets the timer back, and the queue has not changed.
pub fn schedule<T: HasDeadline, L: RBTreeOps, B: Allocator>(
    timers: &mut RBTree<ByDeadline<T>>,
    links: &mut L,
    objects: &Objects<T, B>,
    timer: UnsafeRef<T>,
) -> Result<(), AlreadyLinked<T>>
    requires covered { IsCovered (L.table links.old) timer }
    requires object { is_placed objects.now timer ≡ true }
    requires queue { RepresentsSorted T.deadline (Represents L.node (L.table links.old) (root_of timers.old)) objects.now }
    ensures queue { RepresentsSorted T.deadline (Represents L.node (L.table links.new) (root_of timers.new)) objects.now }
    ensures scheduled { (s : List Place) → Represents L.node (L.table links.old) (root_of timers.old) s
        → OnOk result (InsertsInOrder (Represents L.node) (against T.deadline objects.now timer) (L.table links.old) (L.table links.new)
        (root_of timers.new) s timer) }
    ensures acquired { OnOk result (L.Trace links.old links.new (acquires timer ∷ [])) }
    ensures refused { OnErr result (L.Refused links.old links.new timer) }
    ensures unchanged { IfErr result (λ refused. (refused.0 ≡ timer) × (timers.new ≡ timers.old)) }
{
    timers.insert(links, objects, timer)
}

// Returns whether there is a timer that is due at `now`.
#[inline]
fn is_due<T: HasDeadline>(timer: Option<&T>, now: u64) -> bool
    ensures { result ≡ due T.deadline now (option_copied timer.entry) }
{
    match timer {
        Some(timer) => *timer.deadline() <= now,
        None => false,
    }
}

// Removes and returns the first timer, on which the cursor is, if its deadline is at most `now`. Otherwise it returns `None`. The cursor moves to the
// timer that is then first. O(log n), and O(1) on average over many removals.
#[inline]
pub(crate) fn take_due_at<T: HasDeadline, L: RBTreeOps, B: Allocator>(
    cursor: &mut CursorMut<'_, ByDeadline<T>, L>,
    objects: &Objects<T, B>,
    now: u64,
) -> Option<UnsafeRef<T>>
    requires front { IsAtFront T.deadline L.node L.table objects.now (site_of cursor.old) }
    ensures front { IsAtFront T.deadline L.node L.table objects.now (site_of cursor.new) }
    ensures due { (s : List Place) → RepresentsAt (Represents L.node) L.table (site_of cursor.old) s
        → result ≡ if_passes (is_due T.deadline objects.now now) (first s) }
    ensures none_due { (s : List Place) → RepresentsAt (Represents L.node) L.table (site_of cursor.old) s
        → IfNone result (AllByRecursion (λ p. now < key_at T.deadline objects.now p) s) }
    ensures taken { (s : List Place) → RepresentsAt (Represents L.node) L.table (site_of cursor.old) s
        → OnSome result (Removes (Represents L.node) (L.table (links_of cursor.old)) (L.table (links_of cursor.new))
        (root_of (tree_of cursor.new)) (at_front s)) }
    ensures released { IfSome result (λ timer. L.Trace (links_of cursor.old) (links_of cursor.new) (releases timer ∷ [])) }
    ensures unchanged { IfNone result ((tree_of cursor.new ≡ tree_of cursor.old) × (links_of cursor.new ≡ links_of cursor.old)) }
    ensures borrows { SameBorrows cursor.old cursor.new }
{
    if !is_due(cursor.get(objects), now) {
        return None;
    }
    cursor.remove()
}

/// Removes and returns the first timer if its deadline is at most `now`, and returns `None` otherwise. O(log n).
///
/// It requires that the timers in the queue are objects, sorted by their deadlines. The removed timer is unlinked, but keeps its place, and no timer
/// in the queue was due before it. If the call returns `None`, nothing has changed.
pub fn take_due<T: HasDeadline, L: RBTreeOps, B: Allocator>(
    timers: &mut RBTree<ByDeadline<T>>,
    links: &mut L,
    objects: &Objects<T, B>,
    now: u64,
) -> Option<UnsafeRef<T>>
    requires queue { RepresentsSorted T.deadline (Represents L.node (L.table links.old) (root_of timers.old)) objects.now }
    ensures queue { RepresentsSorted T.deadline (Represents L.node (L.table links.new) (root_of timers.new)) objects.now }
    ensures due { (s : List Place) → Represents L.node (L.table links.old) (root_of timers.old) s
        → result ≡ if_passes (is_due T.deadline objects.now now) (first s) }
    ensures earliest { (s : List Place) → Represents L.node (L.table links.old) (root_of timers.old) s
        → IfSome result (λ timer. AllByRecursion (λ p. key_at T.deadline objects.now timer ≤ key_at T.deadline objects.now p) s) }
    ensures none_due { (s : List Place) → Represents L.node (L.table links.old) (root_of timers.old) s
        → IfNone result (AllByRecursion (λ p. now < key_at T.deadline objects.now p) s) }
    ensures taken { (s : List Place) → Represents L.node (L.table links.old) (root_of timers.old) s
        → OnSome result (Removes (Represents L.node) (L.table links.old) (L.table links.new) (root_of timers.new) (at_front s)) }
    ensures released { IfSome result (λ timer. L.Trace links.old links.new (releases timer ∷ [])) }
    ensures unchanged { IfNone result ((timers.new ≡ timers.old) × (links.new ≡ links.old)) }
{
    let mut cursor = timers.front_mut(links);
    take_due_at(&mut cursor, objects, now)
}

/// Removes all timers that are due at `now`, the earliest first, and appends them to `due`. It costs O(log n), plus O(1) on average for each removed
/// timer.
///
/// It requires that the timers in the queue are objects, sorted by their deadlines. The removed timers are unlinked, but keep their places. It takes
/// memory only for `due`, and none if `due` has room. If `due` cannot grow, the call returns the timer for which there was no room. This timer is
/// unlinked like those in `due`, and the other timers still wait.
pub fn take_all_due<T: HasDeadline, L: RBTreeOps, B: Allocator, C: Allocator>(
    timers: &mut RBTree<ByDeadline<T>>,
    links: &mut L,
    objects: &Objects<T, B>,
    now: u64,
    due: &mut Vec<UnsafeRef<T>, C>,
) -> Result<(), AllocFailed<UnsafeRef<T>>>
    requires queue { RepresentsSorted T.deadline (Represents L.node (L.table links.old) (root_of timers.old)) objects.now }
    ensures queue { RepresentsSorted T.deadline (Represents L.node (L.table links.new) (root_of timers.new)) objects.now }
    ensures taken { (s : List Place) → Represents L.node (L.table links.old) (root_of timers.old) s → (taken rest : List Place)
        × ComesFirst T.deadline objects.now now taken rest s × (due.new.items ++ handed_back result ≡ due.old.items ++ taken)
        × Represents L.node (L.table links.new) (root_of timers.new) rest × L.Trace links.old links.new (releases_each taken) }
    ensures none_due { (s : List Place) → Represents L.node (L.table links.new) (root_of timers.new) s
        → OnOk result (AllByRecursion (λ p. now < key_at T.deadline objects.now p) s) }
    ensures full { OnErr result (vec_capacity due.old ≤ vec_len due.new) }
    ensures frame { (s : List Place) → Represents L.node (L.table links.old) (root_of timers.old) s
        → ChangesOnlyIn (L.table links.old) (L.table links.new) s }
{
    let mut cursor = timers.front_mut(links);
    while let Some(timer) = take_due_at(&mut cursor, objects, now) {
        due.push(timer)?;
    }
    Ok(())
}

/// Cancels a timer: removes it from the queue, in which all other timers stay in their order. O(log n), and it takes no memory.
///
/// It requires that the timer is in the queue, and then the call is never refused. The removed timer is unlinked, but keeps its place.
pub fn cancel<T: HasDeadline, L: RBTreeOps>(
    timers: &mut RBTree<ByDeadline<T>>,
    links: &mut L,
    timer: UnsafeRef<T>,
)
    requires member { HasMember (Represents L.node (L.table links.old) (root_of timers.old)) timer }
    ensures queue { StaysSorted T.deadline (Represents L.node (L.table links.old) (root_of timers.old))
        (Represents L.node (L.table links.new) (root_of timers.new)) }
    ensures cancelled { (front back : List Place)
        → Represents L.node (L.table links.old) (root_of timers.old) (front ++ timer ∷ back)
        → Represents L.node (L.table links.new) (root_of timers.new) (front ++ back) }
    ensures released { L.Trace links.old links.new (releases timer ∷ []) }
    ensures frame { (s : List Place) → Represents L.node (L.table links.old) (root_of timers.old) s
        → ChangesOnlyIn (L.table links.old) (L.table links.new) s }
{
    timers.remove(links, &timer);
}
