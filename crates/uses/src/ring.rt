//! A ring of nodes that divide the keys among themselves by consistent hashing: a key belongs to the first node whose point is at least its hash.
//! After the last node the ring continues with the first.
//!
//! ```text
//! let mut hand = ring::owner_of(ring, &links, &objects, hash); // on the node that the key belongs to
//! hand.move_next(&links); // the node that keeps the copy
//! let (left, hand) = ring::leave(hand.into_inner(), &mut links, &objects, 70); // and on the node that gets its keys
//! ```
//!
//! Each call takes the ring and returns a cursor that owns the ring. The cursor is on a node, or at null.

ghost use Rattle.std.specs.Prelude.{◌≡◌, List, filter};
ghost use Rattle.ic_link_ops.specs.Prelude.{Place, first, site, IsValidCursor, RemovesThere};
ghost use Rattle.ic_link_ops.specs.RedBlackTree.{Represents};
ghost use Rattle.ic_rbtree.specs.CursorOwning.{tree_of, position, site_of};
ghost use Rattle.ic_rbtree.specs.Prelude.{root_of, RepresentsSorted};
ghost use Rattle.uses.specs.Ring.{point, is_from, is_at, is_below, first_round, last_round};

use ic_link_ops::LinkOps;
use ic_link_ops::rbtree::RBTreeOps;
use ic_rbtree::{Bound, CursorOwning, KeyAdapter, RBTree};
use ic_unsafe_ref::{Objects, UnsafeRef};

/// A node of the ring.
#[derive(Copy, Clone, Debug)]
pub struct Node {
    /// The point of the node on the ring. A server may have several nodes, each with its own point.
    pub point: u64,
    /// The number of the node's server. The caller numbers the servers.
    pub server: u64,
}

/// Orders nodes by their points.
#[derive(Copy, Clone)]
pub struct ByPoint;

impl KeyAdapter for ByPoint {
    type Value = Node;

    type Key = u64;

    ghost key_of = { λ a node. node.point };

    #[inline]
    fn get_key<'v>(&self, node: &'v Node) -> &'v u64 {
        &node.point
    }
}

/// Returns a cursor that owns the ring, on the node to which a key with this hash belongs. In an empty ring it is at null. O(log n).
///
/// It requires that there is an object at each member of the ring, and that the nodes are sorted by their points.
pub fn owner_of<L: RBTreeOps>(
    ring: RBTree<ByPoint>,
    links: &L,
    objects: &Objects<Node>,
    hash: u64,
) -> CursorOwning<ByPoint>
    requires ring { RepresentsSorted point (Represents L.node (L.table links.now) (root_of ring)) objects.now }
    ensures ring { tree_of result ≡ ring }
    ensures owner { (s : List Place) → Represents L.node (L.table links.now) (root_of ring) s
        → position result ≡ first_round (is_from objects.now hash) s }
    ensures stands { IsValidCursor (Represents L.node) L.table (site_of links.now result) }
{
    let mut hand = ring.lower_bound_owning(links, objects, Bound::Included(&hash));
    if hand.get_ptr().is_some() {
        return hand;
    }
    hand.move_next(links);
    hand
}

/// Returns a cursor that owns the ring, on the last node before this hash. O(log n).
///
/// If no node is before the hash, the cursor is on the last node of all, or at null in an empty ring. A new node that joins at the hash gets the keys
/// between the cursor's node and the hash. It requires what [`owner_of`] requires.
pub fn node_before<L: RBTreeOps>(
    ring: RBTree<ByPoint>,
    links: &L,
    objects: &Objects<Node>,
    hash: u64,
) -> CursorOwning<ByPoint>
    requires ring { RepresentsSorted point (Represents L.node (L.table links.now) (root_of ring)) objects.now }
    ensures ring { tree_of result ≡ ring }
    ensures node { (s : List Place) → Represents L.node (L.table links.now) (root_of ring) s
        → position result ≡ last_round (is_below objects.now hash) s }
    ensures stands { IsValidCursor (Represents L.node) L.table (site_of links.now result) }
{
    let mut hand = ring.upper_bound_owning(links, objects, Bound::Excluded(&hash));
    if hand.get_ptr().is_some() {
        return hand;
    }
    hand.move_prev(links);
    hand
}

/// Removes the first node at this hash from the ring, and returns the node and a cursor that owns the ring. O(log n).
///
/// It requires what [`owner_of`] requires. The removed node is unlinked, but keeps its place. The cursor is on the node after the removed one, and this
/// node gets the removed node's keys. It is at null if the removed node was the last in the order of points. `None` means that no node is at this hash.
/// Then the cursor is at null, and nothing has changed.
pub fn leave<L: RBTreeOps>(
    ring: RBTree<ByPoint>,
    links: &mut L,
    objects: &Objects<Node>,
    hash: u64,
) -> (Option<UnsafeRef<Node>>, CursorOwning<ByPoint>)
    requires ring { RepresentsSorted point (Represents L.node (L.table links.old) (root_of ring)) objects.now }
    ensures ring { RepresentsSorted point (Represents L.node (L.table links.new) (root_of (tree_of result.1))) objects.now }
    ensures left { (s : List Place) → Represents L.node (L.table links.old) (root_of ring) s
        → RemovesThere (Represents L.node) L.table L.Trace (site links.old (root_of ring) (first (filter (is_at objects.now hash) s)))
        result.0 (site_of links.new result.1) }
{
    let mut hand = ring.find_owning(&*links, objects, &hash);
    let node = hand.remove(links);
    (node, hand)
}
