//! These calls are on trees whose members are in the order of their keys, over a plain table of their links with words of 8 bytes or of 4.
//!
//! ```text
//! let mut tree = rbtree::new(ByDeadline);
//! rbtree::insert(&mut tree, &mut links, &objects, timer);  // no answer: it is not linked
//! let due = rbtree::lower_bound(&tree, &links, &objects, &5); // the first with the key 5 or a greater one
//! rbtree::pop_front(&mut tree, &mut links)                 // the first, which has the lowest key
//! ```

ghost use Rattle.std.specs.Prelude.{◌≡◌, ◌↔◌, ◌++◌, ◌∷◌, [], None, true, List, IsTrue, IfSome, IfNone, drop};
ghost use Rattle.ic_link_ops.specs.Prelude.{Place, Objects as Placed, is_placed, first, last, but_last, Table, IsCovered, IsUnlinked, LinksAlso, Unlinks, ChangesOnlyIn, HasMember};
ghost use Rattle.ic_link_ops.specs.RedBlackTree.{Represents, RepresentsSome};
ghost use Rattle.ic_link_ops.specs.ThreeWords.{node_of};
ghost use Rattle.ic_rbtree.specs.PlainTrees.{TreeLink};
ghost use Rattle.ic_rbtree.specs.Tree.{adapter_of, root_of};
ghost use Rattle.ic_plain.specs.SortedTrees.{IsInOrder, StaysInOrder, with_key, from_key, put_by_key};
ghost use Rattle.ic_plain.specs.TreeEdits.{PopsMember};

use ic_cursors::{Bidirectional, CursorOps};
use ic_link_ops::rbtree::RBTreeOps;
use ic_link_ops::{AcceptsUnlinked, PlaceWord};
use ic_rbtree::{Bound, KeyAdapter, RBTree};
use ic_unsafe_ref::{Objects, Place, UnsafeRef};
use std::alloc::Allocator;

/// A new tree with no members. Every table represents the empty sequence for it. Members that are inserted later are in the order of the keys that the adapter
/// finds. The call takes no memory. O(1).
#[inline]
pub fn new<K: KeyAdapter>(adapter: K) -> RBTree<K>
    ensures empty { root_of result ≡ None }
    ensures sorted { (t : Table TreeLink) (objects : Placed K.Value) → IsInOrder K.Key.cmp K.key_of node_of t result objects }
    ensures adapter { adapter_of result ≡ adapter }
{
    RBTree::new(adapter)
}

/// Whether the tree has no members. O(1).
#[inline]
pub fn is_empty<K: KeyAdapter, L: RBTreeOps>(tree: &RBTree<K>, links: &L) -> bool
    requires shown { RepresentsSome L.node (L.table links.now) (root_of tree.now) }
    ensures empty { (s : List Place) → Represents L.node (L.table links.now) (root_of tree.now) s → IsTrue result ↔ (s ≡ []) }
{
    let _ = links;
    tree.is_empty()
}

/// The place of the first member, or `None` in an empty tree. If the tree is in the order of the keys, this member has the lowest key. O(log n).
#[inline]
pub fn first<K: KeyAdapter, L: RBTreeOps>(tree: &RBTree<K>, links: &L) -> Option<Place>
    requires shown { RepresentsSome L.node (L.table links.now) (root_of tree.now) }
    ensures first { (s : List Place) → Represents L.node (L.table links.now) (root_of tree.now) s → result ≡ first s }
{
    tree.first(links)
}

/// The place of the last member, or `None` in an empty tree. If the tree is in the order of the keys, this member has the highest key. O(log n).
#[inline]
pub fn last<K: KeyAdapter, L: RBTreeOps>(tree: &RBTree<K>, links: &L) -> Option<Place>
    requires shown { RepresentsSome L.node (L.table links.now) (root_of tree.now) }
    ensures last { (s : List Place) → Represents L.node (L.table links.now) (root_of tree.now) s → result ≡ last s }
{
    tree.last(links)
}

/// The place of the first member whose key equals `key`, or `None` if no member has such a key. It requires that the members are in the order of
/// their keys. O(log n).
#[inline]
pub fn find<K: KeyAdapter, L: RBTreeOps, B: Allocator>(
    tree: &RBTree<K>,
    links: &L,
    objects: &Objects<K::Value, B>,
    key: &K::Key,
) -> Option<Place>
    requires sorted { IsInOrder K.Key.cmp K.key_of L.node (L.table links.now) tree.now objects.now }
    ensures found { (s : List Place) → Represents L.node (L.table links.now) (root_of tree.now) s
        → result ≡ first (with_key K.Key.cmp K.key_of tree.now objects.now key.now s) }
{
    tree.find(links, objects, key).get_ptr()
}

/// The place of the first member whose key is `key` or greater, or `None` if all keys are less. It requires that the members are in the order of
/// their keys. O(log n).
#[inline]
pub fn lower_bound<K: KeyAdapter, L: RBTreeOps, B: Allocator>(
    tree: &RBTree<K>,
    links: &L,
    objects: &Objects<K::Value, B>,
    key: &K::Key,
) -> Option<Place>
    requires sorted { IsInOrder K.Key.cmp K.key_of L.node (L.table links.now) tree.now objects.now }
    ensures found { (s : List Place) → Represents L.node (L.table links.now) (root_of tree.now) s
        → result ≡ first (from_key K.Key.cmp K.key_of tree.now objects.now key.now s) }
{
    tree.lower_bound(links, objects, Bound::Included(key))
        .get_ptr()
}

/// The place of the member after the member at `place`, or `None` if it is the last member. The call requires that `place` is a member. O(log n), and
/// O(1) on average over a walk.
#[inline]
pub fn next<K: KeyAdapter, L: RBTreeOps>(tree: &RBTree<K>, links: &L, place: Place) -> Option<Place>
    requires member { HasMember (Represents L.node (L.table links.now) (root_of tree.now)) place }
    ensures next { (front back : List Place) → Represents L.node (L.table links.now) (root_of tree.now) (front ++ place ∷ back) → result ≡ first back }
{
    tree.next_of(links, &PlaceWord::of(Some(place))).get()
}

/// The place of the member before the member at `place`, or `None` if it is the first member. The call requires that `place` is a member. O(log n),
/// and O(1) on average over a walk.
#[inline]
pub fn prev<K: KeyAdapter, L: RBTreeOps>(tree: &RBTree<K>, links: &L, place: Place) -> Option<Place>
    requires member { HasMember (Represents L.node (L.table links.now) (root_of tree.now)) place }
    ensures prev { (front back : List Place) → Represents L.node (L.table links.now) (root_of tree.now) (front ++ place ∷ back) → result ≡ last front }
{
    tree.prev_of(links, &PlaceWord::of(Some(place))).get()
}

/// Inserts the object by its key, after the members whose keys are the same or lower. The call requires that the object is in `objects` and is not
/// linked, and that the table covers its place. The call also requires that the members are in the order of their keys. O(log n).
#[inline]
pub fn insert<K: KeyAdapter, L: RBTreeOps + AcceptsUnlinked, B: Allocator>(
    tree: &mut RBTree<K>,
    links: &mut L,
    objects: &Objects<K::Value, B>,
    object: UnsafeRef<K::Value>,
)
    requires covered { IsCovered (L.table links.old) object }
    requires unlinked { IsUnlinked L.linked (L.table links.old) object }
    requires object { is_placed objects.now object ≡ true }
    requires sorted { IsInOrder K.Key.cmp K.key_of L.node (L.table links.old) tree.old objects.now }
    ensures shown { (s : List Place) → Represents L.node (L.table links.old) (root_of tree.old) s → Represents L.node (L.table links.new) (root_of tree.new)
        (put_by_key K.Key.cmp K.key_of tree.old objects.now s object) }
    ensures shows { RepresentsSome L.node (L.table links.new) (root_of tree.new) }
    ensures sorted { IsInOrder K.Key.cmp K.key_of L.node (L.table links.new) tree.new objects.now }
    ensures linked { LinksAlso L.linked (L.table links.old) (L.table links.new) object }
    ensures adapter { adapter_of tree.new ≡ adapter_of tree.old }
    ensures frame { (s : List Place) → Represents L.node (L.table links.old) (root_of tree.old) s
        → ChangesOnlyIn (L.table links.old) (L.table links.new) (object ∷ s) }
{
    let _ = tree.insert(links, objects, object); // proved: it is not linked
}

/// Removes the object from the tree. It requires that the object is a member. O(log n).
#[inline]
pub fn remove<K: KeyAdapter, L: RBTreeOps>(
    tree: &mut RBTree<K>,
    links: &mut L,
    object: &UnsafeRef<K::Value>,
)
    requires member { HasMember (Represents L.node (L.table links.old) (root_of tree.old)) object.now }
    ensures shown { (front back : List Place) → Represents L.node (L.table links.old) (root_of tree.old) (front ++ object.now ∷ back)
        → Represents L.node (L.table links.new) (root_of tree.new) (front ++ back) }
    ensures shows { RepresentsSome L.node (L.table links.new) (root_of tree.new) }
    ensures sorted { StaysInOrder K.Key.cmp K.key_of L.node (L.table links.old) tree.old (L.table links.new) tree.new }
    ensures unlinked { Unlinks L.linked (L.table links.old) (L.table links.new) object.now }
    ensures adapter { adapter_of tree.new ≡ adapter_of tree.old }
    ensures frame { (s : List Place) → Represents L.node (L.table links.old) (root_of tree.old) s → ChangesOnlyIn (L.table links.old) (L.table links.new) s }
{
    tree.remove(links, object);
}

/// Removes the first member whose key equals `key` and returns it, or returns `None` if no member has such a key. It requires that the members are in
/// the order of their keys. O(log n).
#[inline]
pub fn remove_key<K: KeyAdapter, L: RBTreeOps, B: Allocator>(
    tree: &mut RBTree<K>,
    links: &mut L,
    objects: &Objects<K::Value, B>,
    key: &K::Key,
) -> Option<UnsafeRef<K::Value>>
    requires sorted { IsInOrder K.Key.cmp K.key_of L.node (L.table links.old) tree.old objects.now }
    ensures answer { (s : List Place) → Represents L.node (L.table links.old) (root_of tree.old) s
        → result ≡ first (with_key K.Key.cmp K.key_of tree.old objects.now key.now s) }
    ensures shown { IfSome result (λ object. (front back : List Place) → Represents L.node (L.table links.old) (root_of tree.old) (front ++ object ∷ back)
        → Represents L.node (L.table links.new) (root_of tree.new) (front ++ back)) }
    ensures shows { RepresentsSome L.node (L.table links.new) (root_of tree.new) }
    ensures sorted { IsInOrder K.Key.cmp K.key_of L.node (L.table links.new) tree.new objects.now }
    ensures unlinked { IfSome result (λ object. Unlinks L.linked (L.table links.old) (L.table links.new) object) }
    ensures none { IfNone result ((tree.new ≡ tree.old) × (links.new ≡ links.old)) }
    ensures adapter { adapter_of tree.new ≡ adapter_of tree.old }
    ensures frame { (s : List Place) → Represents L.node (L.table links.old) (root_of tree.old) s → ChangesOnlyIn (L.table links.old) (L.table links.new) s }
{
    let object = UnsafeRef::new(find(tree, &*links, objects, key)?);
    remove(tree, links, &object);
    Some(object)
}

/// Removes the first member and returns it, or `None` if the tree is empty. If the tree is in the order of the keys, this member has the lowest key.
/// O(log n).
#[inline]
pub fn pop_front<K: KeyAdapter, L: RBTreeOps>(
    tree: &mut RBTree<K>,
    links: &mut L,
) -> Option<UnsafeRef<K::Value>>
    requires shown { RepresentsSome L.node (L.table links.old) (root_of tree.old) }
    ensures { PopsMember K.Key.cmp K.key_of L.node L.linked L.table first (drop 1) links.old tree.old result links.new tree.new }
{
    let object = UnsafeRef::new(first(tree, &*links)?);
    remove(tree, links, &object);
    Some(object)
}

/// Removes the last member and returns it, or `None` if the tree is empty. If the tree is in the order of the keys, this member has the highest key.
/// O(log n).
#[inline]
pub fn pop_back<K: KeyAdapter, L: RBTreeOps>(
    tree: &mut RBTree<K>,
    links: &mut L,
) -> Option<UnsafeRef<K::Value>>
    requires shown { RepresentsSome L.node (L.table links.old) (root_of tree.old) }
    ensures { PopsMember K.Key.cmp K.key_of L.node L.linked L.table last but_last links.old tree.old result links.new tree.new }
{
    let object = UnsafeRef::new(last(tree, &*links)?);
    remove(tree, links, &object);
    Some(object)
}
