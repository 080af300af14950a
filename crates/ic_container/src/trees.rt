//! A container can have its objects in trees, over links of either width. Each tree has all objects, in the order of a number that the tree's adapter
//! returns for each object.
//!
//! ```text
//! trees::insert(&mut self.by_number, &mut self.pool.links.0, &self.pool.objects, object.place());
//! let place = trees::find(&self.by_number, &self.pool.links.0, &self.pool.objects, 7)?;
//! trees::remove(&mut self.by_number, &mut self.pool.links.0, &self.pool.objects, place);
//! ```

ghost use Rattle.std.specs.Prelude.{◌≡◌, true};
ghost use Rattle.std.specs.Option.{option_copied};
ghost use Rattle.ic_link_ops.specs.Prelude.{Place, Objects as Placed, Frees, is_placed, IsCovered, IsUnlinked};
ghost use Rattle.ic_rbtree.specs.Members.{members};
ghost use Rattle.ic_rbtree.specs.Tree.{adapter_of, root_of};
ghost use Rattle.ic_container.specs.Trees.{HasAllIn, IsFound, IsFoundObject, LacksOne, PutsInOrder};
ghost use Rattle.ic_container.specs.Values.{Without};

use ic_link_ops::AcceptsUnlinked;
use ic_link_ops::rbtree::RBTreeOps;
use ic_rbtree::{KeyAdapter, RBTree};
use ic_unsafe_ref::{Objects, Place, UnsafeRef};
use std::alloc::Allocator;

/// Returns the place of an object with this key, or `None` if no object has this key. The call requires that the tree has all objects. O(log n).
pub fn find<K: KeyAdapter<Key = u64>, L: RBTreeOps, B: Allocator>(
    tree: &RBTree<K>,
    links: &L,
    objects: &Objects<K::Value, B>,
    key: u64,
) -> Option<Place>
    requires all { HasAllIn L.node L.linked L.table (K.key_of (adapter_of tree.now)) links.now (root_of tree.now) objects.now }
    ensures { IsFound (K.key_of (adapter_of tree.now)) objects.now key result }
{
    tree.find(links, objects, &key).get_ptr()
}

/// Returns an object with this key, or `None` if no object has this key. The call requires that the tree has all objects. O(log n).
pub fn get<'o, K: KeyAdapter<Key = u64>, L: RBTreeOps, B: Allocator>(
    tree: &RBTree<K>,
    links: &L,
    objects: &'o Objects<K::Value, B>,
    key: u64,
) -> Option<&'o K::Value>
    requires all { HasAllIn L.node L.linked L.table (K.key_of (adapter_of tree.now)) links.now (root_of tree.now) objects.now }
    ensures { IsFoundObject (K.key_of (adapter_of tree.now)) objects.now key (option_copied result) }
{
    let place = find(tree, links, objects, key)?;
    objects.get(place)
}

/// Inserts a new object where its key belongs, after objects with the same key. The call requires that the tree has every other object, and that the table
/// covers the place. O(log n), and it takes no memory.
pub fn insert<K: KeyAdapter<Key = u64>, L: RBTreeOps + AcceptsUnlinked, B: Allocator>(
    tree: &mut RBTree<K>,
    links: &mut L,
    objects: &Objects<K::Value, B>,
    place: Place,
)
    requires covered { IsCovered (L.table links.old) place }
    requires lacks { LacksOne (HasAllIn L.node L.linked L.table (K.key_of (adapter_of tree.old)) links.old (root_of tree.old)) objects.now place }
    ensures all { HasAllIn L.node L.linked L.table (K.key_of (adapter_of tree.old)) links.new (root_of tree.new) objects.now }
    ensures order { PutsInOrder (K.key_of (adapter_of tree.old)) objects.now (members L.node (L.table links.old) (root_of tree.old)) (members L.node (L.table links.new) (root_of tree.new)) place }
    ensures adapter { adapter_of tree.new ≡ adapter_of tree.old }
{
    let _ = tree.insert(links, objects, UnsafeRef::new(place)); // proved: it is not linked
}

/// Removes an object from the tree. Afterwards the caller removes the object from its place. The call requires that the tree has all objects, and that there
/// is an object at the place. O(log n), and it takes no memory.
pub fn remove<K: KeyAdapter<Key = u64>, L: RBTreeOps, B: Allocator>(
    tree: &mut RBTree<K>,
    links: &mut L,
    objects: &Objects<K::Value, B>,
    place: Place,
)
    requires all { HasAllIn L.node L.linked L.table (K.key_of (adapter_of tree.old)) links.old (root_of tree.old) objects.now }
    requires placed { is_placed objects.now place ≡ true }
    ensures removed { (less : Placed K.Value) → Frees objects.now less place → HasAllIn L.node L.linked L.table (K.key_of (adapter_of tree.old)) links.new (root_of tree.new) less }
    ensures order { Without place (members L.node (L.table links.old) (root_of tree.old)) (members L.node (L.table links.new) (root_of tree.new)) }
    ensures free { IsUnlinked L.linked (L.table links.new) place }
    ensures covered { IsCovered (L.table links.new) place }
    ensures adapter { adapter_of tree.new ≡ adapter_of tree.old }
{
    let _ = objects;
    tree.remove(links, &UnsafeRef::new(place));
}
