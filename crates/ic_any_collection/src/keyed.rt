//! Keyed calls of a collection that is a tree. Each call searches with a probe of the caller, which makes all comparisons and counts them.
//!
//! ```text
//! let mut probe = KeyProbe::new(adapter, &5);
//! tree.find_by(&field, &objects, &mut probe) // the first member of key 5
//! probe.looks() // with how many objects the key was compared
//! ```

ghost use Rattle.std.specs.Prelude.{◌≡◌, List, ◌++◌, Option, Some, None, true, false, IfOk, IfSome, IfNone};
ghost use Rattle.std.specs.Bool.{OnTrue, OnFalse};
ghost use Rattle.ic_link_ops.specs.Prelude.{Place, IsBefore, IsCovered, IsLinked, LinksAlso, ArePlaced, RepresentsPlaced, Inserts};
ghost use Rattle.ic_link_ops.specs.RedBlackTree.{Represents};
ghost use Rattle.ic_rbtree.specs.Prelude.{Finds, IsLowerBorder, IsUpperBorder, key_order, looks_of, HasAdapter, runs_up, IsRange};
ghost use Rattle.ic_rbtree.specs.Comparing.{compared, compared_within, HasRoom, HasRoomWithin, Looks, LooksWithin};
ghost use Rattle.ic_rbtree.specs.CursorMut as editing;
ghost use Rattle.ic_rbtree.specs.Entry as gaps;
ghost use Rattle.ic_rbtree.specs.Iter.{rest_of, CanWalk};
ghost use Rattle.ic_any_collection.specs.Prelude.{tree_table_in, is_tree_linked, InsertsInOrder, root_of, node_of, is_linked, table_in, AtGap, IsVacantFor, kind_in, cursor_in, members_in, is_tree, Held, Moves, Puts, IsUnchanged, PutsInOrder, PutsAtKey};

use crate::unkeyed::Unkeyed;
use crate::{AnyCollection, AnyTable};
use ic_link_ops::PlaceWord;
use ic_link_ops::rbtree::{self, RBTreeOps};
use ic_rbtree::{Bound, Entry, Iter, KeyAdapter, KeyProbe, Probe, RBTree, RefusedInsert};
use ic_unsafe_ref::{Objects, Place, UnsafeRef, Values};
use std::alloc::{AllocError, Allocator};

// Returns the places of the members that a walk has not returned yet, in memory of `alloc`. These members are consecutive in the tree.
fn list_walk<A: KeyAdapter, L: RBTreeOps, O: Values<A::Value>, N: Allocator>(
    alloc: N,
    tree: &RBTree<A>,
    links: &L,
    mut walk: Iter<'_, A, L, O>,
) -> Result<Vec<Place, N>, AllocError>
    requires can_walk { CanWalk L.node L.table O.values walk }
    requires shown { (front back : List Place) × Represents L.node (L.table links.now) (root_of tree.now)
        (front ++ (rest_of L.node L.table walk ++ back)) }
    ensures { IfOk result (λ places. places.items ≡ rest_of L.node L.table walk.entry) }
{
    let mut places = Vec::new(alloc);
    let Some(first) = walk.get_ptr() else {
        return Ok(places);
    };
    let mut cursor = tree.cursor_from_ptr(links, UnsafeRef::new(first));
    while let Some(_) = walk.next() {
        places.push(cursor.get_ptr().unwrap())?;
        cursor.move_next();
    }
    Ok(places)
}

impl<T> AnyCollection<T> {
    /// Puts the cursor on the first member that compares equal to the probe, or to null if there is none, and returns that member.
    ///
    /// It requires that `self` is a tree, that there is an object at each member's place, and that the probe's count is at most `u64::MAX - 66`. O(log
    /// n): in a tree of n members the probe compares at most 2 log2(n + 1) times.
    pub fn find_by<P: Probe<T>, M: Allocator, B: Allocator>(
        &mut self,
        links: &AnyTable<M>,
        objects: &Objects<T, B>,
        probe: &mut P,
    ) -> Option<Place>
        requires held { Held (table_in links.now) self.old }
        requires can { is_tree (kind_in self.old) ≡ true }
        requires placed { ArePlaced objects.now (members_in (table_in links.now) self.old) }
        requires room { HasRoom (P.count probe.old) }
        ensures found { Finds (compared (P.order probe.old) objects.now) (members_in (table_in links.now) self.old) result }
        ensures looks { Looks P.order P.count probe.old probe.new (members_in (table_in links.now) self.old) }
        ensures moved { Moves (table_in links.now) self.old self.new result }
    {
        let Self::Tree(tree, _) = &*self else {
            unreachable!()
        };
        let position = tree.find_by(links.tree(), objects, probe).get_ptr();
        self.stand_at(links, position);
        position
    }

    // Puts the cursor on a member of a tree, or to null.
    #[inline]
    fn stand_at<M: Allocator>(&mut self, links: &AnyTable<M>, position: Option<Place>)
        requires held { Held (table_in links.now) self.old }
        requires can { is_tree (kind_in self.old) ≡ true }
        requires member { IfSome position (λ p. AtGap (members_in (table_in links.now) self.old) (λ gap. IsBefore gap (Some p))) }
        ensures { Moves (table_in links.now) self.old self.new position }
    {
        match position {
            None => self.go_null(),
            Some(place) => self.stand_on(links, None, place),
        }
    }

    /// Puts the cursor on the first member that meets the bound, or to null if there is none, and returns that member. For `Unbounded` it compares
    /// nothing.
    ///
    /// It requires what [`AnyCollection::find_by`] requires, also of the bound's probe. If the tree is not sorted by the probe's order, it finds some
    /// member that meets the bound and whose previous member does not, or the cursor goes to null. O(log n).
    pub fn lower_bound_by<P: Probe<T>, M: Allocator, B: Allocator>(
        &mut self,
        links: &AnyTable<M>,
        objects: &Objects<T, B>,
        bound: &mut Bound<P>,
    ) -> Option<Place>
        requires held { Held (table_in links.now) self.old }
        requires can { is_tree (kind_in self.old) ≡ true }
        requires placed { ArePlaced objects.now (members_in (table_in links.now) self.old) }
        requires room { HasRoomWithin P.count bound.old }
        ensures border { IsLowerBorder (compared_within P.order objects.now bound.old) (members_in (table_in links.now) self.old) result }
        ensures looks { LooksWithin P.order P.count bound.old bound.new (members_in (table_in links.now) self.old) }
        ensures moved { Moves (table_in links.now) self.old self.new result }
    {
        let Self::Tree(tree, _) = &*self else {
            unreachable!()
        };
        let position = tree.lower_bound_by(links.tree(), objects, bound).get_ptr();
        self.stand_at(links, position);
        position
    }

    /// Puts the cursor on the last member that meets the bound, or to null if there is none, and returns that member. For `Unbounded` it compares
    /// nothing.
    ///
    /// It requires what [`AnyCollection::find_by`] requires, also of the bound's probe. If the tree is not sorted by the probe's order, it finds some
    /// member that meets the bound and whose next member does not, or the cursor goes to null. O(log n).
    pub fn upper_bound_by<P: Probe<T>, M: Allocator, B: Allocator>(
        &mut self,
        links: &AnyTable<M>,
        objects: &Objects<T, B>,
        bound: &mut Bound<P>,
    ) -> Option<Place>
        requires held { Held (table_in links.now) self.old }
        requires can { is_tree (kind_in self.old) ≡ true }
        requires placed { ArePlaced objects.now (members_in (table_in links.now) self.old) }
        requires room { HasRoomWithin P.count bound.old }
        ensures border { IsUpperBorder (compared_within P.order objects.now bound.old) (members_in (table_in links.now) self.old) result }
        ensures looks { LooksWithin P.order P.count bound.old bound.new (members_in (table_in links.now) self.old) }
        ensures moved { Moves (table_in links.now) self.old self.new result }
    {
        let Self::Tree(tree, _) = &*self else {
            unreachable!()
        };
        let position = tree.upper_bound_by(links.tree(), objects, bound).get_ptr();
        self.stand_at(links, position);
        position
    }

    /// Returns the members between two bounds, in memory of `alloc`. It makes one search with the probe of each bound.
    ///
    /// It requires that `self` is a tree, and that there is an object at each member's place. Both probes have to use the adapter `adapter`, and
    /// their counts have to be at most `u64::MAX - 66`. O(log n + returned members).
    pub fn range_by<A: KeyAdapter<Value = T>, M: Allocator, B: Allocator, N: Allocator>(
        &self,
        alloc: N,
        links: &AnyTable<M>,
        objects: &Objects<T, B>,
        adapter: A,
        min: &mut Bound<KeyProbe<'_, A>>,
        max: &mut Bound<KeyProbe<'_, A>>,
    ) -> Result<Vec<Place, N>, AllocError>
        requires held { Held (table_in links.now) self.now }
        requires can { is_tree (kind_in self.now) ≡ true }
        requires placed { ArePlaced objects.now (members_in (table_in links.now) self.now) }
        requires min_room { HasRoomWithin looks_of min.old }
        requires max_room { HasRoomWithin looks_of max.old }
        requires min_adapter { HasAdapter adapter min.old }
        requires max_adapter { HasAdapter adapter max.old }
        ensures range { IfOk result (λ places. IsRange (compared_within (key_order A.Key.cmp A.key_of) objects.now min.old)
            (compared_within (key_order A.Key.cmp A.key_of) objects.now max.old) (runs_up A.Key.cmp (A.key_of adapter) objects.now)
            (members_in (table_in links.now) self.now) places.items) }
        ensures min_looks { LooksWithin (key_order A.Key.cmp A.key_of) looks_of min.old min.new (members_in (table_in links.now) self.now) }
        ensures max_looks { LooksWithin (key_order A.Key.cmp A.key_of) looks_of max.old max.new (members_in (table_in links.now) self.now) }
    {
        let Self::Tree(tree, _) = self else {
            unreachable!()
        };
        let links = links.tree();
        let tree = RBTree::from_root(adapter, tree.root());
        let walk = tree.range_by(links, objects, min, max);
        list_walk(alloc, &tree, links, walk)
    }

    /// Inserts the object at its position in the probe's order, after members that compare equal, and returns whether its link was acquired. Then the
    /// cursor is on the object. If the object is already linked, nothing changes, and the probe compares nothing. O(log n).
    ///
    /// It requires that `self` is a tree, and that there is an object at each member's place. The table has to cover the object's place, and the
    /// probe's count has to be at most `u64::MAX - 66`.
    #[inline]
    pub fn insert_by<P: Probe<T>, M: Allocator, B: Allocator>(
        &mut self,
        links: &mut AnyTable<M>,
        objects: &Objects<T, B>,
        probe: &mut P,
        object: Place,
    ) -> bool
        requires held { Held (table_in links.old) self.old }
        requires can { is_tree (kind_in self.old) ≡ true }
        requires placed { ArePlaced objects.now (members_in (table_in links.old) self.old) }
        requires covered { IsCovered (table_in links.old) object }
        requires room { HasRoom (P.count probe.old) }
        ensures inserted { OnTrue result (PutsInOrder (compared (P.order probe.old) objects.now)
            (table_in links.old) (table_in links.new) self.old self.new object (Some object)) }
        ensures looks { OnTrue result (Looks P.order P.count probe.old probe.new (members_in (table_in links.old) self.old)) }
        ensures refused { OnFalse result (IsLinked is_linked (table_in links.old) object × (probe.new ≡ probe.old)
            × IsUnchanged links.old links.new self.old self.new) }
    {
        let Self::Tree(tree, at) = self else {
            unreachable!()
        };
        if !put_in_order(tree, links.tree_mut(), objects, probe, object) {
            return false;
        }
        *at = PlaceWord::of(Some(object));
        true
    }

    /// Inserts the object at its position in the probe's order, after members that compare equal, and returns whether its link was acquired. The
    /// cursor stays. It requires what [`AnyCollection::insert_by`] requires.
    pub fn cursor_insert_by<P: Probe<T>, M: Allocator, B: Allocator>(
        &mut self,
        links: &mut AnyTable<M>,
        objects: &Objects<T, B>,
        probe: &mut P,
        object: Place,
    ) -> bool
        requires held { Held (table_in links.old) self.old }
        requires can { is_tree (kind_in self.old) ≡ true }
        requires placed { ArePlaced objects.now (members_in (table_in links.old) self.old) }
        requires covered { IsCovered (table_in links.old) object }
        requires room { HasRoom (P.count probe.old) }
        ensures inserted { OnTrue result (PutsInOrder (compared (P.order probe.old) objects.now)
            (table_in links.old) (table_in links.new) self.old self.new object (cursor_in self.old)) }
        ensures looks { OnTrue result (Looks P.order P.count probe.old probe.new (members_in (table_in links.old) self.old)) }
        ensures refused { OnFalse result (IsLinked is_linked (table_in links.old) object × (probe.new ≡ probe.old)
            × IsUnchanged links.old links.new self.old self.new) }
    {
        let Self::Tree(tree, _) = self else {
            unreachable!()
        };
        put_in_order(tree, links.tree_mut(), objects, probe, object)
    }

    /// Puts the cursor on the first member that compares equal. If there is none, it inserts the object into the gap where the searched key belongs,
    /// and puts the cursor on the object. It returns whether a member compares equal, and the member that the cursor is then on. If no member
    /// compares equal and the object is already linked, it returns `None`, and neither tree nor links have changed.
    ///
    /// It requires that `self` is a tree, and that there is an object at each member's place. The object's place has to be covered, and the probe's
    /// count has to be at most `u64::MAX - 66`. O(log n).
    pub fn entry_by<P: Probe<T>, M: Allocator, B: Allocator>(
        &mut self,
        links: &mut AnyTable<M>,
        objects: &Objects<T, B>,
        probe: &mut P,
        object: Place,
    ) -> Option<(bool, Place)>
        requires held { Held (table_in links.old) self.old }
        requires can { is_tree (kind_in self.old) ≡ true }
        requires placed { ArePlaced objects.now (members_in (table_in links.old) self.old) }
        requires covered { IsCovered (table_in links.old) object }
        requires room { HasRoom (P.count probe.old) }
        ensures occupied { IfSome result (λ e. e.0 ≡ true → Finds (compared (P.order probe.old) objects.now)
            (members_in (table_in links.old) self.old) (Some e.1) × (links.new ≡ links.old)
            × Moves (table_in links.old) self.old self.new (Some e.1)) }
        ensures vacant { IfSome result (λ e. e.0 ≡ false → (e.1 ≡ object)
            × PutsAtKey (compared (P.order probe.old) objects.now)
            (table_in links.old) (table_in links.new) self.old self.new object (Some object)) }
        ensures looks { Looks P.order P.count probe.old probe.new (members_in (table_in links.old) self.old) }
        ensures refused { IfNone result (IsLinked is_linked (table_in links.old) object
            × AtGap (members_in (table_in links.old) self.old) (IsVacantFor (compared (P.order probe.old) objects.now))
            × IsUnchanged links.old links.new self.old self.new) }
    {
        let Self::Tree(tree, at) = self else {
            unreachable!()
        };
        let Some((is_member, place)) = put_at_key(tree, links.tree_mut(), objects, probe, object)
        else {
            return None;
        };
        *at = PlaceWord::of(Some(place));
        Some((is_member, place))
    }
}

// Inserts the object at its position in the probe's order, and returns whether its link was acquired.
#[inline]
fn put_in_order<T, P: Probe<T>, M: Allocator, B: Allocator>(
    tree: &mut RBTree<Unkeyed<T>>,
    links: &mut rbtree::LinkOps<M>,
    objects: &Objects<T, B>,
    probe: &mut P,
    object: Place,
) -> bool
    requires placed { RepresentsPlaced (Represents node_of (tree_table_in links.old) (root_of tree.old)) objects.now }
    requires covered { IsCovered (tree_table_in links.old) object }
    requires room { HasRoom (P.count probe.old) }
    ensures inserted { (s : List Place) → Represents node_of (tree_table_in links.old) (root_of tree.old) s → OnTrue result
        (InsertsInOrder (Represents node_of) (compared (P.order probe.old) objects.now)
        (tree_table_in links.old) (tree_table_in links.new) (root_of tree.new) s object) }
    ensures acquired { OnTrue result (LinksAlso is_tree_linked (tree_table_in links.old) (tree_table_in links.new) object) }
    ensures looks { (s : List Place) → Represents node_of (tree_table_in links.old) (root_of tree.old) s
        → OnTrue result (Looks P.order P.count probe.old probe.new s) }
    ensures refused { OnFalse result (IsLinked is_tree_linked (tree_table_in links.old) object × (probe.new ≡ probe.old)) }
    ensures unchanged { OnFalse result ((tree.new ≡ tree.old) × (links.new ≡ links.old)) }
{
    let object = UnsafeRef::new(object);
    let Ok(()) = tree.insert_by(links, objects, probe, object) else {
        return false;
    };
    true
}

// Returns `true` and the first member that compares equal. If there is none, it inserts the object into the gap where the search ended, and returns
// `false` and the object. If the object is already linked, it returns `None` instead of inserting it.
fn put_at_key<T, P: Probe<T>, M: Allocator, B: Allocator>(
    tree: &mut RBTree<Unkeyed<T>>,
    links: &mut rbtree::LinkOps<M>,
    objects: &Objects<T, B>,
    probe: &mut P,
    object: Place,
) -> Option<(bool, Place)>
    requires placed { RepresentsPlaced (Represents node_of (tree_table_in links.old) (root_of tree.old)) objects.now }
    requires room { HasRoom (P.count probe.old) }
    requires covered { IsCovered (tree_table_in links.old) object }
    ensures found { (s : List Place) → Represents node_of (tree_table_in links.old) (root_of tree.old) s → IfSome result (λ e. e.0 ≡ true
        → Finds (compared (P.order probe.old) objects.now) s (Some e.1)) }
    ensures stays { IfSome result (λ e. e.0 ≡ true → (tree.new ≡ tree.old) × (links.new ≡ links.old)) }
    ensures put { (s : List Place) → Represents node_of (tree_table_in links.old) (root_of tree.old) s → IfSome result (λ e. e.0 ≡ false
        → AtGap s (λ gap. IsVacantFor (compared (P.order probe.old) objects.now) gap
        × Inserts (Represents node_of) (tree_table_in links.old) (tree_table_in links.new) (root_of tree.new) gap object)) }
    ensures links { IfSome result (λ e. e.0 ≡ false → (e.1 ≡ object)
        × LinksAlso is_tree_linked (tree_table_in links.old) (tree_table_in links.new) object) }
    ensures refused { (s : List Place) → Represents node_of (tree_table_in links.old) (root_of tree.old) s → IfNone result
        (AtGap s (IsVacantFor (compared (P.order probe.old) objects.now))) }
    ensures unchanged { IfNone result (IsLinked is_tree_linked (tree_table_in links.old) object
        × (tree.new ≡ tree.old) × (links.new ≡ links.old)) }
    ensures looks { (s : List Place) → Represents node_of (tree_table_in links.old) (root_of tree.old) s
        → Looks P.order P.count probe.old probe.new s }
{
    match tree.entry_by(links, objects, probe) {
        Entry::Occupied(found) => Some((true, found.get_ptr().unwrap())),
        vacant => match vacant.or_insert(UnsafeRef::new(object)) {
            Ok(_cursor) => Some((false, object)),
            Err(
                RefusedInsert {
                    gap: _gap,
                    object: _object,
                },
            ) => None,
        },
    }
}
