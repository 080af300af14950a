//! The trait of all stores of tree entries. The functions that edit a tree read and write entries only by calls of this trait.
//!
//! ```text
//! attach(nodes, root, parent, side, place); // of any table, or of words that a caller keeps
//! ```

ghost use Rattle.std.specs.Prelude.{◌≡◌, []};
ghost use Rattle.ic_link_ops.specs.Prelude.{Table, ChangesOnly, Node, node_at, is_end};
ghost use Rattle.ic_link_ops.specs.Frames.{child_on};
ghost use Rattle.ic_rbtree.specs.Closed.{IsNode, IsNamed, KeepsNodes};

use crate::readings::is_at;
use ic_link_ops::rbtree::RBTreeOps;
use ic_link_ops::{Color, Side};
use ic_unsafe_ref::Place;

/// A store of entries, each of which has two children, a parent and a color.
///
/// Every table of tree links is a `NodeStore`. The calls of this trait link and unlink no place.
pub trait NodeStore {
    /// All that is stored at a place.
    type Entry;

    // The store in the form that contracts use: how many places it has, and the entry of each place.
    ghost table: { Self → Table Self.Entry };

    // What an entry states: whether its place is linked, its children, its parent and its color.
    ghost node: { Self.Entry → Node };

    // Says of two states of a store that the calls between them have set only children, parents and colors.
    ghost KeepsLinks: { Self → Self → Type 0 };

    /// The left child of `place`. It requires that the place is linked. O(1).
    fn left(&self, place: Place) -> Option<Place>
        requires linked { IsNode node (table self.now) place }
        ensures { result ≡ (node_at node (table self.now) place).left };

    /// The right child of `place`. It requires that the place is linked. O(1).
    fn right(&self, place: Place) -> Option<Place>
        requires linked { IsNode node (table self.now) place }
        ensures { result ≡ (node_at node (table self.now) place).right };

    /// The parent of `place`. It requires that the place is linked. O(1).
    fn parent(&self, place: Place) -> Option<Place>
        requires linked { IsNode node (table self.now) place }
        ensures { result ≡ (node_at node (table self.now) place).parent };

    /// The color of `place`. It requires that the place is linked. O(1).
    fn color(&self, place: Place) -> Color
        requires linked { IsNode node (table self.now) place }
        ensures { result ≡ (node_at node (table self.now) place).color };

    /// Whether `place` is the child of `above` on the side `side`. It requires that both places are linked. O(1).
    #[inline]
    fn is_child(&self, place: Place, above: Place, side: Side) -> bool
        requires above { IsNode node (table self.now) above }
        requires place { IsNode node (table self.now) place }
        ensures { result ≡ is_end (child_on side (node_at node (table self.now) above)) place }
    {
        let child = match side {
            Side::Left => self.left(above),
            Side::Right => self.right(above),
        };
        is_at(child, place)
    }

    /// Sets the left child of `place`. It requires that `place` is linked, and that `left` is none or linked. O(1).
    fn set_left(&mut self, place: Place, left: Option<Place>)
        requires linked { IsNode node (table self.old) place }
        requires named { IsNamed node (table self.old) left }
        ensures set { node_at node (table self.new) place ≡ record (node_at node (table self.old) place) { left = left } }
        ensures frame { ChangesOnly (table self.old) (table self.new) place }
        ensures keeps_links { KeepsLinks self.old self.new };

    /// Sets the right child of `place`. It requires that `place` is linked, and that `right` is none or linked. O(1).
    fn set_right(&mut self, place: Place, right: Option<Place>)
        requires linked { IsNode node (table self.old) place }
        requires named { IsNamed node (table self.old) right }
        ensures set { node_at node (table self.new) place ≡ record (node_at node (table self.old) place) { right = right } }
        ensures frame { ChangesOnly (table self.old) (table self.new) place }
        ensures keeps_links { KeepsLinks self.old self.new };

    /// Sets the parent of `place`. It requires that `place` is linked, and that `parent` is none or linked. O(1).
    fn set_parent(&mut self, place: Place, parent: Option<Place>)
        requires linked { IsNode node (table self.old) place }
        requires named { IsNamed node (table self.old) parent }
        ensures set { node_at node (table self.new) place ≡ record (node_at node (table self.old) place) { parent = parent } }
        ensures frame { ChangesOnly (table self.old) (table self.new) place }
        ensures keeps_links { KeepsLinks self.old self.new };

    /// Sets the color of `place`. It requires that the place is linked. O(1).
    fn set_color(&mut self, place: Place, color: Color)
        requires linked { IsNode node (table self.old) place }
        ensures set { node_at node (table self.new) place ≡ record (node_at node (table self.old) place) { color = color } }
        ensures frame { ChangesOnly (table self.old) (table self.new) place }
        ensures keeps_links { KeepsLinks self.old self.new };

    /// Sets the parent and the color of `place`, at once. It requires that `place` is linked, and that `parent` is none or linked. O(1).
    fn set_parent_and_color(&mut self, place: Place, parent: Option<Place>, color: Color)
        requires linked { IsNode node (table self.old) place }
        requires named { IsNamed node (table self.old) parent }
        ensures set { node_at node (table self.new) place ≡ record (node_at node (table self.old) place) { parent = parent; color = color } }
        ensures frame { ChangesOnly (table self.old) (table self.new) place }
        ensures keeps_links { KeepsLinks self.old self.new };

    // `KeepsLinks` holds from a state `t` to the same state. If it holds from `a` to `b` and from `b` to `c`, it holds from `a` to `c`. If it holds from `old`
    // to `new`, the same places are linked in both states.
    ghost keeps_links_still: { (t : Self) → KeepsLinks t t };

    ghost keeps_links_on: { (a b c : Self) → KeepsLinks a b → KeepsLinks b c → KeepsLinks a c };

    ghost keeps_links_keeps: { (old new : Self) → KeepsLinks old new → KeepsNodes node (table old) (table new) };
}

impl<L: RBTreeOps> NodeStore for L {
    ghost use Rattle.ic_rbtree.specs.Steps.{TraceStays};
    ghost use Rattle.std.proofs.Common.{sym, ◌∙◌};

    type Entry = L::Entry;

    ghost table = { L.table };

    ghost node = { L.node };

    ghost KeepsLinks = { TraceStays L.Trace };

    #[inline]
    fn left(&self, place: Place) -> Option<Place> {
        RBTreeOps::left(self, place)
    }

    #[inline]
    fn right(&self, place: Place) -> Option<Place> {
        RBTreeOps::right(self, place)
    }

    #[inline]
    fn parent(&self, place: Place) -> Option<Place> {
        RBTreeOps::parent(self, place)
    }

    #[inline]
    fn color(&self, place: Place) -> Color {
        RBTreeOps::color(self, place)
    }

    #[inline]
    fn set_left(&mut self, place: Place, left: Option<Place>) {
        RBTreeOps::set_left(self, place, left);
    }

    #[inline]
    fn set_right(&mut self, place: Place, right: Option<Place>) {
        RBTreeOps::set_right(self, place, right);
    }

    #[inline]
    fn set_parent(&mut self, place: Place, parent: Option<Place>) {
        RBTreeOps::set_parent(self, place, parent);
    }

    #[inline]
    fn set_color(&mut self, place: Place, color: Color) {
        RBTreeOps::set_color(self, place, color);
    }

    #[inline]
    fn set_parent_and_color(&mut self, place: Place, parent: Option<Place>, color: Color) {
        RBTreeOps::set_parent_and_color(self, place, parent, color);
    }

    ghost keeps_links_still = { λ t start s d. d };

    ghost keeps_links_on = { λ a b c x y start s d. y start s (x start s d) };

    ghost keeps_links_keeps = { λ old new same q. L.linked_alike ((L.table new).entry q)
        ∙ (L.does_replay old new [] (same old [] (L.does_nothing old)) q ∙ sym (L.linked_alike ((L.table old).entry q))) };
}
