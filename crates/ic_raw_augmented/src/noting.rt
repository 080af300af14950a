//! A view of a table through which an edit runs. The view records the places whose children the edit writes.
//!
//! ```text
//! let mut written = Written::new();
//! search_calls::insert_by(&mut written, table, keys, tree, 7); // its surgery goes over `Noting`
//! ```

ghost use Rattle.std.specs.Prelude.{◌≡◌, Option, Some, [], ◌∷◌};
ghost use Rattle.ic_link_ops.specs.Prelude.{Place};
ghost use Rattle.ic_raw.specs.Tree.{lent_table};

use crate::written::Written;
use ic_link_ops::{Color, Side};
use ic_raw::nodes::Seen;
use ic_raw::{RawTable, RawThree, Surgery};
use ic_rbtree::{NodeStore, RBTree};
use ic_unsafe_ref::Place;

/// A view of the table, and the places whose children were written through it.
pub(crate) struct Noting<'a, 'b> {
    links: &'a mut RawTable<'b, RawThree>,
    written: &'a mut Written,
}

impl NodeStore for Noting<'_, '_> {
    ghost use Rattle.std.specs.Prelude.{nat_lt};
    ghost use Rattle.std.proofs.Common.{refl, ap, ◌∙◌};
    ghost use Rattle.ic_unsafe_ref.specs.Places.{index_of};
    ghost use Rattle.ic_raw.specs.Seen.{seen, seen_node};
    ghost use Rattle.ic_raw_augmented.specs.Noting.{links_in, written_in, NotesWrites, notes_still, notes_on};

    type Entry = Seen;

    ghost table = { λ t. seen (lent_table (links_in t)) };

    ghost node = { seen_node };

    ghost KeepsLinks = { NotesWrites };

    #[inline]
    fn left(&self, place: Place) -> Option<Place> {
        self.links.left(place)
    }

    #[inline]
    fn right(&self, place: Place) -> Option<Place> {
        self.links.right(place)
    }

    #[inline]
    fn parent(&self, place: Place) -> Option<Place> {
        self.links.parent(place)
    }

    #[inline]
    fn color(&self, place: Place) -> Color {
        self.links.color(place)
    }

    #[inline]
    fn is_child(&self, place: Place, above: Place, side: Side) -> bool {
        self.links.is_child(place, above, side)
    }

    #[inline]
    fn set_left(&mut self, place: Place, left: Option<Place>) {
        self.written.note(place);
        self.links.set_left(place, left);
    }

    #[inline]
    fn set_right(&mut self, place: Place, right: Option<Place>) {
        self.written.note(place);
        self.links.set_right(place, right);
    }

    #[inline]
    fn set_parent(&mut self, place: Place, parent: Option<Place>) {
        self.links.set_parent(place, parent);
    }

    #[inline]
    fn set_color(&mut self, place: Place, color: Color) {
        self.links.set_color(place, color);
    }

    #[inline]
    fn set_parent_and_color(&mut self, place: Place, parent: Option<Place>, color: Color) {
        self.links.set_parent_and_color(place, parent, color);
    }

    ghost keeps_links_still = { notes_still };

    ghost keeps_links_on = { notes_on };

    ghost keeps_links_keeps = { λ old new same q. ap (λ x. nat_lt (index_of q) x.places) same.keeps_links.extent };
}

impl Surgery for Written {
    ghost use Rattle.ic_raw_augmented.specs.Written.{Notes};

    ghost Reports = { Notes };

    #[inline]
    fn attach(
        &mut self,
        links: &mut RawTable<'_, RawThree>,
        tree: &mut RBTree<()>,
        parent: Option<Place>,
        side: Side,
        place: Place,
    ) {
        let mut noting = Noting {
            links,
            written: self,
        };
        tree.attach(&mut noting, parent, side, place);
        let Noting {
            links: _,
            written: _,
        } = noting;
    }

    #[inline]
    fn unlink(&mut self, links: &mut RawTable<'_, RawThree>, tree: &mut RBTree<()>, place: Place) {
        let mut noting = Noting {
            links,
            written: self,
        };
        tree.unlink(&mut noting, place);
        let Noting {
            links: _,
            written: _,
        } = noting;
    }
}
