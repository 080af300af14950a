//! A view that reads a tree's words as they are. It serves checks, and also edits of a tree that a check has found valid. A place is linked if its
//! words have the mark of a linked place. A word names the place with the number in the word, even if the table does not have this place.
//!
//! ```text
//! let links = MarkedTree::new(words);
//! check_tree(&tree, &links) // what no search can tell, which sees every place as linked
//! ```

ghost use Rattle.std.specs.Prelude.{◌≡◌, IsTrue, ◌↔◌};
ghost use Rattle.ic_link_ops.specs.Tables.{IsCovered};
ghost use Rattle.ic_raw.specs.MarkedTree.{marked_table};

use crate::number::place_in;
use crate::words::RawThree;
use ic_check::TellsLinks;
use ic_link_ops::rbtree::RBTreeOps;
use ic_link_ops::{Color, LinkOps, Words};
use ic_unsafe_ref::Place;

/// A view of a tree's words as they are. [`RawTable`](crate::RawTable), in contrast, treats every place of the table as linked, because it serves
/// edits and searches of words that may represent no tree.
///
/// Checks use this view, and so do edits of a tree that a check has found valid.
pub struct MarkedTree<'a> {
    entries: &'a mut [RawThree],
}

impl Drop for MarkedTree<'_> {
    fn drop(self)
        ensures words { self.exit.0.now ≡ self.entry.entries.now }
    {
        let MarkedTree { entries: _ } = self;
    }
}

impl<'a> MarkedTree<'a> {
    /// Makes a view of these words. O(1).
    #[inline]
    pub fn new(words: &'a mut [RawThree]) -> MarkedTree<'a>
        ensures name { result.entries.ghost_name ≡ words.entry.ghost_name }
        ensures words { result.entries.now ≡ words.entry.now }
    {
        MarkedTree { entries: words }
    }
}

impl MarkedTree<'_> {
    // Returns whether the table has this place.
    #[inline]
    fn covers(&self, place: Place) -> bool
        ensures { IsTrue result ↔ IsCovered (marked_table self.now) place }
    {
        place.index() + 1 <= self.entries.len()
    }

    // Returns the words of `place`.
    #[inline]
    fn at(&self, place: Place) -> &RawThree
        requires covered { IsCovered (marked_table self.now) place }
        ensures { result.now ≡ (marked_table self.now).entry place }
    {
        let entries = &*self.entries;
        &entries[place.index()]
    }
}

impl LinkOps for MarkedTree<'_> {
    ghost use Rattle.std.proofs.Common.{ap, refl};
    ghost use Rattle.ic_link_ops.specs.Prelude.{index_of, IsLinked, TraceIs};
    ghost use Rattle.ic_link_ops.specs.EntryLaws.{linked_in_range};
    ghost use Rattle.ic_link_ops.specs.StepLaws.{replays_on};
    ghost use Rattle.ic_raw.specs.MarkedTree.{marked_entries};
    ghost use Rattle.ic_raw.specs.Words.{no_tree_words, is_linked_three};
    ghost use Rattle.std.specs.Prelude.{⊤};

    type Entry = RawThree;

    ghost table = { marked_table };

    ghost linked = { is_linked_three };

    ghost CanName = { λ p. ⊤ };

    ghost Trace = { λ old new s. TraceIs is_linked_three (marked_table old) (marked_table new) s };

    ghost Refused = { λ old new p. IsLinked is_linked_three (marked_table old) p × (new ≡ old) };

    #[inline]
    fn acquire_link(&mut self, place: Place) -> bool {
        let index = place.index();
        if self.entries[index].is_linked() {
            return false;
        }
        let words = &mut self.entries[index];
        words.link();
        true
    }

    #[inline]
    fn release_link(&mut self, place: Place) {
        let words = &mut self.entries[place.index()];
        words.unlink();
    }

    ghost linked_is_covered = { λ t p h. linked_in_range is_linked_three no_tree_words refl (marked_entries t) (index_of p) h };

    ghost covered_has_name = { λ t p covered. tt };

    ghost does_nothing = { λ t q. refl };

    ghost does_on = { λ a b c s t h k. replays_on is_linked_three s t (marked_table a) (marked_table b) (marked_table c) h k };

    ghost does_replay = { λ old new s h. h };

    ghost refused_keeps = { λ old new p h. ap marked_table h.1 };
}

impl RBTreeOps for MarkedTree<'_> {
    ghost use Rattle.std.specs.Prelude.{refl};
    ghost use Rattle.ic_raw.specs.Tree.{node};

    ghost node = { node };

    #[inline]
    fn left(&self, place: Place) -> Option<Place> {
        place_in(self.at(place).left)
    }

    #[inline]
    fn right(&self, place: Place) -> Option<Place> {
        place_in(self.at(place).right)
    }

    #[inline]
    fn parent(&self, place: Place) -> Option<Place> {
        place_in(self.at(place).parent)
    }

    #[inline]
    fn color(&self, place: Place) -> Color {
        if self.at(place).parent % 2 == 1 {
            Color::Black
        } else {
            Color::Red
        }
    }

    #[inline]
    fn set_left(&mut self, place: Place, left: Option<Place>) {
        let words = &mut self.entries[place.index()];
        words.left = Place::to_word(left) + words.left % 2;
    }

    #[inline]
    fn set_right(&mut self, place: Place, right: Option<Place>) {
        let words = &mut self.entries[place.index()];
        words.right = Place::to_word(right);
    }

    #[inline]
    fn set_parent(&mut self, place: Place, parent: Option<Place>) {
        let words = &mut self.entries[place.index()];
        words.parent = Place::to_word(parent) + words.parent % 2;
    }

    #[inline]
    fn set_color(&mut self, place: Place, color: Color) {
        let black = match color {
            Color::Red => 0,
            Color::Black => 1,
        };
        let words = &mut self.entries[place.index()];
        words.parent = words.parent / 2 * 2 + black;
    }

    #[inline]
    fn set_parent_and_color(&mut self, place: Place, parent: Option<Place>, color: Color) {
        self.set_parent(place, parent);
        self.set_color(place, color);
    }

    ghost linked_alike = { λ e. refl };
}

impl TellsLinks for MarkedTree<'_> {
    #[inline]
    fn covered_places(&self) -> usize {
        self.entries.len()
    }

    #[inline]
    fn tells_linked(&self, place: Place) -> bool {
        self.covers(place) && self.at(place).is_linked()
    }
}
