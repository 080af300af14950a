//! An edit of a tree reads the words of the tree in the way that this module defines.
//!
//! ```text
//! tree.unlink(&mut links, place); // whatever the words say, it writes to no place but those of the table
//! ```

ghost use Rattle.std.specs.Prelude.{◌≡◌, true};
ghost use Rattle.ic_link_ops.specs.Walk.{is_end};
ghost use Rattle.ic_raw.specs.Seen.{named_within, has_place};
ghost use Rattle.ic_raw.specs.Tree.{lent_table};
ghost use Rattle.ic_raw.specs.Words.{place_in};

use crate::table::RawTable;
use crate::words::RawThree;
use ic_link_ops::{Color, Side};
use ic_rbtree::NodeStore;
use ic_unsafe_ref::Place;

/// What an edit of a tree reads at a place: the words of the place, the place itself, and the number of places of the table.
///
/// Only contracts use this type. No code makes a value of it.
#[derive(Clone, Copy)]
pub struct Seen {
    words: RawThree,
    place: Place,
    places: usize,
}

impl RawTable<'_, RawThree> {
    // Returns the place that `word` names, or `None` if the word names no place of the table. The function compares the number in the word with the
    // number of the last place, because this comparison needs no shift. It replaces a number beyond the table by 0, the number for no place.
    #[inline]
    pub(crate) fn named(&self, word: u64) -> Option<Place>
        ensures { result ≡ named_within (lent_table self.now).extent.places (place_in word) }
    {
        let number = word / 8 % 8_589_934_592 * 8;
        let word_in_bounds = if number <= 8 * self.entries.len() as u64 {
            number
        } else {
            0
        };
        Place::from_word(word_in_bounds)
    }

    // Returns whether `word` names `place`, a place of the table. The function compares only two numbers. It need not test whether the number in
    // `word` is beyond the table, because such a number is not the number of `place`.
    #[inline]
    fn is_named(&self, word: u64, place: Place) -> bool
        requires { has_place (lent_table self.now) place ≡ true }
        ensures { result ≡ is_end (named_within (lent_table self.now).extent.places (place_in word)) place }
    {
        word / 8 % 8_589_934_592 * 8 == Place::to_word(Some(place))
    }
}

/// Every place of the table counts as linked. So no link leads out of the table, whatever the words contain.
impl NodeStore for RawTable<'_, RawThree> {
    ghost use Rattle.std.specs.Prelude.{nat_lt};
    ghost use Rattle.std.proofs.Common.{refl, ap, ◌∙◌};
    ghost use Rattle.ic_unsafe_ref.specs.Places.{index_of};
    ghost use Rattle.ic_raw.specs.Seen.{seen, seen_node, KeepsMarks};

    type Entry = Seen;

    ghost table = { λ t. seen (lent_table t) };

    ghost node = { seen_node };

    ghost KeepsLinks = { λ old new. KeepsMarks (lent_table old) (lent_table new) };

    #[inline]
    fn left(&self, place: Place) -> Option<Place> {
        self.named(self.at(place).left)
    }

    #[inline]
    fn right(&self, place: Place) -> Option<Place> {
        self.named(self.at(place).right)
    }

    #[inline]
    fn parent(&self, place: Place) -> Option<Place> {
        self.named(self.at(place).parent)
    }

    #[inline]
    fn color(&self, place: Place) -> Color {
        if self.at(place).parent % 2 == 1 {
            Color::Black
        } else {
            Color::Red
        }
    }

    #[inline]
    fn is_child(&self, place: Place, above: Place, side: Side) -> bool {
        match side {
            Side::Left => self.is_named(self.at(above).left, place),
            Side::Right => self.is_named(self.at(above).right, place),
        }
    }

    #[inline]
    fn set_left(&mut self, place: Place, left: Option<Place>) {
        let words = &mut self.entries[place.index()];
        words.left = Place::to_word(left) + words.left % 2;
    }

    #[inline]
    fn set_right(&mut self, place: Place, right: Option<Place>) {
        let words = &mut self.entries[place.index()];
        words.right = Place::to_word(right);
    }

    #[inline]
    fn set_parent(&mut self, place: Place, parent: Option<Place>) {
        let words = &mut self.entries[place.index()];
        words.parent = Place::to_word(parent) + words.parent % 2;
    }

    #[inline]
    fn set_color(&mut self, place: Place, color: Color) {
        let black = match color {
            Color::Red => 0,
            Color::Black => 1,
        };
        let words = &mut self.entries[place.index()];
        words.parent = words.parent / 2 * 2 + black;
    }

    #[inline]
    fn set_parent_and_color(&mut self, place: Place, parent: Option<Place>, color: Color) {
        let black = match color {
            Color::Red => 0,
            Color::Black => 1,
        };
        let words = &mut self.entries[place.index()];
        words.parent = Place::to_word(parent) + black;
    }

    ghost keeps_links_still = { λ t. record { extent = refl; marks = λ q. refl; names = λ q h. h } };

    ghost keeps_links_on = { λ a b c x y. record {
      extent = y.extent ∙ x.extent;
      marks = λ q. y.marks q ∙ x.marks q;
      names = λ q h. y.names q (x.names q h);
    } };

    ghost keeps_links_keeps = { λ old new same q. ap (λ x. nat_lt (index_of q) x.places) same.extent };
}
