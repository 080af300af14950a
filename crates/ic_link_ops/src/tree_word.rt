//! The word of a tree link that stores the parent, the color and whether the place is linked.
//!
//! ```text
//! let mut word = TreeWord::<u64>::linked(); // black, with no parent: 3
//! word.set_color(Color::Red); // 2
//! ```

ghost use Rattle.std.specs.Prelude.{◌≡◌, Option};
ghost use Rattle.ic_unsafe_ref.specs.declared.place.Place.{Place};
ghost use Rattle.ic_link_ops.specs.declared.color.Color.{Color};
ghost use Rattle.ic_link_ops.specs.Tables.{IsNameable};
ghost use Rattle.ic_link_ops.specs.TreeWords.{unlinked, linked, linked_below, number_of};
ghost use Rattle.ic_link_ops.specs.Widths.{HasRoom};

use crate::bits::Bits;
use crate::color::Color;
use ic_unsafe_ref::Place;
use std::marker::Model;

/// The word is stored as `8 * (parent + 1) + 2 * linked + black`. The term `parent + 1` is 0 if there is no parent, and true
/// counts as 1. Without its three lowest bits, the stored number is the parent's word.
///
/// The integer `B` stores the word. Contracts describe the word by its parts: whether the place is linked, its parent and its
/// color. The place can be linked or unlinked, whatever its color and its parent are.
#[derive(Drop)]
pub struct TreeWord<B: Bits = u64> {
    bits: B,
}

/// The word of a tree's link in 4 bytes.
pub type NarrowTreeWord = TreeWord<u32>;

impl<B: Bits> Model for TreeWord<B> {
    ghost use Rattle.std.specs.Prelude.{◌<◌, ◌^◌};
    ghost use Rattle.ic_link_ops.specs.TreeWords.{Parts, parts_at};

    ghost Value = { Parts };

    ghost view = { λ w. parts_at (B.number w.bits) };

    ghost invariant = { λ w. B.number w.bits < 2 ^ 36 };
}

impl<B: Bits> TreeWord<B> {
    /// The word of an unlinked place: 0. O(1).
    #[inline]
    #[tactic(auto, using(crate::proofs::TreeWordLemmas::parts_at_0))]
    pub fn unlinked() -> TreeWord<B>
        ensures { result ≡ unlinked }
    {
        TreeWord { bits: B::of(0) }
    }

    /// The word of a linked place that is black and has no parent: 3. O(1).
    #[inline]
    #[tactic(auto, using(crate::proofs::TreeWordLemmas::parts_at_3))]
    pub fn linked() -> TreeWord<B>
        ensures { result ≡ linked }
    {
        TreeWord { bits: B::of(3) }
    }

    /// The word of a linked place with this parent and this color. The call requires that the word has room for the parent. O(1).
    #[inline]
    pub fn below(parent: Option<Place>, color: Color) -> TreeWord<B>
        requires named { IsNameable (HasRoom B.width) parent }
        ensures { result ≡ linked_below parent color }
    {
        let black = match color {
            Color::Red => 0,
            Color::Black => 1,
        };
        TreeWord {
            bits: B::of(Place::to_word(parent) + 2 + black),
        }
    }

    /// Reads from the second-lowest bit whether the place is linked. O(1).
    #[inline]
    pub fn is_linked(&self) -> bool
        ensures { result ≡ self.now.linked }
    {
        self.bits.get() / 2 % 2 == 1
    }

    /// The parent, or `None` at the root. All bits except the three lowest store the parent. O(1).
    #[inline]
    pub fn parent(&self) -> Option<Place>
        ensures { result ≡ self.now.parent }
    {
        Place::from_word(self.bits.get() / 8 * 8)
    }

    /// The color. The lowest bit stores the color, and is 1 for black. O(1).
    #[inline]
    pub fn color(&self) -> Color
        ensures { result ≡ self.now.color }
    {
        if self.bits.get() % 2 == 0 {
            Color::Red
        } else {
            Color::Black
        }
    }

    /// Replaces the parent, and keeps the color and whether the place is linked. The call requires that the word has room for the
    /// parent. O(1).
    #[inline]
    #[tactic(auto, using(crate::proofs::TreeWordLemmas::parent_set, crate::proofs::WidthLemmas::word_and_bits_kept))]
    pub fn set_parent(&mut self, parent: Option<Place>)
        requires named { IsNameable (HasRoom B.width) parent }
        ensures { self.new ≡ record self.old { parent = parent } }
    {
        self.bits = B::of(Place::to_word(parent) + self.bits.get() % 8);
    }

    /// Replaces the color, and keeps the parent and whether the place is linked. O(1).
    #[inline]
    #[tactic(auto, using(crate::proofs::TreeWordLemmas::color_set, crate::proofs::WidthLemmas::lowest_bit_kept))]
    pub fn set_color(&mut self, color: Color)
        ensures { self.new ≡ record self.old { color = color } }
    {
        let black = match color {
            Color::Red => 0,
            Color::Black => 1,
        };
        self.bits = B::of(self.bits.get() / 2 * 2 + black);
    }

    /// The number that is printed for the word: `4 * (parent + 1) + 2 * linked + black`. The term `parent + 1` is 0 if there is
    /// no parent. O(1).
    #[inline]
    #[tactic(auto, using(crate::proofs::TreeWordLemmas::number_of_parts))]
    pub fn number(&self) -> u64
        ensures { result ≡ number_of self.now }
    {
        self.bits.get() / 8 * 4 + self.bits.get() % 4
    }
}
