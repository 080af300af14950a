//! This file defines the links of red-black trees: the trait that a tree requires of its table of links, and the plain table.
//!
//! ```text
//! let mut links = LinkOps::new(rt.alloc());
//! links.cover(3)?;
//! ```

ghost use Rattle.std.specs.Prelude.{◌≡◌, ◌≢◌, Option, []};
ghost use Rattle.ic_link_ops.specs.Base.{Place, IsLinked, IsNameable, ChangesOnly};
ghost use Rattle.ic_link_ops.specs.RedBlackTree.{Node, node_at};
ghost use Rattle.ic_link_ops.specs.declared.color.Color.{Color};

use crate::bits::Bits;
use crate::color::Color;
use crate::lent_table::LentTable;
use crate::link::{self, NextWord, PrevPlace, Words};
use crate::link_ops;
use crate::link_value::LinkValue;
use crate::node_words::NodeWords;
use crate::stored_place::StoredPlace;
use crate::stored_word::StoredWord;
use crate::table::PlainTable;
use crate::tree_word::TreeWord;
use crate::word::Word;
use ic_unsafe_ref::Place;
use std::alloc::{Allocator, Global};

/// A table for red-black trees. Each entry names two children and a parent, and has a color.
///
/// A place can be linked or unlinked, whatever its color and its parent are.
pub trait RBTreeOps: link_ops::LinkOps {
    // The parts of an entry: whether its place is linked, its children, its parent and its color.
    ghost node: { Self.Entry → Node };

    /// The left child of `place`. The call requires that `place` is linked. O(1).
    fn left(&self, place: Place) -> Option<Place>
        requires linked { IsLinked Self.linked (Self.table self.now) place }
        ensures { result ≡ (node_at node (Self.table self.now) place).left };

    /// The right child of `place`. The call requires that `place` is linked. O(1).
    fn right(&self, place: Place) -> Option<Place>
        requires linked { IsLinked Self.linked (Self.table self.now) place }
        ensures { result ≡ (node_at node (Self.table self.now) place).right };

    /// The parent of `place`. The call requires that `place` is linked. O(1).
    fn parent(&self, place: Place) -> Option<Place>
        requires linked { IsLinked Self.linked (Self.table self.now) place }
        ensures { result ≡ (node_at node (Self.table self.now) place).parent };

    /// The color of `place`. The call requires that `place` is linked. O(1).
    fn color(&self, place: Place) -> Color
        requires linked { IsLinked Self.linked (Self.table self.now) place }
        ensures { result ≡ (node_at node (Self.table self.now) place).color };

    /// Sets the left child of `place`. The call requires that `place` is linked, and that the table's words have room for the
    /// child. O(1).
    fn set_left(&mut self, place: Place, left: Option<Place>)
        requires linked { IsLinked Self.linked (Self.table self.old) place }
        requires left { IsNameable Self.CanName left }
        ensures set { node_at node (Self.table self.new) place
            ≡ record (node_at node (Self.table self.old) place) { left = left } }
        ensures frame { ChangesOnly (Self.table self.old) (Self.table self.new) place }
        ensures trace_stays { Self.Trace self.old self.new [] };

    /// Sets the right child of `place`. The call requires that `place` is linked, and that the table's words have room for the
    /// child. O(1).
    fn set_right(&mut self, place: Place, right: Option<Place>)
        requires linked { IsLinked Self.linked (Self.table self.old) place }
        requires right { IsNameable Self.CanName right }
        ensures set { node_at node (Self.table self.new) place
            ≡ record (node_at node (Self.table self.old) place) { right = right } }
        ensures frame { ChangesOnly (Self.table self.old) (Self.table self.new) place }
        ensures trace_stays { Self.Trace self.old self.new [] };

    /// Sets the parent of `place`. The call requires that `place` is linked, and that the table's words have room for the parent.
    /// O(1).
    fn set_parent(&mut self, place: Place, parent: Option<Place>)
        requires linked { IsLinked Self.linked (Self.table self.old) place }
        requires parent { IsNameable Self.CanName parent }
        ensures set { node_at node (Self.table self.new) place
            ≡ record (node_at node (Self.table self.old) place) { parent = parent } }
        ensures frame { ChangesOnly (Self.table self.old) (Self.table self.new) place }
        ensures trace_stays { Self.Trace self.old self.new [] };

    /// Sets the color of `place`. The call requires that `place` is linked. O(1).
    fn set_color(&mut self, place: Place, color: Color)
        requires linked { IsLinked Self.linked (Self.table self.old) place }
        ensures set { node_at node (Self.table self.new) place
            ≡ record (node_at node (Self.table self.old) place) { color = color } }
        ensures frame { ChangesOnly (Self.table self.old) (Self.table self.new) place }
        ensures trace_stays { Self.Trace self.old self.new [] };

    /// Sets the parent and the color of `place` in one call. The call requires that `place` is linked, and that the table's words
    /// have room for the parent. O(1).
    fn set_parent_and_color(&mut self, place: Place, parent: Option<Place>, color: Color)
        requires linked { IsLinked Self.linked (Self.table self.old) place }
        requires parent { IsNameable Self.CanName parent }
        ensures set { node_at node (Self.table self.new) place
            ≡ record (node_at node (Self.table self.old) place) { parent = parent; color = color } }
        ensures frame { ChangesOnly (Self.table self.old) (Self.table self.new) place }
        ensures trace_stays { Self.Trace self.old self.new [] };

    // The law: the traits `RBTreeOps` and `LinkOps` agree on whether a place is linked.
    ghost linked_alike: { (e : Self.Entry) → (node e).linked ≡ Self.linked e };
}

/// The words of a tree's link. The integer `B` stores each word. Two words name the children. The third word stores the parent, the
/// color and whether the place is linked.
///
/// A doubly linked list stores the previous place as the left child and the next place as the right child. A singly linked list
/// or an XOR list stores its one word as the word of the right child.
#[derive(Drop)]
pub struct ThreeWords<B: Bits = u64> {
    left: StoredPlace<B>,
    right: StoredWord<B>,
    third: TreeWord<B>,
}

/// The words of a tree's link, each of 4 bytes.
pub type ThreeNarrowWords = ThreeWords<u32>;

/// What the plain table of red-black trees stores at a place: three words.
pub type Link = link::Link<ThreeWords>;

/// The plain table for red-black trees, with three words for each place. Lists of all kinds can use it as well.
pub type LinkOps<A = Global> = PlainTable<ThreeWords, A>;

/// The plain table for red-black trees with a value beside each link, for example a key.
pub type LinkOpsWith<V, A = Global> = PlainTable<ThreeWords, A, V>;

/// What a table with words of 4 bytes stores at a place. A narrow link has half the bytes of a `Link`.
pub type NarrowLink = link::Link<ThreeNarrowWords>;

/// The plain table for red-black trees with words of 4 bytes. The links of this table are half as large as those of `LinkOps`,
/// and the table has room for 536,870,911 places.
pub type NarrowLinkOps<A = Global> = PlainTable<ThreeNarrowWords, A>;

/// The plain table of narrow links with a value beside each link.
pub type NarrowLinkOpsWith<V, A = Global> = PlainTable<ThreeNarrowWords, A, V>;

impl link::Link<ThreeWords> {
    ghost use Rattle.ic_link_ops.specs.Links.{words_of};
    ghost use Rattle.ic_link_ops.specs.ThreeWords.{printed_words};

    /// The numbers that are printed for the three words. They are about the left child, about the right child, and about the
    /// parent and the color.
    ///
    /// A child is printed as `2 * (index + 1)`, and a missing child as 0. If an XOR list wrote the entry, the list's word is
    /// printed instead of the right child. The third number is `4 * (parent + 1) + 2 * linked + black`. The term `parent + 1` is
    /// 0 if there is no parent, and true counts as 1. The link stores four times the first two numbers. The third word of the
    /// link contains `8 * (parent + 1)`, twice the parent's part of the printed number. O(1).
    #[inline]
    pub fn words(&self) -> [u64; 3]
        ensures { result ≡ printed_words (words_of self.now) }
    {
        [
            Place::to_word(self.words.left.get()) / 4,
            self.words.right.word().bits() / 4,
            self.words.third.number(),
        ]
    }
}

impl<B: Bits> Words for ThreeWords<B> {
    ghost use Rattle.ic_link_ops.specs.ThreeWords.{no_words, has_link};
    ghost use Rattle.std.specs.Prelude.{refl};

    ghost unlinked = { no_words };

    ghost is_linked = { has_link };

    ghost width = { B.width };

    #[inline]
    fn unlinked() -> Self {
        ThreeWords {
            left: StoredPlace::of(None),
            right: StoredWord::none(),
            third: TreeWord::unlinked(),
        }
    }

    #[inline]
    fn is_linked(&self) -> bool {
        self.third.is_linked()
    }

    #[inline]
    fn link(&mut self) {
        self.third = TreeWord::linked();
    }

    #[inline]
    fn unlink(&mut self) {
        self.third = TreeWord::unlinked();
    }

    #[inline]
    fn most_places() -> usize {
        B::most_places()
    }

    ghost starts_unlinked = { refl };
}

impl<B: Bits> NextWord for ThreeWords<B> {
    ghost use Rattle.ic_link_ops.specs.ThreeWords.{right_word_of, left_of};

    ghost next_word = { right_word_of };

    ghost KeepsOthers = { λ old new. left_of new ≡ left_of old };

    #[inline]
    fn next_word(&self) -> Word {
        self.right.word()
    }

    #[inline]
    fn set_next_word(&mut self, word: Word) {
        self.right = StoredWord::of(word);
    }
}

impl<B: Bits> PrevPlace for ThreeWords<B> {
    ghost use Rattle.ic_link_ops.specs.ThreeWords.{left_of};

    ghost prev = { left_of };

    #[inline]
    fn prev(&self) -> Option<Place> {
        self.left.get()
    }

    #[inline]
    fn set_prev(&mut self, place: Option<Place>) {
        self.left = StoredPlace::of(place);
    }

    ghost keeps_prev = { λ old new h. h };
}

impl<B: Bits> NodeWords for ThreeWords<B> {
    ghost use Rattle.ic_link_ops.specs.ThreeWords.{node_in};
    ghost use Rattle.std.specs.Prelude.{refl};

    ghost node = { node_in };

    #[inline]
    fn left(&self) -> Option<Place> {
        self.left.get()
    }

    #[inline]
    fn right(&self) -> Option<Place> {
        self.right.word().place()
    }

    #[inline]
    fn parent(&self) -> Option<Place> {
        self.third.parent()
    }

    #[inline]
    fn color(&self) -> Color {
        self.third.color()
    }

    #[inline]
    fn set_left(&mut self, left: Option<Place>) {
        self.left = StoredPlace::of(left);
    }

    #[inline]
    fn set_right(&mut self, right: Option<Place>) {
        self.right = StoredWord::of(Word::of(right));
    }

    #[inline]
    fn set_parent(&mut self, parent: Option<Place>) {
        self.third.set_parent(parent);
    }

    #[inline]
    fn set_color(&mut self, color: Color) {
        self.third.set_color(color);
    }

    #[inline]
    fn set_parent_and_color(&mut self, parent: Option<Place>, color: Color) {
        self.third = TreeWord::below(parent, color);
    }

    ghost node_linked = { λ w. refl };
}

impl<W: NodeWords, A: Allocator, V: LinkValue> RBTreeOps for PlainTable<W, A, V> {
    ghost use Rattle.ic_link_ops.specs.Links.{words_of};

    ghost node = { λ l. W.node (words_of l) };

    #[inline]
    fn left(&self, place: Place) -> Option<Place> {
        self.link(place).words.left()
    }

    #[inline]
    fn right(&self, place: Place) -> Option<Place> {
        self.link(place).words.right()
    }

    #[inline]
    fn parent(&self, place: Place) -> Option<Place> {
        self.link(place).words.parent()
    }

    #[inline]
    fn color(&self, place: Place) -> Color {
        self.link(place).words.color()
    }

    #[inline]
    fn set_left(&mut self, place: Place, left: Option<Place>) {
        let index = self.slot(place);
        let entry = &mut self.entries[index];
        entry.words.set_left(left);
    }

    #[inline]
    fn set_right(&mut self, place: Place, right: Option<Place>) {
        let index = self.slot(place);
        let entry = &mut self.entries[index];
        entry.words.set_right(right);
    }

    #[inline]
    fn set_parent(&mut self, place: Place, parent: Option<Place>) {
        let index = self.slot(place);
        let entry = &mut self.entries[index];
        entry.words.set_parent(parent);
    }

    #[inline]
    fn set_color(&mut self, place: Place, color: Color) {
        let index = self.slot(place);
        let entry = &mut self.entries[index];
        entry.words.set_color(color);
    }

    #[inline]
    fn set_parent_and_color(&mut self, place: Place, parent: Option<Place>, color: Color) {
        let index = self.slot(place);
        let entry = &mut self.entries[index];
        entry.words.set_parent_and_color(parent, color);
    }

    ghost linked_alike = { λ l. W.node_linked (words_of l) };
}

impl<W: NodeWords, V: LinkValue> RBTreeOps for LentTable<'_, W, V> {
    ghost use Rattle.ic_link_ops.specs.Links.{words_of};

    ghost node = { λ l. W.node (words_of l) };

    #[inline]
    fn left(&self, place: Place) -> Option<Place> {
        let link = self.link(place);
        link.words.left()
    }

    #[inline]
    fn right(&self, place: Place) -> Option<Place> {
        let link = self.link(place);
        link.words.right()
    }

    #[inline]
    fn parent(&self, place: Place) -> Option<Place> {
        let link = self.link(place);
        link.words.parent()
    }

    #[inline]
    fn color(&self, place: Place) -> Color {
        let link = self.link(place);
        link.words.color()
    }

    #[inline]
    fn set_left(&mut self, place: Place, left: Option<Place>) {
        let index = self.slot(place);
        let link = &mut self.entries[index];
        link.words.set_left(left);
    }

    #[inline]
    fn set_right(&mut self, place: Place, right: Option<Place>) {
        let index = self.slot(place);
        let link = &mut self.entries[index];
        link.words.set_right(right);
    }

    #[inline]
    fn set_parent(&mut self, place: Place, parent: Option<Place>) {
        let index = self.slot(place);
        let link = &mut self.entries[index];
        link.words.set_parent(parent);
    }

    #[inline]
    fn set_color(&mut self, place: Place, color: Color) {
        let index = self.slot(place);
        let link = &mut self.entries[index];
        link.words.set_color(color);
    }

    #[inline]
    fn set_parent_and_color(&mut self, place: Place, parent: Option<Place>, color: Color) {
        let index = self.slot(place);
        let link = &mut self.entries[index];
        link.words.set_parent_and_color(parent, color);
    }

    ghost linked_alike = { λ l. W.node_linked (words_of l) };
}
