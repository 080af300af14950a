//! A table can store a value beside each of its links.
//!
//! ```text
//! let mut links: rbtree::LinkOpsWith<u64> = PlainTable::new(rt.alloc());
//! links.cover(3)?;
//! links.set_value(job.place(), deadline); // 0 until then
//! tree.insert_keyed(&mut links, job)?;
//! tree.find(&links, &links, &deadline) // the table is its own values
//! ```

ghost use Rattle.std.specs.Prelude.{◌≡◌, ◌≢◌, true, ℕ, List, [], length};
ghost use Rattle.ic_link_ops.specs.Base.{Place, is_placed, with_object, IsCovered};

use crate::lent_table::LentTable;
use crate::link::Words;
use crate::link_ops::LinkOps;
use crate::table::PlainTable;
use ic_unsafe_ref::{Place, Values};
use std::alloc::Allocator;

/// The type of the value beside each link of a table. The type can be `()`, which stores nothing, `u64`, `u32`, or a type of your
/// own.
pub trait LinkValue: Drop {
    // The value beside a link before a call sets a value.
    ghost initial: { Self };

    // `printed` turns the values of a table into numbers. The numbers are part of the table's extent, which no call of a
    // collection changes. A call of a collection therefore changes no value.
    ghost printed: { List Self → List ℕ };

    /// The value beside a link before a call sets a value.
    fn initial() -> Self
        ensures { result ≡ initial };

    // The law: two lists of values are equal if they have the same length and the same numbers.
    ghost tells: { (s t : List Self) → length s ≡ length t → printed s ≡ printed t → s ≡ t };
}

/// A value of the type `()` stores nothing beside the links and takes no memory.
impl LinkValue for () {
    ghost use Rattle.ic_link_ops.specs.ValuesBeside.{all_alike};

    ghost initial = { tt };

    ghost printed = { λ _. [] };

    fn initial() {}

    ghost tells = { λ s t e _. all_alike s t e };
}

/// A number of 8 bytes is stored beside each link, for example a key. The number is 0 at first.
impl LinkValue for u64 {
    ghost initial = { 0 };

    ghost printed = { λ s. s };

    fn initial() -> u64 {
        0
    }

    ghost tells = { λ s t _ e. e };
}

/// A number of 4 bytes is stored beside each link. The number is 0 at first.
impl LinkValue for u32 {
    ghost initial = { 0 };

    ghost printed = { λ numbers. numbers };

    fn initial() -> u32 {
        0_u32
    }

    ghost tells = { λ s t _ e. e };
}

/// A table that stores a value beside each link. A search that compares a member reads one entry, which has the value and the
/// link.
///
/// Each covered place has a value, and no call of a collection changes a value.
pub trait LinkValues<V>: LinkOps + Values<V> {
    // Two entries have the same link words, and their values may differ.
    ghost LinksAlike: { Self.Entry → Self.Entry → Type 0 };

    /// Sets the value beside the link of `place`, whether `place` is linked or not. The call requires that the table covers
    /// `place`. O(1).
    ///
    /// The link words stay. A tree finds its members by their keys, so set the key of a place only if the place is not a member.
    fn set_value(&mut self, place: Place, value: V)
        requires covered { IsCovered (Self.table self.old) place }
        ensures value { Self.values self.new ≡ with_object (Self.values self.old) place value }
        ensures links { (q : Place) → LinksAlike ((Self.table self.old).entry q) ((Self.table self.new).entry q) }
        ensures others { (q : Place) → q ≢ place → (Self.table self.new).entry q ≡ (Self.table self.old).entry q }
        ensures covers { (Self.table self.new).extent.places ≡ (Self.table self.old).extent.places }
        ensures trace_stays { Self.Trace self.old self.new [] };

    // The laws: Each covered place has a value. The values stay if the extent of the table stays.
    ghost covered_has_value: { (t : Self) (p : Place) → IsCovered (Self.table t) p → is_placed (Self.values t) p ≡ true };

    ghost values_stay: { (old new : Self) → (Self.table new).extent ≡ (Self.table old).extent → Self.values new ≡ Self.values old };
}

impl<W: Words, A: Allocator, V: LinkValue> Values<V> for PlainTable<W, A, V> {
    ghost use Rattle.ic_unsafe_ref.specs.Objects.{at_indexes};
    ghost use Rattle.ic_link_ops.specs.PlainTables.{entries, values_beside};
    ghost use Rattle.ic_link_ops.specs.Widths.{nameable};

    ghost values = { λ t. at_indexes (values_beside (nameable W.width (entries t))) };

    #[inline]
    fn value(&self, place: Place) -> &V {
        &self.entries[place.index()].value
    }
}

impl<W: Words, A: Allocator, V: LinkValue> LinkValues<V> for PlainTable<W, A, V> {
    ghost use Rattle.ic_link_ops.specs.Links.{words_of};
    ghost use Rattle.ic_link_ops.specs.PlainTables.{entries};
    ghost use Rattle.ic_link_ops.specs.ValuesBeside.{placed_where_covered, values_kept};
    ghost use Rattle.ic_link_ops.specs.Widths.{nameable};

    ghost LinksAlike = { λ e f. words_of f ≡ words_of e };

    #[inline]
    fn set_value(&mut self, place: Place, value: V) {
        let index = self.slot(place);
        let entry = &mut self.entries[index];
        entry.value = value;
    }

    ghost covered_has_value = { λ t p covered. placed_where_covered (nameable W.width (entries t)) p covered };

    ghost values_stay = { λ old new e. values_kept V.printed V.tells (nameable W.width (entries old)) (nameable W.width (entries new)) e };
}

impl<W: Words, V: LinkValue> Values<V> for LentTable<'_, W, V> {
    ghost use Rattle.ic_unsafe_ref.specs.Objects.{at_indexes};
    ghost use Rattle.ic_link_ops.specs.PlainTables.{values_beside};
    ghost use Rattle.ic_link_ops.specs.LentTables.{lent_entries};
    ghost use Rattle.ic_link_ops.specs.Widths.{nameable};

    ghost values = { λ t. at_indexes (values_beside (nameable W.width (lent_entries t))) };

    #[inline]
    fn value(&self, place: Place) -> &V {
        let entries = &*self.entries;
        &entries[place.index()].value
    }
}

impl<W: Words, V: LinkValue> LinkValues<V> for LentTable<'_, W, V> {
    ghost use Rattle.ic_link_ops.specs.Links.{words_of};
    ghost use Rattle.ic_link_ops.specs.LentTables.{lent_entries};
    ghost use Rattle.ic_link_ops.specs.ValuesBeside.{placed_where_covered, lent_kept};
    ghost use Rattle.ic_link_ops.specs.Widths.{nameable};

    ghost LinksAlike = { λ e f. words_of f ≡ words_of e };

    #[inline]
    fn set_value(&mut self, place: Place, value: V) {
        let index = self.slot(place);
        let link = &mut self.entries[index];
        link.value = value;
    }

    ghost covered_has_value = { λ t p covered. placed_where_covered (nameable W.width (lent_entries t)) p covered };

    ghost values_stay = { λ old new e. lent_kept V.printed V.tells (nameable W.width (lent_entries old)) (nameable W.width (lent_entries new)) e };
}
