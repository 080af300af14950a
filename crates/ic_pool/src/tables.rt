//! This file defines the trait of tables that grow together, so that they cover the same places.
//!
//! ```text
//! let mut links = (linked_list::LinkOps::new(rt.alloc()), rbtree::LinkOps::new(rt.alloc()));
//! Tables::cover(&mut links, 1000)?; // both
//! ```

ghost use Rattle.std.specs.Prelude.{◌≡◌, ◌<◌, ◌↔◌, ℕ, min, OnOk, Err};
ghost use Rattle.ic_link_ops.specs.Prelude.{Place, index_of};

use ic_link_ops::{CoverError, LinkValue, PlainTable, Words};
use std::alloc::Allocator;
use std::cmp::min;

/// Tables of links that grow together: a plain table, or a pair of tables that have this trait.
pub trait Tables {
    // The greatest number of places that all the tables can cover.
    ghost most: { ℕ };

    // The place has room for its link: each of the tables covers the place.
    ghost Covers: { Self → Place → Type 0 };

    // The place is free: it is linked in none of the tables.
    ghost IsFree: { Self → Place → Type 0 };

    // From the first state to the second, each entry stays, and each covered place is still covered. The tables may have grown.
    ghost Keeps: { Self → Self → Type 0 };

    /// The greatest number of places that can be covered: 4,294,967,296, or 536,870,911 if one of the tables has words
    /// of 4 bytes.
    fn most_places() -> usize
        ensures { result ≡ most };

    /// Covers the first `count` places in each table.
    ///
    /// The call is refused if `count` is above [`most_places`](Self::most_places), or if there is no memory. If there is no
    /// memory, the first of two tables may have grown. Each link stays as it was. The call requests memory at most once for each
    /// table.
    fn cover(&mut self, count: usize) -> Result<(), CoverError>
        ensures too_many { (result ≡ Err CoverError.TooManyPlaces) ↔ most < count }
        ensures covers { OnOk result ((place : Place) → index_of place < count → Covers self.new place) }
        ensures keeps { Keeps self.old self.new };

    // The laws: Let `Keeps old new` hold. Each place that has room in `old` also has room in `new`, and each place that is free
    // in `old` is free in `new`. Tables that do not change satisfy `Keeps`.
    ghost keeps_room: { (old new : Self) (place : Place) → Keeps old new → Covers old place → Covers new place };

    ghost keeps_free: { (old new : Self) (place : Place) → Keeps old new → IsFree old place → IsFree new place };

    ghost keeps_itself: { (tables : Self) → Keeps tables tables };
}

impl<W: Words, A: Allocator, V: LinkValue> Tables for PlainTable<W, A, V> {
    ghost use Rattle.ic_link_ops.specs.Prelude.{IsCovered, IsUnlinked, table_beside, linked_by};
    ghost use Rattle.ic_link_ops.specs.Widths.{most_places};
    ghost use Rattle.ic_pool.specs.Pooled.{Grows, grows_room, grows_free, grows_itself};

    ghost most = { most_places W.width };

    ghost Covers = { λ t place. IsCovered (table_beside W.width W.unlinked V.initial V.printed t) place };

    ghost IsFree = { λ t place. IsUnlinked (linked_by W.is_linked) (table_beside W.width W.unlinked V.initial V.printed t) place };

    ghost Keeps = { λ old new. Grows (table_beside W.width W.unlinked V.initial V.printed old) (table_beside W.width W.unlinked V.initial V.printed new) };

    #[inline]
    fn most_places() -> usize {
        W::most_places()
    }

    #[inline]
    fn cover(&mut self, count: usize) -> Result<(), CoverError> {
        PlainTable::cover(self, count)
    }

    ghost keeps_room = { λ old new place grows covered. grows_room grows place covered };

    ghost keeps_free = { λ old new place grows free. grows_free (linked_by W.is_linked) grows place free };

    ghost keeps_itself = { λ tables. grows_itself (table_beside W.width W.unlinked V.initial V.printed tables) };
}

/// A pair of tables. Each part of the pair can be a pair of tables itself. An object has a link in each table.
impl<L: Tables, M: Tables> Tables for (L, M) {
    ghost most = { min L.most M.most };

    ghost Covers = { λ t place. L.Covers t.0 place × M.Covers t.1 place };

    ghost IsFree = { λ t place. L.IsFree t.0 place × M.IsFree t.1 place };

    ghost Keeps = { λ old new. L.Keeps old.0 new.0 × M.Keeps old.1 new.1 };

    #[inline]
    fn most_places() -> usize {
        min(L::most_places(), M::most_places())
    }

    fn cover(&mut self, count: usize) -> Result<(), CoverError> {
        if count > min(L::most_places(), M::most_places()) {
            return Err(CoverError::TooManyPlaces);
        }
        self.0.cover(count)?;
        self.1.cover(count)
    }

    ghost keeps_room = { λ old new place keeps covers. (L.keeps_room old.0 new.0 place keeps.0 covers.0, M.keeps_room old.1 new.1 place keeps.1 covers.1) };

    ghost keeps_free = { λ old new place keeps free. (L.keeps_free old.0 new.0 place keeps.0 free.0, M.keeps_free old.1 new.1 place keeps.1 free.1) };

    ghost keeps_itself = { λ tables. (L.keeps_itself tables.0, M.keeps_itself tables.1) };
}
