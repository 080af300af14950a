//! A tree with summaries can be over the objects of a pool. The pool makes room for the link and the summary of each object.
//!
//! ```text
//! let object = pool.place(value)?; // `pool.links` are `Augmented`, with room for its link and its summary
//! set_value(&mut pool.links, object.place(), 5);
//! tree.insert(&mut pool.links, &pool.objects, object)?; // after the members whose keys are not greater
//! ```

ghost use Rattle.ic_augmented.specs.Augmented.{links_of, summaries_of};

use crate::augmented::Augmented;
use crate::augmented_table::{AugmentedTable, Summarize};
use ic_link_ops::CoverError;
use ic_pool::Tables;
use ic_unsafe_ref::Place;
use std::alloc::Allocator;
use std::cmp::min;

/// Links and summaries grow together. Each covered place has room for its link and for its summary, and it is free if it is not linked.
impl<L: Tables, V: Summarize<S>, S: Copy + Drop, A: Allocator> Tables
    for Augmented<L, AugmentedTable<V, S, A>> {
    ghost use Rattle.std.specs.Prelude.{◌<◌, min, refl};
    ghost use Rattle.ic_unsafe_ref.specs.Places.{index_of};
    ghost use Rattle.ic_augmented.specs.AugmentedTables.{room_of};
    ghost use Rattle.ic_augmented.specs.Pooled.{GrowsSummed};

    ghost most = { min L.most 4294967296 };

    ghost Covers = { λ t place. L.Covers (links_of t) place × (index_of place < room_of (summaries_of t)) };

    ghost IsFree = { λ t place. L.IsFree (links_of t) place };

    ghost Keeps = { GrowsSummed V.join V.initial L.Keeps };

    #[inline]
    fn most_places() -> usize {
        min(L::most_places(), Place::COUNT)
    }

    fn cover(&mut self, count: usize) -> Result<(), CoverError> {
        if count > min(L::most_places(), Place::COUNT) {
            return Err(CoverError::TooManyPlaces);
        }
        self.links.cover(count)?;
        self.summaries.cover(count)
    }

    ghost keeps_room = { λ old new place keeps covers. (L.keeps_room (links_of old) (links_of new) place keeps.links covers.0, keeps.room place covers.1) };

    ghost keeps_free = { λ old new place keeps free. L.keeps_free (links_of old) (links_of new) place keeps.links free };

    ghost keeps_itself = { λ t. record { links = L.keeps_itself (links_of t); room = λ p h. h; same = λ p. record { fresh = refl; upper = refl }; values = λ p. refl } };
}
