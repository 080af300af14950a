//! Buckets can have 4 bytes each if the words of the links have 4 bytes.

ghost use Rattle.std.specs.Prelude.{◌≡◌};
ghost use Rattle.ic_link_ops.specs.Prelude.{Place, HasRoom, narrow};

use crate::bucket_word::BucketWordFor;
use ic_link_ops::{
    LentTable, LinkOps, LinkValue, NarrowPlaceWord, OneNarrowWord, PlainTable, ThreeNarrowWords,
    TwoNarrowWords, Words,
};
use std::alloc::Allocator;

/// Link words that have 4 bytes each.
pub trait NarrowWords: Words {
    ghost is_narrow: { Self.width ≡ narrow };
}

impl<K> NarrowWords for OneNarrowWord<K> {
    ghost use Rattle.std.specs.Prelude.{refl};

    ghost is_narrow = { refl };
}

impl NarrowWords for TwoNarrowWords {
    ghost use Rattle.std.specs.Prelude.{refl};

    ghost is_narrow = { refl };
}

impl NarrowWords for ThreeNarrowWords {
    ghost use Rattle.std.specs.Prelude.{refl};

    ghost is_narrow = { refl };
}

/// A table of links that can name only places whose words fit in 4 bytes.
pub trait NarrowLinks: LinkOps {
    ghost named_has_room: { (place : Place) → Self.CanName place → HasRoom narrow place };
}

impl<W: NarrowWords, A: Allocator, V: LinkValue> NarrowLinks for PlainTable<W, A, V> {
    ghost use Rattle.std.proofs.Common.{subst};

    ghost named_has_room = { λ place named. subst (λ w. HasRoom w place) W.is_narrow named };
}

impl<W: NarrowWords, V: LinkValue> NarrowLinks for LentTable<'_, W, V> {
    ghost use Rattle.std.proofs.Common.{subst};

    ghost named_has_room = { λ place named. subst (λ w. HasRoom w place) W.is_narrow named };
}

impl<L: NarrowLinks> BucketWordFor<L> for NarrowPlaceWord {
    ghost keeps_named = { L.named_has_room };
}

impl<L: NarrowLinks> BucketWordFor<L> for u32 {
    ghost keeps_named = { L.named_has_room };
}
