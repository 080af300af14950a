//! Which members a call moves to a new collection.

ghost use Rattle.std.specs.Prelude.{◌≡◌, true};
ghost use Rattle.ic_any_collection.specs.AnyTables.{table_in};
ghost use Rattle.ic_any_collection.specs.AnyCollection.{kind_in, Held};
ghost use Rattle.ic_world.specs.Turns.{HandsOut};
ghost use Rattle.ic_world.specs.Several.{has_part, PartsOf};

use crate::calls::kinds::{is_list, is_two_way_list};
use ic_any_collection::{AnyCollection, AnyTable, Kind};
use std::alloc::Allocator;

/// Which members a call moves to a new collection.
#[derive(Clone, Copy)]
pub enum TakenPart {
    /// All members. The cursor goes to null.
    All,
    /// The members after the cursor. The cursor stays.
    After,
    /// The members before the cursor. The cursor stays.
    Before,
}

impl TakenPart {
    /// Returns whether a collection of this kind can give this part of its members to a new collection.
    pub fn is_of(self, kind: Kind) -> bool
        ensures { result ≡ has_part self kind }
    {
        match self {
            TakenPart::All => true,
            TakenPart::After => is_list(kind),
            TakenPart::Before => is_two_way_list(kind),
        }
    }

    /// Moves this part of the members to a new collection with its cursor at null, and returns the new collection.
    pub fn hand_out<T, M: Allocator>(
        self,
        members: &mut AnyCollection<T>,
        links: &mut AnyTable<M>,
    ) -> AnyCollection<T>
        requires held { Held (table_in links.old) members.old }
        requires can { has_part self (kind_in members.old) ≡ true }
        ensures { HandsOut (PartsOf self) (table_in links.old) (table_in links.new) members.old members.new result }
    {
        match self {
            TakenPart::All => members.take(),
            TakenPart::After => members.split_after(links),
            TakenPart::Before => members.split_before(links),
        }
    }
}
