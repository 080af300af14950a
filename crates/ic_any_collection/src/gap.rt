//! The gaps of a collection at which a call can edit.
//!
//! ```text
//! queue.insert(&mut field, Gap::Back, place) // after all members
//! queue.remove(&mut field, Gap::Front)      // the first member, or none
//! ```

ghost use Rattle.std.specs.Prelude.{◌≡◌};
ghost use Rattle.ic_any_collection.specs.Gaps as gaps;

use crate::kind::Kind;

/// A gap of a collection. A call that removes or replaces a member takes the member after the gap, or the last member if the gap is at the back.
#[derive(Clone, Copy)]
pub enum Gap {
    /// The gap before all members.
    Front,
    /// The gap after all members.
    Back,
    /// The gap before the cursor, or after all members if the cursor is at null.
    Before,
    /// The gap after the cursor, or before all members if the cursor is at null.
    After,
}

impl Gap {
    /// Returns whether collections of this kind can insert objects into the gap. All lists can insert at the front, and doubly linked and XOR lists
    /// also at the back. All kinds except singly linked lists can insert before the cursor, and all kinds can insert after it.
    #[inline]
    pub fn can_insert(self, kind: Kind) -> bool
        ensures { result ≡ gaps.can_insert self kind }
    {
        match self {
            Gap::Front => !matches!(kind, Kind::Tree),
            Gap::Back => matches!(kind, Kind::Doubly | Kind::Xor),
            Gap::Before => !matches!(kind, Kind::Singly),
            Gap::After => true,
        }
    }

    /// Returns whether collections of this kind can remove the member at the gap. They can at each gap at which they can insert, with one exception:
    /// only singly linked lists can remove the member after the cursor.
    #[inline]
    pub fn can_remove(self, kind: Kind) -> bool
        ensures { result ≡ gaps.can_remove self kind }
    {
        match self {
            Gap::Front | Gap::Back | Gap::Before => self.can_insert(kind),
            Gap::After => matches!(kind, Kind::Singly),
        }
    }

    /// Returns whether collections of this kind can replace the member at the gap by an object. Singly linked lists can replace the member after the
    /// cursor, and all other kinds the member that the cursor is on.
    #[inline]
    pub fn can_replace(self, kind: Kind) -> bool
        ensures { result ≡ gaps.can_replace self kind }
    {
        match self {
            Gap::Before | Gap::After => self.can_remove(kind),
            Gap::Front | Gap::Back => false,
        }
    }

    // Returns whether an insertion into the gap is made after a position. The position is the cursor's, or null if the gap is an end of the list.
    #[inline]
    pub(crate) fn is_after(self) -> bool
        ensures { result ≡ gaps.is_after self }
    {
        matches!(self, Gap::Front | Gap::After)
    }
}
