//! The words of the first and of the last member of a tree.
//!
//! ```text
//! struct ic_tree_ends { uint64_t first, last; };
//! ```

ghost use Rattle.std.specs.Prelude.{◌≡◌, Some};
ghost use Rattle.ic_link_ops.specs.Prelude.{Place, is_end};
ghost use Rattle.ic_link_ops.specs.declared.side.Side.{Side};
ghost use Rattle.ic_link_ops.specs.declared.side.Side.TheVariants.{Left, Right};
ghost use Rattle.ic_rbtree.specs.Kept.{end_for, end_with};
ghost use Rattle.ic_raw_keyed.specs.Ends.{IsWritten, end_in};

use ic_link_ops::Side;
use ic_raw::place_in;
use ic_unsafe_ref::Place;

/// The words of the first and of the last member of a red-black tree. Zeroed memory is right for an empty tree.
#[repr(C)]
#[derive(Clone, Copy)]
pub struct RawTreeEnds {
    /// The word of the first member, or 0 if the tree has no member.
    pub first: u64,
    /// The word of the last member, or 0 if the tree has no member.
    pub last: u64,
}

// Returns whether the end `end` is the place `place`. The function compares their words.
#[inline]
pub(crate) fn is_at(end: Option<Place>, place: Place) -> bool
    ensures { result ≡ is_end end place }
{
    Place::to_word(end) == Place::to_word(Some(place))
}

// Returns an end of the tree after `new` has replaced the member `out`. Before, this end was `end`.
#[inline]
fn end_for(out: Place, new: Option<Place>, end: Option<Place>) -> Option<Place>
    ensures { (p : Place) → new ≡ Some p → result ≡ end_for out p end }
{
    if is_at(end, out) { new } else { end }
}

impl RawTreeEnds {
    // Returns the words for the first and the last member.
    #[inline]
    #[tactic(auto, using(ic_raw::proofs::Entries::place_kept))]
    pub(crate) fn of(first: Option<Place>, last: Option<Place>) -> RawTreeEnds
        ensures first { end_in Left result ≡ first }
        ensures last { end_in Right result ≡ last }
        ensures words { IsWritten result }
    {
        RawTreeEnds {
            first: Place::to_word(first),
            last: Place::to_word(last),
        }
    }

    // Returns the end on the side `side`: the first member for the left, the last member for the right.
    #[inline]
    pub(crate) fn end(&self, side: Side) -> Option<Place>
        ensures { result ≡ end_in side self.now }
    {
        match side {
            Side::Left => place_in(self.first),
            Side::Right => place_in(self.last),
        }
    }

    // Returns the ends of the tree after `new` was inserted as the child of the member `at` on the side `side`, or as the only member if `at` is `None`.
    #[inline]
    pub(crate) fn with(&self, side: Side, at: Option<Place>, new: Option<Place>) -> RawTreeEnds
        ensures own { (p : Place) → new ≡ Some p → (d : Side) → end_in d result ≡ end_with d at side p (end_in d self.now) }
        ensures words { IsWritten result }
    {
        let first = self.end(Side::Left);
        let last = self.end(Side::Right);
        let Some(at) = at else {
            return RawTreeEnds::of(new, new);
        };
        match side {
            Side::Left => RawTreeEnds::of(end_for(at, new, first), last),
            Side::Right => RawTreeEnds::of(first, end_for(at, new, last)),
        }
    }

    // Returns the ends of the tree after `new` has replaced the member `out`.
    #[inline]
    pub(crate) fn replaced(&self, out: Place, new: Option<Place>) -> RawTreeEnds
        ensures own { (p : Place) → new ≡ Some p → (d : Side) → end_in d result ≡ end_for out p (end_in d self.now) }
        ensures words { IsWritten result }
    {
        RawTreeEnds::of(
            end_for(out, new, self.end(Side::Left)),
            end_for(out, new, self.end(Side::Right)),
        )
    }
}
