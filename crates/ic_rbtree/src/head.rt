//! What a tree stores about its members: its root alone, or also its first and its last member.
//!
//! ```text
//! let tree: RBTree<ByDeadline> = RBTree::new(ByDeadline);                   // one word
//! let timers: RBTree<ByDeadline, WithEnds> = RBTree::with_ends(ByDeadline); // three, and `first` reads one
//! ```

ghost use Rattle.std.specs.Prelude.{◌≡◌, ◌≢◌, Option, Some, None, List, [], ◌∷◌, ◌++◌};
ghost use Rattle.ic_link_ops.specs.Prelude.{Place, Cut, join, insert, IsDistinct};
ghost use Rattle.ic_link_ops.specs.Frames.{across};
ghost use Rattle.ic_link_ops.specs.RedBlackTree.{Represents, RepresentsSome};
ghost use Rattle.ic_rbtree.specs.Closed.{IsSafe, IsSafeBut, StaysClosed, ClosesAt};
ghost use Rattle.ic_rbtree.specs.Ends.{end_on};
ghost use Rattle.ic_rbtree.specs.Insertion.{Attaches};
ghost use Rattle.ic_rbtree.specs.Kept.{Kept, RootAndEnds, alone, ended, root_kept, last_kept, end_with, end_for, TellsEnds, IsEmptied, IsBelow, EndIs, HasEnds};
ghost use Rattle.ic_rbtree.specs.Transplants.{TakesAway, TakesPlace};

use crate::bounded::step_bounded;
use crate::nodes::NodeStore;
use crate::readings::{is_across, is_at, other};
use crate::repair::insertion::attach;
use crate::repair::removal::unlink;
use crate::repair::writers::take_place;
use crate::steps;
use ic_link_ops::rbtree::RBTreeOps;
use ic_link_ops::{PlaceWord, Side};
use ic_unsafe_ref::Place;
use std::marker::Model;

/// What a tree stores about its members: the root, and in one kind of tree also the first and the last member.
///
/// A rotation does not change the ends of a tree. Therefore only the calls that insert, remove or replace a member update stored ends.
pub trait TreeHead: Drop {
    // What the head stores, in the form that contracts use.
    ghost kept: { Self → Kept };

    /// The head of a tree with no members.
    fn empty() -> Self
        ensures { IsEmptied (kept result) };

    /// The root, `None` if the tree has no members. O(1).
    fn root(&self) -> Option<Place>
        ensures { result ≡ root_kept (kept self.now) };

    /// Inserts `place` on the side `side` of `parent`, as [`RBTree::attach`](crate::RBTree::attach) does. O(log n).
    fn attach<N: NodeStore>(
        &mut self,
        nodes: &mut N,
        parent: Option<Place>,
        side: Side,
        place: Place,
    )
        requires { IsSafeBut N.node (N.table nodes.old) (root_kept (kept self.old)) place (Some place ∷ parent ∷ []) }
        ensures attached { Attaches N.node (N.table nodes.old) (N.table nodes.new) (root_kept (kept self.old)) (root_kept (kept self.new)) parent side place }
        ensures safe { ClosesAt N.node (N.table nodes.old) (N.table nodes.new) (root_kept (kept self.old)) (root_kept (kept self.new)) place (Some place ∷ parent ∷ []) }
        ensures keeps_links { N.KeepsLinks nodes.old nodes.new }
        ensures ends { (gap : Cut) → IsBelow parent side gap → IsDistinct (join gap) → TellsEnds (kept self.old) (join gap)
            → TellsEnds (kept self.new) (insert gap place) };

    /// Removes the member at `place`, as [`RBTree::unlink`](crate::RBTree::unlink) does. O(log n).
    fn unlink<N: NodeStore>(&mut self, nodes: &mut N, place: Place)
        requires { IsSafe N.node (N.table nodes.old) (root_kept (kept self.old)) (Some place ∷ []) }
        ensures taken { TakesAway N.node (N.table nodes.old) (N.table nodes.new) (root_kept (kept self.old)) (root_kept (kept self.new)) place }
        ensures safe { StaysClosed N.node (N.table nodes.old) (N.table nodes.new) (root_kept (kept self.old)) (root_kept (kept self.new)) (Some place ∷ []) [] }
        ensures keeps_links { N.KeepsLinks nodes.old nodes.new }
        ensures ends { (front back : List Place) → Represents N.node (N.table nodes.old) (root_kept (kept self.old)) (front ++ place ∷ back)
            → TellsEnds (kept self.old) (front ++ place ∷ back) → TellsEnds (kept self.new) (front ++ back) };

    /// Replaces the member at `place` by `new`, as [`RBTree::take_place`](crate::RBTree::take_place) does. O(1).
    fn take_place<N: NodeStore>(&mut self, nodes: &mut N, place: Place, new: Place)
        requires safe { IsSafeBut N.node (N.table nodes.old) (root_kept (kept self.old)) new (Some place ∷ Some new ∷ []) }
        requires apart { place ≢ new }
        ensures taken { TakesPlace N.node (N.table nodes.old) (N.table nodes.new) (root_kept (kept self.old)) (root_kept (kept self.new)) place new }
        ensures safe { ClosesAt N.node (N.table nodes.old) (N.table nodes.new) (root_kept (kept self.old)) (root_kept (kept self.new)) new (Some place ∷ Some new ∷ []) }
        ensures keeps_links { N.KeepsLinks nodes.old nodes.new }
        ensures ends { (front back : List Place) → IsDistinct (front ++ place ∷ back) → TellsEnds (kept self.old) (front ++ place ∷ back)
            → TellsEnds (kept self.new) (front ++ new ∷ back) };

    /// The outermost member on the side `side`, `None` if the tree has no members. O(log n), or O(1) if the tree stores its ends.
    fn end<L: RBTreeOps>(&self, links: &L, side: Side) -> Option<Place>
        requires shown { HasEnds L.node (L.table links.now) (kept self.now) }
        ensures { EndIs L.node side (L.table links.now) (kept self.now) result };

    /// The last member, if the tree stores it. The result is `None` in an empty tree, and if the tree does not store its ends. O(1).
    fn kept_last(&self) -> Option<Place>
        ensures { result ≡ last_kept (kept self.now) };

    /// Updates the head after a call has joined its tree and the tree of `other`, with `place` between them. The joined tree has the root `root`. After the
    /// call, `other` is the head of a tree with no members. O(1).
    fn join(&mut self, root: Option<Place>, place: Place, other: &mut Self)
        ensures root { root_kept (kept self.new) ≡ root }
        ensures ends { (s t : List Place) → TellsEnds (kept self.old) s → TellsEnds (kept other.old) t → TellsEnds (kept self.new) (s ++ place ∷ t) }
        ensures emptied { IsEmptied (kept other.new) };

    /// Updates the head after a call has split its tree into the trees with the roots `front` and `back`. This head becomes that of the first tree, and the
    /// head of the second tree is returned. `place` is the first member of the second tree. O(1), or O(log n) if the ends are stored.
    fn split<L: RBTreeOps>(
        &mut self,
        links: &L,
        front: Option<Place>,
        place: Place,
        back: Option<Place>,
    ) -> Self
        requires shown { RepresentsSome L.node (L.table links.now) front }
        ensures root { root_kept (kept self.new) ≡ front }
        ensures rest_root { root_kept (kept result) ≡ back }
        ensures ends { (s t : List Place) → Represents L.node (L.table links.now) front s → TellsEnds (kept self.old) (s ++ place ∷ t)
            → TellsEnds (kept self.new) s × TellsEnds (kept result) (place ∷ t) };
}

/// A head that stores the root alone, in one word.
///
/// In contracts this head is an `Option<Place>`.
#[derive(Drop)]
pub struct Root {
    word: PlaceWord,
}

impl Model for Root {
    ghost Value = { Option Place };

    ghost view = { λ r. r.word };
}

impl Root {
    #[inline]
    pub(crate) fn of(root: Option<Place>) -> Root
        ensures { result ≡ root }
    {
        Root {
            word: PlaceWord::of(root),
        }
    }
}

impl TreeHead for Root {
    ghost kept = { alone };

    #[inline]
    fn empty() -> Root {
        Root::of(None)
    }

    #[inline]
    fn root(&self) -> Option<Place> {
        self.word.get()
    }

    #[inline(always)]
    fn attach<N: NodeStore>(
        &mut self,
        nodes: &mut N,
        parent: Option<Place>,
        side: Side,
        place: Place,
    ) {
        attach(nodes, &mut self.word, parent, side, place);
    }

    #[inline]
    fn unlink<N: NodeStore>(&mut self, nodes: &mut N, place: Place) {
        unlink(nodes, &mut self.word, place);
    }

    #[inline]
    fn take_place<N: NodeStore>(&mut self, nodes: &mut N, place: Place, new: Place) {
        take_place(nodes, &mut self.word, place, new);
    }

    #[inline]
    fn end<L: RBTreeOps>(&self, links: &L, side: Side) -> Option<Place> {
        steps::end_on(links, self.word.get(), side)
    }

    #[inline]
    fn kept_last(&self) -> Option<Place> {
        None
    }

    #[inline]
    fn join(&mut self, root: Option<Place>, place: Place, other: &mut Root) {
        let _ = place;
        *self = Root::of(root);
        *other = Root::of(None);
    }

    #[inline]
    fn split<L: RBTreeOps>(
        &mut self,
        links: &L,
        front: Option<Place>,
        place: Place,
        back: Option<Place>,
    ) -> Root {
        let _ = links;
        let _ = place;
        *self = Root::of(front);
        Root::of(back)
    }
}

/// A head that stores the root, the first member and the last one.
///
/// This head is good for timers and run queues, where the first member is removed, and where new members mostly go after all others.
#[derive(Drop)]
pub struct WithEnds {
    root: PlaceWord,
    front: PlaceWord,
    back: PlaceWord,
}

impl Model for WithEnds {
    ghost Value = { RootAndEnds };

    ghost view = { λ h. record { root = h.root; front = h.front; back = h.back } };
}

impl WithEnds {
    #[inline]
    pub(crate) fn of(root: Option<Place>, front: Option<Place>, back: Option<Place>) -> WithEnds
        ensures { result ≡ record { root = root; front = front; back = back } }
    {
        WithEnds {
            root: PlaceWord::of(root),
            front: PlaceWord::of(front),
            back: PlaceWord::of(back),
        }
    }
}

// The end of a tree after `new` has replaced the member `out`. If the old end `end` is `out`, the new end is `new`, otherwise the end stays.
#[inline]
fn end_for(out: Place, new: Place, end: Option<Place>) -> Option<Place>
    ensures { result ≡ end_for out new end }
{
    if is_at(end, out) { Some(new) } else { end }
}

// Returns which member will be outermost on the side `d` after the member at `place` is removed. Before the removal the outermost member is `end`. If `end` is
// at `place`, the result is the next member inwards, otherwise the result is `end`.
#[inline]
fn end_without<N: NodeStore>(
    nodes: &N,
    root: Option<Place>,
    d: Side,
    place: Place,
    end: Option<Place>,
) -> Option<Place>
    requires { IsSafe N.node (N.table nodes.now) root (Some place ∷ []) }
    ensures { (front back : List Place) → Represents N.node (N.table nodes.now) root (front ++ place ∷ back) → end ≡ end_on d (front ++ place ∷ back)
        → result ≡ end_on d (front ++ back) }
{
    if is_at(end, place) {
        step_bounded(nodes, root, Some(place), other(d))
    } else {
        end
    }
}

impl TreeHead for WithEnds {
    ghost kept = { ended };

    #[inline]
    fn empty() -> WithEnds {
        WithEnds::of(None, None, None)
    }

    #[inline]
    fn root(&self) -> Option<Place> {
        self.root.get()
    }

    #[inline]
    fn attach<N: NodeStore>(
        &mut self,
        nodes: &mut N,
        parent: Option<Place>,
        side: Side,
        place: Place,
    ) {
        attach(nodes, &mut self.root, parent, side, place);
        let Some(above) = parent else {
            self.front = PlaceWord::of(Some(place));
            self.back = PlaceWord::of(Some(place));
            return;
        };
        match side {
            Side::Left => self.front = PlaceWord::of(end_for(above, place, self.front.get())),
            Side::Right => self.back = PlaceWord::of(end_for(above, place, self.back.get())),
        }
    }

    #[inline]
    fn unlink<N: NodeStore>(&mut self, nodes: &mut N, place: Place) {
        let root = self.root.get();
        let front = end_without(&*nodes, root, Side::Left, place, self.front.get());
        let back = end_without(&*nodes, root, Side::Right, place, self.back.get());
        unlink(nodes, &mut self.root, place);
        self.front = PlaceWord::of(front);
        self.back = PlaceWord::of(back);
    }

    #[inline]
    fn take_place<N: NodeStore>(&mut self, nodes: &mut N, place: Place, new: Place) {
        take_place(nodes, &mut self.root, place, new);
        self.front = PlaceWord::of(end_for(place, new, self.front.get()));
        self.back = PlaceWord::of(end_for(place, new, self.back.get()));
    }

    #[inline]
    fn end<L: RBTreeOps>(&self, links: &L, side: Side) -> Option<Place> {
        let _ = links;
        match side {
            Side::Left => self.front.get(),
            Side::Right => self.back.get(),
        }
    }

    #[inline]
    fn kept_last(&self) -> Option<Place> {
        self.back.get()
    }

    #[inline]
    fn join(&mut self, root: Option<Place>, place: Place, other: &mut WithEnds) {
        let front = self.front.get().or(Some(place));
        let back = other.back.get().or(Some(place));
        *self = WithEnds::of(root, front, back);
        *other = WithEnds::of(None, None, None);
    }

    #[inline]
    fn split<L: RBTreeOps>(
        &mut self,
        links: &L,
        front: Option<Place>,
        place: Place,
        back: Option<Place>,
    ) -> WithEnds {
        let last = steps::end_on(links, front, Side::Right);
        let rest = WithEnds::of(back, Some(place), self.back.get());
        *self = WithEnds::of(front, last.and(self.front.get()), last);
        rest
    }
}
