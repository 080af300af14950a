//! A vine is a tree in which each member is the right child of the member before it. New members are added at its back.
//!
//! ```text
//! let mut vine = Vine::new();
//! let next = vine.push_back(nodes, place); // what stood after the place before
//! ```

ghost use Rattle.std.specs.Prelude.{◌≡◌, List};
ghost use Rattle.ic_link_ops.specs.Prelude.{no_members, Inserts, node_at, IsAbsent, at_back};
ghost use Rattle.ic_rbtree.specs.Prelude.{IsNode, RepresentsVine, RepresentsVineSome};
ghost use Rattle.ic_tree_merges.specs.Vines.{ends_of};

use ic_rbtree::NodeStore;
use ic_unsafe_ref::Place;

/// The first and the last member of a vine.
#[derive(Clone, Copy)]
pub(crate) struct Vine {
    pub(crate) first: Option<Place>,
    pub(crate) last: Option<Place>,
}

impl Vine {
    // Makes a vine with no member.
    pub(crate) fn new() -> Vine
        ensures { ends_of result ≡ no_members }
    {
        Vine {
            first: None,
            last: None,
        }
    }

    // Adds a linked place after the last member of the vine, and returns the right child that the place had.
    #[inline]
    pub(crate) fn push_back<N: NodeStore>(&mut self, nodes: &mut N, place: Place) -> Option<Place>
        requires linked { IsNode N.node (N.table nodes.old) place }
        requires shown { RepresentsVineSome N.node (N.table nodes.old) (ends_of self.old) }
        ensures hung { (s : List Place) → RepresentsVine N.node (N.table nodes.old) (ends_of self.old) s → IsAbsent place s
            → Inserts (RepresentsVine N.node) (N.table nodes.old) (N.table nodes.new) (ends_of self.new) (at_back s) place }
        ensures after { result ≡ (node_at N.node (N.table nodes.old) place).right }
        ensures keeps_links { N.KeepsLinks nodes.old nodes.new }
    {
        let after = nodes.right(place);
        nodes.set_right(place, None);
        match self.last {
            Some(last) => nodes.set_right(last, Some(place)),
            None => self.first = Some(place),
        }
        self.last = Some(place);
        after
    }
}
