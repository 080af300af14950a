//! The functions of this module check whether the words represent the trees that a call edits.
//!
//! ```text
//! represents_both(&links, &tree, &given)  // two trees that share no member
//! has_member(&links, &tree, place)   // a tree of which the place is a member
//! ```

ghost use Rattle.std.specs.Prelude.{◌≡◌, ◌↔◌, IsTrue};
ghost use Rattle.ic_check.specs.Subtrees.{AreApart};
ghost use Rattle.ic_link_ops.specs.Prelude.{IsLinked, HasMember, is_end};
ghost use Rattle.ic_link_ops.specs.RedBlackTree.{RepresentsSome};
ghost use Rattle.ic_rbtree.specs.Join.{RepresentsPartsSome};
ghost use Rattle.ic_rbtree.specs.Members.{HasChild};
ghost use Rattle.ic_rbtree.specs.Tree.{root_of};
ghost use Rattle.ic_raw.specs.Prelude.{marked_table, is_linked_three};
ghost use Rattle.ic_raw.specs.Tree.{Represents, IsWritten, node, root_in};

use ic_check::{TellsLinks, check_tree};
use ic_link_ops::rbtree::RBTreeOps;
use ic_raw::{MarkedTree, RawRoot, place_in};
use ic_rbtree::{KeyAdapter, RBTree};
use ic_unsafe_ref::Place;

// A path down a tree has at most this many members. A path of v members in a tree of n members has 2^v <= (n + 1)^2, and there are fewer than 2^33
// places.
const LONGEST_PATH: usize = 66;

/// The adapter of a tree whose edits compare no keys. The type of a tree needs an adapter, even to split it at a member.
#[derive(Clone, Copy)]
pub(crate) struct Unkeyed;

impl KeyAdapter for Unkeyed {
    type Value = u64;

    type Key = u64;

    ghost key_of = { λ _ value. value };

    fn get_key<'v>(&self, value: &'v u64) -> &'v u64 {
        value
    }
}

/// A tree whose words belong to the caller.
pub(crate) type Tree = RBTree<Unkeyed>;

// Returns the tree whose root the word in `words` names.
#[inline]
pub(crate) fn tree_of(words: &RawRoot) -> Tree
    ensures { root_of result ≡ root_in words.now }
{
    RBTree::from_root(Unkeyed, place_in(words.root))
}

// Writes the word of the root of `tree` into `words`.
#[inline]
#[tactic(auto, using(ic_raw::proofs::Entries::place_kept))]
pub(crate) fn write_back(words: &mut RawRoot, tree: &Tree)
    ensures set { root_in words.new ≡ root_of tree.now }
    ensures words { IsWritten words.new }
{
    words.root = Place::to_word(tree.root());
}

// Returns whether `end` is the place `place`. The function compares the words of the two.
#[inline]
fn is_at(end: Option<Place>, place: Place) -> bool
    ensures { result ≡ is_end end place }
{
    Place::to_word(end) == Place::to_word(Some(place))
}

// Returns whether the roots of two trees are different places, or one tree has no root.
fn are_apart(one: Option<Place>, given: Option<Place>) -> bool
    ensures { IsTrue result ↔ AreApart one given }
{
    match given {
        None => true,
        Some(place) => !is_at(one, place),
    }
}

// Returns whether the words represent a tree.
fn is_tree(links: &MarkedTree<'_>, tree: &Tree) -> bool
    ensures { IsTrue result ↔ RepresentsSome node (marked_table links.now) (root_of tree.now) }
{
    check_tree(tree, links).is_some()
}

// Returns whether the words represent two trees that share no member. Two trees with different roots share no member.
pub(crate) fn represents_both(links: &MarkedTree<'_>, tree: &Tree, given: &Tree) -> bool
    ensures { IsTrue result ↔ RepresentsPartsSome Represents (marked_table links.now) (root_of tree.now) (root_of given.now) }
{
    if !are_apart(tree.root(), given.root()) {
        return false;
    }
    if !is_tree(links, tree) {
        return false;
    }
    is_tree(links, given)
}

// Returns whether `parent` is linked, and `place` is one of its children.
fn has_child(links: &MarkedTree<'_>, parent: Place, place: Place) -> bool
    ensures { IsTrue result ↔ HasChild node (marked_table links.now) parent place }
{
    if !links.tells_linked(parent) {
        return false;
    }
    is_at(links.left(parent), place) || is_at(links.right(parent), place)
}

// Returns whether the parents of a linked place lead to the root of a tree, and each parent has the place below it as a child.
fn climbs_to_root(links: &MarkedTree<'_>, tree: &Tree, place: Place) -> bool
    requires linked { IsLinked is_linked_three (marked_table links.now) place }
    requires shown { RepresentsSome node (marked_table links.now) (root_of tree.now) }
    ensures { IsTrue result ↔ HasMember (Represents (marked_table links.now) (root_of tree.now)) place }
{
    let mut place = place;
    let mut steps = 0;
    while steps < LONGEST_PATH {
        let Some(parent) = links.parent(place) else {
            return is_at(tree.root(), place);
        };
        if !has_child(links, parent, place) {
            return false;
        }
        place = parent;
        steps += 1;
    }
    false
}

// Returns whether the words represent a tree of which the place is a member.
pub(crate) fn has_member(links: &MarkedTree<'_>, tree: &Tree, place: Place) -> bool
    ensures { IsTrue result ↔ HasMember (Represents (marked_table links.now) (root_of tree.now)) place }
{
    if !links.tells_linked(place) {
        return false;
    }
    if !is_tree(links, tree) {
        return false;
    }
    climbs_to_root(links, tree, place)
}
