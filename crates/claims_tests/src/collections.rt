//! The four kinds of collections into which parties insert objects, each with one call that a test makes.

ghost use Rattle.std.specs.Prelude.{IfSome};
ghost use Rattle.ic_link_ops.specs.LinkedList as doubly;
ghost use Rattle.ic_link_ops.specs.RedBlackTree as trees;
ghost use Rattle.ic_link_ops.specs.SinglyLinkedList as singly;
ghost use Rattle.ic_link_ops.specs.Tables.{Table, IsCovered};
ghost use Rattle.ic_link_ops.specs.XorLinkedList as xor;
ghost use Rattle.ic_rbtree.specs.Tree.{root_of};

use ic_link_ops::LinkOps;
use ic_link_ops::linked_list::LinkedListOps;
use ic_link_ops::rbtree::RBTreeOps;
use ic_link_ops::singly_linked_list::SinglyLinkedListOps;
use ic_link_ops::xor_linked_list::XorLinkedListOps;
use ic_linked_list::LinkedList;
use ic_rbtree::{KeyAdapter, RBTree};
use ic_singly_linked_list::SinglyLinkedList;
use ic_unsafe_ref::UnsafeRef;
use ic_xor_linked_list::XorLinkedList;

/// A collection over links of type `L`, into which a party inserts objects.
pub(crate) trait Collection<L: LinkOps>: Drop {
    // Says that the table represents some sequence for the collection.
    ghost Represented: { Table L.Entry → Self → Type 0 };

    /// Inserts the object, unless its link is refused, and returns whether it was inserted. If no object is given, the call removes the first member
    /// and then all other members.
    fn put_or_empty(&mut self, links: &mut L, object: Option<UnsafeRef<u64>>) -> bool
        requires covered { IfSome object (λ o. IsCovered (L.table links.old) o) }
        requires shown { Represented (L.table links.old) self.old }
        ensures shown { Represented (L.table links.new) self.new };
}

// Inserts the object into a list by the given method, and returns whether it was inserted. If there is no object, removes the first member and then all
// other members, and returns false.
macro_rules! put_or_empty {
    ($list:ident.$push:ident, $links:ident, $object:ident) => {
        match $object {
            Some(object) => $list.$push($links, object).is_ok(),
            None => {
                let _ = $list.pop_front($links);
                $list.clear($links);
                false
            }
        }
    };
}

impl<L: SinglyLinkedListOps> Collection<L> for SinglyLinkedList<u64> {
    ghost Represented = { singly.RepresentsSome L.successor };

    fn put_or_empty(&mut self, links: &mut L, object: Option<UnsafeRef<u64>>) -> bool {
        put_or_empty!(self.push_front, links, object)
    }
}

impl<L: LinkedListOps> Collection<L> for LinkedList<u64> {
    ghost Represented = { doubly.RepresentsSome L.neighbors };

    fn put_or_empty(&mut self, links: &mut L, object: Option<UnsafeRef<u64>>) -> bool {
        put_or_empty!(self.push_back, links, object)
    }
}

impl<L: XorLinkedListOps> Collection<L> for XorLinkedList<u64> {
    ghost Represented = { xor.RepresentsSome L.linked L.HasNeighbors };

    fn put_or_empty(&mut self, links: &mut L, object: Option<UnsafeRef<u64>>) -> bool {
        put_or_empty!(self.push_back, links, object)
    }
}

/// Says that a value is its own key.
#[derive(Clone, Copy)]
pub(crate) struct ByValue;

impl KeyAdapter for ByValue {
    type Value = u64;

    type Key = u64;

    ghost key_of = { λ a v. v };

    fn get_key<'v>(&self, value: &'v u64) -> &'v u64 {
        value
    }
}

impl<L: RBTreeOps> Collection<L> for RBTree<ByValue> {
    ghost Represented = { λ t tree. trees.RepresentsSome L.node t (root_of tree) };

    fn put_or_empty(&mut self, links: &mut L, object: Option<UnsafeRef<u64>>) -> bool {
        match object {
            Some(object) => self.cursor_mut(links).insert_before(object).is_ok(),
            None => {
                let _ = self.front_mut(links).remove();
                self.clear(links);
                false
            }
        }
    }
}
