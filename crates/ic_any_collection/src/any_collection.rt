//! A collection of any kind: how it is made, its kind and its cursor.
//!
//! ```text
//! let mut queue = AnyCollection::new(Kind::Doubly);
//! queue.kind() // Kind::Doubly, whatever is done with it
//! ```

ghost use Rattle.std.specs.Prelude.{◌≡◌, None, [], true};
ghost use Rattle.ic_link_ops.specs.Prelude.{Place, Table};
ghost use Rattle.ic_any_collection.specs.declared.entry.Entry.{Entry};
ghost use Rattle.ic_any_collection.specs.Kinds.{carries};
ghost use Rattle.ic_any_collection.specs.Entries.{kind_of};

use crate::kind::Kind;
use crate::unkeyed::Unkeyed;
use ic_chain::ListPosition;
use ic_cursors::Position;
use ic_link_ops::PlaceWord;
use ic_linked_list::LinkedList;
use ic_rbtree::RBTree;
use ic_singly_linked_list::SinglyLinkedList;
use ic_unsafe_ref::Place;
use ic_xor_linked_list::{PositionWithNext, XorLinkedList};

/// A collection of one of the kinds, with the position of its cursor: null, or on a member.
#[derive(Drop)]
pub enum AnyCollection<T> {
    /// A singly linked list.
    Singly(SinglyLinkedList<T>, PlaceWord),
    /// A doubly linked list.
    Doubly(LinkedList<T>, PlaceWord),
    /// An XOR linked list.
    Xor(XorLinkedList<T>, PositionWithNext),
    /// A red-black tree.
    Tree(RBTree<Unkeyed<T>>, PlaceWord),
}

impl<T> AnyCollection<T> {
    ghost use Rattle.ic_any_collection.specs.AnyCollection.{kind_in, cursor_in, Keeps};

    /// Makes an empty collection of this kind, with its cursor at null. It takes no memory.
    #[inline]
    pub fn new(kind: Kind) -> AnyCollection<T>
        ensures kind { kind_in result ≡ kind }
        ensures null { cursor_in result ≡ None }
        ensures kept { (t : Table Entry) → carries (kind_of t) kind ≡ true → Keeps t result [] }
    {
        let null = PlaceWord::of(None);
        match kind {
            Kind::Singly => Self::Singly(SinglyLinkedList::new(), null),
            Kind::Doubly => Self::Doubly(LinkedList::new(), null),
            Kind::Xor => Self::Xor(XorLinkedList::new(), ListPosition::null()),
            Kind::Tree => Self::Tree(RBTree::new(Unkeyed::new()), null),
        }
    }

    /// Returns the kind of the collection.
    #[inline]
    pub fn kind(&self) -> Kind
        ensures { result ≡ kind_in self.now }
    {
        match self {
            Self::Singly(..) => Kind::Singly,
            Self::Doubly(..) => Kind::Doubly,
            Self::Xor(..) => Kind::Xor,
            Self::Tree(..) => Kind::Tree,
        }
    }

    /// Returns the place of the member that the cursor is on, or `None` if the cursor is at null.
    #[inline]
    pub fn cursor(&self) -> Option<Place>
        ensures { result ≡ cursor_in self.now }
    {
        match self {
            Self::Singly(_, at) => at.get(),
            Self::Doubly(_, at) => at.get(),
            Self::Xor(_, at) => at.get(),
            Self::Tree(_, at) => at.get(),
        }
    }
}
