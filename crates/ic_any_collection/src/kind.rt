//! The kinds of tables and of collections.
//!
//! ```text
//! Kind::Tree.carries(Kind::Doubly) // true: a doubly linked list takes the left child for the place before
//! ```

ghost use Rattle.std.specs.Prelude.{◌≡◌};

/// A kind of link tables, and of collections. A collection needs everything that a table of its own kind stores.
#[derive(Clone, Copy, PartialEq, Eq, Debug)]
pub enum Kind {
    /// Singly linked lists: an entry names the next place.
    Singly,
    /// Doubly linked lists: an entry names the next and the previous place.
    Doubly,
    /// XOR linked lists: an entry has the exclusive or of both neighbors in one word.
    Xor,
    /// Red-black trees: an entry names two children and the parent, and has a color.
    Tree,
}

impl Kind {
    ghost use Rattle.ic_any_collection.specs.Kinds.{carries};

    /// Returns whether a table of this kind can serve collections of the kind `collection`.
    ///
    /// Every table can serve singly linked lists and XOR lists. Tables of doubly links and of tree links can also serve doubly linked lists, and
    /// tables of tree links can serve every kind.
    #[inline]
    pub fn carries(self, collection: Kind) -> bool
        ensures { result ≡ carries self collection }
    {
        match collection {
            Kind::Singly | Kind::Xor => true,
            Kind::Doubly => self == Kind::Doubly || self == Kind::Tree,
            Kind::Tree => self == Kind::Tree,
        }
    }
}
