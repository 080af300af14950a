//! The red-black tree: objects in order, which are inserted and removed anywhere.
//!
//! The caller chooses the order by cursors. If objects are inserted only by calls that search by keys, the order is that of the keys.
//!
//! ```text
//! let mut tree = RBTree::new(ByDeadline);
//! tree.insert(&mut links, &objects, object)?; // after all with no greater key
//! let first = tree.front_mut(&mut links).remove();
//! ```
//!
//! A tree with [`WithEnds`] also stores its first and its last member, which is good for timers and queues. It has all calls of a tree that stores only its
//! root.
//!
//! ```text
//! let mut timers = RBTree::with_ends(ByDeadline);
//! let due = timers.pop_front(&mut links); // no descent
//! ```
//!
//! You may store trees in words of your own. For an edit, make a tree of the root that you store, call `attach`, `unlink` or `take_place`, and store the root
//! that the tree has after the call. These calls run over every implementation of [`NodeStore`]. They require that the places that you pass are in a set of
//! linked places out of which no link leads. Only the links of a place that the call inserts may lead anywhere.
//!
//! ```text
//! let mut tree = RBTree::from_root((), root);
//! tree.attach(&mut nodes, parent, Side::Left, place);
//! let root = tree.root();
//! ```
#![tactic(auto)]

mod bounded;
mod builder;
mod contains;
mod cursors;
mod edits;
mod head;
mod into_iter;
mod iter;
mod join;
mod keys;
mod linking;
mod nodes;
mod queue;
pub mod rbtree_keys;
mod readings;
mod repair;
mod steps;
mod tree;
mod vine;
mod whole;

pub use bounded::step_bounded;
pub use builder::RBTreeBuilder;
pub use cursors::{Cursor, CursorMut, CursorOwning};
pub use head::{Root, TreeHead, WithEnds};
pub use ic_cursors::DebugWalk;
pub use ic_link_ops::Color;
pub use ic_link_ops::rbtree::{Link, LinkOps, RBTreeOps};
pub use into_iter::IntoIter;
pub use iter::Iter;
pub use keys::descent::Descent;
pub use keys::entry::{Entry, InsertCursor, RefusedInsert};
pub use keys::key_adapter;
pub use keys::key_adapter::{Bound, KeyAdapter};
pub use keys::probe::{KeyProbe, Probe};
pub use nodes::NodeStore;
pub use tree::{RBTree, RBTreeCached};
