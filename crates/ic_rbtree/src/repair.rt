//! Functions that insert places and remove members, and make the tree red-black again.
//!
//! ```text
//! attach(links, root, place, insert_pos); // the place is a leaf, and the colors are right
//! ```

pub(crate) mod insertion;
pub(crate) mod removal;
pub(crate) mod writers;

// The greatest number of turns that a loop of a repair makes, whatever the link words contain. In a tree of the right shape every path down is shorter.
pub(crate) const TURNS: u32 = 67;
