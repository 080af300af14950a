//! The two sides of a tree's member.
//!
//! ```text
//! Side::Left // where the smaller members stand
//! ```

/// A side is left or right. Code that has two mirrored halves is written once and takes a side as an argument.
#[derive(Clone, Copy, PartialEq, Eq, Debug)]
pub enum Side {
    /// The left subtree of a member contains the members that come before it.
    Left,
    /// The right subtree of a member contains the members that come after it.
    Right,
}
