//! The colors of a red-black tree's members.
//!
//! ```text
//! links.set_color(place, Color::Red);
//! ```

/// The color of a member of a red-black tree is red or black.
#[derive(Clone, Copy, PartialEq, Eq, Debug)]
pub enum Color {
    /// No red member has a red child.
    Red,
    /// All paths from the root down to a missing child have equally many black members.
    Black,
}
