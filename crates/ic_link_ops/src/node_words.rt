//! This file defines what the words of a tree's link store.

ghost use Rattle.std.specs.Prelude.{◌≡◌, true};
ghost use Rattle.ic_link_ops.specs.RedBlackTree.{Node};
ghost use Rattle.ic_link_ops.specs.Tables.{IsNameable};
ghost use Rattle.ic_link_ops.specs.Widths.{HasRoom};

use crate::color::Color;
use crate::link::PrevPlace;
use ic_unsafe_ref::Place;

/// Words of a link that store two children, a parent and a color.
pub trait NodeWords: PrevPlace {
    // What the words store: whether the place is linked, its children, its parent and its color.
    ghost node: { Self → Node };

    /// The left child.
    fn left(&self) -> Option<Place>
        ensures { result ≡ (node self.now).left };

    /// The right child.
    fn right(&self) -> Option<Place>
        ensures { result ≡ (node self.now).right };

    /// The parent.
    fn parent(&self) -> Option<Place>
        ensures { result ≡ (node self.now).parent };

    /// The color.
    fn color(&self) -> Color
        ensures { result ≡ (node self.now).color };

    /// Replaces the left child. The call requires that the words have room for the child.
    fn set_left(&mut self, left: Option<Place>)
        requires named { IsNameable (HasRoom Self.width) left }
        ensures { node self.new ≡ record (node self.old) { left = left } };

    /// Replaces the right child. The call requires that the words have room for the child.
    fn set_right(&mut self, right: Option<Place>)
        requires named { IsNameable (HasRoom Self.width) right }
        ensures { node self.new ≡ record (node self.old) { right = right } };

    /// Replaces the parent. The call requires that the words have room for the parent.
    fn set_parent(&mut self, parent: Option<Place>)
        requires named { IsNameable (HasRoom Self.width) parent }
        ensures { node self.new ≡ record (node self.old) { parent = parent } };

    /// Replaces the color.
    fn set_color(&mut self, color: Color)
        ensures { node self.new ≡ record (node self.old) { color = color } };

    /// Replaces the parent and the color of a linked place. The call requires that the words have room for the parent.
    fn set_parent_and_color(&mut self, parent: Option<Place>, color: Color)
        requires linked { Self.is_linked self.old ≡ true }
        requires named { IsNameable (HasRoom Self.width) parent }
        ensures { node self.new ≡ record (node self.old) { parent = parent; color = color } };

    // The law: the traits `NodeWords` and `Words` agree on whether the place is linked.
    ghost node_linked: { (w : Self) → (node w).linked ≡ Self.is_linked w };
}
