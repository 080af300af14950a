//! A value that prints the objects of a collection.
//!
//! ```text
//! println!(rt; "{:?}", list.debug(&links, &objects))?; // [10, 20]
//! ```

ghost use Rattle.std.specs.Prelude.{◌≡◌};
ghost use Rattle.std.specs.Iterator.{IsFiniteIterable};

use std::fmt;
use std::marker::Model;

/// A walk over objects as a value that can be printed. Each print walks over a copy of the walk, so every print gives the same text.
pub struct DebugWalk<I: Iterator + Clone> {
    walk: I,
}

impl<I: Iterator + Clone> Model for DebugWalk<I> {
    ghost Value = { I };

    ghost coded = { I.code };

    ghost view = { λ debug_walk. debug_walk.walk };

    ghost invariant = { λ debug_walk. I.is_infallible debug_walk.walk × IsFiniteIterable I.is_clone I.can_next I.remaining debug_walk.walk };
}

impl<I: Iterator + Clone> Drop for DebugWalk<I> {
    fn drop(self) {
        let DebugWalk { walk: _ } = self;
    }
}

impl<I: Iterator + Clone> DebugWalk<I> {
    /// A value that prints the objects that the walk has not returned yet. The call requires that every copy of the walk can be walked to its end. The call
    /// takes O(1) and no memory.
    #[inline]
    pub fn new(walk: I) -> DebugWalk<I>
        requires copied { I.is_infallible walk }
        requires ends { IsFiniteIterable I.is_clone I.can_next I.remaining walk }
        ensures { result ≡ walk }
    {
        DebugWalk { walk }
    }
}

/// Prints the objects in brackets, in order, for example `[10, 20]`. With `{:#?}` each object is printed on lines of its own. A print makes one walk.
impl<I: Iterator + Clone> fmt::Debug for DebugWalk<I>
where
    I::Item: fmt::Debug + Drop,
{
    fn fmt<W: fmt::Write>(&self, f: &mut fmt::Formatter<W>) -> fmt::Result {
        f.debug_list().entries(self.walk.clone().unwrap()).finish()
    }
}
