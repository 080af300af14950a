//! Which part of an object is its key, and the bounds of searches by keys.

ghost use Rattle.std.specs.Prelude.{◌≡◌};

/// Says which part of an object is its key.
///
/// The key is a function of the adapter and the value: while a value is not changed, its key stays the same.
///
/// ```text
/// impl KeyAdapter for ByDeadline {
///     type Value = Task;
///     type Key = u64;
///
///     fn get_key<'v>(&self, task: &'v Task) -> &'v u64 {
///         &task.deadline
///     }
/// }
/// ```
pub trait KeyAdapter: Copy {
    /// The type of the objects whose keys the adapter finds.
    type Value;

    /// The type of the keys, which the tree compares by its `Ord`.
    type Key: Ord;

    // The key of a value.
    ghost key_of: { Self → Self.Value → Self.Key };

    /// The key of `value`, which is a part of it. O(1).
    fn get_key<'v>(&self, value: &'v Self::Value) -> &'v Self::Key
        ensures { result.now ≡ key_of self.now value.now };
}

/// An end of a range of keys, which a caller passes to a search.
///
/// ```text
/// tree.lower_bound(&links, &objects, Bound::Included(&5)) // the first member with a key of at least 5
/// ```
#[derive(Copy, Clone, PartialEq, Eq, Hash, Debug)]
pub enum Bound<T> {
    /// The end is this key, which is within the range.
    Included(T),
    /// The end is this key, which is not within the range.
    Excluded(T),
    /// The range has no end on this side.
    Unbounded,
}
