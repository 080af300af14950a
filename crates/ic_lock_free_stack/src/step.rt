//! The steps of a holder, and how its record stores them.

use ic_unsafe_ref::Place;
use std::collections::LinkedList;

/// A step of a holder, with its result.
///
/// No value of this type is made. Only contracts see records.
pub enum Step {
    /// The holder tried to claim the place, and the second field says whether the claim succeeded.
    Claim(Place, bool),
    /// The holder released the place.
    Release(Place),
    /// The holder pushed the listed places to the front of the stack with the given number, in the order of the list.
    Push(usize, LinkedList<Place>),
    /// The holder took all members of the stack with the given number, and the members were the listed places.
    TakeAll(usize, LinkedList<Place>),
}

/// The steps of one holder, in the order in which the holder made them.
pub type Record = LinkedList<Step>;

/// An entry of a history of all holders: a step, and the name of the holder that made the step.
///
/// No value of this type is made.
pub struct Entry {
    pub holder: usize,
    pub step: Step,
}

/// The steps of all holders, in the order in which they were made.
pub type History = LinkedList<Entry>;
