//! A job of the queue, and its priority.

ghost use Rattle.std.specs.Prelude.{◌≡◌, ◌<◌};
ghost use Rattle.structure_tests.specs.Jobs.{list_index};

/// The priority of a job: how urgent the job is.
#[derive(Clone, Copy, PartialEq, Eq, Debug)]
pub enum Priority {
    Urgent,
    High,
    Normal,
    Low,
}

impl Priority {
    /// Returns the index of the list of this priority, which is 0 to 3. O(1).
    pub fn list_index(self) -> usize
        ensures value { result ≡ list_index self }
        ensures small { result < 4 }
    {
        match self {
            Priority::Urgent => 0,
            Priority::High => 1,
            Priority::Normal => 2,
            Priority::Low => 3,
        }
    }
}

/// A job as it is stored at a place.
#[derive(Drop)]
pub struct Job<V> {
    pub priority: Priority,
    pub value: V,
}
