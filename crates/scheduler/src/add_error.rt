//! The error that a scheduler returns if it does not add a task.

ghost use Rattle.std.specs.Prelude.{◌≡◌};

/// The reason why a task was not added, with the value of the task.
#[derive(Debug, Drop)]
pub enum AddError<V> {
    /// All places are in use.
    TooManyTasks(V),
    /// There was not enough memory for the task or its links.
    OutOfMemory(V),
}

impl<V> AddError<V> {
    ghost use Rattle.scheduler.specs.Refusals.{number_of};

    /// Returns the number of the refusal: 21 or 22.
    pub fn number(&self) -> u8
        ensures { result ≡ number_of self.now }
    {
        match self {
            AddError::TooManyTasks(_) => 21,
            AddError::OutOfMemory(_) => 22,
        }
    }
}
