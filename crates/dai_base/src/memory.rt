use std::alloc::{AllocError, AllocFailed};

/// Want of memory: the one answer that no contract ties to a cause.
#[derive(Clone, Copy, Debug, PartialEq, Eq)]
pub struct Spent;

impl From<AllocError> for Spent {
    fn from(_error: AllocError) -> Spent {
        Spent
    }
}

impl<T: Drop> From<AllocFailed<T>> for Spent {
    fn from(_error: AllocFailed<T>) -> Spent {
        Spent
    }
}
