//! Out of memory, the one answer that no clause ties to a cause.
use std::alloc::{AllocError, AllocFailed};

/// Memory ran out. Whoever answers it has changed nothing that its caller can still see.
#[derive(Clone, Copy, Debug, PartialEq, Eq)]
pub struct NoMemory;

impl From<AllocError> for NoMemory {
    fn from(_error: AllocError) -> NoMemory {
        NoMemory
    }
}

impl<T: Drop> From<AllocFailed<T>> for NoMemory {
    fn from(_refused: AllocFailed<T>) -> NoMemory {
        NoMemory
    }
}
