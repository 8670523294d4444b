use std::alloc::{AllocError, AllocFailed};

/// Out of memory: the one error whose cause no clause names. All crates return this type.
#[derive(Clone, Copy, Debug, PartialEq, Eq)]
pub struct OutOfMemory;

impl From<AllocError> for OutOfMemory {
    fn from(_cause: AllocError) -> OutOfMemory {
        OutOfMemory
    }
}

impl<T: Drop> From<AllocFailed<T>> for OutOfMemory {
    fn from(_cause: AllocFailed<T>) -> OutOfMemory {
        OutOfMemory
    }
}
