use std::alloc::{AllocError, AllocFailed};

/// An allocation failed.
#[derive(Clone, Copy, Debug, PartialEq, Eq)]
pub struct OutOfMemory;

impl From<AllocError> for OutOfMemory {
    fn from(_e: AllocError) -> OutOfMemory {
        OutOfMemory
    }
}

impl<T: Drop> From<AllocFailed<T>> for OutOfMemory {
    fn from(_e: AllocFailed<T>) -> OutOfMemory {
        OutOfMemory
    }
}

/// A transfer of bytes failed: a source gave none, or a sink took none.
#[derive(Clone, Copy, Debug, PartialEq, Eq)]
pub struct Failed;
