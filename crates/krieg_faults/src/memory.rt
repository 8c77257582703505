use std::alloc::{AllocError, AllocFailed};
use thiserror::Error;

/// Memory was not found. No clause can promise that it is found; some say that a call needs none.
#[derive(Clone, Copy, Debug, PartialEq, Eq, Error)]
#[error("memory was not found")]
pub struct NoMemory;

impl From<AllocError> for NoMemory {
    fn from(_error: AllocError) -> NoMemory {
        NoMemory
    }
}

impl<T: Drop> From<AllocFailed<T>> for NoMemory {
    fn from(_error: AllocFailed<T>) -> NoMemory {
        NoMemory
    }
}
