//! What every crate says where memory ran out.

use std::alloc::{AllocError, AllocFailed};
use thiserror::Error;

/// No memory was to be had.
#[derive(Clone, Copy, Debug, PartialEq, Eq, Error)]
#[error("NoMemory")]
pub struct NoMemory;

impl From<AllocError> for NoMemory {
    fn from(_refused: AllocError) -> NoMemory {
        NoMemory
    }
}

impl<T: Drop> From<AllocFailed<T>> for NoMemory {
    fn from(_refused: AllocFailed<T>) -> NoMemory {
        NoMemory
    }
}
