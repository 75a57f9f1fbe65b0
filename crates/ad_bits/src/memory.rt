use std::alloc::AllocError;
use thiserror::Error;

/// Want of memory. It is the one answer whose coming no contract ties to a cause.
#[derive(Clone, Copy, Debug, Error)]
#[error("out of memory")]
pub struct Memory;

impl From<AllocError> for Memory {
    fn from(_error: AllocError) -> Memory {
        Memory
    }
}
