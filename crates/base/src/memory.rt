use std::alloc::AllocError;

/// Want of memory: the error of a call that can be refused for nothing else.
///
/// No contract says when it comes. What was lent to the call is unchanged, and what was moved into
/// it is gone.
#[derive(Clone, Copy, Debug, PartialEq, Eq)]
pub struct Memory;

impl From<AllocError> for Memory {
    fn from(_: AllocError) -> Memory {
        Memory
    }
}
