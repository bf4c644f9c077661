use crate::TrapCause;

/// A committed block and the exit that it took.
#[derive(Clone, Copy, Debug, PartialEq, Eq)]
pub struct Traced {
    pub block: u32,
    pub exit: u8,
}

/// What one step of the machine came to: it went on, it made system call 3, or system call 4, or its
/// block faulted with a cause.
#[derive(Clone, Copy, Debug, PartialEq, Eq)]
pub enum Stepped {
    Went,
    Ended,
    StackFull,
    Trap(TrapCause),
}

/// How a run ends.
///
/// `Ended` is system call 3, `StackFull` system call 4, and `Budget` a run that made neither in its
/// budget of blocks. `Trap` names a faulting block and its cause.
#[derive(Clone, Copy, Debug, PartialEq, Eq)]
pub enum Ending {
    Ended,
    StackFull,
    Budget,
    Trap { block: u32, cause: TrapCause },
}

/// What a run took: cycles, and blocks fetched, committed and flushed.
#[derive(Clone, Copy, Debug, PartialEq, Eq)]
pub struct Counts {
    pub cycles: u64,
    pub fetched: u64,
    pub committed: u64,
    pub flushed: u64,
}
