//! What a frame holds besides tokens.

/// What an answered load took: nothing, where its address is null or bad, or so many bytes from an address on.
#[derive(Clone, Copy, Debug, PartialEq, Eq)]
pub enum Took {
    Nothing,
    From(u64, u8),
}

/// The exit that a frame takes, whether it makes a system call, and the block that follows.
#[derive(Clone, Copy, Debug, PartialEq, Eq)]
pub struct Departure {
    pub exit: u8,
    pub system: bool,
    pub successor: u32,
}

/// An output that a frame lacks: a declared write, the store of a number of the mask, or the exit.
///
/// Of two the lesser one stands first here, and of two with one name that of the lower number.
#[derive(Clone, Copy, Debug, PartialEq, Eq, PartialOrd, Ord)]
pub enum Lack {
    Write(u8),
    Store(u8),
    Exit,
}
