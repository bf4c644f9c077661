use thiserror::Error;

/// The first fault of bytes that are no image, and the place of its first byte.
#[derive(Clone, Copy, Debug, PartialEq, Eq, Error)]
pub enum ImageFault {
    /// The first eight bytes are not `TRIPSIMG`.
    #[error("no image")]
    Magic,
    /// The version is not 1.
    #[error("another version")]
    Version,
    /// A field or a chunk needs more bytes than there are; the place is their number.
    #[error("truncated at {0}")]
    Truncated(u64),
    /// Bytes follow the last block.
    #[error("trailing bytes at {0}")]
    Trailing(u64),
    /// A field holds what it may not.
    #[error("a bad field at {0}")]
    BadField(u64),
    #[error("out of memory")]
    Memory,
}
