use block_check::CheckFault;
use block_image::ImageFault;
use thiserror::Error;

/// The first fault of bytes that save nothing, and the place of its first byte.
#[derive(Clone, Copy, Debug, PartialEq, Eq, Error)]
pub enum SaveFault {
    /// The first eight bytes are not `TRIPSSAV`.
    #[error("no saved state")]
    Magic,
    /// The version is not 1.
    #[error("another version")]
    Version,
    /// A field before the image needs more bytes than there are; the place is their number.
    #[error("truncated at {0}")]
    Truncated(u64),
    /// A field holds what it may not: the number of a list's bytes, the last byte of memory, or the next block.
    #[error("a bad field at {0}")]
    BadField(u64),
    /// What stands behind the state is no image; places count from its first byte.
    #[error("no image")]
    Image(ImageFault),
    /// The first bad block of the image, and its fault.
    #[error("bad block {0}")]
    Bad(u32, CheckFault),
    #[error("out of memory")]
    Memory,
}
