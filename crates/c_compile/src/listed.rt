use base::Items;
use block_check::CheckedImage;

/// The image of a text, and the number of the first block of each function, in the order of the text.
#[derive(Drop)]
pub struct Listed {
    pub image: CheckedImage,
    pub entries: Items<u32>,
}
