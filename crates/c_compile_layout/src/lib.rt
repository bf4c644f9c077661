//! The blocks of a compiled program as an image: where each stands, what its labels become, and what
//! the image does.
#![tactic(auto)]

mod images;
mod law;
mod linking;

pub use images::image;
pub use law::{
    blocks_that_fit_have_starts, clean_slots_are_clean_blocks, halves_make_an_address,
    images_do_what_programs_do, images_mean_what_programs_mean, images_of_programs_mean_them,
    layouts_are_faithful, linked_blocks_are_an_image, passes_never_read_immediates,
    targeted_blocks_have_sizes,
};
pub use linking::{link, link_all, offset, resolve, resolved_imm};
