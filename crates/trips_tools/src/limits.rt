//! The limits of the files that hold no C.

ghost use Rattle.std.specs.Prelude.{◌≡◌};
ghost use Rattle.trips_requests.specs.Limits as limits;

/// How many bytes a target text may have.
pub const MOST_TARGET_BYTES: u64 = 67_108_864;

/// How many bytes an image may have.
pub const MOST_IMAGE_BYTES: u64 = 71_303_188;

/// The limits of the code are those of the definitions. It does nothing when it runs.
#[tactic(auto, unfolding(trips_requests::specs::Limits::most_target_bytes, trips_requests::specs::Limits::most_image_bytes))]
pub fn constants_are_the_definitions()
    ensures target_bytes { MOST_TARGET_BYTES ≡ limits.most_target_bytes }
    ensures image_bytes { MOST_IMAGE_BYTES ≡ limits.most_image_bytes }
{}
