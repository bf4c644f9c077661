//! The limits of the profile (docs/LANGUAGE.md), as the code has them.

ghost use Rattle.std.specs.Prelude.{◌≡◌};
ghost use Rattle.c_tree.specs.Limits as limits;

/// How many bytes a source text may have.
pub const MOST_SOURCE_BYTES: u64 = 262_144;

/// How many tokens a source text may have.
pub const MOST_TOKENS: usize = 8192;

/// How deep a construct may stand.
pub const MOST_NESTING: u8 = 64;

/// How many parameters a function may have.
pub const MOST_PARAMETERS: usize = 8;

/// How many scalars a function may have, its parameters among them.
pub const MOST_SCALARS: u64 = 64;

/// How many temporaries a full expression may need.
pub const MOST_NEED: u64 = 16;

/// How many bytes an array may have, and all globals together.
pub const MOST_OBJECT_BYTES: u64 = 1_048_576;

/// How many bytes the frames of the active functions may have.
pub const MOST_FRAME_BYTES: u64 = 1_048_576;

/// The limits of the code are those of the profile. It does nothing when it runs.
#[tactic(auto, unfolding(crate::specs::Limits::most_source_bytes))]
pub fn limits_are_the_profiles()
    ensures source_bytes { MOST_SOURCE_BYTES ≡ limits.most_source_bytes }
    ensures tokens { MOST_TOKENS ≡ limits.most_tokens }
    ensures nesting { MOST_NESTING ≡ limits.most_nesting }
    ensures parameters { MOST_PARAMETERS ≡ limits.most_parameters }
    ensures scalars { MOST_SCALARS ≡ limits.most_scalars }
    ensures need { MOST_NEED ≡ limits.most_need }
    ensures object_bytes { MOST_OBJECT_BYTES ≡ limits.most_object_bytes }
    ensures frame_bytes { MOST_FRAME_BYTES ≡ limits.most_frame_bytes }
{}
