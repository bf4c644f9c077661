//! The tokens of a frame in flight that are on their way.
ghost use Rattle.std.specs.Prelude.{◌≡◌, ◌++◌, is_some, OnOk};
ghost use Rattle.commit_flush_spec.specs.Frames.{at};
ghost use Rattle.grid_record.specs.Moments.{token_bytes, tokens_bytes};
ghost use Rattle.grid_record.specs.Pieces.{pieces};

use crate::numbers::{put_all, put_short};
use frame_state::Body;
use std::alloc::AllocError;

// Writes a place, where a token is on its way in it.
fn put_token(out: &mut Vec<u8>, held: &Body, place: u16) -> Result<(), AllocError>
    ensures ok { OnOk result (out.new.items
        ≡ out.old.items ++ token_bytes (is_some (at held.now.places place)) place) }
{
    if held.has_token(place as usize) {
        put_short(out, place)
    } else {
        Ok(())
    }
}

// Writes the places in which tokens are on their way.
fn put_places(out: &mut Vec<u8>, held: &Body) -> Result<(), AllocError>
    ensures ok { OnOk result (out.new.items
        ≡ out.old.items ++ pieces (λ p. token_bytes (is_some (at held.now.places p)) p) 320) }
{
    for place in 0..320u16 {
        put_token(out, held, place)?;
    }
    Ok(())
}

/// Writes the tokens on their way.
pub fn put_tokens(out: &mut Vec<u8>, held: &Body) -> Result<(), AllocError>
    ensures ok { OnOk result (out.new.items ≡ out.old.items ++ tokens_bytes held.now.places) }
{
    put_places(out, held)?;
    put_all(out, &[255, 255])
}
