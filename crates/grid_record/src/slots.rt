//! The slots of a frame in flight.
ghost use Rattle.std.specs.Prelude.{◌≡◌, ◌<◌, ◌≤◌, ◌++◌, ◌∷◌, [], OnOk};
ghost use Rattle.operand_net.specs.Marks.{has_bit};
ghost use Rattle.grid_record.specs.Moments.{slot_byte, weight};
ghost use Rattle.grid_record.specs.Pieces.{pieces};

use crate::numbers::put_byte;
use frame_state::Body;
use std::alloc::AllocError;

/// A number where a flag is set, else 0.
pub fn weight(number: u8, flag: bool) -> u8
    ensures value { result ≡ weight number flag }
    ensures within { result ≤ number }
{
    if flag { number } else { 0 }
}

// Whether a bit of a word is 1.
fn has_bit(word: u128, bit: u8) -> bool
    requires { bit < 128 }
    ensures { result ≡ has_bit word bit }
{
    (word >> bit) & 1 == 1
}

// A slot that may fire or not.
fn slot_byte(held: &Body, ready: bool, slot: u8) -> u8
    requires { slot < 128 }
    ensures { result ≡ slot_byte held.now.spots held.now.fired ready slot }
{
    let left = weight(1, held.spot(slot as usize).is_some());
    let right = weight(2, held.spot(128 + slot as usize).is_some());
    let predicate = weight(4, held.spot(256 + slot as usize).is_some());
    let fired = weight(8, held.has_fired(slot));
    let may_fire = weight(16, ready);
    left + right + predicate + fired + may_fire
}

/// Writes the 128 slots of a frame, whose bits say which may fire.
pub fn put_slots(out: &mut Vec<u8>, held: &Body, ready: u128) -> Result<(), AllocError>
    ensures ok { OnOk result (out.new.items ≡ out.old.items
        ++ pieces (λ s. slot_byte held.now.spots held.now.fired (has_bit ready s) s ∷ []) 128) }
{
    for slot in 0..128u8 {
        let may_fire = has_bit(ready, slot);
        put_byte(out, slot_byte(held, may_fire, slot))?;
    }
    Ok(())
}
