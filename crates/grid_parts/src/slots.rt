//! The lowest of a tile's slots that is marked.
ghost use Rattle.std.specs.Prelude.{◌≡◌, ◌<◌, IfSome};
ghost use Rattle.grid_parts.specs.inside.EldestChoices.{lowest_slot};

/// The slots of tile 0, as bits.
const EVERY_16: u128 = 0x0001_0001_0001_0001_0001_0001_0001_0001;

/// The lowest slot of a tile whose bit is set.
pub fn lowest_on(marks: u128, tile: u8) -> Option<u8>
    requires { tile < 16 }
    ensures value { result ≡ lowest_slot marks tile }
    ensures within { IfSome result (λ s. s < 128) }
{
    let row = (marks >> tile) & EVERY_16;
    if row == 0 {
        None
    } else {
        Some(tile + row.trailing_zeros() as u8)
    }
}
