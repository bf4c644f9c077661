//! A law of ticks, over their definition alone.
ghost use Rattle.std.specs.Prelude.{◌≡◌, ◌<◌, ℕ, List, length};
ghost use Rattle.operand_net.specs.Places.{Places};
ghost use Rattle.operand_net.specs.Tick.{Ticked};
ghost use Rattle.operand_net.specs.inside.Tick.{trip_of};

use crate::weather::Weather;

/// A tick loses no parcel, doubles none, and changes none: in each place travels what did before.
pub fn ticks_lose_nothing<W: Weather>()
    ensures { (order : List ℕ) (before after : Places) (v w : W)
        → Ticked W.next W.follows order before after v w (length order)
        → (f p : ℕ) → p < 320 → trip_of (after f p) ≡ trip_of (before f p) }
{}
