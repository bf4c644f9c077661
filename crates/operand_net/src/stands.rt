//! The table of places: where each parcel stands.
ghost use Rattle.std.specs.Prelude.{◌≡◌, ◌<◌, ◌≤◌, ◌+◌, ◌*◌, ℕ, IfOk, IfSome, length, get_or, set, true};
ghost use Rattle.operand_net.specs.Places.{at};
ghost use Rattle.operand_net.specs.inside.Places.{in_frame, come, Inside};
ghost use Rattle.operand_net.specs.inside.IsStands.{is_here, is_come, IsNext};
ghost use Rattle.operand_net.specs.declared.parcel.Stand.TheVariants.{Nowhere};

use crate::marks::Marks;
use crate::parcel::{Parcel, Stand};
use std::alloc::{AllocError, Global};
use std::marker::Model;

/// Where the parcels of 320 places of each of eight frames stand.
///
/// `busy` marks the places with a parcel, and `arrived` those whose parcel has come and is held no longer.
#[derive(Debug, Drop)]
pub struct Stands {
    stands: Vec<Stand>,
    busy: Marks,
    arrived: Marks,
}

impl Model for Stands {
    ghost use Rattle.std.specs.Prelude.{List};
    ghost use Rattle.operand_net.specs.declared.parcel.Stand.{Stand};
    ghost use Rattle.operand_net.specs.inside.IsStands.{IsStands};

    ghost Value = { List Stand };

    ghost view = { λ s. s.stands.items };

    ghost invariant = { λ s. IsStands s.stands.items s.busy s.arrived };
}

// As many places without a parcel.
fn empty(alloc: Global) -> Result<Vec<Stand>, AllocError>
    ensures size { IfOk result (λ stands. length stands.items ≡ 2560) }
    ensures none { IfOk result (λ stands. (q : ℕ) → get_or stands.items q Nowhere ≡ Nowhere) }
{
    let mut stands = Vec::with_capacity(alloc, 2560)?;
    for _i in 0..2560usize {
        stands.push(Stand::Nowhere)?;
    }
    Ok(stands)
}

// Whether there is a parcel.
fn is_here(stand: Stand) -> bool
    ensures { result ≡ is_here stand }
{
    match stand {
        Stand::Nowhere => false,
        Stand::Away { trip: _, at: _ } => true,
        Stand::Held { trip: _, left: _ } => true,
    }
}

// Whether a parcel has come and is held no longer.
fn is_come(stand: Stand) -> bool
    ensures { result ≡ is_come stand }
{
    match stand {
        Stand::Nowhere => false,
        Stand::Away { trip: _, at: _ } => false,
        Stand::Held { trip: _, left } => left == 0,
    }
}

// The parcel of a place, where it has come.
fn come(frame: u8, place: u16, stand: Stand) -> Option<Parcel>
    ensures { result ≡ come frame place stand }
{
    match stand {
        Stand::Held { trip, left: 0 } => Some(Parcel {
            frame,
            generation: trip.generation,
            from: trip.from,
            to: trip.to,
            place,
        }),
        _ => None,
    }
}

impl Stands {
    /// No parcel anywhere.
    pub fn make(alloc: Global) -> Result<Stands, AllocError>
        ensures { IfOk result (λ s. (q : ℕ) → get_or s q Nowhere ≡ Nowhere) }
    {
        let stands = empty(alloc)?;
        Ok(Stands {
            stands,
            busy: Marks::none(),
            arrived: Marks::none(),
        })
    }

    /// Where the parcel of a place stands.
    pub fn at(&self, place: usize) -> Stand
        requires { place < 2560 }
        ensures value { result ≡ get_or self.now place Nowhere }
        ensures inside { Inside result }
    {
        self.stands[place]
    }

    /// The parcel of a place stands elsewhere, or is there no longer.
    pub fn put(&mut self, place: usize, stand: Stand)
        requires place { place < 2560 }
        requires inside { Inside stand }
        ensures put { self.new ≡ set self.old place stand }
        ensures size { length self.old ≡ 2560 }
    {
        self.stands[place] = stand;
        self.busy.set(place, is_here(stand));
        self.arrived.set(place, is_come(stand));
    }

    /// Whether there is no parcel.
    pub fn is_empty(&self) -> bool
        ensures { result ≡ true → (q : ℕ) → get_or self.now q Nowhere ≡ Nowhere }
    {
        self.busy.is_empty()
    }

    /// The lowest place of a frame with a parcel, from a place on; 320 where there is none.
    pub fn next(&self, frame: u8, from: usize) -> usize
        requires frame { frame < 8 }
        requires from { from ≤ 320 }
        ensures { IsNext self.now frame from result }
    {
        self.busy.lowest(frame, from)
    }

    /// The parcel of a frame that has come and has the lowest place; none exactly where none has come.
    pub fn first_come(&self, frame: u8) -> Option<Parcel>
        requires { frame < 8 }
        ensures value { result ≡ in_frame (at self.now) frame }
        ensures within { IfSome result (λ c. (c.frame ≡ frame) × (c.place < 320)) }
    {
        let p = self.arrived.lowest(frame, 0);
        if p < 320 {
            come(frame, p as u16, self.at(320 * frame as usize + p))
        } else {
            None
        }
    }
}
