//! Parcels: how they enter, travel and arrive.
ghost use Rattle.std.specs.Prelude.{◌≡◌, ◌<◌, All, IfSome, length, slice_index};
ghost use Rattle.operand_net.specs.inside.Places as places;
ghost use Rattle.operand_net.specs.Places.{at};
ghost use Rattle.operand_net.specs.inside.Places.{Once};
ghost use Rattle.operand_net.specs.Tick.{Ticked};
ghost use Rattle.commit_flush_spec.specs.Window.{Window};
ghost use Rattle.grid_cycle_spec.specs.Sending as spec;
ghost use Rattle.grid_parts.specs.Seen.{seen};
ghost use Rattle.grid_parts.specs.inside.Changes.{travelled, with_parcels};

use crate::state::State;
use operand_net::{Parcel, Weather};

impl<W> State<W> {
    /// The parcel of a frame's place enters the mesh at a node; the frame has this generation.
    pub fn enter(&mut self, frame: u8, generation: u64, place: u16, from: u8, to: u8)
        requires frame { frame < 8 }
        requires place { place < 320 }
        requires from { from < 25 }
        requires to { to < 25 }
        ensures { (w : Window) → slice_index w.generations frame ≡ generation
            → seen w self.new ≡ spec.enters frame place from to (seen w self.old) }
    {
        self.mesh.inject(Parcel {
            frame,
            generation,
            from,
            to,
            place,
        });
    }

    /// Takes the eldest parcel that has arrived; none exactly where none has.
    pub fn arrived(&mut self, order: &[u8]) -> Option<Parcel>
        requires { All (λ n. n < 8) order.now }
        ensures value { result ≡ places.eldest (at self.old.mesh) order.now }
        ensures within { IfSome result (λ c. c.place < 320) }
        ensures change { (w : Window) → seen w self.new
            ≡ with_parcels (places.without (at self.old.mesh) result) (seen w self.old) }
    {
        self.mesh.arrived(order)
    }
}

impl<W: Weather> State<W> {
    /// The mesh ticks. `order` names the frames in flight from the eldest, each once.
    pub fn tick(&mut self, order: &[u8])
        requires frames { All (λ n. n < 8) order.now }
        requires once { Once order.now }
        ensures ticked { Ticked W.next W.follows order.now (at self.old.mesh) (at self.new.mesh) self.old.weather
            self.new.weather (length order.now) }
        ensures change { (w : Window) → seen w self.new
            ≡ travelled (at self.new.mesh) self.new.weather (seen w self.old) }
    {
        self.mesh.tick(order, &mut self.weather);
    }
}
