//! Events that are tried: each looks once for its cause, and happens where it finds none.
ghost use Rattle.std.specs.Prelude.{◌≡◌, ◌/◌, ◌%◌};
ghost use Rattle.trips_isa.specs.declared.run.Stepped.TheVariants.{Went};
ghost use Rattle.commit_flush_spec.specs.Window as window;
ghost use Rattle.commit_flush_spec.specs.Window.{can, happens};
ghost use Rattle.frame_state.specs.Events.{as_happened};

use crate::parts::keep_arrival;
use crate::window::Window;
use frame_state::{Cause, Happened, try_deliver, try_fire};

impl Window {
    // Fires a slot of a frame while the run goes on, or tells why it does not fire.
    pub(crate) fn try_fire(&mut self, frame: u8, slot: u8) -> Happened
        requires goes_on { self.old.window.over ≡ Went }
        ensures answer { as_happened result
            ≡ can self.old.image.blocks self.old.budget (window.Fire frame slot) self.old.window }
        ensures window { self.new ≡ record self.old {
          window = happens self.old.image.blocks self.old.budget (window.Fire frame slot) self.old.window;
        } }
    {
        let _image = &self.image;
        if frame < 8 {
            try_fire(&mut self.frames[frame as usize], &self.image, slot)
        } else {
            Happened::NotNow(Cause::NoFrame)
        }
    }

    // Moves the token in a place to its place of the block while the run goes on, if there is one that may be; where
    // that is a write, the banks keep it.
    pub(crate) fn try_deliver(&mut self, token: u16) -> Happened
        requires goes_on { self.old.window.over ≡ Went }
        ensures answer { as_happened result
            ≡ can self.old.image.blocks self.old.budget (window.Deliver token) self.old.window }
        ensures window { self.new ≡ record self.old {
          window = happens self.old.image.blocks self.old.budget (window.Deliver token) self.old.window;
        } }
    {
        let _image = &self.image;
        let frame = (token / 320) as u8;
        let place = token % 320;
        if frame < 8 {
            match try_deliver(&mut self.frames[frame as usize], &self.image, place) {
                None => Happened::NotNow(Cause::NoToken),
                Some(arrival) => {
                    keep_arrival(&mut self.banks, self.order.as_slice(), frame, arrival);
                    Happened::Done
                }
            }
        } else {
            Happened::NotNow(Cause::NoToken)
        }
    }
}
