//! What each event would be answered.
ghost use Rattle.std.specs.Prelude.{◌≡◌, ◌<◌, ◌/◌, ◌%◌, Some};
ghost use Rattle.commit_flush_spec.specs.Causes as causes;
ghost use Rattle.commit_flush_spec.specs.Dataflow.{can_read, can_fire, can_deliver};
ghost use Rattle.commit_flush_spec.specs.Memory.{can_load, can_store};
ghost use Rattle.commit_flush_spec.specs.Ends.{can_exit, can_seal};
ghost use Rattle.commit_flush_spec.specs.Older.{committed};
ghost use Rattle.commit_flush_spec.specs.InFlight.{can_commit, can_fetch, on_frame};
ghost use Rattle.commit_flush_spec.specs.Window.{can, can_now};
ghost use Rattle.frame_state.specs.Events.{as_event, as_happened};
ghost use Rattle.commit_flush.specs.inside.Places.{free_number};

use crate::ages::follows;
use crate::window::Window;
use frame_state::{Cause, Event, Happened};
use trips_isa::Stepped;

impl Window {
    // What Fetch of a block is answered, where this is the lowest empty frame.
    fn fetch_answer(&self, number: u8, block: u32) -> Happened
        requires within { number < 8 }
        requires lowest { free_number self.now.window.frames ≡ Some number }
        ensures { as_happened result ≡ can_fetch self.now.image.blocks block self.now.window }
    {
        if block >= self.image().count() {
            Happened::NotNow(Cause::NoBlock)
        } else if self.generation(number) == u64::MAX {
            Happened::NotNow(Cause::Worn)
        } else if self.is_serial() {
            Happened::NotNow(Cause::Serial)
        } else if follows(self.successor(), block) {
            Happened::Done
        } else {
            Happened::NotNow(Cause::Wrong)
        }
    }

    // What Fetch of a block is answered while the run goes on.
    fn can_fetch(&self, block: u32) -> Happened
        ensures { as_happened result ≡ can_fetch self.now.image.blocks block self.now.window }
    {
        match self.lowest_empty() {
            None => Happened::NotNow(Cause::NoFrame),
            Some(number) => self.fetch_answer(number, block),
        }
    }

    // What Read of a read of a frame is answered while the run goes on.
    fn can_read(&self, frame: u8, read: u8) -> Happened
        ensures { as_happened result ≡ on_frame (causes.NotNow causes.NoFrame) (can_read read)
            (committed self.now.window.state) self.now.window.frames frame }
    {
        match self.phase(frame) {
            None => Happened::NotNow(Cause::NoFrame),
            Some(phase) => {
                frame_state::can_read(phase, self.image(), read, self.word_of(frame, read))
            }
        }
    }

    // What Fire of a slot of a frame is answered while the run goes on.
    fn can_fire(&self, frame: u8, slot: u8) -> Happened
        ensures { as_happened result ≡ on_frame (causes.NotNow causes.NoFrame) (can_fire slot)
            (committed self.now.window.state) self.now.window.frames frame }
    {
        match self.phase(frame) {
            None => Happened::NotNow(Cause::NoFrame),
            Some(phase) => frame_state::can_fire(phase, self.image(), slot),
        }
    }

    // What Deliver of a place of a frame is answered while the run goes on.
    fn can_deliver(&self, frame: u8, place: u16) -> Happened
        ensures { as_happened result ≡ on_frame (causes.NotNow causes.NoToken) (can_deliver place)
            (committed self.now.window.state) self.now.window.frames frame }
    {
        match self.phase(frame) {
            None => Happened::NotNow(Cause::NoToken),
            Some(phase) => frame_state::can_deliver(phase, self.image(), place),
        }
    }

    // What Load of a number of a frame is answered while the run goes on.
    fn can_load(&self, frame: u8, number: u8) -> Happened
        ensures { as_happened result ≡ on_frame (causes.NotNow causes.NoFrame) (can_load number)
            (committed self.now.window.state) self.now.window.frames frame }
    {
        match self.phase(frame) {
            None => Happened::NotNow(Cause::NoFrame),
            Some(phase) => frame_state::can_load(phase, self.image(), number),
        }
    }

    // What Store of a number of a frame is answered while the run goes on.
    fn can_store(&self, frame: u8, number: u8) -> Happened
        ensures { as_happened result ≡ on_frame (causes.NotNow causes.NoFrame) (can_store number)
            (committed self.now.window.state) self.now.window.frames frame }
    {
        match self.phase(frame) {
            None => Happened::NotNow(Cause::NoFrame),
            Some(phase) => frame_state::can_store(phase, self.image(), number),
        }
    }

    // What Exit of a frame is answered while the run goes on.
    fn can_exit(&self, frame: u8) -> Happened
        ensures { as_happened result ≡ on_frame (causes.NotNow causes.NoFrame) can_exit
            (committed self.now.window.state) self.now.window.frames frame }
    {
        match self.phase(frame) {
            None => Happened::NotNow(Cause::NoFrame),
            Some(phase) => frame_state::can_exit(phase, self.image()),
        }
    }

    // What Seal of a frame is answered while the run goes on.
    fn can_seal(&self, frame: u8) -> Happened
        ensures { as_happened result ≡ on_frame (causes.NotNow causes.NoFrame) can_seal
            (committed self.now.window.state) self.now.window.frames frame }
    {
        match self.phase(frame) {
            None => Happened::NotNow(Cause::NoFrame),
            Some(phase) => frame_state::can_seal(phase, self.image()),
        }
    }

    // What Flush of a frame is answered while the run goes on.
    fn can_flush(&self, frame: u8) -> Happened
        ensures { as_happened result ≡ on_frame (causes.NotNow causes.NoFrame) (λ o f. causes.Done)
            (committed self.now.window.state) self.now.window.frames frame }
    {
        match self.age_of(frame) {
            None => Happened::NotNow(Cause::NoFrame),
            Some(_) => Happened::Done,
        }
    }

    // What Commit is answered while the run goes on.
    fn can_commit(&self) -> Happened
        ensures { as_happened result ≡ can_commit self.now.budget self.now.window }
    {
        if !self.is_sealed() {
            Happened::NotNow(Cause::Unsealed)
        } else if self.arch().trace().len() >= self.budget() as usize {
            Happened::NotNow(Cause::Spent)
        } else {
            Happened::Done
        }
    }

    // What an event is answered while the run goes on.
    #[inline(always)]
    fn can_now(&self, e: Event) -> Happened
        ensures { as_happened result ≡ can_now self.now.image.blocks self.now.budget (as_event e) self.now.window }
    {
        match e {
            Event::Fetch { block } => self.can_fetch(block),
            Event::Read { frame, read } => self.can_read(frame, read),
            Event::Fire { frame, slot } => self.can_fire(frame, slot),
            Event::Deliver { token } => self.can_deliver((token / 320) as u8, token % 320),
            Event::Load { frame, number } => self.can_load(frame, number),
            Event::Store { frame, number } => self.can_store(frame, number),
            Event::Exit { frame } => self.can_exit(frame),
            Event::Seal { frame } => self.can_seal(frame),
            Event::Flush { frame } => self.can_flush(frame),
            Event::Commit => self.can_commit(),
        }
    }

    /// What an event would be answered. Numbers may be any.
    #[inline(always)]
    pub fn can(&self, e: Event) -> Happened
        ensures value { as_happened result
            ≡ can self.now.image.blocks self.now.budget (as_event e) self.now.window }
    {
        match self.over() {
            Stepped::Went => self.can_now(e),
            Stepped::Ended | Stepped::StackFull | Stepped::Trap(_) => Happened::NotNow(Cause::Over),
        }
    }
}
