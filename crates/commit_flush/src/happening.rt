//! Events, whatever they are, one by one and one after another.
ghost use Rattle.std.specs.Prelude.{◌≡◌, ◌≢◌};
ghost use Rattle.trips_isa.specs.declared.run.Stepped.TheVariants.{Went};
ghost use Rattle.commit_flush_spec.specs.Causes as causes;
ghost use Rattle.commit_flush_spec.specs.Laws.{TakesSteps};
ghost use Rattle.commit_flush_spec.specs.Window as window;
ghost use Rattle.commit_flush_spec.specs.Window.{can, done, happens, plays};
ghost use Rattle.frame_state.specs.Events.{as_event, as_events, as_happened};
ghost use Rattle.commit_flush.specs.Flushed.{LeavesNothing, MayFlush, left_of};

use crate::window::Window;
use frame_state::{Cause, Event, Happened};
use trips_isa::Stepped;

impl Window {
    // What an event does where it is done.
    fn make_happen(&mut self, e: Event)
        requires done { can self.old.image.blocks self.old.budget (as_event e) self.old.window ≡ causes.Done }
        ensures { self.new ≡ record self.old { window = done self.old.image.blocks (as_event e) self.old.window } }
    {
        match e {
            Event::Fetch { block } => self.fetch(block),
            Event::Read { frame, read } => self.read(frame, read),
            Event::Fire { frame, slot } => {
                let _ = self.try_fire(frame, slot);
            }
            Event::Deliver { token } => {
                let _ = self.try_deliver(token);
            }
            Event::Load { frame, number } => self.load(frame, number),
            Event::Store { frame, number } => self.store(frame, number),
            Event::Exit { frame } => self.exit(frame),
            Event::Seal { frame } => self.seal(frame),
            Event::Flush { frame } => self.flush(frame),
            Event::Commit => self.commit(),
        }
    }

    // Lets an event happen while the run goes on, where no cause holds against it: it is asked first. It stays a
    // call, so that Fire and Deliver, of which there are most, keep little on the stack.
    #[inline(never)]
    fn ask_event(&mut self, e: Event) -> Happened
        ensures answer { as_happened result
            ≡ can self.old.image.blocks self.old.budget (as_event e) self.old.window }
        ensures window { self.new ≡ record self.old {
          window = happens self.old.image.blocks self.old.budget (as_event e) self.old.window;
        } }
    {
        let happened = self.can(e);
        if happened.is_done() {
            self.make_happen(e);
        }
        happened
    }

    // Lets an event happen while the run goes on, where no cause holds against it.
    fn event_now(&mut self, e: Event) -> Happened
        requires goes_on { self.old.window.over ≡ Went }
        ensures answer { as_happened result
            ≡ can self.old.image.blocks self.old.budget (as_event e) self.old.window }
        ensures window { self.new ≡ record self.old {
          window = happens self.old.image.blocks self.old.budget (as_event e) self.old.window;
        } }
    {
        match e {
            Event::Fire { frame, slot } => self.try_fire(frame, slot),
            Event::Deliver { token } => self.try_deliver(token),
            other => self.ask_event(other),
        }
    }

    // Lets an event happen, where no cause holds against it, and tells which does.
    #[inline(always)]
    fn event_or_over(&mut self, e: Event) -> Happened
        ensures answer { as_happened result
            ≡ can self.old.image.blocks self.old.budget (as_event e) self.old.window }
        ensures window { self.new ≡ record self.old {
          window = happens self.old.image.blocks self.old.budget (as_event e) self.old.window;
        } }
    {
        match self.over() {
            Stepped::Went => self.event_now(e),
            Stepped::Ended | Stepped::StackFull | Stepped::Trap(_) => Happened::NotNow(Cause::Over),
        }
    }

    /// Lets an event happen, where no cause holds against it, and tells which does. Numbers may be any.
    ///
    /// The committed state is the machine's after as many steps as the trace grew (`steps`); only a Commit changes it
    /// (`others`), and nothing changes once the run has ended (`rests`). Of a frame that Flush, Store, Exit or a trap
    /// flushes nothing is left (`flushed`).
    ///
    /// It stays a call, whose instructions are counted by bench/window.
    #[inline(never)]
    pub fn event(&mut self, e: Event) -> Happened
        ensures answer { as_happened result
            ≡ can self.old.image.blocks self.old.budget (as_event e) self.old.window }
        ensures window { self.new ≡ record self.old {
          window = happens self.old.image.blocks self.old.budget (as_event e) self.old.window;
        } }
        ensures steps { self.old.window.over ≡ Went
            → TakesSteps self.old.image.blocks self.old.window.state self.new.window }
        ensures others { as_event e ≢ window.Commit → self.new.window.state ≡ self.old.window.state }
        ensures rests { self.old.window.over ≢ Went → self.new ≡ self.old }
        ensures flushed { as_happened result ≡ causes.Done → MayFlush (as_event e) self.new.window.over
            → LeavesNothing (left_of self.old.image.blocks (as_event e) self.old.window)
            self.old.window.frames self.new.window.frames }
    {
        self.keeps_invariant();
        self.event_or_over(e)
    }

    /// Plays events one after another: the committed state is the machine's after as many steps as the trace grew
    /// (`steps`), and nothing changes once the run has ended (`rests`).
    pub fn play(&mut self, events: &[Event])
        ensures window { self.new ≡ record self.old {
          window = plays self.old.image.blocks self.old.budget (as_events events.now) self.old.window;
        } }
        ensures steps { self.old.window.over ≡ Went
            → TakesSteps self.old.image.blocks self.old.window.state self.new.window }
        ensures rests { self.old.window.over ≢ Went → self.new ≡ self.old }
    {
        self.keeps_invariant();
        self.play_each(events);
    }

    // One event after another.
    fn play_each(&mut self, events: &[Event])
        ensures { self.new ≡ record self.old {
          window = plays self.old.image.blocks self.old.budget (as_events events.now) self.old.window;
        } }
    {
        for e in events {
            let _ = self.event(*e);
        }
    }
}
