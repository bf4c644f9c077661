//! The steps of a frame that are looked for by number.
ghost use Rattle.std.specs.Prelude.{◌≡◌, ◌<◌};
ghost use Rattle.frame_state.specs.Events.{as_event};
ghost use Rattle.commit_flush.specs.inside.Steps.{count_of, event_at};

use frame_state::Event;

/// A step of a frame that has a number.
#[derive(Clone, Copy, Debug, PartialEq, Eq)]
pub enum Step {
    /// The token of a place is delivered.
    Token,
    /// A slot fires.
    Firing,
    /// A read is answered.
    Read,
    /// A store comes.
    Store,
    /// A load is answered.
    Load,
}

impl Step {
    /// How many numbers a step has.
    pub fn count(self) -> u16
        ensures value { result ≡ count_of self }
        ensures few { result < 321 }
    {
        match self {
            Step::Token => 320,
            Step::Firing => 128,
            Step::Read => 32,
            Step::Store => 32,
            Step::Load => 32,
        }
    }

    /// The event that takes the step of a number at one of the eight frames.
    pub fn event(self, frame: u8, number: u16) -> Event
        requires frame { frame < 8 }
        requires number { number < count_of self }
        ensures value { as_event result ≡ event_at self frame number }
    {
        match self {
            Step::Token => Event::Deliver {
                token: frame as u16 * 320 + number,
            },
            Step::Firing => Event::Fire {
                frame,
                slot: number as u8,
            },
            Step::Read => Event::Read {
                frame,
                read: number as u8,
            },
            Step::Store => Event::Store {
                frame,
                number: number as u8,
            },
            Step::Load => Event::Load {
                frame,
                number: number as u8,
            },
        }
    }
}
