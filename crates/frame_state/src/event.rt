//! The events of a window, and what each is answered.
ghost use Rattle.std.specs.Prelude.{◌≡◌};
ghost use Rattle.frame_state.specs.Events.{as_happened};
ghost use Rattle.frame_state.specs.inside.Events.{is_done};

/// What may happen in a window (docs/WINDOW.md, "Events"). Numbers may be any.
#[derive(Clone, Copy, Debug, PartialEq, Eq)]
pub enum Event {
    /// A block of the image is put in the lowest empty frame.
    Fetch { block: u32 },
    /// A read gets its word.
    Read { frame: u8, read: u8 },
    /// An instruction fires.
    Fire { frame: u8, slot: u8 },
    /// A token comes to the place of its target; place p of frame n is 320 n + p.
    Deliver { token: u16 },
    /// A load that waits is answered.
    Load { frame: u8, number: u8 },
    /// A store that waits is resolved.
    Store { frame: u8, number: u8 },
    /// The exit of a branch that waits is made known.
    Exit { frame: u8 },
    /// A frame that has all its outputs runs no more.
    Seal { frame: u8 },
    /// A frame and all younger are emptied.
    Flush { frame: u8 },
    /// The oldest frame changes the committed state.
    Commit,
}

/// Why an event does not happen.
#[derive(Clone, Copy, Debug, PartialEq, Eq)]
pub enum Cause {
    Over,
    NoFrame,
    NoBlock,
    Worn,
    Serial,
    Wrong,
    NoRead,
    NotYet,
    NoInst,
    NotReady,
    NoToken,
    NoRequest,
    NoExit,
    Missing,
    Unsealed,
    Spent,
}

/// What an event is answered. The window is unchanged unless it is done.
#[derive(Clone, Copy, Debug, PartialEq, Eq)]
pub enum Happened {
    Done,
    NotNow(Cause),
}

impl Happened {
    /// Whether the event happens.
    pub fn is_done(self) -> bool
        ensures value { result ≡ is_done (as_happened self) }
    {
        match self {
            Happened::Done => true,
            Happened::NotNow(_) => false,
        }
    }
}
