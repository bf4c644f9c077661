//! Events of a run as users see them.

use trips_isa::Op;

/// Why a frame is flushed.
#[derive(Clone, Copy, Debug, PartialEq, Eq)]
pub enum Cause {
    /// a load was answered too early, before a store that it should have taken
    Violation,
    /// an exit named another block than the one that was fetched
    WrongExit,
    /// the run ended, by a trap or in any other way
    End,
}

/// What happens in a cycle, by frame, block, slot, place and tile.
#[derive(Clone, Copy, Debug, PartialEq, Eq)]
pub enum Event {
    /// A fetch of a block begins.
    Begins {
        block: u32,
        careful: bool,
    },
    /// A block is predicted behind a frame.
    Predicts {
        frame: u8,
        block: u32,
    },
    /// A fetch of a block is given up.
    GivesUp {
        block: u32,
    },
    /// A frame is filled with a block.
    Fetches {
        frame: u8,
        block: u32,
    },
    /// A register bank answers a read.
    Reads {
        bank: u8,
        frame: u8,
        read: u8,
    },
    /// A tile issues the operation of a slot.
    Fires {
        tile: u8,
        frame: u8,
        slot: u8,
        op: Option<Op>,
    },
    /// A token comes to where it is used.
    Delivers {
        frame: u8,
        place: u16,
    },
    /// A data tile answers a load.
    Loads {
        tile: u8,
        frame: u8,
        number: u8,
    },
    /// A data tile resolves a store, which may be a null one.
    Stores {
        tile: u8,
        frame: u8,
        number: u8,
        null: bool,
    },
    /// The branch of a frame comes to the control tile, and names a block.
    Leaves {
        frame: u8,
        block: Option<u32>,
    },
    /// A frame is sealed.
    Seals {
        frame: u8,
    },
    /// A frame is committed with its block.
    Commits {
        frame: u8,
        block: u32,
    },
    /// A frame ends the run by a trap.
    Traps {
        frame: u8,
        block: u32,
    },
    /// A frame is flushed.
    Flushes {
        frame: u8,
        cause: Cause,
    },
}
