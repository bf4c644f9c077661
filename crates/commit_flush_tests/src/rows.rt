//! Rows of a table of events.

use frame_state::{Cause, Event, Lack};
use trips_isa::{Stepped, Token};

/// A line of a table of events.
#[derive(Clone, Copy, Debug)]
pub enum Row {
    /// An event that happens.
    Does(Event),
    /// An event against which this cause holds; it leaves the window as it was.
    Refuses(Event, Cause),
    /// How many frames are in flight.
    InFlight(u8),
    /// The next block, where it is known.
    Leads(Option<u32>),
    /// Commit happens. The sequential machine's step comes to the same, and this is what it comes to.
    Commits(Stepped),
    /// The word of a committed register.
    Holds(u8, u64),
    /// The numbers with which a load or a store of a frame waits, as bits.
    Asks(u8, u32),
    /// The address of what waits with a number in a frame.
    Address(u8, u8, Option<Token>),
    /// The value of the resolved store of a number in a frame; none of a null store, or where none is resolved.
    Stores(u8, u8, Option<u64>),
    /// The least output that a frame lacks.
    Lacks(u8, Option<Lack>),
    /// The slots of a frame that may fire, and its open reads, as bits.
    Ready(u8, u128, u32),
}
