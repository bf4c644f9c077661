//! A log of events.
ghost use Rattle.std.specs.Prelude.{◌≡◌, ◌++◌, ◌∷◌, [], true, false};
ghost use Rattle.grid_log.specs.Events.{note_of};
ghost use Rattle.grid_log.specs.Logs.{IsOf, Keeps, Logged, at_cycle};

use crate::event::Event;
use std::alloc::Global;

/// An event, and the cycle in which it happened: the first cycle of a run is cycle 1.
#[derive(Clone, Copy, Debug, PartialEq, Eq)]
pub struct Entry {
    pub cycle: u64,
    pub event: Event,
}

/// The first events that have happened, up to a limit, in the order in which they happened.
#[derive(Drop)]
pub struct Log {
    pub entries: Vec<Entry>,
    /// the cycle in which events happen now
    pub cycle: u64,
    /// how many events are kept at most
    pub limit: usize,
    /// whether there were more events than are kept
    pub more: bool,
    /// whether memory has been wanting for an event: the log is none of what has happened then
    pub lost: bool,
}

// One entry more in a list: whether there was memory for it.
fn put(entries: &mut Vec<Entry>, entry: Entry) -> bool
    ensures { result ≡ true → entries.new.items ≡ entries.old.items ++ (entry ∷ []) }
{
    entries.push(entry).is_ok()
}

impl Log {
    /// A log of nothing, with a limit. It takes memory as it grows.
    pub fn make(alloc: Global, limit: usize) -> Log
        ensures none { IsOf [] result }
        ensures limit { result.limit ≡ limit }
        ensures kept { result.lost ≡ false }
    {
        Log {
            entries: Vec::new(alloc),
            cycle: 0,
            limit,
            more: false,
            lost: false,
        }
    }

    // An entry comes behind the others.
    fn put(&mut self, entry: Entry)
        ensures cycle { self.new.cycle ≡ self.old.cycle }
        ensures keeps { Keeps self.old (entry ∷ []) self.new }
    {
        if self.entries.len() < self.limit {
            if !put(&mut self.entries, entry) {
                self.lost = true;
            }
        } else {
            self.more = true;
        }
    }

    /// An event has happened, in the cycle that is made.
    pub fn keep(&mut self, event: Event)
        ensures { Logged self.old (note_of event ∷ []) self.new }
    {
        self.put(Entry {
            cycle: self.cycle,
            event,
        });
    }

    /// Events happen in this cycle from now on.
    pub fn begin(&mut self, cycle: u64)
        ensures { self.new ≡ at_cycle cycle self.old }
    {
        self.cycle = cycle;
    }
}
