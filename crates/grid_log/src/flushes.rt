//! What flushes are told, and fetches that are given up.
ghost use Rattle.std.specs.Prelude.{◌≡◌, ◌≤◌, ◌++◌, drop, length};
ghost use Rattle.grid_events.specs.Plays.{block_of};
ghost use Rattle.grid_log.specs.Events.{why_of};
ghost use Rattle.grid_log.specs.Logs.{Logged};
ghost use Rattle.grid_log.specs.inside.Telling.{flushed_by, given_up};

use crate::event::{Cause, Event};
use crate::log::Log;
use grid_parts::{Grid, State, Windows};

/// Frames are flushed: all of these but for the first ones, of which there are so many.
pub fn tell_flushes(log: &mut Log, before: &[u8], left: usize, cause: Cause)
    ensures { Logged log.old (flushed_by (why_of cause) (drop left before.now)) log.new }
{
    for n in left..before.len() {
        log.keep(Event::Flushes {
            frame: before[n],
            cause,
        });
    }
}

/// What is fetched: the block, and whether it makes a careful frame.
pub fn fetch_of<W>(state: &State<W>) -> Option<(u32, bool)>
    ensures { result ≡ block_of state.now.fetching }
{
    match state.fetching.block() {
        Some(block) => Some((block, state.fetching.is_careful())),
        None => None,
    }
}

/// A fetch is given up that was under way before and is not behind.
pub fn tell_given_up(log: &mut Log, before: Option<(u32, bool)>, after: Option<(u32, bool)>)
    ensures { Logged log.old (given_up before after) log.new }
{
    match before {
        Some(fetch) => match after {
            Some(_) => {}
            None => log.keep(Event::GivesUp { block: fetch.0 }),
        },
        None => {}
    }
}

/// What an event took along: the youngest of these frames, which were in flight before, and the fetch.
pub fn tell_gone<V: Windows, W>(
    grid: &Grid<V, W>,
    log: &mut Log,
    before: &[u8],
    fetch: Option<(u32, bool)>,
    cause: Cause,
)
    ensures { Logged log.old (flushed_by (why_of cause)
        (drop (length (V.held grid.now.window).frames) before.now)
        ++ given_up fetch (block_of grid.now.state.fetching)) log.new }
{
    let left = grid.window.numbers().len();
    tell_flushes(log, before, left, cause);
    tell_given_up(log, fetch, fetch_of(&grid.state));
}
