//! Part (1) of a cycle, logged: what is complete is sealed, and the oldest frame commits.
ghost use Rattle.std.specs.Prelude.{◌≡◌, ◌<◌, ◌+◌, ◌++◌, ◌^◌, ◌∷◌, [], All, length};
ghost use Rattle.grid_cycle_spec.specs.Ends as spec;
ghost use Rattle.grid_cycle_spec.specs.Grid.{numbers_of};
ghost use Rattle.grid_events.specs.EndNotes as noted;
ghost use Rattle.grid_events.specs.Plays.{block_of};
ghost use Rattle.grid_parts.specs.Seen.{seen};
ghost use Rattle.grid_log.specs.Logs.{Logged};
ghost use Rattle.grid_log.specs.inside.Telling.{ended_by, given_up, oldest, sealed_if};

use crate::event::{Cause, Event};
use crate::flushes::{fetch_of, tell_flushes, tell_given_up};
use crate::log::Log;
use grid_parts::{Grid, Windows};
use trips_isa::Stepped;

// A frame is sealed, or is not.
fn tell_sealing(log: &mut Log, seals: bool, frame: u8)
    ensures { Logged log.old (sealed_if seals frame) log.new }
{
    if seals {
        log.keep(Event::Seals { frame });
    }
}

// A frame with all outputs is sealed.
fn seal_one<V: Windows, W>(grid: &mut Grid<V, W>, log: &mut Log, frame: u8)
    requires { frame < 8 }
    ensures change { seen (V.held grid.new.window) grid.new.state
        ≡ spec.seal_one (V.blocks grid.old.window) (V.budget grid.old.window) frame
        (seen (V.held grid.old.window) grid.old.state) }
    ensures told { Logged log.old (noted.seal_notes (V.blocks grid.old.window) (V.budget grid.old.window) frame
        (seen (V.held grid.old.window) grid.old.state)) log.new }
    ensures counts { grid.new.state.counts ≡ grid.old.state.counts }
    ensures image { V.blocks grid.new.window ≡ V.blocks grid.old.window }
    ensures budget { V.budget grid.new.window ≡ V.budget grid.old.window }
{
    let seals = grid.window.can_seal(frame);
    tell_sealing(log, seals, frame);
    grid.seal_one(frame);
}

// So in each of some frames.
fn seal_each<V: Windows, W>(grid: &mut Grid<V, W>, log: &mut Log, order: &[u8])
    requires { All (λ n. n < 8) order.now }
    ensures change { seen (V.held grid.new.window) grid.new.state
        ≡ spec.seal_each (V.blocks grid.old.window) (V.budget grid.old.window) order.now
        (seen (V.held grid.old.window) grid.old.state) }
    ensures told { Logged log.old (noted.seals_notes (V.blocks grid.old.window) (V.budget grid.old.window) order.now
        (seen (V.held grid.old.window) grid.old.state)) log.new }
    ensures counts { grid.new.state.counts ≡ grid.old.state.counts }
    ensures image { V.blocks grid.new.window ≡ V.blocks grid.old.window }
    ensures budget { V.budget grid.new.window ≡ V.budget grid.old.window }
{
    for n in 0..order.len() {
        seal_one(grid, log, order[n]);
    }
}

// The oldest of these frames, which are all in flight, by its number and its block.
fn oldest<V: Windows>(window: &V, order: &[u8]) -> Option<(u8, u32)>
    requires order { order.now ≡ numbers_of (V.held window.now).frames }
    requires within { All (λ n. n < 8) order.now }
    ensures { result ≡ oldest (V.held window.now).frames }
{
    if order.len() > 0 {
        match window.block_of(order[0]) {
            Some(block) => Some((order[0], block)),
            None => None,
        }
    } else {
        None
    }
}

// How a frame has ended that was to commit; a trap flushes all of these frames.
fn tell_end(log: &mut Log, over: Stepped, frame: u8, block: u32, order: &[u8])
    ensures { Logged log.old (ended_by over frame block order.now) log.new }
{
    match over {
        Stepped::Trap(_) => {
            log.keep(Event::Traps { frame, block });
            tell_flushes(log, order, 0, Cause::End);
        }
        Stepped::Went => log.keep(Event::Commits { frame, block }),
        Stepped::Ended => log.keep(Event::Commits { frame, block }),
        Stepped::StackFull => log.keep(Event::Commits { frame, block }),
    }
}

// What has come of the oldest frame, which was to commit, and of a fetch.
fn tell_commit<V: Windows, W>(
    grid: &Grid<V, W>,
    log: &mut Log,
    oldest: (u8, u32),
    order: &[u8],
    fetch: Option<(u32, bool)>,
)
    ensures { Logged log.old (ended_by (V.held grid.now.window).over oldest.0 oldest.1 order.now
        ++ given_up fetch (block_of grid.now.state.fetching)) log.new }
{
    tell_end(log, grid.window.over(), oldest.0, oldest.1, order);
    tell_given_up(log, fetch, fetch_of(&grid.state));
}

// A sealed oldest frame is committed.
fn commit_oldest<V: Windows, W>(grid: &mut Grid<V, W>, log: &mut Log)
    requires committed { grid.old.state.counts.committed + 1 < 2 ^ 64 }
    requires flushed { grid.old.state.counts.flushed + 8 < 2 ^ 64 }
    ensures change { seen (V.held grid.new.window) grid.new.state
        ≡ spec.commit_oldest (V.blocks grid.old.window) (V.budget grid.old.window)
        (seen (V.held grid.old.window) grid.old.state) }
    ensures told { Logged log.old (noted.commit_notes (V.blocks grid.old.window) (V.budget grid.old.window)
        (seen (V.held grid.old.window) grid.old.state)) log.new }
    ensures image { V.blocks grid.new.window ≡ V.blocks grid.old.window }
    ensures budget { V.budget grid.new.window ≡ V.budget grid.old.window }
{
    let commits = grid.window.can_commit();
    let order = grid.window.numbers();
    let first = oldest(&grid.window, order.as_slice());
    let fetch = fetch_of(&grid.state);
    grid.commit_oldest();
    if commits {
        match first {
            Some(first) => tell_commit(grid, log, first, order.as_slice(), fetch),
            None => {}
        }
    }
}

/// Part (1). It wants room in the grid's counts as that does.
pub fn ends<V: Windows, W>(grid: &mut Grid<V, W>, log: &mut Log)
    requires committed { grid.old.state.counts.committed + 1 < 2 ^ 64 }
    requires flushed { grid.old.state.counts.flushed + 8 < 2 ^ 64 }
    ensures change { seen (V.held grid.new.window) grid.new.state
        ≡ spec.ends (V.blocks grid.old.window) (V.budget grid.old.window)
        (seen (V.held grid.old.window) grid.old.state) }
    ensures told { Logged log.old (noted.ends_notes (V.blocks grid.old.window) (V.budget grid.old.window)
        (seen (V.held grid.old.window) grid.old.state)) log.new }
    ensures image { V.blocks grid.new.window ≡ V.blocks grid.old.window }
    ensures budget { V.budget grid.new.window ≡ V.budget grid.old.window }
{
    let frames = grid.window.numbers();
    seal_each(grid, log, frames.as_slice());
    commit_oldest(grid, log);
}
