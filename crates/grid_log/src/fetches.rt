//! Part (2) of a cycle, logged: a fetch ends, and the next one begins.
ghost use Rattle.std.specs.Prelude.{◌≡◌, ◌<◌, ◌+◌, ◌^◌, ◌∷◌, [], All};
ghost use Rattle.commit_flush_spec.specs.inside.Laws.{AreNumbers};
ghost use Rattle.grid_cycle_spec.specs.Fetches as spec;
ghost use Rattle.grid_cycle_spec.specs.Grid.{numbers_of};
ghost use Rattle.grid_events.specs.FetchNotes as noted;
ghost use Rattle.grid_events.specs.Notes.{Begins};
ghost use Rattle.grid_parts.specs.Seen.{seen};
ghost use Rattle.grid_log.specs.Logs.{Logged};
ghost use Rattle.grid_log.specs.inside.Telling.{begun_if, begun_notes, due_notes, guesses, may_fill, open_youngest};
ghost use Rattle.grid_log.specs.inside.Telling.{predicted_if};

use crate::event::Event;
use crate::flushes::fetch_of;
use crate::log::Log;
use grid_parts::{Grid, Windows};

// Whether the frame of a fetch that is due is filled.
fn may_fill<V: Windows>(window: &V, due: Option<u32>) -> bool
    ensures { result ≡ may_fill (V.blocks window.now) (V.budget window.now) due (V.held window.now) }
{
    match due {
        Some(block) => window.can_fetch(block),
        None => false,
    }
}

// The number of the frame that a fetch fills.
fn filled(room: Option<u8>) -> u8
    ensures { result ≡ spec.filled room }
{
    match room {
        Some(frame) => frame,
        None => 0,
    }
}

// A fetch that is due fills a frame, or is given up.
fn tell_due(log: &mut Log, due: Option<u32>, may: bool, room: Option<u8>)
    ensures { Logged log.old (due_notes due may room) log.new }
{
    match due {
        Some(block) => {
            if may {
                log.keep(Event::Fetches {
                    frame: filled(room),
                    block,
                });
            } else {
                log.keep(Event::GivesUp { block });
            }
        }
        None => {}
    }
}

// What is being fetched goes on.
fn goes_on<V: Windows, W>(grid: &mut Grid<V, W>, log: &mut Log)
    requires { grid.old.state.counts.fetched + 1 < 2 ^ 64 }
    ensures change { seen (V.held grid.new.window) grid.new.state
        ≡ spec.fetch_ends (V.blocks grid.old.window) (V.budget grid.old.window) grid.old.state.fetching
        (seen (V.held grid.old.window) grid.old.state) }
    ensures told { Logged log.old (noted.fetch_notes (V.blocks grid.old.window) (V.budget grid.old.window)
        grid.old.state.fetching (seen (V.held grid.old.window) grid.old.state)) log.new }
    ensures image { V.blocks grid.new.window ≡ V.blocks grid.old.window }
    ensures budget { V.budget grid.new.window ≡ V.budget grid.old.window }
{
    let due = grid.state.fetching.due();
    let may = may_fill(&grid.window, due);
    let room = grid.window.lowest_empty();
    tell_due(log, due, may, room);
    grid.fetch_goes_on();
}

// The youngest of these frames, which are all in flight, where its exit has not come.
fn last_open<V: Windows>(window: &V, order: &[u8]) -> Option<u8>
    requires order { order.now ≡ numbers_of (V.held window.now).frames }
    requires within { All (λ n. n < 8) order.now }
    requires distinct { AreNumbers order.now }
    ensures { result ≡ open_youngest (V.held window.now).frames }
{
    if order.len() > 0 {
        let frame = order[order.len() - 1];
        match window.exit_of(frame) {
            Some(_) => None,
            None => Some(frame),
        }
    } else {
        None
    }
}

// The number of the youngest frame, where its exit has not come.
fn open_youngest<V: Windows>(window: &V) -> Option<u8>
    ensures { result ≡ open_youngest (V.held window.now).frames }
{
    let frames = window.numbers();
    last_open(window, frames.as_slice())
}

// The frame behind which a block is predicted: an open one, where no flushed block stands.
fn guesses(standing: Option<u32>, youngest: Option<u8>) -> Option<u8>
    ensures { result ≡ guesses standing youngest }
{
    match standing {
        Some(_) => None,
        None => youngest,
    }
}

// A block has been predicted, where that is behind a frame, and its fetch begins.
fn tell_fetch(log: &mut Log, behind: Option<u8>, block: u32, careful: bool)
    ensures { Logged log.old (predicted_if behind block (Begins block careful ∷ [])) log.new }
{
    match behind {
        Some(frame) => {
            log.keep(Event::Predicts { frame, block });
            log.keep(Event::Begins { block, careful });
        }
        None => log.keep(Event::Begins { block, careful }),
    }
}

// A fetch has begun, behind a frame where it was predicted.
fn tell_begun(log: &mut Log, behind: Option<u8>, after: Option<(u32, bool)>)
    ensures { Logged log.old (begun_notes behind after) log.new }
{
    match after {
        Some(fetch) => tell_fetch(log, behind, fetch.0, fetch.1),
        None => {}
    }
}

// The same where the fetch unit was idle.
fn tell_begun_if(log: &mut Log, idle: bool, behind: Option<u8>, after: Option<(u32, bool)>)
    ensures { Logged log.old (begun_if idle behind after) log.new }
{
    if idle {
        tell_begun(log, behind, after);
    }
}

// An idle fetch unit begins a fetch.
fn begins<V: Windows, W>(grid: &mut Grid<V, W>, log: &mut Log)
    ensures change { seen (V.held grid.new.window) grid.new.state
        ≡ spec.begins (V.blocks grid.old.window) (seen (V.held grid.old.window) grid.old.state) }
    ensures told { Logged log.old (noted.begin_notes (V.blocks grid.old.window) grid.old.state.fetching
        (seen (V.held grid.old.window) grid.old.state)) log.new }
    ensures same { grid.new.window ≡ grid.old.window }
{
    let idle = grid.state.is_idle();
    let behind = guesses(grid.state.standing, open_youngest(&grid.window));
    grid.fetch_begins();
    tell_begun_if(log, idle, behind, fetch_of(&grid.state));
}

/// Part (2). It wants room in the grid's counts as that does.
pub fn fetches<V: Windows, W>(grid: &mut Grid<V, W>, log: &mut Log)
    requires { grid.old.state.counts.fetched + 1 < 2 ^ 64 }
    ensures change { seen (V.held grid.new.window) grid.new.state
        ≡ spec.fetches (V.blocks grid.old.window) (V.budget grid.old.window)
        (seen (V.held grid.old.window) grid.old.state) }
    ensures told { Logged log.old (noted.fetches_notes (V.blocks grid.old.window) (V.budget grid.old.window)
        (seen (V.held grid.old.window) grid.old.state)) log.new }
    ensures image { V.blocks grid.new.window ≡ V.blocks grid.old.window }
    ensures budget { V.budget grid.new.window ≡ V.budget grid.old.window }
{
    goes_on(grid, log);
    begins(grid, log);
}
