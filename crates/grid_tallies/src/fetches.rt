//! Part (2) of a cycle, counted: a fetch ends, and the next one begins.
ghost use Rattle.std.specs.Prelude.{◌≡◌, ◌<◌, ◌+◌, ◌^◌, ◌∷◌, [], All, Bool, IfSome};
ghost use Rattle.commit_flush_spec.specs.Window.{lowest_empty};
ghost use Rattle.commit_flush_spec.specs.inside.Laws.{AreNumbers};
ghost use Rattle.grid_cycle_spec.specs.Fetches as spec;
ghost use Rattle.grid_cycle_spec.specs.Grid.{numbers_of};
ghost use Rattle.grid_events.specs.FetchNotes as noted;
ghost use Rattle.grid_events.specs.Notes.{Begins};
ghost use Rattle.grid_events.specs.Plays.{block_of};
ghost use Rattle.grid_parts.specs.Seen.{seen};
ghost use Rattle.grid_tallies.specs.Counters.{Hears};
ghost use Rattle.grid_tallies.specs.Predictions.{Guessed};
ghost use Rattle.grid_tallies.specs.inside.Fetching.{begun_if, begun_notes, due_notes, guesses, may_fill};
ghost use Rattle.grid_tallies.specs.inside.Fetching.{open_youngest, predicted_if};

use crate::counters::Counters;
use crate::guess_table::Guesses;
use crate::statistic::Statistic;
use grid_parts::{Grid, State, Windows};

/// Whether the frame of a fetch that is due is filled.
pub fn may_fill<V: Windows>(window: &V, due: Option<u32>) -> bool
    ensures { result ≡ may_fill (V.blocks window.now) (V.budget window.now) due (V.held window.now) }
{
    match due {
        Some(block) => window.can_fetch(block),
        None => false,
    }
}

/// The number of the frame that a fetch fills.
pub fn filled(room: Option<u8>) -> u8
    requires { IfSome room (λ n. n < 8) }
    ensures value { result ≡ spec.filled room }
    ensures within { result < 8 }
{
    match room {
        Some(frame) => frame,
        None => 0,
    }
}

// A fetch that is due fills the lowest empty frame, or is given up. Which that is, is asked only then.
fn hear_due<V: Windows>(window: &V, told: &mut Guesses, due: Option<u32>, may: bool)
    ensures { Guessed told.old (due_notes due may (lowest_empty 8 0 (V.held window.now).frames)) told.new }
{
    match due {
        Some(_) => {
            if may {
                told.fill(filled(window.lowest_empty()));
            }
        }
        None => {}
    }
}

// What is being fetched goes on.
fn goes_on<V: Windows, W>(grid: &mut Grid<V, W>, told: &mut Guesses)
    requires { grid.old.state.counts.fetched + 1 < 2 ^ 64 }
    ensures change { seen (V.held grid.new.window) grid.new.state
        ≡ spec.fetch_ends (V.blocks grid.old.window) (V.budget grid.old.window) grid.old.state.fetching
        (seen (V.held grid.old.window) grid.old.state) }
    ensures heard { Guessed told.old (noted.fetch_notes (V.blocks grid.old.window) (V.budget grid.old.window)
        grid.old.state.fetching (seen (V.held grid.old.window) grid.old.state)) told.new }
    ensures image { V.blocks grid.new.window ≡ V.blocks grid.old.window }
    ensures budget { V.budget grid.new.window ≡ V.budget grid.old.window }
{
    let due = grid.state.fetching.due();
    let may = may_fill(&grid.window, due);
    hear_due(&grid.window, told, due, may);
    grid.fetch_goes_on();
}

// The youngest of these frames, which are all in flight, where its exit has not come.
fn last_open<V: Windows>(window: &V, order: &[u8]) -> Option<u8>
    requires order { order.now ≡ numbers_of (V.held window.now).frames }
    requires within { All (λ n. n < 8) order.now }
    requires distinct { AreNumbers order.now }
    ensures value { result ≡ open_youngest (V.held window.now).frames }
    ensures within { IfSome result (λ n. n < 8) }
{
    if order.len() > 0 {
        let frame = order[order.len() - 1];
        match window.exit_of(frame) {
            Some(_) => None,
            None => Some(frame),
        }
    } else {
        None
    }
}

/// The number of the youngest frame, where its exit has not come.
pub fn open_youngest<V: Windows>(window: &V) -> Option<u8>
    ensures value { result ≡ open_youngest (V.held window.now).frames }
    ensures within { IfSome result (λ n. n < 8) }
{
    let frames = window.numbers();
    last_open(window, frames.as_slice())
}

/// The frame behind which a block is predicted: an open one, where no flushed block stands.
pub fn guesses(standing: Option<u32>, youngest: Option<u8>) -> Option<u8>
    requires { IfSome youngest (λ n. n < 8) }
    ensures value { result ≡ guesses standing youngest }
    ensures within { IfSome result (λ n. n < 8) }
{
    match standing {
        Some(_) => None,
        None => youngest,
    }
}

/// What is fetched: the block, and whether it makes a careful frame.
pub fn fetch_of<W>(state: &State<W>) -> Option<(u32, bool)>
    ensures { result ≡ block_of state.now.fetching }
{
    match state.fetching.block() {
        Some(block) => Some((block, state.fetching.is_careful())),
        None => None,
    }
}

// A block is predicted behind a frame, and counted.
fn predict(told: &mut Counters, frame: u8, block: u32)
    requires { frame < 8 }
    ensures { (careful : Bool) → Hears told.old (predicted_if (Some frame) block (Begins block careful ∷ [])) told.new }
{
    told.tallies.add(Statistic::Predictions, 1);
    told.guesses.predict(frame, block);
}

// A block has been predicted, where that is behind a frame, and its fetch begins.
fn hear_fetch(told: &mut Counters, behind: Option<u8>, block: u32)
    requires { IfSome behind (λ n. n < 8) }
    ensures { (careful : Bool) → Hears told.old (predicted_if behind block (Begins block careful ∷ [])) told.new }
{
    match behind {
        Some(frame) => predict(told, frame, block),
        None => {}
    }
}

// A fetch has begun, behind a frame where it was predicted.
fn hear_begun(told: &mut Counters, behind: Option<u8>, after: Option<(u32, bool)>)
    requires { IfSome behind (λ n. n < 8) }
    ensures { Hears told.old (begun_notes behind after) told.new }
{
    match after {
        Some(fetch) => hear_fetch(told, behind, fetch.0),
        None => {}
    }
}

// The same where the fetch unit was idle.
fn hear_begun_if(told: &mut Counters, idle: bool, behind: Option<u8>, after: Option<(u32, bool)>)
    requires { IfSome behind (λ n. n < 8) }
    ensures { Hears told.old (begun_if idle behind after) told.new }
{
    if idle {
        hear_begun(told, behind, after);
    }
}

// An idle fetch unit begins a fetch.
fn begins<V: Windows, W>(grid: &mut Grid<V, W>, told: &mut Counters)
    ensures change { seen (V.held grid.new.window) grid.new.state
        ≡ spec.begins (V.blocks grid.old.window) (seen (V.held grid.old.window) grid.old.state) }
    ensures heard { Hears told.old (noted.begin_notes (V.blocks grid.old.window) grid.old.state.fetching
        (seen (V.held grid.old.window) grid.old.state)) told.new }
    ensures same { grid.new.window ≡ grid.old.window }
{
    let idle = grid.state.is_idle();
    let behind = guesses(grid.state.standing, open_youngest(&grid.window));
    grid.fetch_begins();
    hear_begun_if(told, idle, behind, fetch_of(&grid.state));
}

/// Part (2). It wants room in the grid's counts as that does.
pub fn fetches<V: Windows, W>(grid: &mut Grid<V, W>, told: &mut Counters)
    requires { grid.old.state.counts.fetched + 1 < 2 ^ 64 }
    ensures change { seen (V.held grid.new.window) grid.new.state
        ≡ spec.fetches (V.blocks grid.old.window) (V.budget grid.old.window)
        (seen (V.held grid.old.window) grid.old.state) }
    ensures heard { Hears told.old (noted.fetches_notes (V.blocks grid.old.window) (V.budget grid.old.window)
        (seen (V.held grid.old.window) grid.old.state)) told.new }
    ensures image { V.blocks grid.new.window ≡ V.blocks grid.old.window }
    ensures budget { V.budget grid.new.window ≡ V.budget grid.old.window }
{
    goes_on(grid, &mut told.guesses);
    begins(grid, told);
}
