//! What a station does for one program, as it does it for a grid of its own.
ghost use Rattle.std.specs.Prelude.{◌≡◌, ◌<◌, ◌&&◌, ◌^◌, ℕ, cond, is_some, length, nat_lt, None, []};
ghost use Rattle.commit_flush_spec.specs.Frames.{numbers};
ghost use Rattle.grid_cycle_spec.specs.Banks.{answers_read, bank_turn};
ghost use Rattle.grid_cycle_spec.specs.Choosing.{eldest, reads};
ghost use Rattle.grid_cycle_spec.specs.Cycles.{closed};
ghost use Rattle.grid_cycle_spec.specs.DataTiles.{answers_request, data_turn};
ghost use Rattle.grid_cycle_spec.specs.Ends.{ends};
ghost use Rattle.grid_cycle_spec.specs.Fetches.{begins, fetch_ends};
ghost use Rattle.grid_cycle_spec.specs.Grid.{numbers_of};
ghost use Rattle.grid_cycle_spec.specs.inside.Arrivals.{arrivals};
ghost use Rattle.grid_machine.specs.Endings.{ending_of};
ghost use Rattle.grid_parts.specs.inside.EldestChoices.{lowest_slot};
ghost use Rattle.grid_parts.specs.inside.Marked.{ReadsMarked, SlotsMarked};
ghost use Rattle.smt_spec.specs.Cycles as four;
ghost use Rattle.smt_spec.specs.Cycles.{retires};
ghost use Rattle.smt_spec.specs.Parts.{gives};
ghost use Rattle.smt_mode.specs.Machines.{blocks_of, seen_of};
ghost use Rattle.smt_mode.specs.inside.Rooms.{HasRoom, Stays};
ghost use Rattle.smt_mode.specs.inside.Issues.{IsIssue, freed};
ghost use Rattle.commit_flush_spec.specs.Window.{Window};
ghost use Rattle.grid_parts.specs.Seen.{seen};

use grid_machine::GridWindow;
use grid_parts::{
    Grid, ReadMarks, State, Windows, answerable, arrivals, lowest_on, readable_among, ready_slot,
};
use trips_isa::{Ending, Stepped};

/// A program: a grid of its own. Its own units and its own count of cycles stand for nothing.
pub type Program = Grid<GridWindow, ()>;

// A word that marks each of 32 reads.
const ALL: u64 = 4_294_967_295;

/// Whether the last step of a program let its run go on.
pub fn has_gone(program: &Program) -> bool
    ensures { result ≡ four.has_gone program.now.window.window.over }
{
    match program.window.over() {
        Stepped::Went => true,
        _ => false,
    }
}

/// Whether a program is not over.
pub fn goes_on(program: &Program, budget: u32) -> bool
    ensures { result ≡ four.goes_on budget program.now.window.window }
{
    if has_gone(program) {
        program.window.committed() < budget as u64
    } else {
        false
    }
}

/// Part (1).
pub fn end(program: &mut Program)
    requires room { HasRoom (2 ^ 63) program.old }
    ensures change { seen_of program.new
        ≡ ends (blocks_of program.old) program.old.window.budget (seen_of program.old) }
    ensures stays { Stays 0 program.old program.new }
{
    program.ends();
}

/// What is being fetched goes on.
pub fn go_on(program: &mut Program)
    requires room { HasRoom (2 ^ 63) program.old }
    ensures change { seen_of program.new ≡ fetch_ends (blocks_of program.old) program.old.window.budget
        program.old.state.fetching (seen_of program.old) }
    ensures stays { Stays 1 program.old program.new }
{
    program.fetch_goes_on();
}

/// An idle fetch unit begins a fetch, where fewer than two frames are in flight; whether it has.
pub fn begin(program: &mut Program) -> bool
    requires idle { program.old.state.fetching ≡ None }
    ensures value { result ≡ (nat_lt (length program.old.window.window.frames) 2
        && is_some (begins (blocks_of program.old) (seen_of program.old)).fetching) }
    ensures change { seen_of program.new
        ≡ cond result (begins (blocks_of program.old) (seen_of program.old)) (seen_of program.old) }
    ensures stays { Stays 0 program.old program.new }
{
    if program.window.numbers().len() < 2 {
        program.fetch_begins();
        !program.state.is_idle()
    } else {
        false
    }
}

// Marks of reads, of which each of frames 0 and 1 that can be answered has one, and each of any other frame.
fn marks_of(window: &GridWindow) -> ReadMarks
    ensures { ReadsMarked window.now.image.blocks window.now.budget window.now.window result.words }
{
    let first = window.unread(0) as u64;
    let second = window.unread(1) as u64;
    ReadMarks {
        words: [first, second, ALL, ALL, ALL, ALL, ALL, ALL],
    }
}

/// A bank answers the eldest read that it may answer; whether there is one.
pub fn read(program: &mut Program, bank: u8) -> bool
    requires bank { bank < 4 }
    ensures value { result ≡ is_some (eldest (answers_read (blocks_of program.old) program.old.window.budget
        (seen_of program.old) bank) reads program.old.window.window.frames) }
    ensures change { seen_of program.new ≡ cond result
        (bank_turn (blocks_of program.old) program.old.window.budget bank (seen_of program.old))
        (seen_of program.old) }
    ensures stays { Stays 0 program.old program.new }
{
    let frames = program.window.numbers();
    let marks = marks_of(&program.window);
    match readable_among(&program.window, bank, frames.as_slice(), &marks) {
        Some(chosen) => {
            program.answer_read(bank, chosen.0, chosen.1);
            true
        }
        None => false,
    }
}

/// A data tile answers the eldest request that it may answer; whether there is one.
pub fn answer(program: &mut Program, tile: u8) -> bool
    requires tile { tile < 4 }
    requires room { HasRoom (2 ^ 63) program.old }
    ensures value { result ≡ is_some (eldest (answers_request (seen_of program.old) tile) numbers
        program.old.window.window.frames) }
    ensures change { seen_of program.new ≡ cond result
        (data_turn (blocks_of program.old) program.old.window.budget tile (seen_of program.old))
        (seen_of program.old) }
    ensures stays { Stays 0 program.old program.new }
{
    let frames = program.window.numbers();
    match answerable(&program.window, &program.state, tile, frames.as_slice()) {
        Some(chosen) => {
            program.answer(tile, chosen.0, chosen.1);
            true
        }
        None => false,
    }
}

/// The result that was in the unit of a tile enters the mesh.
pub fn give(program: &mut Program, tile: u8)
    requires tile { tile < 16 }
    ensures change { seen_of program.new ≡ gives tile 0 (seen_of program.old) }
    ensures same { program.new.window ≡ program.old.window }
    ensures stays { Stays 0 program.old program.new }
{
    program.gives(tile);
}

// Whether a slot of a tile is marked.
fn is_marked(marks: u128, tile: u8) -> bool
    requires { tile < 16 }
    ensures { result ≡ is_some (lowest_slot marks tile) }
{
    lowest_on(marks, tile).is_some()
}

// The unit of a tile is free.
fn free_unit(state: &mut State<()>, tile: u8)
    requires { tile < 16 }
    ensures { (w : Window) → seen w state.new ≡ freed tile (seen w state.old) }
{
    state.units[tile as usize] = 0;
}

// A free unit issues the eldest ready entry of its tile: for how long it is then busy; none where there is none.
fn issue_ready(program: &mut Program, tile: u8) -> Option<u8>
    requires { tile < 16 }
    ensures value { IsIssue (blocks_of program.old) program.old.window.budget tile (seen_of program.old)
        (seen_of program.new) result }
    ensures marks { (marks : ℕ)
        → SlotsMarked (blocks_of program.old) program.old.window.budget program.old.window.window marks
        → SlotsMarked (blocks_of program.new) program.new.window.budget program.new.window.window marks }
    ensures stays { Stays 0 program.old program.new }
{
    let frames = program.window.numbers();
    match ready_slot(&program.window, tile, frames.as_slice()) {
        Some(chosen) => {
            free_unit(&mut program.state, tile);
            program.issue(tile, chosen.0, chosen.1);
            Some(program.state.busy(tile))
        }
        None => None,
    }
}

/// The same where each slot that may fire is marked, so that a tile without a marked slot issues nothing.
pub fn issue(program: &mut Program, tile: u8, marks: u128) -> Option<u8>
    requires tile { tile < 16 }
    requires marked { SlotsMarked (blocks_of program.old) program.old.window.budget program.old.window.window marks }
    ensures value { IsIssue (blocks_of program.old) program.old.window.budget tile (seen_of program.old)
        (seen_of program.new) result }
    ensures marks { (marks : ℕ)
        → SlotsMarked (blocks_of program.old) program.old.window.budget program.old.window.window marks
        → SlotsMarked (blocks_of program.new) program.new.window.budget program.new.window.window marks }
    ensures stays { Stays 0 program.old program.new }
{
    if is_marked(marks, tile) {
        issue_ready(program, tile)
    } else {
        None
    }
}

/// What has arrived is delivered.
pub fn arrive(program: &mut Program)
    requires room { HasRoom (2 ^ 63) program.old }
    ensures change { seen_of program.new ≡ arrivals (blocks_of program.old) program.old.window.budget
        (numbers_of program.old.window.window.frames) (seen_of program.old) }
    ensures stays { Stays 0 program.old program.new }
{
    let frames = program.window.numbers();
    arrivals(program, frames.as_slice());
}

// The frames in flight are flushed, and the fetch is given up.
fn close(program: &mut Program)
    requires room { HasRoom (2 ^ 63) program.old }
    ensures change { seen_of program.new ≡ record (closed (seen_of program.old)) { fetching = None } }
    ensures stays { Stays 0 program.old program.new }
{
    let frames = program.window.numbers();
    program.window.empty();
    program.state.flush(frames.as_slice());
    program.state.give_up();
}

/// A program that has become over: its frames in flight are flushed, and its fetch is given up.
pub fn retire(program: &mut Program, budget: u32)
    requires room { HasRoom (2 ^ 63) program.old }
    ensures change { seen_of program.new ≡ retires budget (seen_of program.old) }
    ensures stays { Stays 0 program.old program.new }
{
    if goes_on(program, budget) {
        return;
    }
    close(program);
}

// The committed next block, where no frame is in flight.
fn next_block(program: &Program) -> u32
    requires rests { program.now.window.window.frames ≡ [] }
    ensures value { result ≡ program.now.window.window.state.next }
{
    program.window.successor().unwrap_or(0)
}

/// How a program has ended that is over, once no frame is in flight.
pub fn ending(program: &Program) -> Ending
    requires rests { program.now.window.window.frames ≡ [] }
    ensures value { result ≡ ending_of program.now.window.window.over program.now.window.window.state.next }
{
    match program.window.over() {
        Stepped::Went => Ending::Budget,
        Stepped::Ended => Ending::Ended,
        Stepped::StackFull => Ending::StackFull,
        Stepped::Trap(cause) => Ending::Trap {
            block: next_block(program),
            cause,
        },
    }
}
