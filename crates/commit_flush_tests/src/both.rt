//! A window and the sequential machine beside it, through the rows of a table.
ghost use Rattle.std.specs.Prelude.{◌≡◌};

use crate::making::{checked, machine, window};
use crate::rows::Row;
use block_atomic::Arch;
use commit_flush::Window;
use frame_state::{Event, Happened};
use std::alloc::Global;
use std::process::Abort;
use std::test::Fail;
use trips_isa::Stepped;

/// What a window tells of its frames.
#[derive(Clone, Copy, Debug, PartialEq, Eq)]
struct Observed {
    in_flight: u8,
    ages: [Option<u8>; 8],
    oldest: Option<u8>,
    lowest_empty: Option<u8>,
    generations: [u64; 8],
    successor: Option<u32>,
    over: Stepped,
    commits: usize,
}

fn observe(window: &Window) -> Observed {
    Observed {
        in_flight: window.in_flight(),
        ages: [
            window.age_of(0),
            window.age_of(1),
            window.age_of(2),
            window.age_of(3),
            window.age_of(4),
            window.age_of(5),
            window.age_of(6),
            window.age_of(7),
        ],
        oldest: window.frame_at(0),
        lowest_empty: window.lowest_empty(),
        generations: [
            window.generation(0),
            window.generation(1),
            window.generation(2),
            window.generation(3),
            window.generation(4),
            window.generation(5),
            window.generation(6),
            window.generation(7),
        ],
        successor: window.successor(),
        over: window.over(),
        commits: window.arch().trace().len(),
    }
}

// An event is answered this, by `can` and by `event`; where a cause holds the window stays as it was.
fn assert_answer(rt: &impl Abort, window: &mut Window, event: Event, want: Happened)
    ensures { window.new.budget ≡ window.old.budget }
{
    let before = observe(window);
    let asked = window.can(event);
    let happened = window.event(event);
    assert!(rt;
        asked == want && happened == want,
        "{event:?} is answered {happened:?}"
    );
    if !happened.is_done() {
        assert!(rt;
            observe(window) == before,
            "{event:?} leaves the window as it was"
        );
    }
}

/// The step of the sequential machine.
pub fn step(rt: &impl Abort, window: &Window, arch: &mut Arch) -> Stepped
    requires { arch.old.budget ≡ window.now.budget }
    ensures { arch.new.budget ≡ window.now.budget }
{
    assert!(rt; arch.next() < window.image().count(), "a next block");
    assert!(rt;
        arch.trace().len() < window.budget() as usize,
        "a step within the budget"
    );
    arch.step(window.image())
}

/// The committed state is that of the sequential machine.
pub fn assert_same(rt: &impl Abort, window: &Window, arch: &Arch) {
    let committed = window.arch();
    for register in 0..128u8 {
        assert!(rt;
            committed.register(register) == arch.register(register),
            "register {register}"
        );
    }
    assert!(rt; committed.memory() == arch.memory(), "memory");
    assert!(rt; committed.next() == arch.next(), "the next block");
    assert!(rt; committed.output() == arch.output(), "the output");
    assert!(rt; committed.trace() == arch.trace(), "the trace");
}

// Commit happens, and it is a step of the sequential machine.
fn assert_commit(rt: &impl Abort, window: &mut Window, arch: &mut Arch, want: Stepped)
    requires { arch.old.budget ≡ window.old.budget }
    ensures { arch.new.budget ≡ window.new.budget }
{
    assert_answer(rt, window, Event::Commit, Happened::Done);
    let stepped = step(rt, window, arch);
    assert!(rt;
        stepped == want && window.over() == want,
        "a step that comes to {stepped:?}"
    );
    assert_same(rt, window, arch);
}

// The word of a committed register.
fn assert_word(rt: &impl Abort, window: &Window, register: u8, want: u64) {
    assert!(rt; register < 128, "a register");
    let word = window.arch().register(register);
    assert!(rt; word == want, "register {register} has {word}");
}

// The value of the resolved store of a number in a frame.
fn stored_value(window: &Window, frame: u8, number: u8) -> Option<u64> {
    match window.stored(frame, number) {
        Some(stored) => stored.value,
        None => None,
    }
}

// A row of a table.
fn assert_row(rt: &impl Abort, window: &mut Window, arch: &mut Arch, row: Row)
    requires { arch.old.budget ≡ window.old.budget }
    ensures { arch.new.budget ≡ window.new.budget }
{
    match row {
        Row::Does(event) => assert_answer(rt, window, event, Happened::Done),
        Row::Refuses(event, cause) => {
            assert_answer(rt, window, event, Happened::NotNow(cause));
        }
        Row::InFlight(count) => assert!(rt;
            window.in_flight() == count,
            "{count} frames in flight"
        ),
        Row::Leads(want) => assert!(rt; window.successor() == want, "the next block {want:?}"),
        Row::Commits(want) => assert_commit(rt, window, arch, want),
        Row::Holds(register, want) => assert_word(rt, window, register, want),
        Row::Asks(frame, want) => assert!(rt;
            window.asked(frame) == want,
            "frame {frame} asks {want}"
        ),
        Row::Address(frame, number, want) => assert!(rt;
            window.address_of(frame, number) == want,
            "number {number} of frame {frame} has the address {want:?}"
        ),
        Row::Stores(frame, number, want) => assert!(rt;
            stored_value(window, frame, number) == want,
            "store {number} of frame {frame} has the value {want:?}"
        ),
        Row::Lacks(frame, want) => assert!(rt;
            window.lacks(frame) == want,
            "frame {frame} lacks {want:?}"
        ),
        Row::Ready(frame, slots, reads) => assert!(rt;
            window.ready(frame) == slots && window.unread(frame) == reads,
            "frame {frame} has the slots {slots} and the reads {reads}"
        ),
    }
}

/// The rows of a table one after the other.
pub fn assert_rows(rt: &impl Abort, window: &mut Window, arch: &mut Arch, rows: &[Row])
    requires { arch.old.budget ≡ window.old.budget }
{
    for row in rows {
        assert_row(rt, window, arch, *row);
    }
}

/// A table of events at a window on the image of a text, from the start of its run.
pub fn assert_table(
    rt: &impl Abort,
    alloc: Global,
    text: &str,
    budget: u32,
    rows: &[Row],
) -> Result<(), Fail> {
    let image = checked(alloc, text)?;
    let mut arch = machine(alloc, &image, budget)?;
    let mut window = window(alloc, image, budget)?;
    assert_rows(rt, &mut window, &mut arch, rows);
    Ok(())
}
