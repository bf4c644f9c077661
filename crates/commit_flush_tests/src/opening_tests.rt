//! A window that opens behind a step of the sequential machine, and a list of events.
ghost use Rattle.std.specs.Prelude.{◌≡◌, ◌<◌, ◌≤◌, length, IfOk};

use crate::both::{assert_rows, assert_same};
use crate::making::{checked, machine, window};
use crate::rows::Row;
use crate::rows::Row::{Commits, Does, Holds, InFlight, Leads, Refuses};
use block_atomic::Arch;
use block_check::CheckedImage;
use commit_flush::Window;
use frame_state::Cause::Wrong;
use frame_state::Event;
use frame_state::Event::{Commit, Deliver, Exit, Fetch, Fire, Flush, Read, Seal};
use std::alloc::{AllocError, Global};
use std::process::Abort;
use std::test::Fail;
use trips_isa::Stepped::Went;

/// The second block adds 1 to what the first writes.
const PAIR: &str = "trips 1
data 0
block 0 mask 00000000
W[0] write G[5]
N[0] genu 7 W[0]
N[1] bro 0 @1
block 1 mask 00000000
R[0] read G[5] N[0,0]
W[0] write G[6]
N[0] addi 1 W[0]
N[1] bro 0 @0
";

/// How many blocks may be committed.
const BUDGET: u32 = 4;

/// The second block, to its commit.
const SECOND: [Row; 13] = [
    Leads(Some(1)),
    Refuses(Fetch { block: 0 }, Wrong),
    Does(Fetch { block: 1 }),
    Does(Read { frame: 0, read: 0 }),
    Does(Deliver { token: 256 }),
    Does(Fire { frame: 0, slot: 0 }),
    Does(Deliver { token: 0 }),
    Does(Fire { frame: 0, slot: 1 }),
    Does(Exit { frame: 0 }),
    Does(Seal { frame: 0 }),
    Commits(Went),
    InFlight(0),
    Holds(6, 8),
];

/// The first block to its commit, with events between that do not happen.
const FIRST: [Event; 14] = [
    Commit,
    Fetch { block: 9 },
    Fetch { block: 0 },
    Fire { frame: 9, slot: 0 },
    Fire { frame: 0, slot: 1 },
    Deliver { token: 9 },
    Fetch { block: 1 },
    Fire { frame: 0, slot: 0 },
    Seal { frame: 0 },
    Deliver { token: 0 },
    Exit { frame: 0 },
    Flush { frame: 1 },
    Seal { frame: 0 },
    Commit,
];

// The sequential machine, one step on.
fn later(rt: &impl Abort, alloc: Global, image: &CheckedImage) -> Result<Arch, Fail>
    ensures budget { IfOk result (λ arch. arch.budget ≡ 4) }
    ensures next { IfOk result (λ arch. arch.state.next < length image.now.blocks) }
    ensures room { IfOk result (λ arch. length arch.state.trace ≤ 1) }
{
    let mut arch = machine(alloc, image, BUDGET)?;
    assert!(rt; arch.next() < image.count(), "a next block");
    assert!(rt; arch.trace().is_empty(), "no step was made");
    let _ = arch.step(image);
    assert!(rt; arch.trace().len() == 1, "one step");
    Ok(arch)
}

fn assert_opens(rt: &impl Abort, alloc: Global) -> Result<(), Fail> {
    let image = checked(alloc, PAIR)?;
    let arch = later(rt, alloc, &image)?;
    let mut beside = later(rt, alloc, &image)?;
    match Window::make_at(alloc, image, arch, BUDGET) {
        Ok(mut window) => assert_rows(rt, &mut window, &mut beside, &SECOND),
        Err(_) => return Err(Fail::from(AllocError)),
    }
    Ok(())
}

// A window for two blocks, on a machine that has room for more.
fn assert_opens_below(rt: &impl Abort, alloc: Global) -> Result<(), Fail> {
    let image = checked(alloc, PAIR)?;
    let arch = later(rt, alloc, &image)?;
    match Window::make_at(alloc, image, arch, 2) {
        Ok(window) => {
            assert!(rt; window.budget() == 2, "the window's budget");
            assert!(rt; window.arch().trace().len() == 1, "the step stays");
        }
        Err(_) => return Err(Fail::from(AllocError)),
    }
    Ok(())
}

fn assert_plays(rt: &impl Abort, alloc: Global) -> Result<(), Fail> {
    let image = checked(alloc, PAIR)?;
    let arch = later(rt, alloc, &image)?;
    let mut window = window(alloc, image, BUDGET)?;
    window.play(&FIRST);
    assert!(rt; window.in_flight() == 0, "no frame is in flight");
    assert_same(rt, &window, &arch);
    Ok(())
}

#[test]
fn a_window_opens_behind_a_step(rt: HostRuntime) -> Result<(), Fail> {
    assert_opens(&rt, rt.alloc())?;
    Ok(())
}

#[test]
fn a_list_of_events_is_played(rt: HostRuntime) -> Result<(), Fail> {
    assert_plays(&rt, rt.alloc())?;
    Ok(())
}

#[test]
fn a_window_opens_for_fewer_blocks_than_the_machine(rt: HostRuntime) -> Result<(), Fail> {
    assert_opens_below(&rt, rt.alloc())
}
