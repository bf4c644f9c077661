//! The sequential machine behind a list of events.
ghost use Rattle.std.specs.Prelude.{◌≡◌};

use crate::both::{assert_same, step};
use crate::drawing::drawn;
use crate::making::{checked, machine, window};
use block_atomic::Arch;
use commit_flush::Window;
use std::alloc::Global;
use std::process::Abort;
use std::test::Fail;
use trips_isa::Stepped;

/// How many words are drawn for a list. A word draws one event, or sixteen that differ in a number.
const WORDS: usize = 512;

// The machine makes as many steps as the window has made commits, and tells what the last one came to.
fn follow(rt: &impl Abort, window: &Window, arch: &mut Arch) -> Stepped
    requires { arch.old.budget ≡ window.now.budget }
    ensures { arch.new.budget ≡ window.now.budget }
{
    let commits = window.arch().trace().len();
    let mut stepped = Stepped::Went;
    for _commit in 0..commits {
        stepped = step(rt, window, arch);
    }
    stepped
}

// A trap is a step more, which commits nothing.
fn follow_to_end(rt: &impl Abort, window: &Window, arch: &mut Arch) -> Stepped
    requires { arch.old.budget ≡ window.now.budget }
{
    let stepped = follow(rt, window, arch);
    match window.over() {
        Stepped::Trap(_) => step(rt, window, arch),
        Stepped::Went | Stepped::Ended | Stepped::StackFull => stepped,
    }
}

// A list of events that a seed draws is played at a window, and the machine follows: the states are the same, and how
// the run has ended. It tells how many blocks were committed.
fn assert_list(
    rt: &impl Abort,
    alloc: Global,
    text: &str,
    budget: u32,
    seed: u64,
) -> Result<usize, Fail> {
    let events = drawn(alloc, seed, WORDS)?;
    let image = checked(alloc, text)?;
    let mut arch = machine(alloc, &image, budget)?;
    let mut window = window(alloc, image, budget)?;
    window.play(events.as_slice());
    let stepped = follow_to_end(rt, &window, &mut arch);
    assert!(rt;
        window.over() == stepped,
        "seed {seed}: the last step came to {stepped:?}"
    );
    assert_same(rt, &window, &arch);
    Ok(window.arch().trace().len())
}

/// The lists of so many seeds from one on, of which some commit blocks.
pub fn assert_lists(
    rt: &impl Abort,
    alloc: Global,
    text: &str,
    budget: u32,
    seeds: u64,
) -> Result<(), Fail> {
    let mut commits = 0usize;
    for seed in 0..seeds {
        commits = commits.saturating_add(assert_list(rt, alloc, text, budget, seed)?);
    }
    assert!(rt; commits > 0, "no list commits a block");
    Ok(())
}
