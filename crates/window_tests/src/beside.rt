//! A driven window and the sequential machine beside it.
ghost use Rattle.std.specs.Prelude.{◌≡◌};

use crate::making::{checked, machine, window};
use crate::rows::Row;
use block_atomic::Arch;
use block_check::CheckedImage;
use commit_flush::{Window, run};
use std::alloc::Global;
use std::process::Abort;
use std::test::Fail;
use trips_isa::{Ending, Stepped};

// A step of the sequential machine.
fn step(rt: &impl Abort, image: &CheckedImage, arch: &mut Arch, budget: u32) -> Stepped
    requires { arch.old.budget ≡ budget }
    ensures { arch.new.budget ≡ budget }
{
    assert!(rt; arch.next() < image.count(), "a next block");
    assert!(rt;
        arch.trace().len() < budget as usize,
        "a step within the budget"
    );
    arch.step(image)
}

// The sequential machine's run, and how it ends.
fn run_beside(rt: &impl Abort, image: &CheckedImage, arch: &mut Arch, budget: u32) -> Ending
    requires { arch.old.budget ≡ budget }
{
    for _turn in 0..budget {
        match step(rt, image, arch, budget) {
            Stepped::Went => {}
            Stepped::Ended => return Ending::Ended,
            Stepped::StackFull => return Ending::StackFull,
            Stepped::Trap(cause) => {
                return Ending::Trap {
                    block: arch.next(),
                    cause,
                };
            }
        }
    }
    Ending::Budget
}

// The committed state is that of the sequential machine.
fn assert_same(rt: &impl Abort, name: &str, committed: &Arch, arch: &Arch) {
    for register in 0..128u8 {
        assert!(rt;
            committed.register(register) == arch.register(register),
            "{name}: register {register}"
        );
    }
    assert!(rt; committed.memory() == arch.memory(), "{name}: memory");
    assert!(rt; committed.next() == arch.next(), "{name}: the next block");
    assert!(rt; committed.output() == arch.output(), "{name}: the output");
    assert!(rt; committed.rest() == arch.rest(), "{name}: the input");
    assert!(rt; committed.trace() == arch.trace(), "{name}: the trace");
}

// The window's run ends so, also where it is driven once more.
fn assert_ends(rt: &impl Abort, row: &Row, window: &mut Window) {
    assert!(rt; window.generation(0) < 1 << 62, "frame 0 may be filled");
    let ending = run(window);
    assert!(rt;
        ending == row.ending,
        "{}: the run ends with {ending:?}",
        row.name
    );
    assert!(rt;
        window.arch().trace().len() == row.commits,
        "{}: so many commits",
        row.name
    );
}

// A window that is driven, and the machine beside it.
fn assert_row(rt: &impl Abort, alloc: Global, row: &Row) -> Result<(), Fail> {
    let image = checked(alloc, row.text)?;
    let mut arch = machine(alloc, &image, row.budget)?;
    let ending = run_beside(rt, &image, &mut arch, row.budget);
    assert!(rt;
        ending == row.ending,
        "{}: the machine ends with {ending:?}",
        row.name
    );
    let mut window = window(alloc, image, row.budget)?;
    window.play(row.played);
    assert_ends(rt, row, &mut window);
    assert_same(rt, row.name, window.arch(), &arch);
    assert_ends(rt, row, &mut window);
    Ok(())
}

/// The rows of a table.
pub fn assert_rows(rt: &impl Abort, alloc: Global, rows: &[Row]) -> Result<(), Fail> {
    for row in rows {
        assert_row(rt, alloc, row)?;
    }
    Ok(())
}
