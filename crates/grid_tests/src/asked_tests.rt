//! Which frame a store would flush first, asked before the store waits, while it waits and behind it.

use crate::making::checked;
use base::Memory;
use block_check::CheckedImage;
use commit_flush::Window;
use grid_machine::GridWindow;
use grid_parts::Windows;
use std::alloc::Global;
use std::process::Abort;
use std::test::Fail;

/// The first block stores a byte at 7. The second loads the eight bytes from 0 on, by number 5.
const TEXT: &str = "trips 1
data 0
block 0 mask 00000001
N[0] genu 7 N[2,0]
N[1] genu 171 N[2,1]
N[2] sb 0 0
N[3] bro 0 @1
block 1 mask 00000000
W[0] write G[0]
W[1] write G[3]
N[0] genu 0 N[1,0]
N[1] ld 5 0 W[1]
N[2] genu 3 W[0]
N[3] scall 0
";

/// An event of a frame, how many frames are in flight, or the frame that a store would flush first with its lowest
/// wrong load.
#[derive(Clone, Copy)]
enum Row {
    Fetch(u32),
    Fire(u8, u8),
    Deliver(u8, u16),
    Load(u8, u8),
    Store(u8, u8),
    InFlight(usize),
    Wrong(u8, u8, Option<(u8, u8)>),
}

const ROWS: [Row; 18] = [
    Row::Wrong(0, 0, None),
    Row::Fetch(0),
    Row::Fetch(1),
    Row::Fire(1, 0),
    Row::Deliver(1, 0),
    Row::Fire(1, 1),
    Row::Wrong(1, 5, None),
    Row::Load(1, 5),
    Row::Wrong(0, 0, None),
    Row::Fire(0, 0),
    Row::Deliver(0, 0),
    Row::Fire(0, 1),
    Row::Deliver(0, 2),
    Row::Fire(0, 2),
    Row::Wrong(0, 0, Some((1, 5))),
    Row::Store(0, 0),
    Row::InFlight(1),
    Row::Wrong(0, 0, None),
];

// Whether the same was found.
fn is_same(found: Option<(u8, u8)>, wanted: Option<(u8, u8)>) -> bool {
    match found {
        None => wanted.is_none(),
        Some((frame, load)) => match wanted {
            None => false,
            Some((first, lowest)) => frame == first && load == lowest,
        },
    }
}

// A row does what it says.
fn assert_row(rt: &impl Abort, window: &mut GridWindow, row: Row) {
    match row {
        Row::Fetch(block) => window.fetch(block),
        Row::Fire(frame, slot) => {
            assert!(rt; frame < 8 && slot < 128, "a slot of a frame");
            window.fire(frame, slot);
        }
        Row::Deliver(frame, place) => {
            assert!(rt; frame < 8 && place < 320, "a place of a frame");
            window.deliver(frame, place);
        }
        Row::Load(frame, number) => {
            assert!(rt; frame < 8 && number < 32, "a number of a frame");
            window.load(frame, number);
        }
        Row::Store(frame, number) => {
            assert!(rt; frame < 8 && number < 32, "a number of a frame");
            window.store(frame, number);
        }
        Row::InFlight(count) => {
            assert!(rt; window.numbers().len() == count, "{count} frames in flight");
        }
        Row::Wrong(frame, number, wanted) => {
            assert!(rt; frame < 8 && number < 32, "a number of a frame");
            let found = window.wrong_load(frame, number);
            assert!(rt; is_same(found, wanted), "store {number} of frame {frame}");
        }
    }
}

// A window over an image.
fn opened(alloc: Global, image: CheckedImage) -> Result<GridWindow, Memory> {
    let window = Window::make(alloc, image, Vec::new(alloc), 4)?;
    GridWindow::make(alloc, window)
}

fn assert_rows(rt: &impl Abort, alloc: Global, rows: &[Row]) -> Result<(), Fail> {
    let image = checked(alloc, TEXT)?;
    let mut window = match opened(alloc, image) {
        Ok(window) => window,
        Err(memory) => return Err(Fail::from(memory)),
    };
    for row in rows {
        assert_row(rt, &mut window, *row);
    }
    Ok(())
}

#[test]
fn wrong_loads_name_the_first_frame_that_goes(rt: HostRuntime) -> Result<(), Fail> {
    assert_rows(&rt, rt.alloc(), &ROWS)
}
