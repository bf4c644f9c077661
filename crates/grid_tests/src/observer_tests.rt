//! What a grid tells between cycles: what it would fetch and fire, and what it waits for.

ghost use Rattle.std.specs.Prelude.{◌≡◌, ◌<◌, [], IfOk};

use crate::runs::checked;
use block_predict::Predictor;
use frame_state::Event;
use grid_cycle::{Grid, Lack};
use operand_net::Calm;
use std::alloc::{AllocError, Global};
use std::test::Fail;
use trips_isa::Ending;

/// A block with two writes, of which the first one comes from slot 0 and the second from slot 1, and a system call.
const SEVEN: &str = "trips 1
data 0
block 0 mask 00000000
W[0] write G[0]
W[1] write G[3]
N[0] genu 3 W[0]
N[1] genu 7 W[1]
N[2] scall 0
";

/// A block whose slot 1 adds to what slot 0 gives.
const SUM: &str = "trips 1
data 0
block 0 mask 00000000
W[0] write G[0]
W[1] write G[3]
N[0] genu 3 N[1,0]
N[1] addi 4 W[1]
N[2] genu 3 W[0]
N[3] scall 0
";

/// Slots 1 and 17 lie on one tile. A division in slot 1 takes 24 cycles, and in that time the operand of slot 17
/// comes, by way of slots 4 to 6.
const DIVISION: &str = "trips 1
data 0
block 0 mask 00000000
W[0] write G[0]
W[1] write G[3]
N[0] genu 21 N[1,0]
N[1] divu W[1]
N[2] genu 3 N[1,1]
N[3] genu 3 N[4,0]
N[4] addi 0 N[5,0]
N[5] addi 0 N[6,0]
N[6] addi 0 N[17,0]
N[17] addi 0 W[0]
N[18] scall 0
";

/// A block that leads to itself, and counts.
const FOREVER: &str = "trips 1
data 0
block 0 mask 00000000
R[0] read G[3] N[0,0]
W[0] write G[3]
N[0] addi 1 W[0]
N[1] bro 0 @0
";

// A predictor whose entries all name exit 0.
fn predictor(alloc: Global) -> Result<Predictor, Fail>
    ensures { IfOk result (λ p. p.stack ≡ []) }
{
    let entries = vec![in alloc; 0u8; 1024]?;
    match Predictor::wrong(alloc, entries) {
        Ok(predictor) => Ok(predictor),
        Err(_) => Err(Fail::from(AllocError)),
    }
}

// The grid of a text at its start, in calm weather, with at most so many frames in flight behind the oldest.
fn limited(alloc: Global, text: &str, ahead: u8) -> Result<Grid<Calm>, Fail> {
    let image = checked(alloc, text)?;
    let mut predictor = predictor(alloc)?;
    predictor.limit(ahead);
    match Grid::make(alloc, image, Vec::new(alloc), predictor, Calm, 10) {
        Ok(grid) => Ok(grid),
        Err(_) => Err(Fail::from(AllocError)),
    }
}

// The grid of a text at its start, in calm weather.
fn begun(alloc: Global, text: &str) -> Result<Grid<Calm>, Fail> {
    limited(alloc, text, 7)
}

// So many cycles.
fn cycles(grid: &mut Grid<Calm>, count: u8) {
    for _ in 0..count {
        let _ = grid.cycle();
    }
}

#[test]
fn a_grid_at_its_start_would_fetch_the_first_block(rt: HostRuntime) -> Result<(), Fail> {
    let grid = begun(rt.alloc(), SEVEN)?;
    assert!(&rt; grid.can_fetch() == Some(0), "the committed next block");
    assert!(&rt; grid.ready(0) == None, "no frame is in flight");
    assert!(&rt; grid.waiting_on() == None, "no frame is in flight");
    Ok(())
}

#[test]
fn a_fetched_block_lacks_its_first_write(rt: HostRuntime) -> Result<(), Fail> {
    let mut grid = begun(rt.alloc(), SEVEN)?;
    cycles(&mut grid, 9);
    assert!(&rt;
        grid.waiting_on() == Some(Lack::Write(0)),
        "{:?}",
        grid.waiting_on()
    );
    assert!(&rt; grid.can_fetch() == None, "a system call is the youngest");
    assert!(&rt; grid.counts().fetched == 1, "one frame is filled");
    Ok(())
}

#[test]
fn a_full_frame_lacks_nothing_and_the_run_ends(rt: HostRuntime) -> Result<(), Fail> {
    let mut grid = begun(rt.alloc(), SEVEN)?;
    let ending = grid.run();
    assert!(&rt; ending == Ending::Ended, "{ending:?}");
    assert!(&rt; grid.run() == Ending::Ended, "the ending again");
    assert!(&rt; grid.cycle() == Some(Ending::Ended), "and again");
    assert!(&rt; grid.waiting_on() == None, "no frame is in flight");
    Ok(())
}

// What a tile would fire, as soon as it has something to fire between two cycles.
fn first_ready(grid: &mut Grid<Calm>, tile: u8, most: u8) -> Option<Event>
    requires { tile < 16 }
{
    for _ in 0..most {
        let event = grid.ready(tile);
        if event.is_some() {
            return event;
        }
        let _ = grid.cycle();
    }
    None
}

#[test]
fn a_slot_whose_operand_has_come_is_ready(rt: HostRuntime) -> Result<(), Fail> {
    let mut grid = begun(rt.alloc(), SUM)?;
    let event = first_ready(&mut grid, 1, 20);
    assert!(&rt;
        event == Some(Event::Fire { frame: 0, slot: 1 }),
        "{event:?}"
    );
    let _ = grid.cycle();
    assert!(&rt; grid.ready(1) == None, "slot 1 has fired");
    Ok(())
}

#[test]
fn a_busy_unit_fires_nothing(rt: HostRuntime) -> Result<(), Fail> {
    let mut grid = begun(rt.alloc(), DIVISION)?;
    let division = first_ready(&mut grid, 1, 40);
    assert!(&rt;
        division == Some(Event::Fire { frame: 0, slot: 1 }),
        "{division:?}"
    );
    cycles(&mut grid, 20);
    let addition = Event::Fire { frame: 0, slot: 17 };
    assert!(&rt;
        grid.window().can(addition).is_done(),
        "the operand of slot 17 has come"
    );
    assert!(&rt; grid.ready(1) == None, "the unit divides");
    cycles(&mut grid, 10);
    assert!(&rt;
        !grid.window().can(addition).is_done(),
        "slot 17 fired in the cycle in which the unit was free again"
    );
    Ok(())
}

#[test]
fn a_fetch_begins_behind_the_one_that_ends(rt: HostRuntime) -> Result<(), Fail> {
    let mut grid = begun(rt.alloc(), FOREVER)?;
    assert!(&rt; grid.can_fetch() == Some(0), "the unit is idle");
    cycles(&mut grid, 1);
    assert!(&rt; grid.can_fetch() == None, "a fetch is under way");
    cycles(&mut grid, 7);
    assert!(&rt; grid.counts().fetched == 0, "no frame is filled");
    assert!(&rt;
        grid.can_fetch() == Some(0),
        "the fetch ends, and the next one begins"
    );
    cycles(&mut grid, 1);
    assert!(&rt; grid.counts().fetched == 1, "a frame is filled");
    assert!(&rt; grid.can_fetch() == None, "the next fetch is under way");
    Ok(())
}

#[test]
fn nothing_is_fetched_behind_a_system_call(rt: HostRuntime) -> Result<(), Fail> {
    let mut grid = begun(rt.alloc(), SEVEN)?;
    cycles(&mut grid, 8);
    assert!(&rt;
        grid.counts().fetched == 0,
        "the fetch ends in the next cycle"
    );
    assert!(&rt; grid.can_fetch() == None, "no fetch begins behind it");
    Ok(())
}

#[test]
fn no_more_frames_than_asked_for_are_in_flight(rt: HostRuntime) -> Result<(), Fail> {
    let mut one = limited(rt.alloc(), FOREVER, 0)?;
    cycles(&mut one, 8);
    assert!(&rt; one.can_fetch() == None, "none begins behind the only one");
    cycles(&mut one, 1);
    assert!(&rt; one.counts().fetched == 1, "a frame is filled");
    assert!(&rt; one.can_fetch() == None, "it is in flight");
    for ahead in 0..3u8 {
        let mut grid = limited(rt.alloc(), FOREVER, ahead)?;
        let mut most = 0;
        for _ in 0..200u8 {
            let _ = grid.cycle();
            let flying = grid.window().numbers().len();
            if flying > most {
                most = flying;
            }
        }
        assert!(&rt; most == ahead as usize + 1, "ahead {ahead}");
    }
    Ok(())
}
