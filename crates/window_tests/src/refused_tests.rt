//! Events that are refused, each for its cause, in windows where others happened before.

use crate::making::{checked, window};
use crate::refused::refused_events_leave;
use commit_flush::Window;
use frame_state::Cause::{
    Missing, NoBlock, NoExit, NoFrame, NoInst, NoRead, NoRequest, NoToken, NotReady, NotYet, Spent,
    Unsealed, Wrong,
};
use frame_state::Event::{Commit, Deliver, Exit, Fetch, Fire, Flush, Load, Read, Seal, Store};
use frame_state::{Cause, Event, Happened};
use std::process::Abort;
use std::test::Fail;
use trips_isa::Stepped;

/// The second block adds 1 to what the first writes.
const PAIR: &str = "trips 1
data 0
block 0 mask 00000000
W[0] write G[5]
N[0] genu 7 W[0]
N[1] bro 0 @1
block 1 mask 00000000
R[0] read G[5] N[0,0]
W[0] write G[6]
N[0] addi 1 W[0]
N[1] bro 0 @0
";

/// Both blocks are in flight, and nothing has fired.
const FILLED: &[Event] = &[Fetch { block: 0 }, Fetch { block: 1 }];

/// What is refused then, and why.
const REFUSED: &[(Event, Cause)] = &[
    (Fetch { block: 2 }, NoBlock),
    (Read { frame: 1, read: 0 }, NotYet),
    (Read { frame: 0, read: 0 }, NoRead),
    (Read { frame: 7, read: 0 }, NoFrame),
    (Fire { frame: 0, slot: 9 }, NoInst),
    (Fire { frame: 1, slot: 0 }, NotReady),
    (Deliver { token: 0 }, NoToken),
    (
        Load {
            frame: 0,
            number: 0,
        },
        NoRequest,
    ),
    (
        Store {
            frame: 0,
            number: 3,
        },
        NoRequest,
    ),
    (Exit { frame: 0 }, NoExit),
    (Seal { frame: 0 }, Missing),
    (Flush { frame: 5 }, NoFrame),
    (Commit, Unsealed),
];

// What a window shows of its frames and of its run.
fn shown(window: &Window) -> (usize, u64, u64, Stepped) {
    let trace = window.arch().trace().len();
    let generations = (window.generation(0), window.generation(1));
    (trace, generations.0, generations.1, window.over())
}

fn assert_refused(rt: &impl Abort, window: &mut Window, rows: &[(Event, Cause)]) {
    for (event, cause) in rows {
        let before = shown(window);
        let happened = refused_events_leave(window, *event);
        assert!(rt;
            happened == Happened::NotNow(*cause),
            "{event:?}: {happened:?}"
        );
        assert!(rt; shown(window) == before, "{event:?} leaves the window");
    }
}

#[test]
fn each_refused_event_has_its_cause(rt: HostRuntime) -> Result<(), Fail> {
    let mut window = window(rt.alloc(), checked(rt.alloc(), PAIR)?, 9)?;
    window.play(FILLED);
    assert_refused(&rt, &mut window, REFUSED);
    Ok(())
}

/// With no budget left nothing is committed: the first block has all its outputs and is sealed.
const SEALED: &[Event] = &[
    Fetch { block: 0 },
    Fire { frame: 0, slot: 0 },
    Deliver { token: 0 },
    Fire { frame: 0, slot: 1 },
    Exit { frame: 0 },
    Seal { frame: 0 },
];

const SPENT: &[(Event, Cause)] = &[
    (Commit, Spent),
    (Fetch { block: 0 }, Wrong),
    (Seal { frame: 0 }, NoFrame),
];

#[test]
fn a_spent_budget_commits_nothing(rt: HostRuntime) -> Result<(), Fail> {
    let mut window = window(rt.alloc(), checked(rt.alloc(), PAIR)?, 0)?;
    window.play(SEALED);
    assert_refused(&rt, &mut window, SPENT);
    Ok(())
}
