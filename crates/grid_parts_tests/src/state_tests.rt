//! A state of the grid under single calls.

use block_predict::Predictor;
use grid_parts::{State, lowest_on};
use operand_net::Calm;
use std::alloc::Global;
use std::process::Abort;

/// A state with the predictor of seed 1, in calm weather.
fn started(rt: &impl Abort, alloc: Global) -> State<Calm> {
    let predictor = Predictor::make(alloc, 1).expect(rt, "memory");
    State::make(alloc, predictor, Calm).expect(rt, "memory")
}

#[test]
fn units_give_the_eldest_result(rt: HostRuntime) {
    let mut state = started(&rt, rt.alloc());
    state.take_up(3, 5, 19, 2);
    state.take_up(3, 2, 115, 1);
    state.take_up(3, 2, 35, 24);
    assert!(&rt; state.busy(3) == 24, "a division");
    state.pass(3);
    assert!(&rt; state.busy(3) == 23, "one cycle less");
    assert!(&rt;
        state.result_of(3, &[2, 5]) == Some((2, 35)),
        "the lowest slot of the eldest frame"
    );
    assert!(&rt; state.result_of(4, &[2, 5]).is_none(), "another tile");
    state.rest(2, 35);
    assert!(&rt;
        state.result_of(3, &[2, 5]) == Some((2, 115)),
        "the next slot"
    );
    state.forget(2);
    assert!(&rt;
        state.result_of(3, &[2, 5]) == Some((5, 19)),
        "a forgotten frame has no result"
    );
    assert!(&rt; state.busy(3) == 23, "its unit stays busy");
}

#[test]
fn requests_stand_and_wait(rt: HostRuntime) {
    let mut state = started(&rt, rt.alloc());
    state.ask(1, 31);
    assert!(&rt;
        state.is_asked(1, 31) && !state.is_asked(1, 30),
        "one number"
    );
    state.unask(1, 31);
    assert!(&rt; !state.is_asked(1, 31), "it stands no longer");
    assert!(&rt; !state.must_wait(1, 33, 7), "no load waits");
    state.wait_from_now(33, 7);
    assert!(&rt; state.must_wait(1, 33, 7), "it waits from now on");
    assert!(&rt; state.must_wait(1, 1, 7), "so does one with the same bit");
    assert!(&rt; state.stands(33) && !state.stands(1), "its block stands");
    state.settle(Some(1));
    assert!(&rt;
        !state.stands(33),
        "another block is known to be the next one"
    );
}

#[test]
fn a_fetch_takes_eight_cycles(rt: HostRuntime) {
    let mut state = started(&rt, rt.alloc());
    state.begin(6, true);
    for n in 0..7u8 {
        assert!(&rt; state.fetch_on().is_none(), "cycle {n}");
    }
    assert!(&rt; state.fetch_on() == Some(6), "the block is there");
    state.settle(Some(5));
    assert!(&rt; state.is_idle(), "given up");
}

#[test]
fn parcels_arrive(rt: HostRuntime) {
    let mut state = started(&rt, rt.alloc());
    state.enter(4, 9, 300, 7, 8);
    assert!(&rt; state.arrived(&[4]).is_none(), "on its way");
    state.tick(&[4]);
    match state.arrived(&[4]) {
        Some(parcel) => assert!(&rt; parcel.place == 300 && parcel.generation == 9, "its place"),
        None => panic!(&rt; "no parcel has come"),
    }
    assert!(&rt; state.arrived(&[4]).is_none(), "taken once");
}

#[test]
fn the_lowest_slot_of_a_tile(rt: HostRuntime) {
    for (marks, tile, slot) in [
        (0, 0, None),
        (1 << 127, 15, Some(127)),
        ((1 << 127) | (1 << 31) | (1 << 32), 15, Some(31)),
        (1 << 127, 14, None),
    ] {
        assert!(&rt; lowest_on(marks, tile) == slot, "tile {tile}");
    }
}
