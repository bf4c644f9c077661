//! Mixes of four programs: each comes to what it comes to alone, and all are over within what the four may
//! cost.
use crate::running::{assert_as_alone, four_of};
use crate::texts::{DEEP, ENDLESS, FIBONACCI, POWERS, SEVEN, SORT, SUM, TRAP};
use std::alloc::Global;
use std::process::Abort;
use std::test::Fail;
use trips_isa::Ending;

// How a program ends.
#[derive(Clone, Copy, PartialEq, Eq)]
enum End {
    Result,
    Budget,
    Full,
    Trap,
}

// A text, and how it ends.
type Program = (&'static str, End);

// The four programs.
type Mix = [Program; 4];

const ONE: Program = (SEVEN, End::Result);

const ARRAY: Program = (POWERS, End::Result);

const SCALARS: Program = (SUM, End::Result);

const LOADS: Program = (SORT, End::Result);

const CALLS: Program = (FIBONACCI, End::Result);

const DIVIDED: Program = (TRAP, End::Trap);

const FULL: Program = (DEEP, End::Full);

const SPENT: Program = (ENDLESS, End::Budget);

fn end_of(ending: Ending) -> End {
    match ending {
        Ending::Ended => End::Result,
        Ending::Budget => End::Budget,
        Ending::StackFull => End::Full,
        Ending::Trap { block: _, cause: _ } => End::Trap,
    }
}

fn assert_mix(rt: &impl Abort, alloc: Global, mix: &Mix, seed: u64) -> Result<(), Fail> {
    let mut four = four_of(rt, alloc, &[mix[0].0, mix[1].0, mix[2].0, mix[3].0], seed)?;
    let endings = four.run();
    let mut costs: u64 = 0;
    for p in 0..4u8 {
        let at = p as usize;
        let text = mix[at].0;
        let ended = endings[at];
        assert!(rt; end_of(ended) == mix[at].1, "{text}: {ended:?}");
        let cost = assert_as_alone(rt, alloc, text, seed, ended, four.window(p))?;
        costs = costs.saturating_add(cost);
    }
    assert!(rt; four.cycles() <= costs, "within what the four may cost");
    let cycles = four.cycles();
    assert!(rt; four.cycle(), "all are over");
    assert_eq!(rt; four.cycles(), cycles, "nothing changes once all are over");
    Ok(())
}

// A mix under either seed.
fn assert_seeds(rt: &impl Abort, alloc: Global, mix: &Mix) -> Result<(), Fail> {
    for seed in 0..2u64 {
        assert_mix(rt, alloc, mix, seed)?;
    }
    Ok(())
}

#[test]
fn four_of_one_block(rt: HostRuntime) -> Result<(), Fail> {
    assert_seeds(&rt, rt.alloc(), &[ONE, ONE, ONE, ONE])
}

#[test]
fn four_of_loads_behind_stores(rt: HostRuntime) -> Result<(), Fail> {
    assert_seeds(&rt, rt.alloc(), &[LOADS, LOADS, LOADS, LOADS])
}

#[test]
fn four_that_differ(rt: HostRuntime) -> Result<(), Fail> {
    assert_seeds(&rt, rt.alloc(), &[ARRAY, SCALARS, LOADS, CALLS])
}

#[test]
fn four_that_differ_the_other_way_round(rt: HostRuntime) -> Result<(), Fail> {
    assert_seeds(&rt, rt.alloc(), &[CALLS, LOADS, SCALARS, ARRAY])
}

#[test]
fn two_that_are_alike_first(rt: HostRuntime) -> Result<(), Fail> {
    assert_seeds(&rt, rt.alloc(), &[SCALARS, SCALARS, ARRAY, LOADS])
}

#[test]
fn two_that_are_alike_between(rt: HostRuntime) -> Result<(), Fail> {
    assert_seeds(&rt, rt.alloc(), &[LOADS, CALLS, CALLS, SCALARS])
}

#[test]
fn one_ends_at_once_before_three_long_ones(rt: HostRuntime) -> Result<(), Fail> {
    assert_seeds(&rt, rt.alloc(), &[ONE, LOADS, SCALARS, CALLS])
}

#[test]
fn one_ends_at_once_among_three_long_ones(rt: HostRuntime) -> Result<(), Fail> {
    assert_seeds(&rt, rt.alloc(), &[LOADS, ONE, CALLS, SCALARS])
}

#[test]
fn one_traps(rt: HostRuntime) -> Result<(), Fail> {
    assert_seeds(&rt, rt.alloc(), &[DIVIDED, LOADS, SCALARS, ARRAY])
}

#[test]
fn an_end_of_each_kind(rt: HostRuntime) -> Result<(), Fail> {
    assert_seeds(&rt, rt.alloc(), &[SCALARS, DIVIDED, FULL, SPENT])
}

#[test]
fn an_end_of_each_kind_the_other_way_round(rt: HostRuntime) -> Result<(), Fail> {
    assert_seeds(&rt, rt.alloc(), &[SPENT, FULL, DIVIDED, ONE])
}
