//! How programs are run: one alone, or four on one grid.
ghost use Rattle.std.specs.Prelude.{◌≡◌, [], IfOk};

use block_check::CheckedImage;
use block_predict::Predictor;
use c_compile::compile;
use commit_flush::Window;
use grid_cycle::{Conditions, run_image};
use grid_machine::cost;
use grid_place::Placing;
use operand_net::PcgWeather;
use smt_mode::{Four, Started};
use std::alloc::{AllocError, Global};
use std::process::Abort;
use std::test::Fail;
use trips_isa::Ending;

/// How many blocks a run may commit.
pub const BUDGET: u32 = 300;

// The image of a text.
fn image(rt: &impl Abort, alloc: Global, text: &str) -> Result<CheckedImage, Fail> {
    let bytes = text.as_bytes();
    assert!(rt; bytes.len() < 4_294_967_295, "a short text");
    match compile(alloc, bytes, Placing::Greedy) {
        Ok(image) => Ok(image),
        Err(_) => Err(Fail::from(AllocError)),
    }
}

// A text at the start of its run.
fn started(rt: &impl Abort, alloc: Global, text: &str, seed: u64) -> Result<Started, Fail>
    ensures { IfOk result (λ s. s.predictor.stack ≡ []) }
{
    let image = image(rt, alloc, text)?;
    match Predictor::make(alloc, seed) {
        Ok(predictor) => Ok(Started {
            image,
            input: Vec::new(alloc),
            predictor,
        }),
        Err(memory) => Err(Fail::from(memory)),
    }
}

/// Four texts at the start of their runs on one grid.
pub fn four_of(
    rt: &impl Abort,
    alloc: Global,
    texts: &[&str; 4],
    seed: u64,
) -> Result<Four<PcgWeather>, Fail> {
    let first = started(rt, alloc, texts[0], seed)?;
    let second = started(rt, alloc, texts[1], seed)?;
    let third = started(rt, alloc, texts[2], seed)?;
    let fourth = started(rt, alloc, texts[3], seed)?;
    let programs = [first, second, third, fourth];
    match Four::make(alloc, programs, PcgWeather::make(seed), BUDGET) {
        Ok(four) => Ok(four),
        Err(memory) => Err(Fail::from(memory)),
    }
}

// What the window of a program has come to is what the program comes to alone.
fn assert_same(
    rt: &impl Abort,
    text: &str,
    ended: Ending,
    window: &Window,
    alone: &Window,
    ending: Ending,
) {
    let one = window.arch();
    let other = alone.arch();
    assert!(rt; ended == ending, "{text}: {ended:?}, alone {ending:?}");
    assert_eq!(rt; one.register(3), other.register(3), "{text}: register 3");
    assert_eq!(rt; one.output(), other.output(), "{text}: output");
    assert_eq!(rt; one.memory(), other.memory(), "{text}: memory");
    assert_eq!(rt; one.trace().len(), other.trace().len(), "{text}: blocks");
}

// What a program may have cost, with the greatest cost of a block for the one at which it has trapped.
fn cost_of(rt: &impl Abort, window: &Window, ended: Ending) -> u64 {
    let trace = window.arch().trace();
    assert!(rt; trace.len() < 4_294_967_296, "a short trace");
    let trapped = match ended {
        Ending::Trap { block: _, cause: _ } => 41_472,
        _ => 0,
    };
    cost(window.image(), trace).saturating_add(trapped)
}

/// A program of four has come to what it comes to alone; what it may have cost.
pub fn assert_as_alone(
    rt: &impl Abort,
    alloc: Global,
    text: &str,
    seed: u64,
    ended: Ending,
    window: &Window,
) -> Result<u64, Fail> {
    let image = image(rt, alloc, text)?;
    let conditions = Conditions::seeded(seed);
    match run_image(alloc, image, Vec::new(alloc), conditions, BUDGET) {
        Ok(ran) => {
            assert_same(rt, text, ended, window, ran.grid.window(), ran.ending);
            Ok(cost_of(rt, window, ended))
        }
        Err(memory) => Err(Fail::from(memory)),
    }
}
