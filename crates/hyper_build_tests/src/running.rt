//! Texts of C as hyper programs, and their runs.

use crate::machine::{Machine, Stop, step};
use crate::making::{Answers, plan};
use base::Memory;
use c_front::front;
use c_tree::MOST_SOURCE_BYTES;
use flat_lower::lower;
use hyper_build::{CutPlan, build, cut_all};
use ir_forms::{HyperBlock, HyperProgram};
use reg_assign::{Assigned, assign};
use std::alloc::Global;
use std::process::Abort;

/// More places than any text here has.
const PLACES: u32 = 2_000;

/// More blocks than any run here makes.
const MOST_BLOCKS: u64 = 1_000_000;

/// No answers.
const LACKING: Answers = Answers {
    places: 0,
    of_three: 0,
};

const NO: Answers = Answers {
    places: PLACES,
    of_three: 0,
};

const EACH_THIRD: Answers = Answers {
    places: PLACES,
    of_three: 1,
};

const YES: Answers = Answers {
    places: PLACES,
    of_three: 3,
};

/// Where a plan cuts: everywhere, nowhere, or at each third place. A plan that is joined makes items of
/// all ifs that may be.
#[derive(Clone, Copy, Debug, PartialEq, Eq)]
pub enum Cuts {
    Everywhere,
    EverywhereJoined,
    Nowhere,
    NowhereJoined,
    EachThird,
    EachThirdJoined,
}

/// A run that has stopped.
#[derive(Drop)]
pub struct Ran {
    pub stop: Stop,
    pub output: Vec<u8>,
}

fn plan_of(alloc: Global, assigned: &Assigned, cuts: Cuts) -> Result<CutPlan, Memory> {
    match cuts {
        Cuts::Everywhere => cut_all(alloc, assigned),
        Cuts::EverywhereJoined => plan(alloc, LACKING, YES),
        Cuts::Nowhere => plan(alloc, NO, NO),
        Cuts::NowhereJoined => plan(alloc, NO, YES),
        Cuts::EachThird => plan(alloc, EACH_THIRD, NO),
        Cuts::EachThirdJoined => plan(alloc, EACH_THIRD, YES),
    }
}

/// A text's flat program, with what its calls save.
pub fn assigned_of(rt: &impl Abort, alloc: Global, name: &str, text: &str) -> Assigned {
    let bytes = text.as_bytes();
    assert!(rt;
        bytes.len() as u64 <= MOST_SOURCE_BYTES,
        "{name}: the text is short"
    );
    let typed = front(alloc, bytes).expect(rt, name);
    let flat = lower(alloc, &typed).expect(rt, name);
    assign(alloc, flat).expect(rt, name)
}

/// The hyper program under a plan.
pub fn built(rt: &impl Abort, alloc: Global, assigned: &Assigned, cuts: Cuts) -> HyperProgram {
    let plan = plan_of(alloc, assigned, cuts).expect(rt, "memory");
    build(alloc, assigned, &plan).expect(rt, "memory")
}

fn go(blocks: &[HyperBlock], machine: &mut Machine) -> Stop {
    let mut label = 0;
    for _block in 0..MOST_BLOCKS {
        let Some(block) = blocks.get(label as usize) else {
            return Stop::Fault;
        };
        match step(block, machine) {
            Err(stop) => return stop,
            Ok(next) => label = next,
        }
    }
    Stop::More
}

/// A run of a program whose data memory begins with these bytes.
pub fn run(
    rt: &impl Abort,
    alloc: Global,
    program: &HyperProgram,
    bytes: &[u8],
    input: &[u8],
) -> Ran {
    let mut machine = Machine::start(alloc, bytes, input).expect(rt, "memory");
    let stop = go(program.blocks.as_slice(), &mut machine);
    let Machine { output, .. } = machine;
    Ran { stop, output }
}
