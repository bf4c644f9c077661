//! Where the blocks of a program with every statement lead, under plans that cut everywhere and nowhere,
//! and that join all ifs or none.

use crate::making::{Answers, Looping, loop_alone, plan, program};
use base::Memory;
use hyper_build::{build, function_entries};
use ir_forms::{Exit, HyperProgram, Tail};
use reg_assign::Assigned;
use std::alloc::Global;
use std::process::Abort;

/// A block's label, its exit, and, where it tests a word, its exit for 0.
type Row = (usize, Exit, Option<Exit>);

const CUT_EVERYWHERE: &[Row] = &[
    (0, Exit::Call { to: 33, back: 1 }, None),
    (1, Exit::System(2), None),
    (2, Exit::System(3), None),
    // the test of the stack, the parameters, the way to the body
    (3, Exit::Jump(2), Some(Exit::Jump(4))),
    (4, Exit::Jump(5), None),
    (5, Exit::Jump(6), None),
    (6, Exit::Jump(7), None),
    (7, Exit::Jump(8), None),
    (8, Exit::Jump(9), None),
    // the loop: its test, its body, its post
    (9, Exit::Jump(14), Some(Exit::Jump(10))),
    (10, Exit::Jump(11), None),
    (11, Exit::Jump(12), None),
    (12, Exit::Jump(13), None),
    (13, Exit::Jump(9), None),
    // single statements
    (14, Exit::Jump(15), None),
    (15, Exit::Jump(16), None),
    (16, Exit::Jump(17), None),
    (17, Exit::Jump(18), None),
    // the saves, the call, the restores, the result
    (18, Exit::Jump(19), None),
    (19, Exit::Jump(20), None),
    (20, Exit::Call { to: 3, back: 21 }, None),
    (21, Exit::Jump(22), None),
    (22, Exit::Jump(23), None),
    (23, Exit::Jump(24), None),
    // a byte out, and one in
    (24, Exit::System(25), None),
    (25, Exit::System(26), None),
    (26, Exit::Jump(27), None),
    // the if, and the return
    (27, Exit::Jump(28), Some(Exit::Jump(30))),
    (28, Exit::Jump(29), None),
    (29, Exit::Jump(32), None),
    (30, Exit::Jump(31), None),
    (31, Exit::Jump(32), None),
    (32, Exit::Return, None),
    // the other function
    (33, Exit::Jump(2), Some(Exit::Jump(34))),
    (50, Exit::Call { to: 3, back: 51 }, None),
    (62, Exit::Return, None),
];

const CUT_NOWHERE: &[Row] = &[
    (0, Exit::Call { to: 15, back: 1 }, None),
    (1, Exit::System(2), None),
    (2, Exit::System(3), None),
    (3, Exit::Jump(2), Some(Exit::Jump(4))),
    (4, Exit::Jump(5), None),
    // the loop: its test, its body with its post, and its post alone
    (5, Exit::Jump(8), Some(Exit::Jump(6))),
    (6, Exit::Jump(5), None),
    (7, Exit::Jump(5), None),
    // single statements, the saves and the call; the restores with a byte out, and one in
    (8, Exit::Call { to: 3, back: 9 }, None),
    (9, Exit::System(10), None),
    (10, Exit::System(11), None),
    // the if, and the return
    (11, Exit::Jump(12), Some(Exit::Jump(13))),
    (12, Exit::Jump(14), None),
    (13, Exit::Jump(14), None),
    (14, Exit::Return, None),
    // the other function
    (15, Exit::Jump(2), Some(Exit::Jump(16))),
    (20, Exit::Call { to: 3, back: 21 }, None),
    (26, Exit::Return, None),
];

// The if behind the byte that is taken in is an item; the one in the loop breaks, and stays a test. That in the
// loop's post is small, and an item under the plans above, too.
const CUT_AND_JOINED: &[Row] = &[
    (0, Exit::Call { to: 29, back: 1 }, None),
    (9, Exit::Jump(14), Some(Exit::Jump(10))),
    (20, Exit::Call { to: 3, back: 21 }, None),
    (25, Exit::System(26), None),
    (26, Exit::Jump(27), None),
    (27, Exit::Jump(28), None),
    (28, Exit::Return, None),
    // the other function
    (29, Exit::Jump(2), Some(Exit::Jump(30))),
    (46, Exit::Call { to: 3, back: 47 }, None),
    (54, Exit::Return, None),
];

const JOINED: &[Row] = &[
    (0, Exit::Call { to: 12, back: 1 }, None),
    (5, Exit::Jump(8), Some(Exit::Jump(6))),
    (8, Exit::Call { to: 3, back: 9 }, None),
    (10, Exit::System(11), None),
    (11, Exit::Return, None),
    // the other function
    (12, Exit::Jump(2), Some(Exit::Jump(13))),
    (17, Exit::Call { to: 3, back: 18 }, None),
    (20, Exit::Return, None),
];

/// How many statements and functions the program has.
const PLACES: u32 = 36;

const LACKING: Answers = Answers {
    places: 0,
    of_three: 0,
};

const NO: Answers = Answers {
    places: PLACES,
    of_three: 0,
};

const YES: Answers = Answers {
    places: PLACES,
    of_three: 3,
};

fn built(
    alloc: Global,
    assigned: &Assigned,
    cuts: Answers,
    joins: Answers,
) -> Result<HyperProgram, Memory> {
    let plan = plan(alloc, cuts, joins)?;
    build(alloc, assigned, &plan)
}

fn exit_of(tail: &Tail) -> Option<Exit> {
    match tail {
        Tail::Leave(exit) => Some(*exit),
        Tail::Test { .. } => None,
    }
}

/// A block's exit, or its two exits, that for 0 behind.
fn exits(tail: &Tail) -> (Option<Exit>, Option<Exit>) {
    match tail {
        Tail::Leave(exit) => (Some(*exit), None),
        Tail::Test { yes, no, .. } => (exit_of(yes.get()), exit_of(no.get())),
    }
}

fn assert_exits(rt: &impl Abort, program: &HyperProgram, rows: &[Row]) {
    for (label, exit, other) in rows {
        match program.blocks.get(*label) {
            None => assert!(rt; false, "block {label} is there"),
            Some(block) => {
                let (one, zero) = exits(&block.tail);
                assert_eq!(rt; one, Some(*exit), "block {label}");
                assert_eq!(rt; zero, *other, "block {label}, where the word is 0");
            }
        }
    }
}

/// Under a plan a program has so many blocks, and they lead where the rows say.
fn assert_built(
    rt: &impl Abort,
    alloc: Global,
    assigned: &Assigned,
    cuts: Answers,
    joins: Answers,
    blocks: usize,
    rows: &[Row],
) {
    let program = built(alloc, assigned, cuts, joins).expect(rt, "memory");
    assert_eq!(rt; program.blocks.len(), blocks, "of {blocks} blocks");
    assert_exits(rt, &program, rows);
}

/// Each function has the test of the stack, the way in, and ten blocks of its body. Where all is cut, the
/// parameters begin three blocks more, the way to the body one, and the body 14. Where its last if is
/// joined, the body has four blocks less where all is cut, and else three.
#[test]
fn every_statement_is_built(rt: HostRuntime) {
    let alloc = rt.alloc();
    let program = program(alloc).expect(&rt, "memory");
    assert_built(&rt, alloc, &program, LACKING, LACKING, 63, CUT_EVERYWHERE);
    assert_built(&rt, alloc, &program, NO, NO, 27, CUT_NOWHERE);
    assert_built(&rt, alloc, &program, LACKING, YES, 55, CUT_AND_JOINED);
    assert_built(&rt, alloc, &program, NO, YES, 21, JOINED);
}

/// Under a plan the functions begin at these blocks.
fn assert_entries(
    rt: &impl Abort,
    alloc: Global,
    assigned: &Assigned,
    cuts: Answers,
    joins: Answers,
    rows: &[u32],
) {
    let plan = plan(alloc, cuts, joins).expect(rt, "memory");
    let entries = function_entries(alloc, assigned, &plan).expect(rt, "memory");
    assert_eq!(rt; entries.as_slice(), rows, "entries");
}

/// The first function begins behind three blocks, and the other where the rows of the blocks have it.
#[test]
fn functions_begin_at_their_entries(rt: HostRuntime) {
    let alloc = rt.alloc();
    let program = program(alloc).expect(&rt, "memory");
    assert_entries(&rt, alloc, &program, LACKING, LACKING, &[3, 33]);
    assert_entries(&rt, alloc, &program, NO, NO, &[3, 15]);
    assert_entries(&rt, alloc, &program, NO, YES, &[3, 12]);
}

// A loop with no last part goes on at its head, and has no block for that part.
const BARE_AND_CUT: &[Row] = &[
    (5, Exit::Jump(6), None),
    (6, Exit::Jump(9), Some(Exit::Jump(7))),
    (7, Exit::Jump(8), None),
    (8, Exit::Jump(6), None),
    (9, Exit::Return, None),
];

// Nor has one whose body's block does that part, where no continue leads there.
const BARE: &[Row] = &[
    (4, Exit::Jump(5), None),
    (5, Exit::Jump(7), Some(Exit::Jump(6))),
    (6, Exit::Jump(5), None),
    (7, Exit::Return, None),
];

const CUT: &[Row] = &[
    (5, Exit::Jump(6), None),
    (6, Exit::Jump(11), Some(Exit::Jump(7))),
    (7, Exit::Jump(8), None),
    (8, Exit::Jump(9), None),
    (9, Exit::Jump(10), None),
    (10, Exit::Jump(6), None),
    (11, Exit::Return, None),
];

const CONTINUED: &[Row] = &[
    (4, Exit::Jump(5), None),
    (5, Exit::Jump(9), Some(Exit::Jump(6))),
    (6, Exit::Jump(8), Some(Exit::Jump(7))),
    (7, Exit::Jump(5), None),
    (8, Exit::Jump(5), None),
    (9, Exit::Return, None),
];

/// Under a plan a loop alone has so many blocks, and they lead where the rows say.
fn assert_looping(
    rt: &impl Abort,
    alloc: Global,
    of: Looping,
    cuts: Answers,
    blocks: usize,
    rows: &[Row],
) {
    let program = loop_alone(alloc, of).expect(rt, "memory");
    assert_built(rt, alloc, &program, cuts, NO, blocks, rows);
}

#[test]
fn loops_have_a_block_for_a_last_part_that_is_led_to(rt: HostRuntime) {
    let alloc = rt.alloc();
    let none = Looping {
        continues: false,
        goes_on: false,
    };
    let lone = Looping {
        continues: false,
        goes_on: true,
    };
    let both = Looping {
        continues: true,
        goes_on: true,
    };
    assert_looping(&rt, alloc, none, LACKING, 10, BARE_AND_CUT);
    assert_looping(&rt, alloc, none, NO, 8, BARE);
    assert_looping(&rt, alloc, lone, LACKING, 12, CUT);
    assert_looping(&rt, alloc, lone, NO, 8, BARE);
    assert_looping(&rt, alloc, both, NO, 10, CONTINUED);
}
