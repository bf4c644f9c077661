//! What hyper programs put out and give under each plan, as a compiler of C has it.

use crate::machine::Stop;
use crate::running::{Cuts, assigned_of, built, run};
use crate::texts;
use reg_assign::Assigned;
use std::alloc::Global;
use std::process::Abort;

/// A text with what it puts out for `INPUT`, and what it gives.
#[derive(Clone, Copy)]
struct Row {
    name: &'static str,
    text: &'static str,
    output: &'static [u8],
    stop: Stop,
}

const INPUT: &[u8] = b"Hello WORLD ~{ ok! no";

const ROWS: &[Row] = &[
    Row {
        name: "loops with break and continue",
        text: texts::LOOPS,
        output: b"0007415",
        stop: Stop::Ended(35),
    },
    Row {
        name: "two groups of saved variables",
        text: texts::SAVED,
        output: b"",
        stop: Stop::Ended(208),
    },
    Row {
        name: "eight arguments",
        text: texts::EIGHT,
        output: b"",
        stop: Stop::Ended(118),
    },
    Row {
        name: "an array that is passed",
        text: texts::BACKWARD,
        output: b"o {~ DLROW olleH",
        stop: Stop::Ended(16),
    },
    Row {
        name: "a global array",
        text: texts::FILTER,
        output: b"",
        stop: Stop::Ended(1790),
    },
    Row {
        name: "recursion",
        text: texts::CALLS,
        output: b"y",
        stop: Stop::Ended(144),
    },
    Row {
        name: "legs",
        text: texts::LONG_LEG,
        output: b"ELLO..OK",
        stop: Stop::Ended(606),
    },
    Row {
        name: "code that nothing reaches",
        text: texts::UNREACHED,
        output: b"1",
        stop: Stop::Ended(12),
    },
    Row {
        name: "a full stack",
        text: texts::DEEP,
        output: b"",
        stop: Stop::Full,
    },
];

/// Texts with one if in a loop, and how many blocks it and the loop's test have of their own where nothing is cut
/// and no if is joined, which they have not where the if is an item and the test goes on in the loop's head.
const JOINED_ROWS: &[(Row, usize)] = &[
    (
        Row {
            name: "a small if, which is an item anyway",
            text: texts::ONE_LEG,
            output: b"",
            stop: Stop::Ended(126),
        },
        2,
    ),
    (
        Row {
            name: "an if with one leg",
            text: texts::ONE_LONG_LEG,
            output: b"",
            stop: Stop::Ended(249),
        },
        4,
    ),
    (
        Row {
            name: "an if with two legs",
            text: texts::TWO_LEGS,
            output: b"",
            stop: Stop::Ended(1011),
        },
        5,
    ),
    (
        Row {
            name: "an if in an if, with a store",
            text: texts::NESTED,
            output: b"",
            stop: Stop::Ended(821),
        },
        7,
    ),
    (
        Row {
            name: "an if with a call is no item",
            text: texts::CALLING_LEG,
            output: b"",
            stop: Stop::Ended(3),
        },
        2,
    ),
];

/// What a row's program puts out and gives under a plan, and how many blocks it has.
fn assert_run(rt: &impl Abort, alloc: Global, row: &Row, assigned: &Assigned, cuts: Cuts) -> usize {
    let name = row.name;
    let program = built(rt, alloc, assigned, cuts);
    let ran = run(rt, alloc, &program, assigned.flat.bytes.as_slice(), INPUT);
    assert_eq!(rt; ran.stop, row.stop, "{name}, {cuts:?}");
    assert_eq!(rt; ran.output.as_slice(), row.output, "{name}, {cuts:?}");
    program.blocks.len()
}

fn assert_row(rt: &impl Abort, alloc: Global, row: &Row) {
    let name = row.name;
    let assigned = assigned_of(rt, alloc, name, row.text);
    let most = assert_run(rt, alloc, row, &assigned, Cuts::Everywhere);
    let some = assert_run(rt, alloc, row, &assigned, Cuts::EachThird);
    let few = assert_run(rt, alloc, row, &assigned, Cuts::Nowhere);
    assert!(rt;
        few < some && some < most,
        "{name}: {few}, {some}, {most} blocks"
    );
    let cut = assert_run(rt, alloc, row, &assigned, Cuts::EverywhereJoined);
    let third = assert_run(rt, alloc, row, &assigned, Cuts::EachThirdJoined);
    let joined = assert_run(rt, alloc, row, &assigned, Cuts::NowhereJoined);
    assert!(rt;
        joined <= few && third <= some && cut <= most,
        "{name}: {joined}, {third}, {cut} blocks where ifs are joined"
    );
}

fn assert_joined(rt: &impl Abort, alloc: Global, row: &Row, fewer: usize) {
    let name = row.name;
    let assigned = assigned_of(rt, alloc, name, row.text);
    let apart = assert_run(rt, alloc, row, &assigned, Cuts::Nowhere);
    let joined = assert_run(rt, alloc, row, &assigned, Cuts::NowhereJoined);
    assert_eq!(rt;
        apart.checked_sub(joined),
        Some(fewer),
        "{name}: blocks of its own"
    );
}

fn assert_joined_rows(rt: &impl Abort, alloc: Global, rows: &[(Row, usize)]) {
    for (row, fewer) in rows {
        assert_row(rt, alloc, row);
        assert_joined(rt, alloc, row, *fewer);
    }
}

fn assert_rows(rt: &impl Abort, alloc: Global, rows: &[Row]) {
    for row in rows {
        assert_row(rt, alloc, row);
    }
}

/// And a plan that cuts less has fewer blocks, and one that joins ifs no more.
#[test]
fn hyper_programs_do_what_texts_mean_under_each_plan(rt: HostRuntime) {
    assert_rows(&rt, rt.alloc(), ROWS);
}

#[test]
fn ifs_that_are_items_and_tests_that_go_on_have_no_blocks_of_their_own(rt: HostRuntime) {
    assert_joined_rows(&rt, rt.alloc(), JOINED_ROWS);
}
