//! Runs that are saved behind each block and gone on with.

use crate::making::{ECHOES, Program, SHOWN, STORED, gone_on, saved, whole};
use std::alloc::Global;
use std::process::Abort;
use std::test::Fail;
use trips_report::Show;
use trips_requests::Status;

const PLAIN: Show = Show {
    regs: false,
    trace: false,
    cycles: false,
    stats: false,
    events: None,
};

const TRACED: Show = Show {
    regs: false,
    trace: true,
    cycles: false,
    stats: false,
    events: None,
};

/// Programs, and how many blocks their runs have.
const RUNS: &[(Program, u32)] = &[((STORED, b""), 2), ((ECHOES, b""), 3), ((ECHOES, b"a"), 7)];

// The run is saved behind each block before its last, and gone on with to the same report.
fn assert_parts(rt: &impl Abort, alloc: Global, program: Program, blocks: u32) -> Result<(), Fail> {
    let want = whole(rt, alloc, program, 0, 100, SHOWN)?;
    for at in 1..blocks {
        for seed in 0..2u64 {
            let file = saved(rt, alloc, program, seed, at)?;
            assert!(rt; file.status == Status::Ended, "saved behind {at}");
            let end = gone_on(rt, alloc, &file.report, 1 - seed, 100, SHOWN)?;
            assert!(rt; end.status == want.status, "behind {at}: {:?}", end.status);
            assert!(rt; end.report == want.report, "behind {at}: another report");
        }
    }
    let over = saved(rt, alloc, program, 0, blocks)?;
    assert!(rt; over.status == Status::Refused, "over: {:?}", over.status);
    assert!(rt;
        over.report.as_slice() == b"refused save 1 Over\n".as_slice(),
        "over"
    );
    Ok(())
}

#[test]
fn two_parts_are_the_whole(rt: HostRuntime) -> Result<(), Fail> {
    for (program, blocks) in RUNS {
        assert_parts(&rt, rt.alloc(), *program, *blocks)?;
    }
    Ok(())
}

// Bytes 12 to 15 of a save file.
fn next_of(bytes: &[u8]) -> Option<&[u8]> {
    bytes.get(12..16)
}

#[test]
fn the_file_has_its_size_and_the_next_block(rt: HostRuntime) -> Result<(), Fail> {
    let alloc = rt.alloc();
    let file = saved(&rt, alloc, (STORED, b""), 0, 1)?;
    assert!(rt; file.report.len() == 1592, "{} bytes", file.report.len());
    assert!(rt;
        next_of(&file.report) == Some(&[0, 0, 0, 1]),
        "the next block"
    );
    let end = gone_on(&rt, alloc, &file.report, 1, 10, PLAIN)?;
    assert!(rt;
        end.report.as_slice() == b"output 0\n\nresult 171\n".as_slice(),
        "the report"
    );
    Ok(())
}

#[test]
fn trace_and_budget_are_those_of_the_second_part(rt: HostRuntime) -> Result<(), Fail> {
    let alloc = rt.alloc();
    let file = saved(&rt, alloc, (ECHOES, b"a"), 1, 4)?;
    let end = gone_on(&rt, alloc, &file.report, 0, 100, TRACED)?;
    assert!(rt;
        end.report.as_slice()
            == b"output 1\nb\nresult 9\nblock 0 exit 0\nblock 1 exit 0\nblock 4 exit 0\n".as_slice(),
        "the trace"
    );
    let stopped = gone_on(&rt, alloc, &file.report, 0, 2, PLAIN)?;
    assert!(rt; stopped.status == Status::Budget, "{:?}", stopped.status);
    assert!(rt;
        stopped.report.as_slice() == b"output 1\nb\nbudget 2\n".as_slice(),
        "the budget"
    );
    Ok(())
}
