//! Reports of a whole run, and of a refusal of each stage.

use base::Items;
use block_atomic::Arch;
use block_check::{CheckFault, CheckedImage};
use block_image::{ImageFault, decode};
use std::alloc::{AllocError, Global};
use std::process::Abort;
use std::test::Fail;
use target_asm_spec::AsmFault;
use trips_isa::{Counts, Ending, Spot, TrapCause};
use trips_report::{Measured, Said, Show, Statistics, refusal_report, run_report};
use trips_requests::Cycles;

// What was counted of a run.
#[derive(Clone, Copy)]
struct Taken {
    counts: Counts,
    statistics: Statistics,
}

const MEASURED: Taken = Taken {
    counts: Counts {
        cycles: 40,
        fetched: 3,
        committed: 1,
        flushed: 2,
    },
    statistics: Statistics {
        movs: 11,
        nulls: 12,
        useful: 13,
        loads: 14,
        stores: 15,
        violations: 0,
        wrong_exits: 1,
        ends: 18_446_744_073_709_551_615,
        predictions: 16,
        right: 10,
        parcels: 17,
        links: 18,
        waits: 19,
        in_flight: [1, 2, 3, 4, 5, 6, 7, 8, 4],
        stations: [
            31, 32, 33, 34, 35, 36, 37, 38, 39, 40, 41, 42, 43, 44, 45, 46,
        ],
    },
};

// The lines of its events.
const EVENTS: &[u8] = b"cycle 9 seal frame 0\nmore\n";

// The words of the image of one block that returns 7 (docs/MACHINE.md, "The image"), but for those
// that are 0.
const SEVEN: &[(usize, u32)] = &[
    (1, 0x00000003),
    (21, 0x80000000),
    (23, 0x80000000),
    (32, 0x60000620),
    (33, 0x60000e21),
    (34, 0x48000000),
];

// Its bytes.
fn seven(alloc: Global) -> Result<Vec<u8>, AllocError> {
    let mut all = [0u32; 64];
    for (at, word) in SEVEN {
        if let Some(place) = all.get_mut(*at) {
            *place = *word;
        }
    }
    let mut bytes = Vec::from_slice(alloc, b"TRIPSIMG")?;
    for number in [1u32, 1, 0] {
        bytes.extend_from_slice(&number.to_be_bytes())?;
    }
    for word in &all {
        bytes.extend_from_slice(&word.to_be_bytes())?;
    }
    Ok(bytes)
}

// The report of its run of one block, after an ending.
fn report_of_seven(alloc: Global, ending: Ending, show: Show) -> Result<Vec<u8>, AllocError> {
    let Ok(image) = decode(alloc, &seven(alloc)?) else {
        return Err(AllocError);
    };
    let Ok(checked) = CheckedImage::make(alloc, image) else {
        return Err(AllocError);
    };
    let Ok(mut arch) = Arch::make(alloc, &checked, Vec::new(alloc), 2) else {
        return Err(AllocError);
    };
    let _ = arch.step(&checked);
    let measured = Measured {
        counts: MEASURED.counts,
        statistics: MEASURED.statistics,
        events: Items::from_slice(alloc, EVENTS)?,
    };
    let Ok(report) = run_report(alloc, ending, &arch, measured, 1_024, show) else {
        return Err(AllocError);
    };
    Ok(report)
}

/// How a run ended, what is shown, and the report.
type Run = (Ending, Show, &'static str);

const NOTHING: Show = Show {
    regs: false,
    trace: false,
    cycles: false,
    stats: false,
    events: None,
};

// The report of a run with its trace and its statistics.
const COUNTED: &str = "output 0

result 7
block 0 exit 0
movs 11
nulls 12
useful 13
loads 14
stores 15
flushed_by_violation 0
flushed_by_exit 1
flushed_at_end 18446744073709551615
predicted 16
predicted_right 10
parcels 17
links 18
waits 19
in_flight_0 1
in_flight_1 2
in_flight_2 3
in_flight_3 4
in_flight_4 5
in_flight_5 6
in_flight_6 7
in_flight_7 8
in_flight_8 4
station_0_0 31
station_0_1 32
station_0_2 33
station_0_3 34
station_1_0 35
station_1_1 36
station_1_2 37
station_1_3 38
station_2_0 39
station_2_1 40
station_2_2 41
station_2_3 42
station_3_0 43
station_3_1 44
station_3_2 45
station_3_3 46
block 0 committed 1
";

const RUNS: &[Run] = &[
    (Ending::Ended, NOTHING, "output 0\n\nresult 7\n"),
    (
        Ending::Ended,
        Show {
            regs: false,
            trace: true,
            cycles: false,
            stats: false,
            events: None,
        },
        "output 0\n\nresult 7\nblock 0 exit 0\n",
    ),
    (
        Ending::StackFull,
        Show {
            regs: false,
            trace: false,
            cycles: true,
            stats: false,
            events: None,
        },
        "output 0\n\nstack full\nblocks 1\ncycles 40\nfetched 3\nflushed 2\ncost 1024\n",
    ),
    (
        Ending::Budget,
        Show {
            regs: false,
            trace: true,
            cycles: true,
            stats: false,
            events: None,
        },
        "output 0\n\nbudget 1\nblock 0 exit 0\nblocks 1\ncycles 40\nfetched 3\nflushed 2\ncost 1024\n",
    ),
    (
        Ending::Ended,
        Show {
            regs: false,
            trace: true,
            cycles: false,
            stats: true,
            events: None,
        },
        COUNTED,
    ),
    (
        Ending::Ended,
        Show {
            regs: false,
            trace: true,
            cycles: false,
            stats: false,
            events: Some(Cycles { first: 9, last: 12 }),
        },
        "output 0\n\nresult 7\nblock 0 exit 0\ncycle 9 seal frame 0\nmore\n",
    ),
    (
        Ending::Trap {
            block: 3,
            cause: TrapCause::DivisionByZero,
        },
        NOTHING,
        "output 0\n\ntrap block 3 cause 1\n",
    ),
];

fn assert_run(
    rt: &impl Abort,
    alloc: Global,
    ending: Ending,
    show: Show,
    report: &str,
) -> Result<(), AllocError> {
    let written = report_of_seven(alloc, ending, show)?;
    assert_eq!(rt;
        written.as_slice(),
        report.as_bytes(),
        "{ending:?} {show:?}"
    );
    Ok(())
}

fn assert_runs(rt: &impl Abort, alloc: Global, rows: &[Run]) -> Result<(), AllocError> {
    for (ending, show, report) in rows {
        assert_run(rt, alloc, *ending, *show, *report)?;
    }
    Ok(())
}

#[test]
fn shows_what_is_asked_for(rt: HostRuntime) -> Result<(), Fail> {
    assert_runs(&rt, rt.alloc(), RUNS)?;
    Ok(())
}

// The report in which registers 0 and 3 alone have a digit other than 0.
fn with_registers(alloc: Global) -> Result<Vec<u8>, AllocError> {
    let mut report = Vec::from_slice(alloc, b"output 0\n\nresult 7\n")?;
    for r in 0..128u8 {
        let word = if r == 0 {
            3
        } else if r == 3 {
            7
        } else {
            0
        };
        let line = format!(in alloc; "G[{r}] 000000000000000{word}\n")?;
        report.extend_from_slice(line.as_bytes())?;
    }
    report.extend_from_slice(b"block 0 exit 0\n")?;
    Ok(report)
}

#[test]
fn shows_each_register(rt: HostRuntime) -> Result<(), Fail> {
    let alloc = rt.alloc();
    let show = Show {
        regs: true,
        trace: true,
        cycles: false,
        stats: false,
        events: None,
    };
    let wanted = with_registers(alloc)?;
    let written = report_of_seven(alloc, Ending::Ended, show)?;
    assert_eq!(rt; written.as_slice(), wanted.as_slice(), "registers");
    Ok(())
}

fn assert_refusal(rt: &impl Abort, alloc: Global, said: Said, report: &str) {
    let written = refusal_report(alloc, said).expect(rt, "memory");
    assert_eq!(rt; written.as_slice(), report.as_bytes(), "{report}");
}

#[test]
fn tells_refusals_of_target_texts(rt: HostRuntime) {
    let alloc = rt.alloc();
    let asm = Said::Asm(AsmFault::Label(4));
    assert_refusal(&rt, alloc, asm, "refused asm 3 Label line 4\n");
}

#[test]
fn tells_refusals_of_images(rt: HostRuntime) {
    let alloc = rt.alloc();
    let magic = Said::Image(ImageFault::Magic);
    assert_refusal(&rt, alloc, magic, "refused image 1 Magic\n");
    let trailing = Said::Image(ImageFault::Trailing(276));
    assert_refusal(&rt, alloc, trailing, "refused image 4 Trailing at 276\n");
    let token = Said::Check(0, CheckFault::NoToken(Spot::Store(0)));
    assert_refusal(&rt, alloc, token, "refused check 6 NoToken S[0] block 0\n");
    let exits = Said::Check(5, CheckFault::TwoExits);
    assert_refusal(&rt, alloc, exits, "refused check 8 TwoExits block 5\n");
}

#[test]
fn want_of_memory_is_no_refusal(rt: HostRuntime) {
    let alloc = rt.alloc();
    assert!(rt; refusal_report(alloc, Said::Image(ImageFault::Memory)).is_err());
    assert!(rt; refusal_report(alloc, Said::Asm(AsmFault::Memory)).is_err());
}
