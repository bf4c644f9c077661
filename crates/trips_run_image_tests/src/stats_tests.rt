//! `run` with the statistics of a run: small texts that are counted by hand, and sums of others.

use crate::tool_tests::STORED;
use std::alloc::{AllocError, Global};
use std::process::Abort;
use std::test::Fail;
use trips_run::Status;
use trips_run_harness::answer_of;

/// A block of a `mov`, a `null` and three other operations, which ends the run: each fires once, and nothing is
/// fetched behind a system call.
const FIVE: &str = "trips 1
data 0
block 0 mask 00000000
W[0] write G[0]
W[1] write G[3]
W[2] write G[5]
N[0] genu 3 N[1,0]
N[1] mov W[0]
N[2] null W[2]
N[3] genu 7 W[1]
N[4] scall 0
";

/// A parcel for each of five results. They pass 1 link, 2 (for bank 0), 2 (bank 1), 1 (bank 3) and 3 (control), and no
/// two of them want a link at once.
const FIVE_REPORT: &str = "output 0

result 7
movs 1
nulls 1
useful 3
loads 0
stores 0
flushed_by_violation 0
flushed_by_exit 0
flushed_at_end 0
predicted 0
predicted_right 0
parcels 5
links 9
waits 0
";

/// Each of its five operations keeps the unit of its tile busy for one cycle.
const FIVE_STATIONS: &str = "station_0_0 1
station_0_1 1
station_0_2 1
station_0_3 1
station_1_0 1
station_1_1 0
station_1_2 0
station_1_3 0
station_2_0 0
station_2_1 0
station_2_2 0
station_2_3 0
station_3_0 0
station_3_1 0
station_3_2 0
station_3_3 0
block 0 committed 1
";

/// A block of seven operations, which stores to one place, loads from another and ends the run.
const MEMORY: &str = "trips 1
data 0
block 0 mask 00000001
W[0] write G[0]
W[1] write G[3]
N[0] genu 0 N[2,0]
N[1] genu 171 N[2,1]
N[2] sb 0 0
N[3] genu 16 N[4,0]
N[4] ld 1 0 W[1]
N[5] genu 3 W[0]
N[6] scall 0
";

/// A parcel for each of seven results, and one for the answer to the load. The results pass 2, 1, 3 (to data tile 0),
/// 4, 2 (there too), 3 (bank 0) and 5 links (control), and the answer 5 (bank 3).
const MEMORY_REPORT: &str = "output 0

result 0
movs 0
nulls 0
useful 7
loads 1
stores 1
flushed_by_violation 0
flushed_by_exit 0
flushed_at_end 0
predicted 0
predicted_right 0
parcels 8
links 25
waits 0
";

const MEMORY_STATIONS: &str = "station_0_0 1
station_0_1 1
station_0_2 1
station_0_3 1
station_1_0 1
station_1_1 1
station_1_2 1
station_1_3 0
station_2_0 0
station_2_1 0
station_2_2 0
station_2_3 0
station_3_0 0
station_3_1 0
station_3_2 0
station_3_3 0
block 0 committed 1
";

/// A block whose `mov` gives two tokens at once to registers of one bank, over the same two links.
const WAITING: &str = "trips 1
data 0
block 0 mask 00000000
W[0] write G[0]
W[1] write G[4]
N[0] genu 3 N[1,0]
N[1] mov W[0] W[1]
N[2] scall 0
";

/// Its four parcels pass 1, 2, 2 and 4 links, and the second token of the `mov` waits for the first.
const WAITING_REPORT: &str = "output 0

result 0
movs 1
nulls 0
useful 2
loads 0
stores 0
flushed_by_violation 0
flushed_by_exit 0
flushed_at_end 0
predicted 0
predicted_right 0
parcels 4
links 9
waits 1
";

const WAITING_STATIONS: &str = "station_0_0 1
station_0_1 1
station_0_2 1
station_0_3 0
station_1_0 0
station_1_1 0
station_1_2 0
station_1_3 0
station_2_0 0
station_2_1 0
station_2_2 0
station_2_3 0
station_3_0 0
station_3_1 0
station_3_2 0
station_3_3 0
block 0 committed 1
";

const POWERS: &str = "long a[9]; int main(void) { int i; a[0] = 1;
for (i = 1; i < 9; i++) a[i] = a[i - 1] * 2; return (int) a[8]; }";

const FOREVER: &str = "int main(void) { while (1) ; }";

// What words are answered over these files.
fn answer_to(alloc: Global, words: &[&str]) -> Result<(Status, Vec<u8>), AllocError> {
    answer_of(
        alloc,
        words,
        &[
            ("five.tasl", FIVE.as_bytes()),
            ("memory.tasl", MEMORY.as_bytes()),
            ("waiting.tasl", WAITING.as_bytes()),
            ("v.tasl", STORED.as_bytes()),
            ("powers.c", POWERS.as_bytes()),
            ("forever.c", FOREVER.as_bytes()),
        ],
    )
}

/// The lines of the statistics, before those of committed blocks.
const STATISTICS: u64 = 38;

/// The names of those that hang on the weather: cycles by frames in flight.
const IN_FLIGHT: &[&[u8]] = &[
    b"in_flight_0 ",
    b"in_flight_1 ",
    b"in_flight_2 ",
    b"in_flight_3 ",
    b"in_flight_4 ",
    b"in_flight_5 ",
    b"in_flight_6 ",
    b"in_flight_7 ",
    b"in_flight_8 ",
];

/// Words, the report before the cycles by frames in flight, and the lines behind them.
type Counted = (&'static [&'static str], &'static str, &'static str);

const COUNTED: &[Counted] = &[
    (&["run", "five.tasl", "--stats"], FIVE_REPORT, FIVE_STATIONS),
    (
        &["run", "five.tasl", "--stats", "--seed=9"],
        FIVE_REPORT,
        FIVE_STATIONS,
    ),
    (
        &["run", "memory.tasl", "--stats"],
        MEMORY_REPORT,
        MEMORY_STATIONS,
    ),
    (
        &["run", "--stats", "memory.tasl", "--seed=4"],
        MEMORY_REPORT,
        MEMORY_STATIONS,
    ),
    (
        &["run", "waiting.tasl", "--stats"],
        WAITING_REPORT,
        WAITING_STATIONS,
    ),
    (
        &["run", "waiting.tasl", "--stats", "--weather=worst"],
        WAITING_REPORT,
        WAITING_STATIONS,
    ),
];

// Between the other statistics stand the cycles by frames in flight: a run begins with none, and one block has one.
fn assert_flights(rt: &impl Abort, words: &[&str], lines: &[u8]) {
    let none = number_of(lines, b"in_flight_0 ").unwrap_or(0);
    let one = number_of(lines, b"in_flight_1 ").unwrap_or(0);
    assert_eq!(rt; lines_in(lines), IN_FLIGHT.len() as u64, "{words:?}");
    assert!(rt; none > 0, "{words:?}");
    assert!(rt; one > 0, "{words:?}");
    assert_eq!(rt; flown_in(lines), none.saturating_add(one), "{words:?}");
}

// What stands between two texts.
fn behind<'a>(written: &'a [u8], first: &[u8], last: &[u8]) -> Option<&'a [u8]> {
    match written.strip_prefix(first) {
        Some(rest) => rest.strip_suffix(last),
        None => None,
    }
}

fn assert_counted(rt: &impl Abort, alloc: Global, rows: &[Counted]) -> Result<(), AllocError> {
    for (words, report, stations) in rows {
        let (status, written) = answer_to(alloc, *words)?;
        assert_eq!(rt; status, Status::Ended, "{words:?}");
        match behind(&written, report.as_bytes(), stations.as_bytes()) {
            Some(lines) => assert_flights(rt, *words, lines),
            None => assert!(rt; false, "another report: {words:?}"),
        }
    }
    Ok(())
}

#[test]
fn small_runs_are_counted(rt: HostRuntime) -> Result<(), Fail> {
    assert_counted(&rt, rt.alloc(), COUNTED)?;
    Ok(())
}

// The number behind a name at the head of a line.
fn number_of(report: &[u8], name: &[u8]) -> Option<u64> {
    for line in report.split(|byte| *byte == b'\n') {
        if let Some(digits) = line.strip_prefix(name) {
            return str::from_utf8(digits).ok()?.parse::<u64>().ok();
        }
    }
    None
}

// The cycles by frames in flight, all together.
fn flown_in(report: &[u8]) -> u64 {
    let mut sum: u64 = 0;
    for name in IN_FLIGHT {
        sum = sum.saturating_add(number_of(report, *name).unwrap_or(0));
    }
    sum
}

// Each cycle began with some number of frames in flight, and each block has a number. Frames that were flushed are so
// for one of three causes, each frame that was fetched was committed or flushed, and no more predictions are right than
// were made. The branch of each block that was committed is a parcel, which has come to control over links.
fn assert_sums(rt: &impl Abort, words: &[&str], report: &[u8]) {
    let blocks = number_of(report, b"blocks ").unwrap_or(0);
    let cycles = number_of(report, b"cycles ").unwrap_or(0);
    let fetched = number_of(report, b"fetched ").unwrap_or(0);
    let flushed = number_of(report, b"flushed ").unwrap_or(0);
    let useful = number_of(report, b"useful ").unwrap_or(0);
    let violations = number_of(report, b"flushed_by_violation ").unwrap_or(1);
    let exits = number_of(report, b"flushed_by_exit ").unwrap_or(1);
    let ends = number_of(report, b"flushed_at_end ").unwrap_or(1);
    let parcels = number_of(report, b"parcels ").unwrap_or(0);
    let links = number_of(report, b"links ").unwrap_or(0);
    let made = number_of(report, b"predicted ").unwrap_or(0);
    let right = number_of(report, b"predicted_right ").unwrap_or(1);
    let causes = violations.saturating_add(exits).saturating_add(ends);
    assert!(rt; useful >= blocks, "{words:?}");
    assert!(rt; right <= made, "{words:?}");
    assert!(rt; parcels >= blocks, "{words:?}");
    assert!(rt; links >= blocks, "{words:?}");
    assert_eq!(rt; flown_in(report), cycles, "{words:?}");
    assert_eq!(rt; commits_in(report), blocks, "{words:?}");
    assert_eq!(rt; flushed, causes, "{words:?}");
    assert_eq!(rt; fetched, blocks.saturating_add(flushed), "{words:?}");
}

/// A run with its counts, and the same with its statistics.
type Pair = (&'static [&'static str], &'static [&'static str]);

const PAIRS: &[Pair] = &[
    (
        &["run", "v.tasl", "--cycles"],
        &["run", "v.tasl", "--cycles", "--stats"],
    ),
    (
        &["run", "v.tasl", "--cycles", "--seed=3"],
        &["run", "v.tasl", "--cycles", "--stats", "--seed=3"],
    ),
    (
        &["run", "powers.c", "--cycles"],
        &["run", "powers.c", "--cycles", "--stats"],
    ),
    (
        &["run", "powers.c", "--cycles", "--seed=7", "--trace"],
        &[
            "run", "powers.c", "--cycles", "--stats", "--seed=7", "--trace",
        ],
    ),
    (
        &["run", "forever.c", "--blocks=50", "--cycles"],
        &["run", "forever.c", "--blocks=50", "--cycles", "--stats"],
    ),
];

// The commits of the blocks, all together.
fn commits_in(report: &[u8]) -> u64 {
    let mut sum: u64 = 0;
    for line in report.split(|byte| *byte == b'\n') {
        let mut words = line.split(|byte| *byte == b' ');
        let _ = words.next();
        let _ = words.next();
        if words.next() == Some(b"committed".as_slice()) {
            let digits = str::from_utf8(words.next().unwrap_or(b"0")).unwrap_or("0");
            sum = sum.saturating_add(digits.parse::<u64>().unwrap_or(0));
        }
    }
    sum
}

// How many lines a text has.
fn lines_in(text: &[u8]) -> u64 {
    let mut count: u64 = 0;
    for byte in text {
        if *byte == b'\n' {
            count = count.saturating_add(1);
        }
    }
    count
}

// With its statistics a run is reported as without them, and behind that stand thirty-eight lines, and one for each
// block that was committed.
fn assert_pairs(rt: &impl Abort, alloc: Global, rows: &[Pair]) -> Result<(), AllocError> {
    for (plain, counted) in rows {
        let (status, report) = answer_to(alloc, *plain)?;
        let (counted_status, written) = answer_to(alloc, *counted)?;
        assert!(rt; counted_status == status, "{counted:?}");
        match written.strip_prefix(report.as_slice()) {
            Some(lines) => assert!(rt; lines_in(lines) > STATISTICS, "{counted:?}"),
            None => assert!(rt; false, "another report: {counted:?}"),
        }
        assert_sums(rt, *counted, &written);
    }
    Ok(())
}

#[test]
fn counted_runs_go_as_others_do(rt: HostRuntime) -> Result<(), Fail> {
    assert_pairs(&rt, rt.alloc(), PAIRS)?;
    Ok(())
}
