//! What `run` shows of a run that traps: the state before the block that faults, the blocks before it, and its frame
//! among those that were flushed.
use std::alloc::{AllocError, Global};
use std::process::Abort;
use std::test::Fail;
use trips_run::Status;
use trips_run_harness::answer_of;

// Block 0 puts 7 into register 5. Block 1 would put 9 there and end with 8, but a division by zero reaches its write
// of register 3.
const LATE: &str = "trips 1
data 0
block 0 mask 00000000
W[0] write G[5]
N[0] genu 7 W[0]
N[1] bro 2 @1
block 1 mask 00000000
W[0] write G[0]
W[1] write G[3]
W[2] write G[5]
N[0] genu 8 N[2,0]
N[1] genu 0 N[2,1]
N[2] divs W[1]
N[3] genu 3 W[0]
N[4] genu 9 W[2]
N[5] scall 0
";

const TRAPPED: &str = "output 0\n\ntrap block 1 cause 1\n";

/// Words behind the file's name, and the registers that are shown, the trace, and the count of blocks behind them.
type Row = (&'static [&'static str], bool, &'static str, &'static str);

const ROWS: &[Row] = &[
    (&["--trace"], false, "block 0 exit 2\n", ""),
    (&["--regs"], true, "", ""),
    (&["--cycles"], false, "", "blocks 1\n"),
    (&["--regs", "--trace"], true, "block 0 exit 2\n", ""),
    (
        &["--cycles", "--seed", "4", "--trace", "--regs"],
        true,
        "block 0 exit 2\n",
        "blocks 1\n",
    ),
];

// The lines of the 128 registers, of which one alone is not 0.
fn add_registers(alloc: Global, report: &mut Vec<u8>) -> Result<(), AllocError> {
    for r in 0..128u32 {
        let digit = if r == 5 { 7u32 } else { 0 };
        let line = format!(in alloc; "G[{r}] 000000000000000{digit}\n")?;
        report.extend_from_slice(line.as_bytes())?;
    }
    Ok(())
}

// Each of these words behind `run` and the file is answered by the trap and what is shown, up to the counts.
fn assert_rows(rt: &impl Abort, alloc: Global, rows: &[Row]) -> Result<(), AllocError> {
    for (others, registers, trace, blocks) in rows {
        let mut words = Vec::from_slice(alloc, &["run", "v.tasl"])?;
        words.extend_from_slice(*others)?;
        let mut report = Vec::from_slice(alloc, TRAPPED.as_bytes())?;
        if *registers {
            add_registers(alloc, &mut report)?;
        }
        report.extend_from_slice(trace.as_bytes())?;
        report.extend_from_slice(blocks.as_bytes())?;
        let (status, written) = answer_of(alloc, &words, &[("v.tasl", LATE.as_bytes())])?;
        assert_eq!(rt; status, Status::Trap, "{others:?}");
        assert!(rt; written.starts_with(report.as_slice()), "{others:?}");
        if blocks.is_empty() {
            assert_eq!(rt; written.len(), report.len(), "{others:?}");
        }
    }
    Ok(())
}

#[test]
fn a_trap_shows_the_state_before_it(rt: HostRuntime) -> Result<(), Fail> {
    assert_rows(&rt, rt.alloc(), ROWS)?;
    Ok(())
}

// The cost of block 0, of two instructions, and that of block 1, of six.
const COST: u64 = 1024;

const TRAP_COST: u64 = 2048;

// The number behind a name at the head of a line.
fn number_of(report: &[u8], name: &[u8]) -> Option<u64> {
    for line in report.split(|byte| *byte == b'\n') {
        if let Some(digits) = line.strip_prefix(name) {
            return str::from_utf8(digits).ok()?.parse::<u64>().ok();
        }
    }
    None
}

#[test]
fn a_trap_is_counted(rt: HostRuntime) -> Result<(), Fail> {
    let alloc = rt.alloc();
    for seed in ["0", "1", "2", "9"] {
        let words = ["run", "v.tasl", "--cycles", "--seed", seed];
        let (_, written) = answer_of(alloc, &words, &[("v.tasl", LATE.as_bytes())])?;
        let flushed = number_of(&written, b"flushed ").unwrap_or(0);
        assert_eq!(rt; number_of(&written, b"blocks "), Some(1), "{seed}");
        assert_eq!(rt; number_of(&written, b"cost "), Some(COST), "{seed}");
        assert!(rt; flushed > 0, "{seed}");
        assert_eq!(rt;
            number_of(&written, b"fetched "),
            Some(flushed.saturating_add(1)),
            "{seed}"
        );
        let cycles = number_of(&written, b"cycles ").unwrap_or(u64::MAX);
        assert!(rt; cycles <= COST + TRAP_COST, "{seed}");
    }
    Ok(())
}
