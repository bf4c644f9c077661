//! `four`: four files at once, each answered as it is alone, whatever the seed; and the lowest that is refused.

use crate::record_tests::TRAP_TEXT;
use crate::tool_tests::{STORED, image_of_text};
use std::alloc::{AllocError, Global};
use std::process::Abort;
use std::test::Fail;
use trips_run::Status;
use trips_run_harness::answer_of;

const SEVEN: &str = "int main(void) { return 7; }";

const POWERS: &str = "long a[9]; int main(void) { int i; a[0] = 1;
for (i = 1; i < 9; i++) a[i] = a[i - 1] * 2; return (int) a[8]; }";

const FOREVER: &str = "int main(void) { while (1) ; }";

const QUOTIENT: &str = "int main(void) { return -7 / 2 * 10 + -7 % 2; }";

const NOTHING: &str = "int main(void) { }";

const DEEPER: &str = "int f(int n) { long a[90000]; a[0] = n; return f(n + 1) + (int) a[0]; }
int main(void) { return f(0); }";

/// Four names, further words, the status and the report.
type Row = (
    [&'static str; 4],
    &'static [&'static str],
    Status,
    &'static str,
);

const SEVENS: &str = "program 0
output 0

result 7
program 1
output 0

result 7
program 2
output 0

result 7
program 3
output 0

result 7
";

const OTHERS: &str = "program 0
output 0

result 256
program 1
output 0

budget 200
program 2
output 0

result -31
program 3
output 0

result 0
";

const FORMS: &str = "program 0
output 0

result 171
program 1
output 0

result 7
program 2
output 0

result 171
program 3
output 0

result 256
";

const FAILING: &str = "program 0
output 0

result 7
program 1
output 0

stack full
program 2
output 0

trap block 0 cause 1
program 3
output 0

budget 200
";

const TRAPPED: &str = "program 0
output 0

trap block 0 cause 1
program 1
output 0

budget 200
program 2
output 0

budget 200
program 3
output 0

budget 200
";

const ROWS: &[Row] = &[
    (
        ["seven.c", "seven.c", "seven.c", "seven.c"],
        &[],
        Status::Ended,
        SEVENS,
    ),
    (
        ["powers.c", "forever.c", "quotient.c", "nothing.c"],
        &["--blocks", "200"],
        Status::Budget,
        OTHERS,
    ),
    (
        ["seven.c", "deeper.c", "trap.tasl", "forever.c"],
        &["--blocks", "200"],
        Status::StackFull,
        FAILING,
    ),
    (
        ["trap.tasl", "forever.c", "forever.c", "forever.c"],
        &["--blocks", "200"],
        Status::Trap,
        TRAPPED,
    ),
    (
        ["v.tasl", "seven.c", "v.img", "powers.c"],
        &[],
        Status::Ended,
        FORMS,
    ),
    (
        ["seven.c", "empty.c", "seven.c", "seven.c"],
        &[],
        Status::Refused,
        "program 1\nrefused parse 1 Syntax line 1\n",
    ),
    (
        ["seven.c", "seven.c", "empty.img", "empty.c"],
        &[],
        Status::Refused,
        "program 2\nrefused image 3 Truncated at 0\n",
    ),
    (
        ["empty.c", "seven.c", "seven.c", "none.c"],
        &[],
        Status::ReadFault,
        "read fault\n",
    ),
];

// What words are answered over these files and an image.
fn answer_to(alloc: Global, words: &[&str], image: &[u8]) -> Result<(Status, Vec<u8>), AllocError> {
    let files: &[(&str, &[u8])] = &[
        ("seven.c", SEVEN.as_bytes()),
        ("powers.c", POWERS.as_bytes()),
        ("forever.c", FOREVER.as_bytes()),
        ("quotient.c", QUOTIENT.as_bytes()),
        ("nothing.c", NOTHING.as_bytes()),
        ("deeper.c", DEEPER.as_bytes()),
        ("trap.tasl", TRAP_TEXT.as_bytes()),
        ("empty.c", b""),
        ("empty.img", b""),
        ("v.tasl", STORED.as_bytes()),
        ("v.img", image),
    ];
    answer_of(alloc, words, files)
}

// The words of `four`, four names and further words.
fn words_of(
    alloc: Global,
    names: &[&'static str; 4],
    more: &[&'static str],
    seed: &'static str,
) -> Result<Vec<&'static str>, AllocError> {
    let mut words = Vec::new(alloc);
    words.push("four")?;
    words.extend_from_slice(names)?;
    words.extend_from_slice(more)?;
    words.push("--seed")?;
    words.push(seed)?;
    Ok(words)
}

#[test]
fn each_is_answered_as_alone(rt: HostRuntime) -> Result<(), Fail> {
    let alloc = rt.alloc();
    let image = image_of_text(&rt, alloc, STORED.as_bytes())?;
    for seed in ["0", "1"] {
        for (names, more, status, report) in ROWS {
            let words = words_of(alloc, names, *more, seed)?;
            let (answered, written) = answer_to(alloc, &words, &image)?;
            assert_eq!(rt; answered, *status, "{names:?}");
            assert!(rt; written.as_slice() == report.as_bytes(), "{names:?}");
        }
    }
    Ok(())
}

// The number behind a name at the head of a line.
fn number_of(report: &[u8], name: &[u8]) -> Option<u64> {
    for line in report.split(|byte| *byte == b'\n') {
        if let Some(digits) = line.strip_prefix(name) {
            return str::from_utf8(digits).ok()?.parse::<u64>().ok();
        }
    }
    None
}

#[test]
fn cycles_of_four_are_within_their_cost(rt: HostRuntime) -> Result<(), Fail> {
    let alloc = rt.alloc();
    let names = ["powers.c", "forever.c", "quotient.c", "nothing.c"];
    for seed in ["0", "1"] {
        let words = words_of(alloc, &names, &["--blocks", "200", "--cycles"], seed)?;
        let (status, written) = answer_to(alloc, &words, b"")?;
        let cycles = number_of(&written, b"cycles ").unwrap_or(0);
        let cost = number_of(&written, b"cost ").unwrap_or(0);
        assert_eq!(rt; status, Status::Budget, "seed {seed}");
        assert!(rt; written.starts_with(OTHERS.as_bytes()), "seed {seed}");
        assert!(rt; cycles > 200, "{cycles} cycles");
        assert!(rt; cycles <= cost, "{cycles} cycles, cost {cost}");
    }
    Ok(())
}
