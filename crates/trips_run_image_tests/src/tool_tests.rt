//! The tools, and what `run` shows, on the example image of docs/MACHINE.md and its target text.

use std::alloc::{AllocError, Global};
use std::process::Abort;
use std::test::Fail;
use trips_run::Status;
use trips_run_harness::answer_of;

/// The text of the image of one block that returns 7.
pub const SEVEN_TEXT: &str = "trips 1
data 0
block 0 mask 00000000
W[0] write G[0]
W[1] write G[3]
N[0] genu 3 W[0]
N[1] genu 7 W[1]
N[2] scall 0
";

/// A store whose value a division makes late, and a load of eight bytes in the next block that takes one
/// of them from it.
pub const STORED: &str = "trips 1
data 0
block 0 mask 00000001
N[0] genu 7 N[2,0]
N[1] genu 1 N[2,1]
N[2] divu N[4,0]
N[3] genu 171 N[4,1]
N[4] sb 0 0
N[5] bro 0 @1
block 1 mask 00000000
W[0] write G[0]
W[1] write G[3]
N[0] genu 0 N[1,0]
N[1] ld 0 0 W[1]
N[2] genu 3 W[0]
N[3] scall 0
";

// Its branch names no block.
const NO_GOAL: &str = "trips 1
data 0
block 0 mask 00000000
N[0] bro 0 @5
";

// Its block has no exit.
const NO_EXIT: &str = "trips 1
data 0
block 0 mask 00000000
W[0] write G[0]
N[0] genu 3 W[0]
";

// Its last line has no line feed.
const NO_LINE_FEED: &str = "trips 1
data 0
block 0 mask 00000000
W[0] write G[0]
W[1] write G[3]
N[0] genu 3 W[0]
N[1] genu 7 W[1]
N[2] scall 0";

// Its constant does not fit.
const TOO_WIDE: &str = "trips 1
data 0
block 0 mask 00000000
W[0] write G[0]
W[1] write G[3]
N[0] genu 65536 W[0]
N[1] genu 7 W[1]
N[2] scall 0
";

const FOREVER: &str = "int main(void) { while (1) ; }";

const SEVEN_REPORT: &str = "output 0\n\nresult 7\n";

/// Words, a status and a report.
type Row = (&'static [&'static str], Status, &'static str);

const ROWS: &[Row] = &[
    (&["run", "a.tasl"], Status::Ended, SEVEN_REPORT),
    (
        &["run", "--blocks=1", "--", "a.tasl"],
        Status::Ended,
        SEVEN_REPORT,
    ),
    (
        &["run", "--trace", "a.tasl"],
        Status::Ended,
        "output 0\n\nresult 7\nblock 0 exit 0\n",
    ),
    (
        &["run", "v.tasl"],
        Status::Ended,
        "output 0\n\nresult 171\n",
    ),
    (
        &["run", "v.tasl", "--trace"],
        Status::Ended,
        "output 0\n\nresult 171\nblock 0 exit 0\nblock 1 exit 0\n",
    ),
    (
        &["run", "--blocks=100", "f.c"],
        Status::Budget,
        "output 0\n\nbudget 100\n",
    ),
    (
        &["run", "b.tasl"],
        Status::Refused,
        "refused asm 3 Label line 4\n",
    ),
    (
        &["asm", "b.tasl"],
        Status::Refused,
        "refused asm 3 Label line 4\n",
    ),
    (
        &["run", "c.tasl"],
        Status::Refused,
        "refused check 7 NoExit block 0\n",
    ),
    (
        &["asm", "g.tasl"],
        Status::Refused,
        "refused asm 1 Syntax line 8\n",
    ),
    (
        &["asm", "h.tasl"],
        Status::Refused,
        "refused asm 2 Range line 6\n",
    ),
    (
        &["check", "a.tasl"],
        Status::Refused,
        "refused image 1 Magic\n",
    ),
    (&["dis", "d.img"], Status::ReadFault, "read fault\n"),
    (&["asm", "a.tasl", "--regs"], Status::Usage, "usage\n"),
    (
        &["compile", "e.c"],
        Status::Refused,
        "refused lex 1 BadByte line 1\n",
    ),
];

fn assert_rows(rt: &impl Abort, alloc: Global, rows: &[Row]) -> Result<(), AllocError> {
    for (words, status, report) in rows {
        let (answered, written) = answer_of(
            alloc,
            *words,
            &[
                ("a.tasl", SEVEN_TEXT.as_bytes()),
                ("b.tasl", NO_GOAL.as_bytes()),
                ("c.tasl", NO_EXIT.as_bytes()),
                ("v.tasl", STORED.as_bytes()),
                ("e.c", b"@"),
                ("f.c", FOREVER.as_bytes()),
                ("g.tasl", NO_LINE_FEED.as_bytes()),
                ("h.tasl", TOO_WIDE.as_bytes()),
            ],
        )?;
        assert_eq!(rt; answered, *status, "{words:?}");
        assert_eq!(rt; written.as_slice(), report.as_bytes(), "{words:?}");
    }
    Ok(())
}

#[test]
fn target_texts_run_and_are_refused(rt: HostRuntime) -> Result<(), Fail> {
    assert_rows(&rt, rt.alloc(), ROWS)?;
    Ok(())
}

/// A command on the bytes of an image is answered so.
pub fn assert_answer(
    rt: &impl Abort,
    alloc: Global,
    command: &str,
    bytes: &[u8],
    status: Status,
    report: &[u8],
) -> Result<(), AllocError> {
    let (answered, written) = answer_of(alloc, &[command, "b.img"], &[("b.img", bytes)])?;
    assert_eq!(rt; answered, status, "{command}");
    assert_eq!(rt; written.as_slice(), report, "{command}");
    Ok(())
}

/// The image of a target text, whose text is that text again.
pub fn image_of_text(rt: &impl Abort, alloc: Global, text: &[u8]) -> Result<Vec<u8>, AllocError> {
    let (status, image) = answer_of(alloc, &["asm", "a"], &[("a", text)])?;
    assert_eq!(rt; status, Status::Ended, "asm");
    assert_answer(rt, alloc, "dis", &image, Status::Ended, text)?;
    Ok(image)
}

#[test]
fn an_image_goes_out_and_back(rt: HostRuntime) -> Result<(), Fail> {
    let alloc = rt.alloc();
    let image = image_of_text(&rt, alloc, SEVEN_TEXT.as_bytes())?;
    assert_answer(
        &rt,
        alloc,
        "check",
        &image,
        Status::Ended,
        b"good 1 blocks\n",
    )?;
    assert_answer(
        &rt,
        alloc,
        "run",
        &image,
        Status::Ended,
        SEVEN_REPORT.as_bytes(),
    )?;
    Ok(())
}

#[test]
fn a_program_is_compiled_to_an_image(rt: HostRuntime) -> Result<(), Fail> {
    let alloc = rt.alloc();
    let text = b"int main(void) { return 7; }";
    let (status, image) = answer_of(alloc, &["compile", "a.c"], &[("a.c", text)])?;
    assert_eq!(rt; status, Status::Ended, "compile");
    assert_answer(
        &rt,
        alloc,
        "run",
        &image,
        Status::Ended,
        SEVEN_REPORT.as_bytes(),
    )?;
    let (_, lines) = answer_of(alloc, &["dis", "b.img"], &[("b.img", &image)])?;
    let again = image_of_text(&rt, alloc, &lines)?;
    assert_eq!(rt; again.as_slice(), image.as_slice(), "asm");
    Ok(())
}

// The report on the image that returns 7, and behind it its registers, of which two have a digit other
// than 0.
fn report_with_registers(alloc: Global) -> Result<Vec<u8>, AllocError> {
    let mut report = Vec::from_slice(alloc, SEVEN_REPORT.as_bytes())?;
    for r in 0..128u32 {
        let digit = match r {
            0 => 3u32,
            3 => 7,
            _ => 0,
        };
        let line = format!(in alloc; "G[{r}] 000000000000000{digit}\n")?;
        report.extend_from_slice(line.as_bytes())?;
    }
    Ok(report)
}

// What is shown stands in this order, in whichever order it is asked for.
fn assert_shown(rt: &impl Abort, alloc: Global, image: &[u8]) -> Result<(), AllocError> {
    let held = [("b.img", image)];
    let mut report = report_with_registers(alloc)?;
    let (_, registers) = answer_of(alloc, &["run", "b.img", "--regs"], &held)?;
    assert_eq!(rt; registers.as_slice(), report.as_slice(), "registers");
    report.extend_from_slice(b"block 0 exit 0\n")?;
    let (_, both) = answer_of(alloc, &["run", "--trace", "--regs", "b.img"], &held)?;
    assert_eq!(rt; both.as_slice(), report.as_slice(), "registers and trace");
    Ok(())
}

#[test]
fn registers_are_shown(rt: HostRuntime) -> Result<(), Fail> {
    let alloc = rt.alloc();
    let image = image_of_text(&rt, alloc, SEVEN_TEXT.as_bytes())?;
    assert_shown(&rt, alloc, &image)?;
    Ok(())
}

/// A command on a file of this name, with one byte more than it may have.
type Size = (&'static str, &'static str, usize);

const SIZES: &[Size] = &[("dis", "a", 71_303_189), ("run", "a.tasl", 67_108_865)];

fn assert_sizes(rt: &impl Abort, alloc: Global, rows: &[Size]) -> Result<(), AllocError> {
    for (command, name, size) in rows {
        let mut bytes = Vec::new(alloc);
        bytes.resize(*size, b' ')?;
        let (status, written) = answer_of(alloc, &[*command, *name], &[(*name, &bytes)])?;
        assert_eq!(rt; status, Status::Refused, "{command} {size}");
        assert_eq!(rt;
            written.as_slice(),
            b"refused file 2 TooLarge\n".as_slice(),
            "{command} {size}"
        );
    }
    Ok(())
}

#[test]
fn files_above_their_limit_are_refused(rt: HostRuntime) -> Result<(), Fail> {
    assert_sizes(&rt, rt.alloc(), SIZES)?;
    Ok(())
}
