//! Users' files of target text, with the image or the fault that docs/MACHINE.md, "Target text", gives them.

use std::alloc::Global;
use std::process::Abort;
use std::test::Fail;
use target_asm::AsmFault::{Label, Range, Syntax};
use target_asm::{AsmFault, print};
use target_file::{assemble_file, bare};

/// A text as it is printed.
const SEVEN: &[u8] = b"trips 1
data 1
07
block 0 mask 00000000
W[0] write G[3]
N[0] genu 3 W[0]
N[1] scall 0
";

/// The same as users may write it.
const SAME: &[&[u8]] = &[
    SEVEN,
    // comments behind lines, at lines' starts and behind blanks, and blank lines
    b"# seven
trips 1 # the form
data 1\t# one byte
# of value 7
07# it

block 0 mask 00000000   # block 1 is \"block 0\" here
  # the result
W[0] write G[3] ## and more # of it
N[0] genu 3 W[0]
N[1] scall 0
\t
#",
    // carriage returns
    b"trips 1\r
data 1\r
07\r
\r
block 0 mask 00000000 # main\r
W[0] write G[3]\r
N[0] genu 3 W[0]\r
# leave\r
N[1] scall 0\r
\r
",
    // blanks at ends of lines, and blank lines at the end
    b"\n\ntrips 1 \ndata 1\n07 \t \nblock 0 mask 00000000\nW[0] write G[3]\nN[0] genu 3 W[0]\nN[1] scall 0\n\n \n\n",
];

fn printed_again(alloc: Global, file: &[u8]) -> Result<Vec<u8>, Fail> {
    let image = assemble_file(alloc, file)?;
    Ok(print(alloc, &image)?)
}

fn assert_seven(rt: &impl Abort, alloc: Global, file: &[u8], row: usize) -> Result<(), Fail> {
    let left = bare(alloc, file)?;
    assert!(rt; left.as_slice() == SEVEN, "what is left of file {row}");
    let again = printed_again(alloc, file)?;
    assert!(rt; again.as_slice() == SEVEN, "the image of file {row}");
    Ok(())
}

#[test]
fn comments_blank_lines_and_carriage_returns_tell_nothing(rt: HostRuntime) -> Result<(), Fail> {
    for (row, file) in SAME.iter().enumerate() {
        assert_seven(&rt, rt.alloc(), *file, row)?;
    }
    Ok(())
}

/// What assembling a file answers, if not an image.
fn fault(alloc: Global, file: &[u8]) -> Option<AsmFault> {
    match assemble_file(alloc, file) {
        Err(fault) => Some(fault),
        Ok(_) => None,
    }
}

type FaultRow = (&'static [u8], AsmFault);

const FAULTS: &[FaultRow] = &[
    // without comments, the fault of the text
    (b"", Syntax(1)),
    (b"trips 2\n", Syntax(1)),
    (b"trips 1\ndata 0", Syntax(2)),
    (b"trips 1\ndata 0\n", Syntax(3)),
    (
        b"trips 1\ndata 0\nblock 0 mask 00000000\nN[0]  null\n",
        Syntax(4),
    ),
    // the line that a comment, a blank line or a carriage return stands before
    (b"#\n\ntrips 2\n", Syntax(3)),
    (b"# trips 1\ntrips 1\n\n\ndata 4194305\n", Range(5)),
    (
        b"trips 1\r\ndata 0\r\n\r\nblock 1 mask 00000000\r\n",
        Syntax(4),
    ),
    (b"trips 1\ndata 1\n# a byte\nfg # no digit\n", Syntax(4)),
    (
        b"trips 1\ndata 1 # zero\n\n00\nblock 0 mask 00000000\n",
        Range(4),
    ),
    (
        b"trips 1\ndata 0\nblock 0 mask 00000000\n# to none\n\nN[0] bro 0 @1 # next\n",
        Label(6),
    ),
    (
        b"trips 1\ndata 0\nblock 0 mask 00000000\n#\nN[0] genu 65536\n#\nN[1] null\n",
        Range(5),
    ),
    // a line is wanted at the end of the file, one line behind its last line feed
    (b"# nothing\n", Syntax(2)),
    (b"# nothing", Syntax(1)),
    (b"trips 1\ndata 0\n\n# no block\n", Syntax(5)),
    (b"trips 1\ndata 0\n\n# no block", Syntax(4)),
    (b"trips 1 # no data", Syntax(1)),
    // a line that no line feed ends, comment or not
    (
        b"trips 1\ndata 0\nblock 0 mask 00000000\nN[0] scall 0",
        Syntax(4),
    ),
    (
        b"trips 1\ndata 0\n#\nblock 0 mask 00000000\nN[0] scall 0 # end",
        Syntax(5),
    ),
    // other blanks are none
    (b" trips 1\ndata 0\n", Syntax(1)),
    (b"trips 1\x0c\ndata 0\n", Syntax(1)),
    (b"trips 1\rdata 0\n", Syntax(1)),
    (b"trips 1\ndata\r 0\n", Syntax(2)),
];

#[test]
fn a_fault_has_the_line_of_the_file(rt: HostRuntime) {
    for (file, want) in FAULTS {
        assert_eq!(&rt; fault(rt.alloc(), *file), Some(*want), "wanted {want:?}");
    }
}
