//! Runs of C that are saved behind each block and gone on with under another seed.
use crate::tables::WORDS;
use std::alloc::{AllocError, Global};
use std::process::Abort;
use std::test::Fail;
use trips_run::Status;
use trips_run_harness::answer_of;

/// The input of the word counter.
const INPUT: &[u8] = b"a bb\nccc";

// The numbers of blocks behind which a run is saved: the word counter's run ends before the last.
const NUMBERS: &[&str] = &[
    "1", "2", "3", "4", "5", "6", "7", "8", "9", "10", "11", "12", "13", "14", "15", "16", "17",
    "18", "19", "20", "21", "22", "23", "24", "25", "26", "27", "28", "29", "30", "31", "32", "33",
    "34", "35", "36", "37", "38", "39", "40", "41", "42", "43", "44", "45", "46", "47", "48", "49",
    "50", "51", "52", "53", "54", "55", "56", "57", "58", "59", "60", "61", "62", "63", "64", "65",
    "66", "67", "68", "69", "70", "71", "72", "73", "74", "75", "76", "77", "78", "79", "80",
];

// The image of the word counter.
fn image(rt: &impl Abort, alloc: Global) -> Result<Vec<u8>, AllocError> {
    let (status, image) = answer_of(alloc, &["compile", "a.c"], &[("a.c", WORDS.as_bytes())])?;
    assert!(rt; status == Status::Ended, "{status:?}");
    Ok(image)
}

// The report of the whole run, with its registers.
fn whole(rt: &impl Abort, alloc: Global, image: &[u8]) -> Result<Vec<u8>, AllocError> {
    let files: &[(&str, &[u8])] = &[("a.img", image), ("t", INPUT)];
    let words: &[&str] = &["run", "a.img", "--input", "t", "--regs"];
    let (status, report) = answer_of(alloc, words, files)?;
    assert!(rt; status == Status::Ended, "{status:?}");
    assert!(rt;
        report.starts_with(b"output 2\n3\n\nresult 3\nG[0] "),
        "the whole run"
    );
    Ok(report)
}

// The run is saved under one seed and gone on with under another, with all shown, to the whole run's end and
// registers; it is over where there is nothing to go on with.
fn is_over(
    rt: &impl Abort,
    alloc: Global,
    image: &[u8],
    whole: &[u8],
    at: &str,
    seeds: (&str, &str),
) -> Result<bool, AllocError> {
    let files: &[(&str, &[u8])] = &[("a.img", image), ("t", INPUT)];
    let words: &[&str] = &["save", "a.img", at, "--input", "t", "--seed", seeds.0];
    let (status, file) = answer_of(alloc, words, files)?;
    if status == Status::Refused {
        assert!(rt;
            file.as_slice() == b"refused save 1 Over\n".as_slice(),
            "behind {at}"
        );
        return Ok(true);
    }
    assert!(rt; status == Status::Ended, "behind {at}: {status:?}");
    let words: &[&str] = &[
        "resume", "s", "--seed", seeds.1, "--regs", "--trace", "--cycles",
    ];
    let (status, report) = answer_of(alloc, words, &[("s", &file)])?;
    assert!(rt; status == Status::Ended, "behind {at}: {status:?}");
    assert!(rt; report.starts_with(whole), "behind {at}");
    Ok(false)
}

#[test]
fn two_parts_of_the_word_counter_are_the_whole(rt: HostRuntime) -> Result<(), Fail> {
    let alloc = rt.alloc();
    let image = image(&rt, alloc)?;
    let whole = whole(&rt, alloc, &image)?;
    for seeds in [("0", "1"), ("1", "0")] {
        let mut over = false;
        for at in NUMBERS {
            over = is_over(&rt, alloc, &image, &whole, at, seeds)?;
            if over {
                break;
            }
        }
        assert!(rt; over, "the run goes on");
    }
    Ok(())
}

#[test]
fn a_text_is_saved_as_its_image_is(rt: HostRuntime) -> Result<(), Fail> {
    let alloc = rt.alloc();
    let image = image(&rt, alloc)?;
    let files: &[(&str, &[u8])] = &[("a.c", WORDS.as_bytes()), ("a.img", &image), ("t", INPUT)];
    let words: &[&str] = &["save", "a.c", "5", "--input", "t"];
    let (status, of_text) = answer_of(alloc, words, files)?;
    assert!(rt; status == Status::Ended, "{status:?}");
    let words: &[&str] = &["save", "a.img", "5", "--input", "t"];
    let (_, of_image) = answer_of(alloc, words, files)?;
    assert!(rt; of_text == of_image, "another file");
    Ok(())
}
