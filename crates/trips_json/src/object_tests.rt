//! Objects of statuses and reports.

use crate::objects::json_report;
use crate::words::{has_output, said_json};
use std::alloc::{AllocError, Global};
use std::process::Abort;
use std::test::Fail;
use trips_requests::Status;

// Whether a report is told in parts, its status, the report, and the object of it.
type Row = (bool, Status, &'static str, &'static str);

// Runs and evaluations.
const RUNS: &[Row] = &[
    (
        true,
        Status::Ended,
        "output 6\nhello\n\nresult 0\nblocks 12\ncycles 345\nblock 0 exit 1\nmovs 7\nstation_3_1 170\n",
        "{\"answer\":\"ended\",\"exit\":0,\"output\":\"hello\\n\",\"ending\":\"result 0\",\"values\":{\"blocks\":12,\
         \"cycles\":345,\"movs\":7,\"station_3_1\":170},\"lines\":[\"block 0 exit 1\"]}\n",
    ),
    // output that looks like the line of an end, or like a number that was counted
    (
        true,
        Status::Ended,
        "output 27\nresult 1\ncycles 5\naborted\n\n\nresult -7\nsteps 9\n",
        "{\"answer\":\"ended\",\"exit\":0,\"output\":\"result 1\\ncycles 5\\naborted\\n\\n\",\"ending\":\"result -7\",\
         \"values\":{\"steps\":9},\"lines\":[]}\n",
    ),
    // the last line of events that are too many
    (
        true,
        Status::Ended,
        "output 0\n\nresult 0\ncycle 1 begin block 0\nmore\n",
        "{\"answer\":\"ended\",\"exit\":0,\"output\":\"\",\"ending\":\"result 0\",\"values\":{},\
         \"lines\":[\"cycle 1 begin block 0\",\"more\"]}\n",
    ),
    (
        true,
        Status::Aborted,
        "output 0\n\naborted\nsteps 6\n",
        "{\"answer\":\"aborted\",\"exit\":11,\"output\":\"\",\"ending\":\"aborted\",\"values\":{\"steps\":6},\
         \"lines\":[]}\n",
    ),
    (
        true,
        Status::StackFull,
        "output 0\n\nstack full\n",
        "{\"answer\":\"stack_full\",\"exit\":6,\"output\":\"\",\"ending\":\"stack full\",\"values\":{},\"lines\":[]}\n",
    ),
    (
        true,
        Status::Budget,
        "output 1\n\t\nbudget 40\n",
        "{\"answer\":\"budget\",\"exit\":5,\"output\":\"\\t\",\"ending\":\"budget 40\",\"values\":{},\"lines\":[]}\n",
    ),
    (
        true,
        Status::Trap,
        "output 0\n\ntrap block 4 cause 1\n",
        "{\"answer\":\"trap\",\"exit\":9,\"output\":\"\",\"ending\":\"trap block 4 cause 1\",\"values\":{},\
         \"lines\":[]}\n",
    ),
    (
        true,
        Status::Undefined,
        "output 2\n3\n\nundefined: the sum 2147483647 + 1 is no int (C17 6.5p5)\n",
        "{\"answer\":\"undefined\",\"exit\":10,\"output\":\"3\\n\",\
         \"ending\":\"undefined: the sum 2147483647 + 1 is no int (C17 6.5p5)\",\"values\":{},\"lines\":[]}\n",
    ),
];

// Reports that tell of no output.
const OTHERS: &[Row] = &[
    (
        true,
        Status::Budget,
        "more\n",
        "{\"answer\":\"budget\",\"exit\":5,\"values\":{},\"lines\":[\"more\"]}\n",
    ),
    (
        true,
        Status::Usage,
        "usage\n",
        "{\"answer\":\"usage\",\"exit\":2,\"values\":{},\"lines\":[\"usage\"]}\n",
    ),
    (
        true,
        Status::ReadFault,
        "read fault\n",
        "{\"answer\":\"read_fault\",\"exit\":3,\"values\":{},\"lines\":[\"read fault\"]}\n",
    ),
    (
        true,
        Status::Refused,
        "refused type 5 NoMain\n",
        "{\"answer\":\"refused\",\"exit\":4,\"values\":{},\"lines\":[\"refused type 5 NoMain\"]}\n",
    ),
    // more bytes are told than there are, or none
    (
        true,
        Status::Ended,
        "output 19\n\nresult 0\n",
        "{\"answer\":\"ended\",\"exit\":0,\"values\":{},\"lines\":[\"output 19\",\"\",\"result 0\"]}\n",
    ),
    (
        true,
        Status::WriteFault,
        "output \n\n",
        "{\"answer\":\"write_fault\",\"exit\":7,\"values\":{},\"lines\":[\"output \",\"\"]}\n",
    ),
    (
        true,
        Status::Memory,
        "",
        "{\"answer\":\"memory\",\"exit\":8,\"values\":{},\"lines\":[]}\n",
    ),
    // not in parts: no line is a value
    (
        false,
        Status::Ended,
        "good 2 blocks\ncycles 5\nlast",
        "{\"answer\":\"ended\",\"exit\":0,\"values\":{},\"lines\":[\"good 2 blocks\",\"cycles 5\",\"last\"]}\n",
    ),
    (
        false,
        Status::Refused,
        "a \"b\" c\\d\te\u{1}\u{7f}é\n",
        "{\"answer\":\"refused\",\"exit\":4,\"values\":{},\
         \"lines\":[\"a \\\"b\\\" c\\\\d\\te\\u0001\\u007f\\u00c3\\u00a9\"]}\n",
    ),
];

// Lines that are a name with a number, and lines that are none.
const VALUES: &[Row] = &[(
    true,
    Status::Ended,
    "output 0\n\nresult 0\na 0\nB_9 18446744073709551615\nc 00\nd 01\ne -1\nf  1\n g 1\nh\ni \nj 1 \
     \nk 100000000000000000000\nl-m 1\nn 1x\n\n",
    "{\"answer\":\"ended\",\"exit\":0,\"output\":\"\",\"ending\":\"result 0\",\
     \"values\":{\"a\":0,\"B_9\":18446744073709551615},\"lines\":[\"c 00\",\"d 01\",\"e -1\",\"f  1\",\" g 1\",\"h\",\
     \"i \",\"j 1 \",\"k 100000000000000000000\",\"l-m 1\",\"n 1x\",\"\"]}\n",
)];

fn assert_objects(rt: &impl Abort, alloc: Global, rows: &[Row]) -> Result<(), Fail> {
    for (parts, status, report, object) in rows {
        let text = json_report(alloc, *parts, *status, report.as_bytes())?;
        assert_eq!(rt; text.as_slice(), object.as_bytes(), "{report}");
    }
    Ok(())
}

#[test]
fn tells_runs(rt: HostRuntime) -> Result<(), Fail> {
    assert_objects(&rt, rt.alloc(), RUNS)
}

#[test]
fn tells_other_reports(rt: HostRuntime) -> Result<(), Fail> {
    assert_objects(&rt, rt.alloc(), OTHERS)
}

#[test]
fn tells_values_from_lines(rt: HostRuntime) -> Result<(), Fail> {
    assert_objects(&rt, rt.alloc(), VALUES)
}

// Words, whether they ask for JSON, how many are left then, and whether the command has an output.
const WORDS: &[(&[&str], bool, usize, bool)] = &[
    (&[], false, 0, false),
    (&["run", "a.c"], false, 2, true),
    (&["--json", "run", "a.c"], true, 2, true),
    (&["eval", "--json", "a.c", "--json"], true, 2, true),
    (&["bench", "2", "--json=1"], false, 3, true),
    (&["resume", "--", "a.save", "--json"], true, 3, true),
    (&["check", "a.img", "--json"], true, 2, false),
    (&["runs", "json"], false, 2, false),
];

fn texts(alloc: Global, words: &[&str]) -> Result<Vec<String>, AllocError> {
    let mut texts = Vec::new(alloc);
    for word in words {
        texts.push(String::from_str(alloc, word)?)?;
    }
    Ok(texts)
}

#[test]
fn finds_the_word(rt: HostRuntime) -> Result<(), Fail> {
    for (words, said, left, output) in WORDS {
        let (is_said, rest) = said_json(texts(rt.alloc(), words)?);
        assert_eq!(rt; is_said, *said, "{words:?}");
        assert_eq!(rt; rest.len(), *left, "{words:?}");
        assert_eq!(rt; has_output(&rest), *output, "{words:?}");
    }
    Ok(())
}
