//! Answers as JSON, from the words on.
use std::alloc::{AllocError, Global};
use std::test::Fail;
use trips_outside::{HonestSink, MemFiles, MemSink};
use trips_run::{Status, said_json, trips_json};
use trips_run_harness::{files_of, words_of};

// Words, a text, and what is answered.
type Row = (&'static [&'static str], &'static str, Status, &'static str);

const ROWS: &[Row] = &[
    (
        &["run", "a.c", "--json"],
        "#include <stdio.h>\nint main(void) { puts(\"result 1\"); return 7; }",
        Status::Ended,
        "{\"answer\":\"ended\",\"exit\":0,\"output\":\"result 1\\n\",\"ending\":\"result 7\",\"values\":{},\
         \"lines\":[]}\n",
    ),
    (
        &["--json", "eval", "a.c", "--steps", "1"],
        "int main(void) { return 7; }",
        Status::Budget,
        "{\"answer\":\"budget\",\"exit\":5,\"values\":{},\"lines\":[\"more\"]}\n",
    ),
    (
        &["check", "--json", "a.c"],
        "TRIPSIMG",
        Status::Refused,
        "{\"answer\":\"refused\",\"exit\":4,\"values\":{},\"lines\":[\"refused image 3 Truncated at 8\"]}\n",
    ),
    (
        &["run", "b.c", "--json"],
        "",
        Status::ReadFault,
        "{\"answer\":\"read_fault\",\"exit\":3,\"values\":{},\"lines\":[\"read fault\"]}\n",
    ),
    (
        &["--json"],
        "",
        Status::Usage,
        "{\"answer\":\"usage\",\"exit\":2,\"values\":{},\"lines\":[\"usage\"]}\n",
    ),
];

// What the words are answered as JSON, and what is written.
fn answer_of(
    alloc: Global,
    texts: &[&str],
    held: &[(&str, &[u8])],
) -> Result<(Status, Vec<u8>), AllocError> {
    let (_, words) = said_json(words_of(alloc, texts)?);
    let mut files = MemFiles::make(files_of(alloc, held)?, 512, Vec::new(alloc));
    let Ok(mut sink) = HonestSink::make(alloc, 65_536) else {
        return Err(AllocError);
    };
    let status = trips_json(alloc, &words, &mut files, &mut sink);
    Ok((status, Vec::from_slice(alloc, sink.written())?))
}

#[test]
fn answers_as_json(rt: HostRuntime) -> Result<(), Fail> {
    for (words, text, status, object) in ROWS {
        let (said, written) = answer_of(rt.alloc(), words, &[("a.c", text.as_bytes())])?;
        assert_eq!(rt; said, *status, "{words:?}");
        assert_eq!(rt; written.as_slice(), object.as_bytes(), "{words:?}");
    }
    Ok(())
}
