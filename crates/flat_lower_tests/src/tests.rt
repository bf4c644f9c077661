//! What texts of C put out and give, as a compiler of C has it, in both forms.
use crate::both::Both;
use crate::{expression_texts, texts};
use std::alloc::Global;
use std::process::Abort;

/// A text with its input, and what it puts out and gives.
#[derive(Clone, Copy)]
struct Row {
    name: &'static str,
    text: &'static str,
    input: &'static [u8],
    output: &'static [u8],
    result: i32,
}

const STATEMENTS: &[Row] = &[
    Row {
        name: "end of main",
        text: texts::END_OF_MAIN,
        input: b"",
        output: b"",
        result: 0,
    },
    Row {
        name: "end of a called main",
        text: texts::END_OF_A_CALLED_MAIN,
        input: b"",
        output: b"",
        result: 5,
    },
    Row {
        name: "divisions",
        text: texts::DIVISIONS,
        input: b"",
        output: b"",
        result: -31,
    },
    Row {
        name: "mixed signs",
        text: texts::MIXED_SIGNS,
        input: b"",
        output: b"",
        result: 3,
    },
    Row {
        name: "dangling else",
        text: texts::DANGLING_ELSE,
        input: b"",
        output: b"",
        result: 5,
    },
    Row {
        name: "doubling",
        text: texts::DOUBLING,
        input: b"",
        output: b"",
        result: 256,
    },
    Row {
        name: "counting down",
        text: texts::COUNTING_DOWN,
        input: b"",
        output: b"",
        result: 50,
    },
    Row {
        name: "only a byte",
        text: texts::ONLY_A_BYTE,
        input: b"",
        output: b"xy\xff",
        result: 0,
    },
    Row {
        name: "word count",
        text: texts::WORD_COUNT,
        input: b"a bb\nccc",
        output: b"3\n",
        result: 3,
    },
    Row {
        name: "statements",
        text: texts::STATEMENTS,
        input: b"",
        output: b"gfacdejhceghfedlkbidgghicuem",
        result: 51631,
    },
    Row {
        name: "arrays",
        text: texts::ARRAYS,
        input: b"",
        output: b"EDCBA\x18`\x00",
        result: 484009,
    },
    Row {
        name: "odd lengths",
        text: texts::ODD_LENGTHS,
        input: b"",
        output: b"@@@@",
        result: -72560,
    },
    Row {
        name: "recursion",
        text: texts::RECURSION,
        input: b"",
        output: b"1844674407370955161589kmo",
        result: 117118,
    },
    Row {
        name: "falling off",
        text: texts::FALLING_OFF,
        input: b"",
        output: b"84",
        result: 0,
    },
    Row {
        name: "input",
        text: texts::INPUT,
        input: b"Ax\xf0z!\xff\xfe Hello, World\n\x00end",
        output: b"ABC\x00hELLO\x0c\x00wORLD* END",
        result: 39434,
    },
    Row {
        name: "put values",
        text: texts::PUT_VALUES,
        input: b"",
        output: b"\xff,,,",
        result: 255044,
    },
    Row {
        name: "large arrays",
        text: texts::LARGE_ARRAYS,
        input: b"",
        output: b"",
        result: 464,
    },
    Row {
        name: "sieve",
        text: texts::SIEVE,
        input: b"",
        output: b"46",
        result: 46,
    },
    Row {
        name: "queens",
        text: texts::QUEENS,
        input: b"",
        output: b"4\n",
        result: 4,
    },
    Row {
        name: "sort",
        text: texts::SORT,
        input: b"the quick\tbrown \xff\x80 fox",
        output: b"\x80\xff\t   bcefhiknooqrtuwx\n",
        result: 22,
    },
    Row {
        name: "words",
        text: texts::WORDS,
        input: b" one two\n\tthree  4 5 6 7 8 9 10 eleven\n",
        output: b"11\n",
        result: 11,
    },
];

const EXPRESSIONS: &[Row] = &[
    Row {
        name: "short circuits",
        text: expression_texts::SHORT_CIRCUITS,
        input: b"",
        output: b"02030500779c1023010",
        result: 2108,
    },
    Row {
        name: "choices",
        text: expression_texts::CHOICES,
        input: b"",
        output: b"120308",
        result: 311628,
    },
    Row {
        name: "negative chars",
        text: expression_texts::NEGATIVE_CHARS,
        input: b"",
        output: b"ynyn\xc8y",
        result: 5604027,
    },
    Row {
        name: "unsigned comparisons",
        text: expression_texts::UNSIGNED_COMPARISONS,
        input: b"",
        output: b"10101010100111011111011111010111",
        result: 1349265267,
    },
    Row {
        name: "edges",
        text: expression_texts::EDGES,
        input: b"",
        output: b"\x00\xff\xe1>\x82\xbe\x01/\xb0Ns\xed\xba\x86:\x04|\x05\x9b\xc5\xdb\x8c\
            \xf4\x8c\xf4\x8c\xf4c\xfe\xc9Vk\xf6\xcavJ\xf7>\x87Y\xc89\xe7\xf9'\xba\
            \x86?\xa1\x80\x81\x9fB\xff\xe0\x1f\xc2\x80\x7f`\xa2\xa2\x9d\x02B\x06\xb9\
            fb\xee\xd1N\x82\xde\xe1>\xa2\xde\xe1>\xc2\xfe\xc1^\xe2^a\xbe\x02>\x81\
            \x9e\"\x1e\xa1~B\xfe\xc1^b\xde\xe1>\x82\xbe\x01\x1e\xa2\x9e!\xfe\xc2~A\
            \xde\xe2^a\xbe\x02>\x81\x9e\"\x1e\xa1~B\xfe\xc1^b\xde\xe1>\x82\xbe\x01\
            \x1e\xa2\x9e!\xfe\xc2~A\xde\xe2^a>\x82\xbe\x81\xde\xe2^\xa1\x9e\"\x1e\
            \xc1nR\xee\xe1Fz\xc6\x01\"\x1e\xa2\xa1\x80\x80\x80\x81\x9fB\xff\xe1?\xa2\
            \x1e\xa2\x9e\xa2\x9e\"\x1e\xa2\x9e\"\x1e\xa2\x9e\x12&\x9a\xae\x11\x0e\
            \xba\x869\xe6\xdafY\xc6\xfaFy&\x9a\xa6\x1bE\\$\\\xa3\xbc\xc9W",
        result: -308549033,
    },
    Row {
        name: "longs",
        text: expression_texts::LONGS,
        input: b"",
        output: b"-4052555153018976267 142857142857142857 -55686 6087383950513544605",
        result: 273,
    },
    Row {
        name: "signed powers",
        text: expression_texts::SIGNED_POWERS,
        input: b"",
        output: b"\x11&",
        result: 1152128296,
    },
    Row {
        name: "many scalars",
        text: expression_texts::MANY_SCALARS,
        input: b"",
        output: b"",
        result: 124536,
    },
    Row {
        name: "nested calls",
        text: expression_texts::NESTED_CALLS,
        input: b"",
        output: b"356445238.37023379875",
        result: 44,
    },
    Row {
        name: "eight arguments",
        text: expression_texts::EIGHT_ARGUMENTS,
        input: b"",
        output: b"Abcd",
        result: 10554,
    },
    Row {
        name: "scalars",
        text: expression_texts::SCALARS,
        input: b"",
        output: b"",
        result: 3609548,
    },
];

fn assert_rows(rt: &impl Abort, alloc: Global, rows: &[Row]) {
    for row in rows {
        let both = Both::of_text(rt, alloc, row.name, row.text.as_bytes());
        let done = both.assert_same(rt, alloc, row.name, row.input);
        assert_eq!(rt;
            done.output.as_slice(),
            row.output,
            "{}: the output",
            row.name
        );
        assert_eq!(rt; done.result, row.result as i64, "{}: the result", row.name);
    }
}

#[test]
fn statements_do_what_they_mean(rt: HostRuntime) {
    assert_rows(&rt, rt.alloc(), STATEMENTS);
}

#[test]
fn expressions_give_what_they_mean(rt: HostRuntime) {
    assert_rows(&rt, rt.alloc(), EXPRESSIONS);
}
