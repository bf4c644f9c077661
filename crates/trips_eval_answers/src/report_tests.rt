//! Reports of an evaluation, and refusals by each stage of the front end.
ghost use Rattle.std.specs.Prelude.{◌<◌, length};

use crate::refusals::stage_refused;
use crate::reports::eval_report;
use base::Items;
use c_constant::Cause;
use c_front::Refusal;
use c_lex::LexFault;
use c_meaning::Outcome;
use c_meaning_spec::Fault;
use c_parse::ParseFault;
use c_tree::{BinaryOp, Kind, UnaryOp};
use c_type::TypeFault;
use std::alloc::{AllocError, Global};
use std::process::Abort;
use std::test::Fail;
use trips_requests::Status;

// A text of three lines.
const TEXT: &[u8] = b"int f;\n\tx\n";

fn assert_evaluation(
    rt: &impl Abort,
    alloc: Global,
    outcome: &Outcome,
    report: &str,
) -> Result<(), AllocError> {
    let written = eval_report(alloc, TEXT, outcome)?;
    assert_eq!(rt; written.as_slice(), report.as_bytes(), "{report}");
    Ok(())
}

#[test]
fn tells_an_evaluation(rt: HostRuntime) -> Result<(), Fail> {
    let alloc = rt.alloc();
    let more = Outcome::More {
        output: Items::new(alloc),
        at: Some(4),
        calls: Items::new(alloc),
    };
    assert_evaluation(&rt, alloc, &more, "more\n")?;
    let deep = Outcome::Deep {
        output: Items::new(alloc),
        at: Some(4),
        calls: Items::new(alloc),
    };
    assert_evaluation(&rt, alloc, &deep, "deep\n")?;
    let done = Outcome::Done {
        output: Items::from_vec(Vec::from_slice(alloc, b"3\n")?),
        result: -3,
        steps: 4,
    };
    assert_evaluation(&rt, alloc, &done, "output 2\n3\n\nresult -3\nsteps 4\n")?;
    let aborted = Outcome::Done {
        output: Items::new(alloc),
        result: i64::MIN,
        steps: 6,
    };
    assert_evaluation(&rt, alloc, &aborted, "output 0\n\naborted\nsteps 6\n")?;
    Ok(())
}

// Reasons and their sentences.
const TOLD: &[(Fault, &str)] = &[
    (
        Fault::Binary(Cause::Overflow, BinaryOp::Add, Kind::Int, 2_147_483_647, 1),
        "the sum 2147483647 + 1 is no int (C17 6.5p5)",
    ),
    (
        Fault::Binary(Cause::Overflow, BinaryOp::Subtract, Kind::Long, 1 << 63, 1),
        "the difference -9223372036854775808 - 1 is no long (C17 6.5p5)",
    ),
    (
        Fault::Binary(Cause::Overflow, BinaryOp::Multiply, Kind::Int, 65535, 65535),
        "the product 65535 * 65535 is no int (C17 6.5p5)",
    ),
    (
        Fault::Binary(
            Cause::Overflow,
            BinaryOp::Divide,
            Kind::Long,
            1 << 63,
            u64::MAX,
        ),
        "the quotient -9223372036854775808 / -1 is no long (C17 6.5.5p6)",
    ),
    (
        Fault::Binary(
            Cause::Overflow,
            BinaryOp::Remainder,
            Kind::Long,
            1 << 63,
            u64::MAX,
        ),
        "the remainder -9223372036854775808 % -1 has a quotient that is no long (C17 6.5.5p6)",
    ),
    (
        Fault::Binary(Cause::ZeroDivisor, BinaryOp::Divide, Kind::UInt, 7, 0),
        "the quotient 7 / 0 divides by a zero of type unsigned int (C17 6.5.5p5)",
    ),
    (
        Fault::Binary(
            Cause::ZeroDivisor,
            BinaryOp::Remainder,
            Kind::ULong,
            u64::MAX,
            0,
        ),
        "the remainder 18446744073709551615 % 0 divides by a zero of type unsigned long (C17 6.5.5p5)",
    ),
    (
        Fault::Binary(Cause::Count, BinaryOp::ShiftLeft, Kind::Int, 1, 32),
        "the shift 1 << 32 has a count outside the width of int (C17 6.5.7p3)",
    ),
    (
        Fault::Binary(Cause::Count, BinaryOp::ShiftRight, Kind::UInt, 1, u64::MAX),
        "the shift 1 >> -1 has a count outside the width of unsigned int (C17 6.5.7p3)",
    ),
    (
        Fault::Binary(
            Cause::NegativeLeft,
            BinaryOp::ShiftLeft,
            Kind::Int,
            u64::MAX,
            0,
        ),
        "the shift -1 << 0 is of a negative int (C17 6.5.7p4)",
    ),
    (
        Fault::Binary(Cause::Overflow, BinaryOp::ShiftLeft, Kind::Int, 1, 31),
        "the shift 1 << 31 is no int (C17 6.5.7p4)",
    ),
    (
        Fault::Unary(UnaryOp::Minus, Kind::Long, 1 << 63),
        "the negation of -9223372036854775808 is no long (C17 6.5p5)",
    ),
    (
        Fault::Outside(u64::MAX, 3),
        "the index -1 is outside its array of 3 (C17 6.5.6p8)",
    ),
    (
        Fault::OutsideRows(6, 3),
        "an index is outside its dimension of an array of 6 in rows of 3 (C17 6.5.6p8)",
    ),
    (
        Fault::NeverSet,
        "a value is taken that was never set (C17 6.3.2.1p2)",
    ),
    (
        Fault::NoValue,
        "a value is taken of a call that returned none (C17 6.9.1p12)",
    ),
];

#[test]
fn tells_why_an_evaluation_is_undefined(rt: HostRuntime) -> Result<(), Fail> {
    let alloc = rt.alloc();
    for (why, sentence) in TOLD {
        let undefined = Outcome::Undefined {
            output: Items::from_vec(Vec::from_slice(alloc, b"ab")?),
            why: *why,
            at: None,
            calls: Items::new(alloc),
        };
        let report = format!(in alloc; "output 2\nab\nundefined: {sentence}\n")?;
        assert_evaluation(&rt, alloc, &undefined, report.as_str())?;
    }
    Ok(())
}

// Places by their offsets in the text, and the words of them.
const PLACES: &[(Option<u32>, &str)] = &[
    (None, "undefined: "),
    (Some(0), "undefined at 1:1: "),
    (Some(6), "undefined at 1:7: "),
    (Some(8), "undefined at 2:2: "),
    (Some(10), "undefined at 3:1: "),
    (Some(99), "undefined at 3:1: "),
];

#[test]
fn tells_where_an_evaluation_is_undefined(rt: HostRuntime) -> Result<(), Fail> {
    let alloc = rt.alloc();
    for (at, words) in PLACES {
        let undefined = Outcome::Undefined {
            output: Items::new(alloc),
            why: Fault::NeverSet,
            at: *at,
            calls: Items::new(alloc),
        };
        let report = format!(in alloc;
            "output 0\n\n{words}a value is taken that was never set (C17 6.3.2.1p2)\n"
        )?;
        assert_evaluation(&rt, alloc, &undefined, report.as_str())?;
    }
    Ok(())
}

#[test]
fn tells_which_calls_were_open(rt: HostRuntime) -> Result<(), Fail> {
    let alloc = rt.alloc();
    let undefined = Outcome::Undefined {
        output: Items::new(alloc),
        why: Fault::NeverSet,
        at: Some(8),
        calls: Items::from_vec(Vec::from_slice(alloc, &[4, 0])?),
    };
    let never = "a value is taken that was never set (C17 6.3.2.1p2)";
    let report = format!(in alloc;
        "output 0\n\nundefined at 2:2: {never}, called at 1:5, called at 1:1\n"
    )?;
    assert_evaluation(&rt, alloc, &undefined, report.as_str())?;
    Ok(())
}

fn assert_refusal(
    rt: &impl Abort,
    alloc: Global,
    text: &[u8],
    refusal: Refusal,
    report: &str,
) -> Result<(), AllocError>
    requires short { length text.now < 4_294_967_295 }
{
    let answer = stage_refused(alloc, text, refusal)?;
    assert_eq!(rt; answer.status, Status::Refused, "{report}");
    assert_eq!(rt; answer.report.as_slice(), report.as_bytes(), "{report}");
    Ok(())
}

#[test]
fn tells_refusals_of_texts(rt: HostRuntime) -> Result<(), Fail> {
    let alloc = rt.alloc();
    let lex = Refusal::Lex(LexFault::Directive(0));
    assert_refusal(&rt, alloc, b"#if", lex, "refused lex 5 Directive line 1\n")?;
    let parse = Refusal::Parse(ParseFault::TooDeep(3));
    assert_refusal(
        &rt,
        alloc,
        b"a\n\n(",
        parse,
        "refused parse 2 TooDeep line 3\n",
    )?;
    let typing = Refusal::Typing(TypeFault::NoMain);
    assert_refusal(&rt, alloc, b"", typing, "refused type 5 NoMain\n")?;
    let need = Refusal::Typing(TypeFault::Need(1));
    assert_refusal(&rt, alloc, b"\na", need, "refused type 8 Need line 2\n")?;
    Ok(())
}

#[test]
fn want_of_memory_is_no_refusal(rt: HostRuntime) {
    let alloc = rt.alloc();
    assert!(rt; stage_refused(alloc, b"", Refusal::Memory).is_err());
    assert!(rt; stage_refused(alloc, b"", Refusal::Lex(LexFault::Memory)).is_err());
    assert!(rt; stage_refused(alloc, b"", Refusal::Parse(ParseFault::Memory)).is_err());
    assert!(rt; stage_refused(alloc, b"", Refusal::Typing(TypeFault::Memory)).is_err());
}
