//! Each operation on words at its edges, and what loads make of the bytes that they read.

use std::process::Abort;
use trips_isa::{Op, alu, loaded};

const MAX: u64 = u64::MAX;

/// The least signed number.
const LEAST: u64 = 0x8000_0000_0000_0000;

type Row = (Op, u64, u64, u64);

/// Each operation on two pairs of words at its edges; the wanted words are of whole numbers.
const ROWS: &[Row] = &[
    (Op::Add, MAX, 1, 0),
    (Op::Add, LEAST, LEAST, 0),
    (Op::Sub, 0, 1, MAX),
    (Op::Sub, LEAST, 1, 0x7fff_ffff_ffff_ffff),
    (Op::Mul, MAX, MAX, 1),
    (Op::Mul, 0x1_0000_0000, 0x1_0000_0000, 0),
    (Op::Divs, LEAST, MAX, LEAST),
    (Op::Divs, 0xffff_ffff_ffff_fff9, 2, 0xffff_ffff_ffff_fffd),
    (Op::Divu, MAX, 2, 0x7fff_ffff_ffff_ffff),
    (Op::Divu, 7, 0, 0),
    (Op::And, MAX, 65280, 65280),
    (Op::And, LEAST, 1, 0),
    (Op::Or, LEAST, 1, 0x8000_0000_0000_0001),
    (Op::Or, 0, 0, 0),
    (Op::Xor, MAX, 1, 0xffff_ffff_ffff_fffe),
    (Op::Xor, 5, 5, 0),
    (Op::Sll, 1, 63, LEAST),
    (Op::Sll, 3, 65, 6),
    (Op::Srl, LEAST, 63, 1),
    (Op::Srl, MAX, 64, MAX),
    (Op::Sra, LEAST, 63, MAX),
    (Op::Sra, 0xffff_ffff_ffff_fff8, 65, 0xffff_ffff_ffff_fffc),
    (Op::Extsb, 383, 0, 127),
    (Op::Extsb, 384, 0, 0xffff_ffff_ffff_ff80),
    (Op::Extsh, 98303, 0, 32767),
    (Op::Extsh, 98304, 0, 0xffff_ffff_ffff_8000),
    (Op::Extsw, 0x1_7fff_ffff, 0, 0x7fff_ffff),
    (Op::Extsw, 0x1_8000_0000, 0, 0xffff_ffff_8000_0000),
    (Op::Extub, MAX, 0, 255),
    (Op::Extub, 256, 0, 0),
    (Op::Extuh, MAX, 0, 65535),
    (Op::Extuh, 65536, 0, 0),
    (Op::Extuw, MAX, 0, 0xffff_ffff),
    (Op::Extuw, 0x1_0000_0000, 0, 0),
    (Op::Teq, MAX, MAX, 1),
    (Op::Teq, 0, LEAST, 0),
    (Op::Tne, MAX, MAX, 0),
    (Op::Tne, 0, LEAST, 1),
    (Op::Tlt, MAX, 0, 1),
    (Op::Tlt, 5, 5, 0),
    (Op::Tle, MAX, 0, 1),
    (Op::Tle, 5, 5, 1),
    (Op::Tgt, 0, MAX, 1),
    (Op::Tgt, 5, 5, 0),
    (Op::Tge, MAX, 0, 0),
    (Op::Tge, 5, 5, 1),
    (Op::Tltu, MAX, 0, 0),
    (Op::Tltu, 0, MAX, 1),
    (Op::Tleu, MAX, 0, 0),
    (Op::Tleu, 5, 5, 1),
    (Op::Tgtu, MAX, 0, 1),
    (Op::Tgtu, 5, 5, 0),
    (Op::Tgeu, 0, MAX, 0),
    (Op::Tgeu, 5, 5, 1),
    (Op::Mov, MAX, 7, MAX),
    (Op::Mov, 0, 7, 0),
    (Op::Null, MAX, MAX, 0),
    (Op::Null, 1, 2, 0),
    (Op::Addi, 255, 255, 510),
    (Op::Addi, 5, 0xffff_ffff_ffff_ff00, 0xffff_ffff_ffff_ff05),
    (Op::Subi, 255, 255, 0),
    (Op::Subi, 5, 0xffff_ffff_ffff_ff00, 261),
    (Op::Muli, 255, 255, 65025),
    (Op::Muli, 5, 0xffff_ffff_ffff_ff00, 0xffff_ffff_ffff_fb00),
    (Op::Andi, 255, 255, 255),
    (Op::Andi, 5, 0xffff_ffff_ffff_ff00, 0),
    (Op::Ori, 255, 255, 255),
    (Op::Ori, 5, 0xffff_ffff_ffff_ff00, 0xffff_ffff_ffff_ff05),
    (Op::Xori, 255, 255, 0),
    (Op::Xori, 5, 0xffff_ffff_ffff_ff00, 0xffff_ffff_ffff_ff05),
    (Op::Slli, 1, 255, LEAST),
    (Op::Slli, 3, 0xffff_ffff_ffff_ffc1, 6),
    (Op::Srli, MAX, 63, 1),
    (Op::Srli, MAX, MAX, 1),
    (Op::Srai, LEAST, 1, 0xc000_0000_0000_0000),
    (Op::Srai, MAX, 255, MAX),
    (Op::Teqi, 255, 255, 1),
    (Op::Teqi, 5, 0xffff_ffff_ffff_ff00, 0),
    (Op::Tnei, 255, 255, 0),
    (Op::Tnei, 5, 0xffff_ffff_ffff_ff00, 1),
    (Op::Tlti, 255, 255, 0),
    (Op::Tlti, 5, 0xffff_ffff_ffff_ff00, 0),
    (Op::Tlei, 255, 255, 1),
    (Op::Tlei, 5, 0xffff_ffff_ffff_ff00, 0),
    (Op::Tgti, 255, 255, 0),
    (Op::Tgti, 5, 0xffff_ffff_ffff_ff00, 1),
    (Op::Tgei, 255, 255, 1),
    (Op::Tgei, 5, 0xffff_ffff_ffff_ff00, 1),
    (Op::Tltui, 255, 255, 0),
    (Op::Tltui, 5, 0xffff_ffff_ffff_ff00, 1),
    (Op::Tleui, 255, 255, 1),
    (Op::Tleui, 5, 0xffff_ffff_ffff_ff00, 1),
    (Op::Tgtui, 255, 255, 0),
    (Op::Tgtui, 5, 0xffff_ffff_ffff_ff00, 0),
    (Op::Tgeui, 255, 255, 1),
    (Op::Tgeui, 5, 0xffff_ffff_ffff_ff00, 0),
    (Op::Lb, MAX, MAX, 0),
    (Op::Lb, 1, 2, 0),
    (Op::Lbs, MAX, MAX, 0),
    (Op::Lbs, 1, 2, 0),
    (Op::Lh, MAX, MAX, 0),
    (Op::Lh, 1, 2, 0),
    (Op::Lhs, MAX, MAX, 0),
    (Op::Lhs, 1, 2, 0),
    (Op::Lw, MAX, MAX, 0),
    (Op::Lw, 1, 2, 0),
    (Op::Lws, MAX, MAX, 0),
    (Op::Lws, 1, 2, 0),
    (Op::Ld, MAX, MAX, 0),
    (Op::Ld, 1, 2, 0),
    (Op::Sb, 8, MAX, MAX),
    (Op::Sb, 0, 1, 1),
    (Op::Sh, 8, MAX, MAX),
    (Op::Sh, 0, 1, 1),
    (Op::Sw, 8, MAX, MAX),
    (Op::Sw, 0, 1, 1),
    (Op::Sd, 8, MAX, MAX),
    (Op::Sd, 0, 1, 1),
    (Op::Bro, MAX, MAX, 0),
    (Op::Bro, 1, 2, 0),
    (Op::Callo, MAX, MAX, 0),
    (Op::Callo, 1, 2, 0),
    (Op::Br, 256, 0, 256),
    (Op::Br, MAX, 0, MAX),
    (Op::Ret, 256, 0, 256),
    (Op::Ret, 0, 9, 0),
    (Op::Scall, MAX, MAX, 0),
    (Op::Scall, 1, 2, 0),
    (Op::Genu, 0, 0, 0),
    (Op::Genu, 0, 65535, 65535),
    (Op::Gens, 0, 0xffff_ffff_ffff_8000, 0xffff_ffff_ffff_8000),
    (Op::Gens, 0, 32767, 32767),
    (Op::App, 2, 5, 0x2_0005),
    (Op::App, MAX, 65535, MAX),
];

fn assert_rows(rt: &impl Abort, rows: &[Row]) {
    for (op, left, right, wanted) in rows {
        assert_eq!(rt;
            alu(*op, *left, *right),
            *wanted,
            "the operation {op:?} on {left} and {right}"
        );
    }
}

#[test]
fn operations_at_their_edges(rt: HostRuntime) {
    assert_rows(&rt, ROWS);
}

type LoadRow = (Op, u64, u64);

/// Each load, the bytes that it reads as a number, and the wanted word.
const LOADS: &[LoadRow] = &[
    (Op::Lb, 0x80, 0x80),
    (Op::Lbs, 0x80, 0xffff_ffff_ffff_ff80),
    (Op::Lh, 0x8000, 0x8000),
    (Op::Lhs, 0x8000, 0xffff_ffff_ffff_8000),
    (Op::Lw, 0x8000_0000, 0x8000_0000),
    (Op::Lws, 0x8000_0000, 0xffff_ffff_8000_0000),
    (Op::Ld, MAX, MAX),
];

fn assert_loads(rt: &impl Abort, rows: &[LoadRow]) {
    for (op, bytes, wanted) in rows {
        assert_eq!(rt; loaded(*op, *bytes), *wanted, "the load {op:?} of {bytes}");
    }
}

#[test]
fn loads_extend_what_they_read(rt: HostRuntime) {
    assert_loads(&rt, LOADS);
}
