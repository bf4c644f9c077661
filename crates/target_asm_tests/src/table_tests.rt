//! The table of operations, looked up both ways.

use isa_table::{mnemonic_of, with_mnemonic, with_numbers};
use std::process::Abort;

type Row = (&'static [u8], u32, u32);

/// Mnemonics with their opcodes and extended opcodes.
const ROWS: &[Row] = &[
    (b"add", 1, 0),
    (b"null", 1, 28),
    (b"andi", 2, 5),
    (b"tgeui", 2, 26),
    (b"ld", 22, 0),
    (b"sd", 27, 0),
    (b"bro", 32, 0),
    (b"scall", 36, 0),
    (b"app", 50, 0),
];

/// Numbers of no operation.
const NO_NUMBERS: &[(u32, u32)] = &[
    (0, 0),
    (1, 29),
    (2, 3),
    (3, 0),
    (16, 1),
    (23, 0),
    (51, 0),
    (127, 31),
];

const NO_MNEMONICS: &[&[u8]] = &[b"", b"ad", b"adds", b"Add"];

fn assert_row(rt: &impl Abort, word: &[u8], opcode: u32, extended: u32) {
    assert_eq!(rt;
        with_mnemonic(word),
        with_numbers(opcode, extended),
        "opcode {opcode}"
    );
    let op = with_mnemonic(word).expect(rt, "a mnemonic of the table");
    assert!(rt; mnemonic_of(op) == word, "the mnemonic of opcode {opcode}");
}

fn assert_rows(rt: &impl Abort, rows: &[Row]) {
    for (word, opcode, extended) in rows {
        assert_row(rt, *word, *opcode, *extended);
    }
}

fn assert_no_numbers(rt: &impl Abort, rows: &[(u32, u32)]) {
    for (opcode, extended) in rows {
        assert_eq!(rt;
            with_numbers(*opcode, *extended),
            None,
            "opcode {opcode}, extended {extended}"
        );
    }
}

fn assert_no_mnemonics(rt: &impl Abort, words: &[&[u8]]) {
    for word in words {
        assert_eq!(rt; with_mnemonic(*word), None, "a word that is no mnemonic");
    }
}

#[test]
fn operations_are_found_by_mnemonic_and_by_numbers(rt: HostRuntime) {
    assert_rows(&rt, ROWS);
    assert_no_numbers(&rt, NO_NUMBERS);
    assert_no_mnemonics(&rt, NO_MNEMONICS);
}
