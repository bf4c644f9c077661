//! Guards and nulls in the images of texts.

use c_compile::compile;
use grid_place::Placing;
use std::alloc::Global;
use std::process::Abort;
use trips_isa::{Block, Form, Inst, Op, Sense, form_of};

/// How many nulls there are, and how many instructions with a guard that are no branches.
#[derive(Clone, Copy)]
struct Found {
    nulls: u32,
    guarded: u32,
}

fn add_inst(found: &mut Found, inst: &Inst) {
    if inst.op == Op::Null {
        found.nulls = found.nulls.saturating_add(1);
    }
    if inst.sense != Sense::Always && form_of(inst.op) != Form::Branch {
        found.guarded = found.guarded.saturating_add(1);
    }
}

fn add_block(found: &mut Found, block: &Block) {
    for slot in block.insts.as_slice() {
        match slot {
            None => {}
            Some(inst) => add_inst(found, inst),
        }
    }
}

/// What the image of a text holds; none where the text is refused.
fn found_in(alloc: Global, text: &str) -> Option<Found> {
    let bytes = text.as_bytes();
    if bytes.len() >= 4_294_967_295 {
        return None;
    }
    let Ok(checked) = compile(alloc, bytes, Placing::Greedy) else {
        return None;
    };
    let Ok(image) = checked.copy_out(alloc) else {
        return None;
    };
    let mut found = Found {
        nulls: 0,
        guarded: 0,
    };
    for block in image.blocks.as_slice() {
        add_block(&mut found, block);
    }
    Some(found)
}

// A text, and whether its image must hold a null and a guarded instruction.
type Row = (&'static str, bool, bool);

// Where one leg alone sets a variable that was set before, the other leg's write is a null.
const ROWS: &[Row] = &[
    (
        "#include <stdio.h>\nint main(void) { int x = 5; int c = getchar(); if (c < 0) x = 7; getchar(); return x; }",
        true,
        true,
    ),
    (
        "int a[2]; int main(void) { int i = 1; if (i) a[i] = 3; return a[1]; }",
        true,
        true,
    ),
    // behind a return
    (
        "int main(void) { int x = 5; return x; if (x) x = 7; }",
        true,
        true,
    ),
    ("int main(void) { return 7; }", false, false),
];

fn assert_rows(rt: &impl Abort, alloc: Global, rows: &[Row]) {
    for (text, nulls, guarded) in rows {
        let found = found_in(alloc, *text);
        assert!(rt; found.is_some(), "{text}");
        if let Some(found) = found {
            assert!(rt; (found.nulls > 0) == *nulls, "nulls of {text}");
            assert!(rt; (found.guarded > 0) == *guarded, "guards of {text}");
        }
    }
}

#[test]
fn ifs_become_guards_and_nulls(rt: HostRuntime) {
    assert_rows(&rt, rt.alloc(), ROWS);
}
