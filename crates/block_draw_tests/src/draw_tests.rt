//! The drawings of two blocks.

use crate::elements::elements;
use block_draw::draw;
use std::alloc::Global;
use std::process::Abort;
use std::test::Fail;
use target_asm::assemble;

// A block that leaves, and one with a guard, a null token, a load and a store.
const TEXT: &str = "trips 1
data 0
block 0 mask 00000000
N[0] bro 0 @1
block 1 mask 00000002
R[0] read G[4] N[0,0] N[1,0]
R[1] read G[6] N[16,0]
W[0] write G[5]
N[0] lw 0 8 N[2,0]
N[1] tgti -3 N[3,0]
N[2] mov N[4,0] N[4,1]
N[3] mov N[16,p] N[17,p]
N[4] sw 1 0
N[5] scall 0
N[16] addi_t 7 W[0]
N[17] null_f W[0]
";

// What stands in the drawing of the first block, behind the head and before the foot.
const FIRST: &str = "<text class='title' x='610' y='24'>block 0</text>
<path class='leave' d='M 249 172 C 273 172 1050 163 1090 163'/>
<rect class='op' x='158' y='158' width='91' height='28' rx='0'/>
<text class='name' x='203' y='170'>bro</text>
<text class='slot' x='203' y='181'>N[0]</text>
<rect class='exit' x='1090' y='150' width='120' height='30' rx='0'/>
<text class='name' x='1150' y='162'>exit 0</text>
<text class='name' x='1150' y='175'>block 1</text>
<path class='left' d='M10 960H60'/>";

// What stands in that of the second.
const SECOND: &[&str] = &[
    // the read of G[4] goes to the left operand of slot 0, and G[6] to that of slot 16
    "<path class='left' d='M 174 64 C 174 104 178 134 178 158'/>",
    "<path class='left' d='M 231 64 C 231 104 291 134 291 158'/>",
    "<text class='name' x='231' y='56'>G[6]</text>",
    // the load is at the left under its number, and so is the store
    "<path class='load' d='M 100 159 C 140 159 203 134 203 158'/>",
    "<text class='name' x='55' y='163'>load 0</text>",
    "<path class='store' d='M 158 381 C 134 381 140 181 100 181'/>",
    "<text class='name' x='55' y='185'>store 1</text>",
    // both operands of the store, and a predicate
    "<path class='right' d='M 663 186 C 663 210 229 334 229 358'/>",
    "<path class='guard' d='M 893 186 C 893 210 243 172 267 172'/>",
    // what fires on true, what on false, and the null token
    "<rect class='yes' x='271' y='158' width='91' height='28' rx='0'/>",
    "<circle class='on' cx='271' cy='172' r='4'/>",
    "<text class='name' x='316' y='170'>addi_t 7</text>",
    "<rect class='no' x='501' y='158' width='91' height='28' rx='0'/>",
    "<rect class='null' x='504' y='161' width='85' height='22' rx='11'/>",
    "<circle class='off' cx='501' cy='172' r='4'/>",
    // the write below, and the exit by a system call
    "<path class='write' d='M 546 186 C 546 210 174 940 174 980'/>",
    "<text class='name' x='174' y='996'>G[5]</text>",
    "<text class='name' x='1150' y='175'>system call</text>",
];

// The page of a block of `TEXT`, all of whose branches lead to block 1.
fn page(rt: &impl Abort, alloc: Global, number: u32) -> Result<Vec<u8>, Fail> {
    let image = assemble(alloc, TEXT.as_bytes()).expect(rt, "a target text");
    let block = image
        .blocks
        .as_slice()
        .get(number as usize)
        .expect(rt, "a block");
    let mut page = Vec::new(alloc);
    draw(&mut page, number, block, &[1; 128])?;
    Ok(page)
}

// Each of these stands in the page, and it is one element with those in it.
fn assert_page(rt: &impl Abort, page: &[u8], parts: &[&str], count: u32) {
    let text = str::from_utf8(page).expect(rt, "text");
    for part in parts {
        assert!(rt; text.find(*part).is_some(), "{part}");
    }
    assert!(rt; elements(page) == Some(count), "{:?}", elements(page));
}

#[test]
fn the_first_block_is_drawn(rt: HostRuntime) -> Result<(), Fail> {
    let drawn = page(&rt, rt.alloc(), 0)?;
    assert_page(&rt, &drawn, &[FIRST], 35);
    Ok(())
}

#[test]
fn the_second_block_is_drawn(rt: HostRuntime) -> Result<(), Fail> {
    let drawn = page(&rt, rt.alloc(), 1)?;
    assert_page(&rt, &drawn, SECOND, 82);
    Ok(())
}

#[test]
fn what_is_no_page_has_no_elements(rt: HostRuntime) -> Result<(), Fail> {
    for text in [
        "<a>",
        "</a>",
        "<a></a></b>",
        "<a/>&",
        "<a",
        "<a<b/>",
        "<a b='<'/>",
        "a>",
    ] {
        assert!(rt; elements(text.as_bytes()).is_none(), "{text}");
    }
    assert!(rt; elements(b"a<a b='/'><c/>d</a>") == Some(2), "two");
    Ok(())
}
