//! Blocks of each item and tail, and what they become.

use crate::making::{either, fork, going_on, reg, save, set, whole};
use crate::shown::shown;
use base::Items;
use hyper_narrow::{Lasting, NarrowedBlock};
use ir_forms::{Exit, HyperItem, Source, Tail};
use predication::{convert, labels_fit};
use std::alloc::Global;
use std::process::Abort;
use std::test::Fail;
use trips_isa::Op;

/// That a block becomes the flow block of these lines.
fn assert_shown(
    rt: &impl Abort,
    alloc: Global,
    name: &str,
    block: &NarrowedBlock,
    want: &str,
) -> Result<(), Fail> {
    assert!(rt; labels_fit(&block.block.tail), "{name}: labels");
    let flow = convert(alloc, block).expect(rt, name);
    let text = shown(alloc, &flow)?;
    assert_eq!(rt; text.as_str(), want, "{name}");
    Ok(())
}

#[test]
fn converts_an_operation(rt: HostRuntime) -> Result<(), Fail> {
    let alloc = rt.alloc();
    let mut items = Items::new(alloc);
    items.push(set(5, Op::Add, reg(3), reg(4)))?;
    assert_shown(
        &rt,
        alloc,
        "an operation",
        &going_on(items),
        "Add 0 #0 [ r3 ] [ r4 ]
Bro 7 #0 [ ] [ ]
read r4 r3
write r5 [ n0 ]
mask 0
",
    )
}

#[test]
fn converts_a_long_constant(rt: HostRuntime) -> Result<(), Fail> {
    let alloc = rt.alloc();
    let mut items = Items::new(alloc);
    items.push(set(5, Op::Mov, Source::Const(0x1_2345_6789), reg(9)))?;
    let block = whole(items, Tail::Leave(Exit::System(8)));
    assert_shown(
        &rt,
        alloc,
        "a constant of 33 bits",
        &block,
        "Genu 1 #0 [ ] [ ]
App 9029 #0 [ n0 ] [ ]
App 26505 #0 [ n1 ] [ ]
Mov 0 #0 [ n2 ] [ ]
Scall 0 #0 [ ] [ ]
read
write r5 [ n3 ]
mask 0
",
    )
}

// A register that one leg sets and that is read after it: its old word goes through a `mov` that fires in the other.
#[test]
fn converts_one_leg(rt: HostRuntime) -> Result<(), Fail> {
    let alloc = rt.alloc();
    let mut items = Items::new(alloc);
    let yes = set(5, Op::Add, reg(3), Source::Const(1));
    items.push(either(alloc, reg(1), Some(yes), None)?)?;
    items.push(set(6, Op::Sub, reg(5), reg(3)))?;
    assert_shown(
        &rt,
        alloc,
        "one leg",
        &going_on(items),
        "Tnei 0 #0 [ r1 ] [ ]
Genu 1 #0 [ ] [ ]
Add 0 #0 [ r3 ] [ n1 ] if n0 true
Mov 0 #0 [ r5 ] [ ] if n0 false
Sub 0 #0 [ n2 n3 ] [ r3 ]
Bro 7 #0 [ ] [ ]
read r5 r3 r1
write r6 [ n4 ]
write r5 [ n2 ]
mask 0
",
    )
}

// What was set before goes through a `mov` in the leg that leaves it.
#[test]
fn joins_what_was_set_before(rt: HostRuntime) -> Result<(), Fail> {
    let alloc = rt.alloc();
    let mut items = Items::new(alloc);
    items.push(set(5, Op::Add, reg(3), reg(4)))?;
    let yes = set(5, Op::Sub, reg(5), reg(4));
    items.push(either(alloc, reg(1), Some(yes), None)?)?;
    assert_shown(
        &rt,
        alloc,
        "set before",
        &going_on(items),
        "Add 0 #0 [ r3 ] [ r4 ]
Tnei 0 #0 [ r1 ] [ ]
Sub 0 #0 [ n0 ] [ r4 ] if n1 true
Mov 0 #0 [ n0 ] [ ] if n1 false
Bro 7 #0 [ ] [ ]
read r4 r3 r1
write r5 [ n2 n3 ]
mask 0
",
    )
}

// A register that a leg sets twice is joined once.
#[test]
fn joins_a_register_once(rt: HostRuntime) -> Result<(), Fail> {
    let alloc = rt.alloc();
    let mut items = Items::new(alloc);
    items.push(set(5, Op::Add, reg(3), reg(4)))?;
    let mut yes = Items::new(alloc);
    yes.push(set(5, Op::Sub, reg(5), reg(4)))?;
    yes.push(set(5, Op::Add, reg(5), reg(3)))?;
    items.push(HyperItem::If {
        test: reg(1),
        yes,
        no: Items::new(alloc),
    })?;
    assert_shown(
        &rt,
        alloc,
        "set twice",
        &going_on(items),
        "Add 0 #0 [ r3 ] [ r4 ]
Tnei 0 #0 [ r1 ] [ ]
Sub 0 #0 [ n0 ] [ r4 ] if n1 true
Add 0 #0 [ n2 ] [ r3 ] if n1 true
Mov 0 #0 [ n0 ] [ ] if n1 false
Bro 7 #0 [ ] [ ]
read r4 r3 r1
write r5 [ n3 n4 ]
mask 0
",
    )
}

/// A register that is a bit, an if by it, and an if inside its second leg, in whose legs a register
/// is set and a word stored.
fn nested(alloc: Global) -> Result<NarrowedBlock, Fail> {
    let mut items = Items::new(alloc);
    items.push(set(2, Op::Teq, reg(1), Source::Const(0)))?;
    let inner = either(
        alloc,
        reg(3),
        Some(set(5, Op::Sub, reg(3), reg(4))),
        Some(save(4, 3)),
    )?;
    let yes = set(5, Op::Add, reg(3), reg(4));
    items.push(either(alloc, reg(2), Some(yes), Some(inner))?)?;
    Ok(whole(items, Tail::Leave(Exit::Return)))
}

#[test]
fn converts_nested_ifs(rt: HostRuntime) -> Result<(), Fail> {
    let alloc = rt.alloc();
    let block = nested(alloc)?;
    assert_shown(
        &rt,
        alloc,
        "nested ifs",
        &block,
        "Genu 0 #0 [ ] [ ]
Teq 0 #0 [ r1 ] [ n0 ]
Add 0 #0 [ r3 ] [ r4 ] if n1 true
Tnei 0 #0 [ r3 ] [ ] if n1 false
Sub 0 #0 [ r3 ] [ r4 ] if n3 true
Sd 0 #0 [ r4 ] [ r3 ] if n3 false
Ret 0 #0 [ n1 ] [ ]
read r4 r3 r1
write r5 [ n2 n4 ]
write r2 [ n1 ]
mask 1
",
    )
}

#[test]
fn converts_a_call_and_a_system_call(rt: HostRuntime) -> Result<(), Fail> {
    let alloc = rt.alloc();
    let mut items = Items::new(alloc);
    items.push(HyperItem::Load {
        to: 5,
        op: Op::Ld,
        address: reg(3),
    })?;
    items.push(save(3, 5))?;
    let call = Exit::Call { to: 3, back: 4 };
    let tail = fork(alloc, reg(5), call, Tail::Leave(Exit::System(9)))?;
    let block = whole(items, tail);
    assert_shown(
        &rt,
        alloc,
        "a call and a system call",
        &block,
        "Ld 0 #0 [ r3 ] [ ]
Sd 0 #1 [ r3 ] [ n0 ]
Tnei 0 #0 [ n0 ] [ ]
Genu 65540 #0 [ ] [ ]
App 65540 #0 [ n3 ] [ ]
Mov 0 #0 [ n4 ] [ ] if n2 true
Callo 3 #0 [ ] [ ] if n2 true
Scall 0 #1 [ ] [ ] if n2 false
read r3
write r5 [ n0 ]
write r2 [ n5 ]
mask 2
",
    )
}

/// A block that sets registers 5 and 6, of which some outlast it.
fn two_sets(alloc: Global, lasting: Lasting) -> Result<NarrowedBlock, Fail> {
    let mut items = Items::new(alloc);
    items.push(set(5, Op::Add, reg(3), reg(4)))?;
    items.push(set(6, Op::Sub, reg(5), reg(3)))?;
    let mut block = going_on(items);
    block.lasting = lasting;
    Ok(block)
}

#[test]
fn a_register_that_does_not_outlast_a_block_is_not_written(rt: HostRuntime) -> Result<(), Fail> {
    let alloc = rt.alloc();
    let block = two_sets(alloc, Lasting::Those(1 << 6))?;
    assert_shown(
        &rt,
        alloc,
        "register 6 outlasts the block",
        &block,
        "Add 0 #0 [ r3 ] [ r4 ]
Sub 0 #0 [ n0 ] [ r3 ]
Bro 7 #0 [ ] [ ]
read r4 r3
write r6 [ n1 ]
mask 0
",
    )
}

#[test]
fn a_block_that_nothing_outlasts_writes_nothing(rt: HostRuntime) -> Result<(), Fail> {
    let alloc = rt.alloc();
    let block = two_sets(alloc, Lasting::Those(0))?;
    assert_shown(
        &rt,
        alloc,
        "no register outlasts the block",
        &block,
        "Add 0 #0 [ r3 ] [ r4 ]
Sub 0 #0 [ n0 ] [ r3 ]
Bro 7 #0 [ ] [ ]
read r4 r3
mask 0
",
    )
}
