//! Blocks with a quotient and a remainder of one number, before and after they divide once.

use crate::making::{either, going_on, reg, set};
use crate::shown::shown;
use base::Items;
use flow_fold::{fold, share, sweep};
use flow_guards::unguard;
use hyper_narrow::NarrowedBlock;
use ir_forms::{FlowBlock, HyperItem, Source};
use predication::{convert, labels_fit};
use std::alloc::Global;
use std::process::Abort;
use std::test::Fail;
use trips_isa::Op;

// What the passes up to folding make of a flow block.
fn eased(rt: &impl Abort, alloc: Global, name: &str, block: FlowBlock) -> Result<FlowBlock, Fail> {
    let loose = unguard(alloc, block).expect(rt, name);
    let shared = share(alloc, loose).expect(rt, name);
    let lean = sweep(alloc, shared).expect(rt, name);
    let folded = fold(alloc, lean).expect(rt, name);
    let swept = sweep(alloc, folded).expect(rt, name);
    Ok(swept)
}

// That a block becomes the flow block of the first lines, and that one the block of the others.
fn assert_eased(
    rt: &impl Abort,
    alloc: Global,
    name: &str,
    block: &NarrowedBlock,
    first: &str,
    last: &str,
) -> Result<(), Fail> {
    assert!(rt; labels_fit(&block.block.tail), "{name}: labels");
    let flow = convert(alloc, block).expect(rt, name);
    let text = shown(alloc, &flow)?;
    assert_eq!(rt; text.as_str(), first, "{name}: before");
    let end = eased(rt, alloc, name, flow)?;
    let text = shown(alloc, &end)?;
    assert_eq!(rt; text.as_str(), last, "{name}: after");
    Ok(())
}

// r5 is the quotient of r3 by 10, and r6 the remainder, by r7.
fn quotient() -> HyperItem {
    set(5, Op::Divs, reg(3), Source::Const(10))
}

fn push_remainder(items: &mut Items<HyperItem>, by: Source) -> Result<(), Fail> {
    items.push(set(7, Op::Divs, reg(3), by))?;
    items.push(set(7, Op::Mul, reg(7), by))?;
    items.push(set(6, Op::Sub, reg(3), reg(7)))?;
    Ok(())
}

#[test]
fn a_quotient_and_its_remainder_divide_once(rt: HostRuntime) -> Result<(), Fail> {
    let alloc = rt.alloc();
    let mut items = Items::new(alloc);
    items.push(quotient())?;
    push_remainder(&mut items, Source::Const(10))?;
    assert_eased(
        &rt,
        alloc,
        "by a constant",
        &going_on(items),
        "Genu 10 #0 [ ] [ ]
Divs 0 #0 [ r3 ] [ n0 ]
Genu 10 #0 [ ] [ ]
Divs 0 #0 [ r3 ] [ n2 ]
Genu 10 #0 [ ] [ ]
Mul 0 #0 [ n3 ] [ n4 ]
Sub 0 #0 [ r3 ] [ n5 ]
Bro 7 #0 [ ] [ ]
read r3
write r7 [ n5 ]
write r6 [ n6 ]
write r5 [ n1 ]
mask 0
",
        "Genu 10 #0 [ ] [ ]
Divs 0 #0 [ r3 ] [ n0 ]
Genu 10 #0 [ ] [ ]
Mul 0 #0 [ n1 ] [ n2 ]
Sub 0 #0 [ r3 ] [ n3 ]
Bro 7 #0 [ ] [ ]
read r3
write r7 [ n3 ]
write r6 [ n4 ]
write r5 [ n1 ]
mask 0
",
    )
}

#[test]
fn another_number_divides_again(rt: HostRuntime) -> Result<(), Fail> {
    let alloc = rt.alloc();
    let mut items = Items::new(alloc);
    items.push(quotient())?;
    push_remainder(&mut items, reg(4))?;
    assert_eased(
        &rt,
        alloc,
        "by another number",
        &going_on(items),
        "Genu 10 #0 [ ] [ ]
Divs 0 #0 [ r3 ] [ n0 ]
Divs 0 #0 [ r3 ] [ r4 ]
Mul 0 #0 [ n2 ] [ r4 ]
Sub 0 #0 [ r3 ] [ n3 ]
Bro 7 #0 [ ] [ ]
read r4 r3
write r7 [ n3 ]
write r6 [ n4 ]
write r5 [ n1 ]
mask 0
",
        "Genu 10 #0 [ ] [ ]
Divs 0 #0 [ r3 ] [ n0 ]
Divs 0 #0 [ r3 ] [ r4 ]
Mul 0 #0 [ n2 ] [ r4 ]
Sub 0 #0 [ r3 ] [ n3 ]
Bro 7 #0 [ ] [ ]
read r4 r3
write r7 [ n3 ]
write r6 [ n4 ]
write r5 [ n1 ]
mask 0
",
    )
}

// In a leg both are guarded, so neither stands for what comes behind it.
#[test]
fn a_guarded_quotient_stands_for_no_later_one(rt: HostRuntime) -> Result<(), Fail> {
    let alloc = rt.alloc();
    let mut items = Items::new(alloc);
    items.push(either(alloc, reg(1), Some(quotient()), None)?)?;
    items.push(set(7, Op::Divs, reg(3), Source::Const(10)))?;
    assert_eased(
        &rt,
        alloc,
        "behind a leg",
        &going_on(items),
        "Tnei 0 #0 [ r1 ] [ ]
Genu 10 #0 [ ] [ ]
Divs 0 #0 [ r3 ] [ n1 ] if n0 true
Genu 10 #0 [ ] [ ]
Divs 0 #0 [ r3 ] [ n3 ]
Bro 7 #0 [ ] [ ]
read r3 r1
write r7 [ n4 ]
write r5 [ n2 ]
mask 0
",
        "Tnei 0 #0 [ r1 ] [ ]
Genu 10 #0 [ ] [ ]
Divs 0 #0 [ r3 ] [ n1 ] if n0 true
Genu 10 #0 [ ] [ ]
Divs 0 #0 [ r3 ] [ n3 ]
Bro 7 #0 [ ] [ ]
read r3 r1
write r7 [ n4 ]
write r5 [ n2 ]
mask 0
",
    )
}
