//! A row that is filled, emptied and cleared.

use crate::{Flags, Row};
use std::process::Abort;

#[test]
fn items_come_and_go(rt: HostRuntime) {
    let mut row: Row<u8, 100, 2> = Row::none(0);
    row.put(3, 7);
    row.put(99, 8);
    row.put(100, 9);
    row.put(64, 1);
    row.take(64);
    for (at, item) in [
        (3, Some(7)),
        (99, Some(8)),
        (100, None),
        (64, None),
        (0, None),
    ] {
        assert!(&rt; row.get(at) == item, "item {at}");
    }
    assert!(&rt; row.word(1) == 1 << 35, "the bits from 64 on");
    row.clear();
    assert!(&rt; row.get(3) == None, "a cleared row");
}

#[test]
fn flags_past_the_last_are_not_set(rt: HostRuntime) {
    let mut flags: Flags<70, 2> = Flags::none();
    flags.put(69);
    flags.put(70);
    assert!(&rt; flags.has(69), "the last flag");
    assert!(&rt; !flags.has(70), "a flag past the last");
}
