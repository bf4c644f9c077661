//! Bytes behind the stores of a frame, loads that a store makes wrong, and a load that waits.

ghost use Rattle.std.specs.Prelude.{◌<◌, ◌≤◌};

use crate::{Reach, Sought, Waiters};
use base::Row;
use frame_state::Took;
use std::process::Abort;
use trips_isa::Stored;

fn store(number: u8, value: Option<u64>) -> Stored {
    Stored {
        number,
        address: 64,
        size: 2,
        value,
    }
}

// What a load of some bytes from 64 on takes of the stores below a number, over bytes of memory that are all 9.
fn taken(stores: &Row<Stored, 32, 1>, below: u8, address: u64, size: u8) -> u64
    requires size { size ≤ 8 }
    requires address { address < 1000 }
{
    Sought::of(address, size).pass(stores, below).over(&[9; 80])
}

#[test]
fn sees_the_nearest_store(rt: HostRuntime) {
    let mut stores = Row::none(store(0, None));
    stores.put(1, store(1, Some(0x1234)));
    stores.put(3, store(3, None));
    assert!(&rt; taken(&stores, 1, 64, 1) == 9, "its own number is not seen");
    assert!(&rt;
        taken(&stores, 32, 64, 1) == 0x12,
        "a null store is seen through"
    );
    assert!(&rt; taken(&stores, 32, 66, 1) == 9, "past its bytes");
    assert!(&rt;
        taken(&stores, 32, 62, 4) == 0x0909_1234,
        "behind memory's bytes"
    );
    stores.put(
        5,
        Stored {
            number: 5,
            address: 65,
            size: 1,
            value: Some(0xff),
        },
    );
    assert!(&rt;
        taken(&stores, 32, 64, 4) == 0x12ff_0909,
        "the nearest of two"
    );
    assert!(&rt;
        taken(&stores, 5, 64, 8) == 0x1234_0909_0909_0909,
        "a lower number"
    );
    assert!(&rt;
        taken(&stores, 32, 79, 2) == 0x0900,
        "past the end of memory"
    );
}

#[test]
fn waits_once_it_has_learned(rt: HostRuntime) {
    let mut waiters = Waiters::make();
    waiters.learn(33, 2);
    assert!(&rt; waiters.waits(1, 2), "blocks 1 and 33 share a flag");
    assert!(&rt; !waiters.waits(1, 3), "another number");
}

#[test]
fn finds_the_lowest_wrong_load(rt: HostRuntime) {
    let resolved = Stored {
        number: 2,
        address: 64,
        size: 2,
        value: Some(7),
    };
    let mut stores = Row::none(store(0, None));
    let mut loads = Row::none(Took::Nothing);
    stores.put(3, store(3, Some(1)));
    loads.put(4, Took::From(64, 1));
    let mut reach = Reach::of(Some(resolved));
    assert!(&rt;
        reach.first_wrong(&stores, &loads, 3).is_none(),
        "store 3 stands between"
    );
    loads.put(3, Took::From(65, 1));
    let mut reach = Reach::of(Some(resolved));
    assert!(&rt;
        reach.first_wrong(&stores, &loads, 3) == Some(3),
        "load 3 is before store 3"
    );
}
