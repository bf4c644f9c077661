use crate::{NO_PLACE, Role, Sense};

/// What a read or a slot takes and names, as places of the block (docs/MACHINE.md, "Places").
///
/// `slot` is the slot, whose operands are the places `slot` and `128 + slot` and whose predicate is
/// the place `256 + slot`; a read has `PLACES` here, and none of these. `first` and `second` are
/// the places that it names, `NO_PLACE` for none: a store names its number's place and a branch the exit.
/// `below` is its number's place for a load, else 0: the load sees the stores of lower places.
#[derive(Clone, Copy, Debug, PartialEq, Eq)]
pub struct Node {
    pub slot: u16,
    pub role: Role,
    pub sense: Sense,
    pub first: u16,
    pub second: u16,
    pub below: u16,
}

impl Default for Node {
    fn default() -> Node {
        Node {
            slot: 0,
            role: Role::Empty,
            sense: Sense::Always,
            first: NO_PLACE,
            second: NO_PLACE,
            below: 0,
        }
    }
}
