use base::Items;
use c_tree::{Callee, Kind, Place, Slot, Word};

/// What a name means where it is in scope.
#[derive(Drop)]
pub enum Meaning {
    Scalar(Kind, Place),
    /// An array: the type of its elements, how many of them a row has where it has two sizes, and its place.
    Array {
        kind: Kind,
        row: Option<u32>,
        place: Place,
    },
    /// A function. `callee` is what a call of it calls, none where the unit does not define it; `defined`
    /// says whether its definition, or the include that stands for one, has come.
    Function {
        result: Option<Kind>,
        params: Items<Slot>,
        callee: Option<Callee>,
        defined: bool,
    },
    /// The constant `EOF` of `<stdio.h>`.
    EndOfFile,
}

/// A name and its meaning.
#[derive(Drop)]
pub struct Binding {
    pub name: Word,
    pub meaning: Meaning,
}

/// A binding, with the place of the next older one of its chain.
#[derive(Drop)]
pub struct Entry {
    pub binding: Binding,
    pub older: Option<usize>,
}
