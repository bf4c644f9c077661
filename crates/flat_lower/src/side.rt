use c_tree::Place;

/// What a left side is: a name, an element of an array, or nothing that can be written.
#[derive(Clone, Copy, Debug, PartialEq, Eq)]
pub enum Side {
    Name(Place),
    Element(Place),
    Neither,
}
