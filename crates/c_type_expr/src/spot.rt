//! Where an expression stands.

/// The offset of an expression's first token, where its faults are told, and that of the token that names what it
/// does, which is the place of its typed tree.
#[derive(Clone, Copy, Debug, PartialEq, Eq)]
pub struct Spot {
    pub offset: u32,
    pub at: u32,
}
