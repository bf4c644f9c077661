use crate::Token;

/// What an instruction asks for when it fires: a token for its targets, the bytes at an address, a
/// store, or to leave the block.
#[derive(Clone, Copy, Debug, PartialEq, Eq)]
pub enum Fired {
    Value(Token),
    Loads(u8, Token),
    Stores(u8, Token, Token),
    Leaves(u8, Token),
}
