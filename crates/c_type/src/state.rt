//! What the typing of a function keeps.

use base::Items;
use c_tree::{Kind, Slot, TypedArray};
use c_type_expr::Scopes;

/// What is around a statement: whether a `break` or a `continue` there is that of a loop or a switch.
#[derive(Clone, Copy, Debug, PartialEq, Eq)]
pub struct Around {
    pub may_break: bool,
    pub may_continue: bool,
}

/// The names in scope, and the scalars and arrays of the function so far.
#[derive(Drop)]
pub struct State {
    pub names: Scopes,
    pub scalars: Items<Slot>,
    pub arrays: Items<TypedArray>,
    pub result: Option<Kind>,
}
