//! What the typing of a translation unit keeps.

use base::Items;
use c_tree::{TypedFunc, TypedGlobal};
use c_type_expr::Scopes;

/// The names at file scope, the globals and the bytes that they take, and the functions so far.
#[derive(Drop)]
pub struct FileScope {
    pub names: Scopes,
    pub globals: Items<TypedGlobal>,
    pub bytes: u64,
    pub functions: Items<TypedFunc>,
}
