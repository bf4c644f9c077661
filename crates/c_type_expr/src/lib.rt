//! The typing of expressions (C17 6.5, 6.6): the first node that fails, in the order of the text and a node's
//! operands before the node, or the typed tree, in which every conversion is a node. And what the names of a
//! translation unit mean, block by block (C17 6.2.1): [`Scopes`] is seen as the list of the blocks that are open, and
//! a call of it takes time in proportion to the names that it touches.
//!
//! The rules stand in specs/Typed, one for each node; first faults in specs/Faults, specs/Blames and specs/Constants,
//! typed trees as a function in specs/Trees and specs/Conversions, roles and what may be written to in specs/Roles,
//! and names in specs/Scope.
#![tactic(auto)]

mod arguments;
mod build;
mod constants;
mod entries;
mod exact;
mod expressions;
mod fault;
mod found;
mod leaves;
mod meaning;
mod role;
mod scopes;
mod spot;

pub use build::{kind_of, with_convert};
pub use constants::{full, full_constant, length_or_zero, size_length};
pub use exact::typing_is_exact;
pub use expressions::type_expr;
pub use fault::TypeFault;
pub use meaning::{Binding, Meaning};
pub use role::{Role, same_row};
pub use scopes::Scopes;
pub use spot::Spot;
