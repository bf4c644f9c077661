//! The typing of a translation unit (C17 6.5 to 6.9).
#![tactic(auto)]

mod counts;
mod declarations;
mod file_scope;
mod functions;
mod globals;
mod includes;
mod initialisers;
mod jumps;
mod parameters;
mod parts;
mod program;
mod seen;
mod signatures;
mod state;
mod statements;
mod switches;

pub use c_type_expr::TypeFault;
pub use program::type_program;
