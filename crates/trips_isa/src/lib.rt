//! The words of the machine: operations, instructions, blocks and images as plain data.
//!
//! docs/MACHINE.md says what each operation does and which blocks are good.
#![tactic(auto)]

mod arithmetic;
mod block;
mod causes;
mod faults;
mod fired;
mod form;
mod law;
mod node;
mod op;
mod operands;
mod places;
mod run;
mod size;

pub use arithmetic::{alu, loaded};
pub use block::{Block, Image, Inst, ReadSlot, Sense, Spot, Stored, Token};
pub use causes::{NO_MARK, TrapCause, cause_of, number_of};
pub use faults::{fault, fault_at, own_fault};
pub use fired::Fired;
pub use form::{Form, Role, form_of, role_of, size_of};
pub use law::{first_producers_give, operands_say_the_rule, traps_have_numbers, words_give_words};
pub use node::Node;
pub use op::{OPERATIONS, Op, Row, row_of};
pub use operands::{Operands, is_guarded, least, mark_by, only_if, operands_of};
pub use places::{
    EXIT, FIRST_STORE, FIRST_WRITE, NO_PLACE, PLACES, constants_are_the_definitions, in_mask,
};
pub use run::{Counts, Ending, Stepped, Traced};
pub use size::chunks;
