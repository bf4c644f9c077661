//! What four programs on one grid are answered: each as alone, and how many cycles they took together.
//!
//! specs/Report has the report and the status, said of the runs of the images alone; specs/Runs which cycles are
//! counted.
#![tactic(auto)]

mod running;
mod telling;

pub use running::four_answer;
pub use telling::program_line;
