//! The requests that the words of a command line make, without a parser: [`request_with`] makes one of what was found
//! of a command's options. And what the answers to all requests share: the status and its number, an answer and those
//! that need no work, the reading of a file, and two pieces of reports. No command's work is here.
//!
//! What words say stands in specs/Words and specs/Options, numbers and their limits in specs/Limits, the request in
//! specs/Requests, what reading a file comes to and what a call writes in specs/Table and specs/Texts, and with which
//! number the program ends in specs/inside/ExitCodes.
#![tactic(auto)]

mod answer;
mod asking;
mod commands;
mod loading;
mod number;
mod results;
mod status;
mod texts;
mod values;

pub use answer::{Answer, no_request, too_large, unread};
pub use asking::{FoundOptions, counted, is_on, request_with, verb_named};
pub use commands::{
    Asked, Command, Cycles, DEFAULT_COUNT, DEFAULT_RECORDED, MOST_COUNT, MOST_CYCLE, MOST_DRAWN,
    MOST_FUNCTIONS, MOST_RECORDED, MOST_SEED, MOST_TURNS, PredictorStart, Tool, Verb, WeatherKind,
    constants_are_the_definitions,
};
pub use loading::{Loaded, read};
pub use results::{end_status, end_text};
pub use status::{Status, exit_code};
pub use texts::{on_line, output_text};
