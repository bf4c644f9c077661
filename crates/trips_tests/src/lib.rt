//! Words of a command line with their requests, reports of runs and refusals, and target texts and images through the
//! tools, which assemble, disassemble and check them: all as tests.
#![tactic(auto)]

#[cfg(test)]
mod report_tests;
#[cfg(test)]
mod request_tests;
#[cfg(test)]
mod requests;
#[cfg(test)]
mod spelling_tests;
#[cfg(test)]
mod tools_tests;
#[cfg(test)]
mod usage_tests;
