//! What the explanation of a file is answered: of a text of C, of a target text, and of an image. It stands over the
//! front end, the evaluator, the images and the messages alone. `specs/Explained` says what is told of a file.
#![tactic(auto)]

#[cfg(test)]
mod ended_tests;
mod evaluated;
mod explanation;
#[cfg(test)]
mod explanation_tests;
mod file_explanation;
mod file_telling;
mod further;
mod shape;
mod telling;

pub use explanation::file_explained;
