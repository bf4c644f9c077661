//! Rows of the operations, of image files and of target texts, as tests.
#![tactic(auto)]

#[cfg(test)]
mod asm_line_tests;
#[cfg(test)]
mod asm_tests;
#[cfg(test)]
mod file_tests;
#[cfg(test)]
mod image_form_tests;
#[cfg(test)]
mod image_tests;
#[cfg(test)]
mod operation_tests;
#[cfg(test)]
mod table_tests;
