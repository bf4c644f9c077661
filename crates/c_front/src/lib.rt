//! The front end as one call: the typed program of a C text, or the refusal of the first stage that
//! refuses it (docs/LANGUAGE.md).
//!
//! `specs/Fronts.antt` says which texts are accepted, and which are refused where.
#![tactic(auto)]

mod law;
mod refusal;
mod stages;

pub use law::{accepted_once, one_stage_answers};
pub use refusal::Refusal;
pub use stages::{front, read, type_read};
