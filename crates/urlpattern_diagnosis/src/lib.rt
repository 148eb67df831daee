//! Diagnoses of rejected patterns: where a text is at fault, and why, in words for its author.
#![tactic(auto)]

mod around;
mod colon;
mod diagnosis;
mod expression;
mod fault;
mod hint;
mod host;
mod pattern_offset;
mod printing;
mod reason;
mod rejected_parts;
mod scheme;
mod sentence;
mod span;
mod token;
mod wide;

pub use diagnosis::{Diagnosis, Subject};
pub use expression::fault_of_expression;
pub use fault::{Fault, fault_of, has_path_sign};
pub use host::fault_of_host;
pub use rejected_parts::{rejected_expression, rejected_run};
pub use span::Span;
