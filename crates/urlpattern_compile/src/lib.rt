//! Compiles the eight components of an init or of a constructor string to a pattern, and diagnoses
//! what is rejected.
//!
//! The methods of `UrlPattern` that compile or diagnose a pattern call these functions. Other
//! crates also call `init_of_text`, `pattern_values` and `span_of`.
#![tactic(auto)]

mod compile;
mod diagnose;
mod from_string;
mod pattern_source;
mod processed_init;
mod rejection;

pub use compile::{Compiler, compile_init};
pub use diagnose::{diagnose_init, diagnose_text};
pub use from_string::{init_of_text, init_of_text_keeping};
pub use pattern_source::span_of;
pub use processed_init::{pattern_of, pattern_values};
