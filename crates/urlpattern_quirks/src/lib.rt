//! Functions for browsers: inits and inputs as they are passed, and patterns as plain data.
#![tactic(auto)]

mod inputs;
mod parsing;

pub use inputs::{process_construct_pattern_input, process_match_input};
pub use parsing::{parse_pattern, parse_pattern_as_lib};
