//! Compiled patterns as plain data with its JSON, as browsers receive them.
#![tactic(auto)]

pub mod json_laws;
mod matcher;
mod pattern;
mod pattern_reading;
mod pattern_writing;

pub use matcher::{InnerMatcher, Matcher};
pub use pattern::{UrlPattern, UrlPatternComponent};
