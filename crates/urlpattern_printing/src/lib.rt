//! Writes a list of parts: its pattern text, and its regular expression with the names of its
//! groups.
#![tactic(auto)]

mod names;
mod printed;
mod regexp_text;

pub use names::{generate_name_list, generate_regular_expression_and_name_list, is_bare};
pub use printed::generate_pattern_string;
pub use regexp_text::generate_regular_expression;
