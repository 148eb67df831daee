//! The commands of the program `urlpat` that match URLs or compare patterns. `match`, the short
//! form and `first` print the captures of a URL by a pattern, or by the first of several patterns
//! that matches. `covers` compares two patterns.
//! `component` shows what the pattern of one component is compiled to.
#![tactic(auto)]

mod comparison_json;
mod comparison_text;
mod component;
mod covers_command;
mod failure;
mod first;
mod first_json;
mod matching;
mod tables;
mod text_parts;

pub use comparison_text::reason_text;
pub use component::print_component;
pub use covers_command::covers;
pub use matching::{print_first, print_match};
pub use tables::{Tables, read_table};
