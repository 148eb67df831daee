//! Parses the pattern text of one component: cuts it into tokens, and makes parts of the tokens.
#![tactic(auto)]

mod body;
pub mod parser;
pub mod tokenizer;

pub use body::{BodyError, split_body};
