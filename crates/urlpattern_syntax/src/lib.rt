//! The syntax of URL patterns: tokens, parts, options and errors; how texts are written and
//! escaped; and definitions of the parts that a pattern text reads as.
#![tactic(auto)]

pub mod error;
pub mod escape;
pub mod parser;
pub mod parts;
pub mod text;
pub mod tokenizer;
pub mod writing;

pub use error::Error;
pub use parser::RegexSyntax;
pub use parts::ComponentParts;
