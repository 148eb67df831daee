//! Constructor strings and inits: the patterns of a URL's components, split out of one string or
//! given one by one, and what they inherit from a base URL.
#![tactic(auto)]

pub mod constructor_laws;
mod constructor_parser;
mod init;

pub use constructor_parser::{accepts_special_scheme, protocol_of};
pub use init::{UrlPatternInit, UrlPatternMatchInput, process, process_values, url_text};
