//! Canonical values of the components of a URL, which `url` computes; the values of an init; and
//! the URLs of texts.
#![tactic(auto)]

mod base_url;
mod bracket;
pub mod canonicalize_and_process;

pub use base_url::{BaseUrl, find_url, parse_base};
pub use bracket::begins_with_bracket;
