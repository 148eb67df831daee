//! Policies: rules in order, each of which allows or denies the URLs that a pattern matches.
//!
//! `UrlPolicy` decides about texts and URLs, and denies whatever is in doubt: a text that is no
//! URL, one that is too long, and any text if memory runs out. Before a URL is matched it is
//! brought to its plain spelling.
#![tactic(auto)]

mod decision;
pub mod laws;
mod plain_patterns;
mod policy;
mod spelled_texts;
mod spelling;

pub use decision::{Decision, DenyReason};
pub use plain_patterns::is_plain_pattern;
pub use policy::{PolicyOptions, UrlPolicy};
pub use spelled_texts::{are_plain, plain_texts};
pub use urlpattern_differences::Effect;
