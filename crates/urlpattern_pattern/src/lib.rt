//! A URL pattern: eight components, compiled from an init or a constructor string, and matched
//! against URLs and inits.
//!
//! `urlpattern` re-exports `UrlPattern` and `CompareError`; `match_of_texts` is for calls within
//! that crate.
#![tactic(auto)]

mod pattern;

pub use pattern::{CompareError, UrlPattern, match_of_texts};
