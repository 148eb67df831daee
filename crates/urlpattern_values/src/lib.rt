//! Values of groups as parts of a URL: percent-encoded, as by `encodeURIComponent`, and decoded.
//!
//! `urlpattern` re-exports `encode`, `decode` and `DecodeError`, and the module of laws.
#![tactic(auto)]

mod decoding;
mod encoding;
pub mod value_laws;

pub use decoding::{decode, decode_alike};
pub use encoding::encode;
pub use percent_encoding::DecodeError;
