//! Cuts a constructor string, the pattern of a whole URL, into the patterns of its components.
//!
//! <https://urlpattern.spec.whatwg.org/#constructor-string-parsing>
#![tactic(auto)]

mod components;
mod sections;
mod tokens;

pub use components::Split;
pub use sections::{Position, Section};
pub use tokens::{Source, SplitText};
