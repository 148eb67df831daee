//! The components of a URL, and a value for each of the eight.
#![tactic(auto)]

mod eight;

pub use eight::{COMPONENTS, ComponentName, Eight, NamedValues};
