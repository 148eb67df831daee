//! Copies of components, over engines whose values can be copied.
#![tactic(auto)]

mod component;
mod engine;
mod error;
mod matcher;

pub use component::copied_component;
pub use engine::CloneRegExp;
