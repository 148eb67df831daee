//! Conditions on requests: patterns for the URL, and names for a request's attributes, such as its
//! method.
//!
//! A table of rules, each with a condition, is asked for the first rule whose condition holds. What
//! the attributes are, and which names they have, is up to the caller.
#![tactic(auto)]

mod condition;
mod request;
mod table;

pub use condition::Condition;
pub use request::Request;
pub use table::{ConditionTable, Rule};
