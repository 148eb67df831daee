//! A component of a URL pattern: its parts become a matcher, a regular expression and the names of
//! the groups.
#![tactic(auto)]

pub mod component;
pub mod matcher;
pub mod regexp;
