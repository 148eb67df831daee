//! The JSON form of policies: an object with the rules, and a member for each setting.
//!
//! The patterns of the rules are not compiled.
#![tactic(auto)]

mod fault;
mod given;
pub mod laws;
mod pattern;
mod reading;
mod writing;

use std::alloc::AllocError;

/// What a step makes, or that memory ran out.
type Made<T> = Result<T, AllocError>;

pub use fault::{JsonFault, JsonPlace, JsonReason, ShapeFault};
pub use given::{GivenRule, GivenSettings};
pub use reading::{faults_of_members, read_rule, rules_in, settings_in};
pub use writing::policy_to_json;
