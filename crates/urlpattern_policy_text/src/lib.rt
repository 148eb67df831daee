//! Policies as texts, with a line for each rule and each setting, and as JSON.
//!
//! [`policy_of_text`] and [`policy_of_json`] read a policy, or report all faults, each with its
//! place; [`text_of_policy`] and [`json_of_policy`] write a policy.
#![tactic(auto)]

mod json_reading;
mod json_rules;
mod json_writing;
pub mod laws;
mod lines;
mod outcome;
mod policy_fault;
mod reading;
mod settings;
mod statement;
mod writing;

pub use json_reading::{PolicyJsonError, policy_of_json};
pub use json_writing::json_of_policy;
pub use lines::column_of;
pub use outcome::{not_memory, place_in};
pub use policy_fault::{FaultReason, PolicyFault, PolicyTextError};
pub use reading::policy_of_text;
pub use statement::{Setting, Statement, WordFault, statement_of};
pub use urlpattern_policy_json::{JsonFault, JsonPlace, JsonReason, ShapeFault};
pub use writing::text_of_policy;
