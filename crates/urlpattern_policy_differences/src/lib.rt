//! Policies compared before they are used.
//!
//! [`difference`] finds texts that one policy allows and another one denies, [`is_within`] those
//! that a policy allows and a pattern does not match, and [`dead_rules`] the rules that never
//! decide.
#![tactic(auto)]

mod comparing;
pub mod laws;

pub use comparing::{
    DifferenceDoubt, DifferentTexts, PolicyDifference, PolicyExcess, dead_rules, difference,
    is_within,
};
