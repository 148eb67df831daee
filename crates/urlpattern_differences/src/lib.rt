//! Whether two lists of rules, each of which allows or denies, decide alike.
//!
//! A [`PolicyAutomata`] has the rules, by the automata of their patterns. [`find_excess`] finds
//! eight texts that one such list allows and another one denies, with the two rules that decide.
#![tactic(auto)]

mod credentials;
mod excess;
mod question;
mod rules;
mod shared;

pub use credentials::written_match_what_is_written;
pub use excess::{Excess, ExcessTexts, PairDoubt, find_excess};
pub use rules::{Effect, PolicyAutomata};
