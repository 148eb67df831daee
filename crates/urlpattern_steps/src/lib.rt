//! Matches the regular expressions that parts without custom ones generate, step by step.
//!
//! An expression is parsed into steps: literals, repeated literals, captured runs of characters,
//! captured runs joined by a separator, and optional groups. Custom expressions of this form are
//! parsed too. The steps match a whole text or nothing, and capture what a backtracking engine
//! finds first.
#![tactic(auto)]

mod by_table;
mod failed_states;
mod prefixes;
pub mod reading;
pub mod repeats;
mod run_ends;
pub mod step;
mod step_tokens;
pub mod stops;
mod suffix_table;
pub mod text_cuts;
pub mod walk;

pub use by_table::walk_by_table;
