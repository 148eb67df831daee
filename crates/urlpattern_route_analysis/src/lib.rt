//! What tables of rules with conditions decide, asked before they are used: which rules decide
//! about no request, which requests two tables decide about by which rules, and which rules
//! decide only about requests that no worker with a scope gets.
//!
//! [`Analysis::formulas`] brings the conditions of a table to formulas. [`Analysis::decisions`]
//! finds, for each two rules of two tables that decide about the same request, such a request:
//!
//! - of a table and none, the rules that decide about some request;
//! - of the rules before one and that one alone, those that decide about its requests;
//! - of an old table and a new one, the requests that go elsewhere;
//! - of a table and [`Analysis::outside`], the requests that no worker with a scope gets.
#![tactic(auto)]

mod analysis;
mod case;
mod decisions;
mod formula;
pub mod laws;
mod names;
mod scope;

pub use analysis::Analysis;
pub use decisions::{CaseLimits, Decisions, JointDecision};
pub use formula::{Atom, Formula};
pub use names::Attribute;
pub use scope::route_attributes;
