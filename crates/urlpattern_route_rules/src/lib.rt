//! The static routes of a service worker, compiled: which rule decides about a request.
#![tactic(auto)]

mod compiled;
mod fault;
mod given;
mod request;
mod rules;

pub use fault::{PatternFault, RouteFault, RoutesError};
pub use request::RouterFetch;
pub use rules::RouterRules;
