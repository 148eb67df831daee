//! Rules as they are given.

use crate::condition::RouterCondition;
use crate::source::RouterSource;

/// A rule, as it is given.
#[derive(Debug, Drop)]
pub struct RouterRule {
    /// The requests that the rule decides about.
    pub condition: RouterCondition,
    /// Where their responses come from.
    pub source: RouterSource,
}
