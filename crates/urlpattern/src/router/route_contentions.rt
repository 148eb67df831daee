//! Routes of a router that contend for the same texts.

use crate::contention::Contention;

/// Routes of a router, in order, and the pairs of them that contend.
#[derive(Debug, Drop)]
pub struct RouteContentions {
    /// The indices of the routes.
    pub routes: Vec<usize>,
    /// The pairs of routes that contend, or may. `first` and `second` are places in `routes`.
    pub pairs: Vec<Contention>,
}
