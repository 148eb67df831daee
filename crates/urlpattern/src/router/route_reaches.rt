//! Whether routes of a router are reached.

use urlpattern_compare::Reach;

/// Routes of a router, in order, and whether each is the first of them that matches some texts.
#[derive(Debug, Drop)]
pub struct RouteReaches {
    /// The indices of the routes.
    pub routes: Vec<usize>,
    /// Whether each is the first that matches some texts. `Never` has places in these two lists.
    pub reaches: Vec<Reach>,
}
