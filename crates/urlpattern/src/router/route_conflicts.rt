//! What conflicts in the routes of a router.

use crate::contention::Contention;
use urlpattern_compare::Doubt;

/// What conflicts in the routes of a router, whatever the method of a request.
#[derive(Debug, Drop)]
pub struct RouteConflicts {
    /// The routes that are never reached, or may never be, in order.
    pub unreached: Vec<UnreachedRoute>,
    /// The pairs of routes that take a common method and contend, or may. `first` and `second` are
    /// indices of routes.
    pub contending: Vec<Contention>,
}

impl RouteConflicts {
    ghost use Rattle.std.specs.Prelude.{◌≡◌, ◌↔◌, [], IsTrue};

    /// Whether nothing conflicts: each route is reached, and no two contend, all of which is known.
    pub fn is_clean(&self) -> bool
        ensures { IsTrue result
            ↔ ((self.now.unreached.items ≡ []) × (self.now.contending.items ≡ [])) }
    {
        if !self.unreached.is_empty() {
            return false;
        }
        self.contending.is_empty()
    }
}

/// A route that is never reached, or may never be.
#[derive(Debug, Drop)]
pub struct UnreachedRoute {
    /// The index of the route.
    pub route: usize,
    /// Why it is never reached, or may never be.
    pub found: Unreached,
}

/// Why a route is never reached, or why it is not known whether it is.
#[derive(Debug, Drop)]
pub enum Unreached {
    /// The earlier routes at these indices, in order, take each method that the route takes, and
    /// cover it together. None of the indices can be left out.
    Never(Vec<usize>),
    /// Not known, for this reason. `AllOf` is of the route itself, `NoneOf` of the earlier route at
    /// the index.
    Unknown(Doubt),
}
