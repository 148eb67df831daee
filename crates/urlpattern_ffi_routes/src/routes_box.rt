//! The static routes that a handle keeps. `None` is an empty handle.
ghost use Rattle.urlpattern_ffi_routes.specs.KeptRoutes.{IsKept, boxed_routes, routes_with};

use std::alloc::Global;
use urlpattern_engine::PatternRegexp;
use urlpattern_ffi::Status;
use urlpattern_route_rules::{RouteFault, RouterRules};

/// Static routes, or why they are rejected. A handle keeps them in a box.
#[derive(Drop)]
pub struct RoutesBox {
    /// The rules. There are none if they are rejected.
    pub(crate) rules: RouterRules<PatternRegexp>,
    /// Why the rules are rejected.
    pub(crate) faults: Vec<RouteFault>,
}

/// Puts rules and faults into a handle, and returns the status. `OutOfMemory` in place of it:
/// memory ran out, and the handle is unchanged.
pub(crate) fn keep(
    alloc: Global,
    kept: &mut Option<Box<RoutesBox>>,
    rules: RouterRules<PatternRegexp>,
    faults: Vec<RouteFault>,
    status: Status,
) -> Status
    ensures { IsKept (routes_with rules faults) status (boxed_routes kept.old)
        (boxed_routes kept.new) result }
{
    match Box::new(alloc, RoutesBox { rules, faults }) {
        Ok(made) => {
            *kept = Some(made);
            status
        }
        Err(failed) => {
            drop(failed);
            Status::OutOfMemory
        }
    }
}
