//! Patterns that several handles have, and handles that go from thread to thread.
ghost use Rattle.std.specs.Prelude.{◌≡◌};
ghost use Rattle.urlpattern_c.specs.Handles.{patterns_in};
ghost use Rattle.urlpattern_ffi.specs.Calls.{ReturnsStatus};
ghost use Rattle.urlpattern_ffi.specs.KeptPatterns.{AreShared};

use crate::patterns::Patterns;
use crate::policy::Policy;
use crate::router::Router;
use crate::static_routes::StaticRoutes;
use std::alloc::Global;
use urlpattern_ffi::{Status, share};

/// Gives another handle the same patterns, and frees what it had. Until one of the two is freed, no
/// pattern is appended to either. If memory runs out, both are unchanged.
#[unsafe(no_mangle)]
pub extern "C" fn urlpattern_share(
    alloc: Global,
    patterns: &mut Patterns,
    other: &mut Patterns,
) -> u32
    ensures answer { ReturnsStatus
        (AreShared (patterns_in patterns.old) (patterns_in other.old) (patterns_in other.new))
        result }
    ensures unchanged { patterns_in patterns.new ≡ patterns_in patterns.old }
{
    let kept = patterns.take(alloc);
    let shared = share(alloc, &kept);
    patterns.put(kept);
    match shared {
        Ok(shared) => {
            drop(other.take(alloc));
            other.put(shared);
            Status::Done.number()
        }
        Err(_) => Status::OutOfMemory.number(),
    }
}

/// Accepts each value that may go from thread to thread.
fn accept_sent<T: Send>(_value: &T) {}

/// A handle may go from thread to thread.
pub fn handles_are_sent(patterns: &Patterns) {
    accept_sent(patterns)
}

/// A handle to a router may go from thread to thread.
pub fn routers_are_sent(router: &Router) {
    accept_sent(router)
}

/// A handle to a policy may go from thread to thread.
pub fn policies_are_sent(policy: &Policy) {
    accept_sent(policy)
}

/// A handle to static routes may go from thread to thread.
pub fn static_routes_are_sent(routes: &StaticRoutes) {
    accept_sent(routes)
}
