//! The handle with static routes that C keeps.
ghost use Rattle.std.specs.Prelude.{◌≡◌, ◌==◌, is_some};
ghost use Rattle.urlpattern_c.specs.Memory.{kept_routes_box};

use crate::box_parts::BoxParts;
use crate::slot::Slot;
use std::alloc::Global;
use std::mem;
use urlpattern_ffi_routes::RoutesBox;

/// The number that a handle has which has static routes: the version of the interface, and
/// 3,000,000.
const MADE: u32 = 3_002_000;

/// A handle to static routes. C makes a handle by writing zeros: it is empty, and owns no memory.
/// So is a handle with any other number than `MADE`, as of another version, or to patterns.
#[repr(C)]
#[derive(Drop)]
pub struct StaticRoutes {
    /// `MADE` if the slot has static routes, and else any other number.
    made_by: u32,
    pub(crate) slot: Slot,
    ghost agrees: { (made_by == 3002000) ≡ is_some (kept_routes_box slot.held) },
}

impl StaticRoutes {
    ghost use Rattle.std.specs.Prelude.{None};
    ghost use Rattle.urlpattern_c.specs.Handles.{static_routes_in};
    ghost use Rattle.urlpattern_ffi_routes.specs.KeptRoutes.{boxed_routes};

    /// Returns an empty handle.
    fn empty() -> StaticRoutes
        ensures { result.slot.held ≡ None }
    {
        StaticRoutes {
            made_by: 0,
            slot: Slot::empty(),
        }
    }

    /// Takes the static routes out, if there are any. The handle is then empty.
    pub(crate) fn take(&mut self, alloc: Global) -> Option<Box<RoutesBox>>
        ensures taken { boxed_routes result ≡ static_routes_in self.old }
        ensures none_left { self.new.slot.held ≡ None }
    {
        let StaticRoutes { made_by, slot } = mem::replace(self, StaticRoutes::empty());
        if made_by == MADE {
            Some(slot.into_routes(alloc).into_box())
        } else {
            None
        }
    }

    /// Puts static routes into the handle, which `take` has emptied. `None`: it stays empty.
    pub(crate) fn put(&mut self, kept: Option<Box<RoutesBox>>)
        requires { self.old.slot.held ≡ None }
        ensures { static_routes_in self.new ≡ boxed_routes kept }
    {
        *self = match kept {
            Some(kept) => StaticRoutes {
                made_by: MADE,
                slot: Slot::of_routes(BoxParts::of(kept)),
            },
            None => StaticRoutes::empty(),
        };
    }
}
