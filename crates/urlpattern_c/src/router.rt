//! The handle with a router that C keeps.
ghost use Rattle.std.specs.Prelude.{◌≡◌, ◌==◌, is_some};
ghost use Rattle.urlpattern_c.specs.Memory.{kept_router_box};

use crate::box_parts::BoxParts;
use crate::slot::Slot;
use std::alloc::Global;
use std::mem;
use urlpattern_ffi_tables::RouterBox;

/// The number that a handle has which has a router: the version of the interface, and 1,000,000.
const MADE: u32 = 1_002_000;

/// A handle to a router. C makes a handle by writing zeros: it is empty, and owns no memory. So is
/// a handle with any other number than `MADE`, as of another version, or to patterns.
#[repr(C)]
#[derive(Drop)]
pub struct Router {
    /// `MADE` if the slot has a router, and else any other number.
    made_by: u32,
    pub(crate) slot: Slot,
    ghost agrees: { (made_by == 1002000) ≡ is_some (kept_router_box slot.held) },
}

impl Router {
    ghost use Rattle.std.specs.Prelude.{None};
    ghost use Rattle.urlpattern_c.specs.Handles.{router_in};
    ghost use Rattle.urlpattern_ffi_tables.specs.KeptRouters.{boxed_router};

    /// Returns an empty handle.
    fn empty() -> Router
        ensures { result.slot.held ≡ None }
    {
        Router {
            made_by: 0,
            slot: Slot::empty(),
        }
    }

    /// Takes the router out, if there is one. The handle is then empty.
    pub(crate) fn take(&mut self, alloc: Global) -> Option<Box<RouterBox>>
        ensures taken { boxed_router result ≡ router_in self.old }
        ensures none_left { self.new.slot.held ≡ None }
    {
        let Router { made_by, slot } = mem::replace(self, Router::empty());
        if made_by == MADE {
            Some(slot.into_router(alloc).into_box())
        } else {
            None
        }
    }

    /// Puts a router into the handle, which `take` has emptied. `None`: the handle stays empty.
    pub(crate) fn put(&mut self, kept: Option<Box<RouterBox>>)
        requires { self.old.slot.held ≡ None }
        ensures { router_in self.new ≡ boxed_router kept }
    {
        *self = match kept {
            Some(kept) => Router {
                made_by: MADE,
                slot: Slot::of_router(BoxParts::of(kept)),
            },
            None => Router::empty(),
        };
    }
}
