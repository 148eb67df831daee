//! The pointer in a handle of C, to what the handle keeps. One type serves all handles, with two
//! functions for each, since a function that C calls takes no struct with a type argument.
ghost use Rattle.std.specs.Prelude.{◌≡◌, IsSome, Option, None, Some};
ghost use Rattle.urlpattern_c.specs.Memory.{Kept, coded_kept, kept_patterns_box, kept_policy_box, kept_router_box, kept_routes_box};

use crate::box_parts::BoxParts;
use std::alloc::Global;
use std::marker::Model;
use std::ptr;
use urlpattern_ffi::PatternBox;
use urlpattern_ffi_routes::RoutesBox;
use urlpattern_ffi_tables::{PolicyBox, RouterBox};

/// A pointer to what a handle keeps, or a null pointer.
#[repr(C)]
#[derive(Drop)]
pub struct Slot {
    at: *mut u8,
    pub(crate) ghost held: { Option Kept } by { coded_kept },
}

impl Model for Slot {
    ghost use Rattle.urlpattern_c.specs.Memory.{leads_to};

    ghost also_owns = { λ slot. leads_to slot.at slot.held };
}

impl Slot {
    /// Returns a null pointer.
    pub(crate) fn empty() -> Slot
        ensures { result.held ≡ None }
    {
        Slot {
            at: ptr::null_mut(),
        }
    }

    /// Returns the pointer of a box that was taken apart. The slot owns the patterns.
    pub(crate) fn of_patterns(parts: BoxParts<PatternBox, Global>) -> Slot
        ensures { kept_patterns_box result.held ≡ Some parts.value }
    {
        let BoxParts { at, alloc: _ } = parts;
        Slot { at: at as *mut u8 }
    }

    /// Returns the pointer of a box that was taken apart. The slot owns the router.
    pub(crate) fn of_router(parts: BoxParts<RouterBox, Global>) -> Slot
        ensures { kept_router_box result.held ≡ Some parts.value }
    {
        let BoxParts { at, alloc: _ } = parts;
        Slot { at: at as *mut u8 }
    }

    /// Returns the pointer of a box that was taken apart. The slot owns the policy.
    pub(crate) fn of_policy(parts: BoxParts<PolicyBox, Global>) -> Slot
        ensures { kept_policy_box result.held ≡ Some parts.value }
    {
        let BoxParts { at, alloc: _ } = parts;
        Slot { at: at as *mut u8 }
    }

    /// Returns the pointer of a box that was taken apart. The slot owns the static routes.
    pub(crate) fn of_routes(parts: BoxParts<RoutesBox, Global>) -> Slot
        ensures { kept_routes_box result.held ≡ Some parts.value }
    {
        let BoxParts { at, alloc: _ } = parts;
        Slot { at: at as *mut u8 }
    }

    /// Returns the parts of the box with the patterns, given the allocator that made the box.
    pub(crate) fn into_patterns(self, alloc: Global) -> BoxParts<PatternBox, Global>
        requires { IsSome (kept_patterns_box self.held) }
        ensures { kept_patterns_box self.held ≡ Some result.value }
    {
        let Slot { at } = self;
        BoxParts {
            at: at as *mut PatternBox,
            alloc,
        }
    }

    /// Returns the parts of the box with the router, given the allocator that made the box.
    pub(crate) fn into_router(self, alloc: Global) -> BoxParts<RouterBox, Global>
        requires { IsSome (kept_router_box self.held) }
        ensures { kept_router_box self.held ≡ Some result.value }
    {
        let Slot { at } = self;
        BoxParts {
            at: at as *mut RouterBox,
            alloc,
        }
    }

    /// Returns the parts of the box with the policy, given the allocator that made the box.
    pub(crate) fn into_policy(self, alloc: Global) -> BoxParts<PolicyBox, Global>
        requires { IsSome (kept_policy_box self.held) }
        ensures { kept_policy_box self.held ≡ Some result.value }
    {
        let Slot { at } = self;
        BoxParts {
            at: at as *mut PolicyBox,
            alloc,
        }
    }

    /// Returns the parts of the box with the static routes, given the allocator that made the box.
    pub(crate) fn into_routes(self, alloc: Global) -> BoxParts<RoutesBox, Global>
        requires { IsSome (kept_routes_box self.held) }
        ensures { kept_routes_box self.held ≡ Some result.value }
    {
        let Slot { at } = self;
        BoxParts {
            at: at as *mut RoutesBox,
            alloc,
        }
    }
}

unsafe impl Send for Slot {}
