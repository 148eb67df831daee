//! The handle with a policy that C keeps.
ghost use Rattle.std.specs.Prelude.{◌≡◌, ◌==◌, is_some};
ghost use Rattle.urlpattern_c.specs.Memory.{kept_policy_box};

use crate::box_parts::BoxParts;
use crate::slot::Slot;
use std::alloc::Global;
use std::mem;
use urlpattern_ffi_tables::PolicyBox;

/// The number that a handle has which has a policy: the version of the interface, and 2,000,000.
const MADE: u32 = 2_002_000;

/// A handle to a policy. C makes a handle by writing zeros: it is empty, and owns no memory. So is
/// a handle with any other number than `MADE`, as of another version, or to patterns.
#[repr(C)]
#[derive(Drop)]
pub struct Policy {
    /// `MADE` if the slot has a policy, and else any other number.
    made_by: u32,
    pub(crate) slot: Slot,
    ghost agrees: { (made_by == 2002000) ≡ is_some (kept_policy_box slot.held) },
}

impl Policy {
    ghost use Rattle.std.specs.Prelude.{None};
    ghost use Rattle.urlpattern_c.specs.Handles.{policy_in};
    ghost use Rattle.urlpattern_ffi_tables.specs.KeptPolicies.{boxed_policy};

    /// Returns an empty handle.
    fn empty() -> Policy
        ensures { result.slot.held ≡ None }
    {
        Policy {
            made_by: 0,
            slot: Slot::empty(),
        }
    }

    /// Takes the policy out, if there is one. The handle is then empty.
    pub(crate) fn take(&mut self, alloc: Global) -> Option<Box<PolicyBox>>
        ensures taken { boxed_policy result ≡ policy_in self.old }
        ensures none_left { self.new.slot.held ≡ None }
    {
        let Policy { made_by, slot } = mem::replace(self, Policy::empty());
        if made_by == MADE {
            Some(slot.into_policy(alloc).into_box())
        } else {
            None
        }
    }

    /// Puts a policy into the handle, which `take` has emptied. `None`: the handle stays empty.
    pub(crate) fn put(&mut self, kept: Option<Box<PolicyBox>>)
        requires { self.old.slot.held ≡ None }
        ensures { policy_in self.new ≡ boxed_policy kept }
    {
        *self = match kept {
            Some(kept) => Policy {
                made_by: MADE,
                slot: Slot::of_policy(BoxParts::of(kept)),
            },
            None => Policy::empty(),
        };
    }
}
