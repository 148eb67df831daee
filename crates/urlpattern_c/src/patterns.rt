//! The handle with patterns that C keeps.
ghost use Rattle.std.specs.Prelude.{◌≡◌, ◌==◌, is_some};
ghost use Rattle.urlpattern_c.specs.Memory.{kept_patterns_box};

use crate::box_parts::BoxParts;
use crate::slot::Slot;
use std::alloc::Global;
use std::mem;
use urlpattern_ffi::PatternBox;

/// The number that a handle has which has patterns: the version of the interface.
const MADE: u32 = 2000;

/// A handle to patterns in order. C makes a handle by writing zeros: it is empty, and owns no
/// memory. So is a handle with any other number than `MADE`, as of another version.
#[repr(C)]
#[derive(Drop)]
pub struct Patterns {
    /// `MADE` if the slot has patterns, and else any other number.
    made_by: u32,
    pub(crate) slot: Slot,
    ghost agrees: { (made_by == 2000) ≡ is_some (kept_patterns_box slot.held) },
}

impl Patterns {
    ghost use Rattle.std.specs.Prelude.{None};
    ghost use Rattle.urlpattern_c.specs.Handles.{patterns_in};
    ghost use Rattle.urlpattern_ffi.specs.KeptPatterns.{boxed_patterns};

    /// Returns an empty handle.
    fn empty() -> Patterns
        ensures { result.slot.held ≡ None }
    {
        Patterns {
            made_by: 0,
            slot: Slot::empty(),
        }
    }

    /// Takes the patterns out, if there are any. The handle is then empty.
    pub(crate) fn take(&mut self, alloc: Global) -> Option<Box<PatternBox>>
        ensures taken { boxed_patterns result ≡ patterns_in self.old }
        ensures none_left { self.new.slot.held ≡ None }
    {
        let Patterns { made_by, slot } = mem::replace(self, Patterns::empty());
        if made_by == MADE {
            Some(slot.into_patterns(alloc).into_box())
        } else {
            None
        }
    }

    /// Puts patterns into the handle, which `take` has emptied. `None`: the handle stays empty.
    pub(crate) fn put(&mut self, kept: Option<Box<PatternBox>>)
        requires { self.old.slot.held ≡ None }
        ensures { patterns_in self.new ≡ boxed_patterns kept }
    {
        *self = match kept {
            Some(kept) => Patterns {
                made_by: MADE,
                slot: Slot::of_patterns(BoxParts::of(kept)),
            },
            None => Patterns::empty(),
        };
    }
}
