//! The function that says which patterns of a handle are the first match of some texts. It returns
//! the number of a `Status`.
ghost use Rattle.std.specs.Prelude.{◌≡◌};
ghost use Rattle.urlpattern_c.specs.Handles.{patterns_in};
ghost use Rattle.urlpattern_ffi.specs.Calls.{ReturnsStatus};
ghost use Rattle.urlpattern_ffi_tables.specs.WrittenReaches.{AreReachesReported};

use crate::patterns::Patterns;
use std::alloc::Global;
use urlpattern_ffi_tables::write_reaches;

/// Writes to `buffer`, as an array in JSON, whether each pattern of the handle is the first match
/// of some texts, and the length of the JSON in bytes to `needed`. An element is an init with such
/// texts; or an array of the indices of earlier patterns that cover the pattern together; or `null`
/// if neither is known. Returns 8 if the handle has no pattern.
#[unsafe(no_mangle)]
pub extern "C" fn urlpattern_reach_of_each(
    alloc: Global,
    patterns: &mut Patterns,
    buffer: &mut [u8],
    needed: &mut usize,
) -> u32
    ensures answer { ReturnsStatus (AreReachesReported (patterns_in patterns.old) buffer.old
        buffer.new needed.new) result }
    ensures unchanged { patterns_in patterns.new ≡ patterns_in patterns.old }
{
    let kept = patterns.take(alloc);
    let status = write_reaches(alloc, &kept, buffer, needed);
    patterns.put(kept);
    status.number()
}
