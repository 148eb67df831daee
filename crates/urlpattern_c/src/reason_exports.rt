//! The functions that say why it is not known whether a pattern covers another one. Each returns
//! the number of a `Status`.
ghost use Rattle.std.specs.Prelude.{◌≡◌};
ghost use Rattle.urlpattern_c.specs.Handles.{patterns_in};
ghost use Rattle.urlpattern_ffi.specs.Calls.{ReturnsStatus};
ghost use Rattle.urlpattern_ffi_tables.specs.CoveringReasons.{IsReasonReported};

use crate::patterns::Patterns;
use std::alloc::Global;
use urlpattern_ffi_tables::covering_reason;

/// Writes the number of the reason why it is not known whether the pattern at `index` covers the
/// asked one, the pattern at `asked` of the same handle. Returns 0 if it is known.
#[unsafe(no_mangle)]
pub extern "C" fn urlpattern_covering_reason_within(
    alloc: Global,
    patterns: &mut Patterns,
    index: usize,
    asked: usize,
    reason: &mut u32,
) -> u32
    ensures answer { ReturnsStatus (IsReasonReported (patterns_in patterns.old) index
        (patterns_in patterns.old) asked reason.old reason.new) result }
    ensures unchanged { patterns_in patterns.new ≡ patterns_in patterns.old }
{
    let kept = patterns.take(alloc);
    let status = covering_reason(alloc, &kept, index, &kept, asked, reason);
    patterns.put(kept);
    status.number()
}

/// Writes the number of the reason why it is not known whether the pattern at `index` covers the
/// asked one, the pattern of `others` at `asked`. Returns 0 if it is known.
#[unsafe(no_mangle)]
pub extern "C" fn urlpattern_covering_reason_between(
    alloc: Global,
    patterns: &mut Patterns,
    index: usize,
    others: &mut Patterns,
    asked: usize,
    reason: &mut u32,
) -> u32
    ensures answer { ReturnsStatus (IsReasonReported (patterns_in patterns.old) index
        (patterns_in others.old) asked reason.old reason.new) result }
    ensures unchanged { patterns_in patterns.new ≡ patterns_in patterns.old }
    ensures others_unchanged { patterns_in others.new ≡ patterns_in others.old }
{
    let kept = patterns.take(alloc);
    let other_kept = others.take(alloc);
    let status = covering_reason(alloc, &kept, index, &other_kept, asked, reason);
    others.put(other_kept);
    patterns.put(kept);
    status.number()
}
