//! The functions that write eight texts of two patterns, as an init in JSON. Each returns the
//! number of a `Status`.
ghost use Rattle.std.specs.Prelude.{◌≡◌};
ghost use Rattle.urlpattern_c.specs.Handles.{patterns_in};
ghost use Rattle.urlpattern_ffi.specs.Calls.{ReturnsStatus};
ghost use Rattle.urlpattern_ffi.specs.PairTexts.{IsCounterexampleReported, IsOverlapReported};

use crate::patterns::Patterns;
use std::alloc::Global;
use urlpattern_ffi::{counterexample, overlaps};

/// Writes texts that the asked pattern matches, the one at `asked`, and the pattern at `index` does
/// not: 1 if there are some, 0 if the pattern covers the asked one, 10 if it is not known.
#[unsafe(no_mangle)]
pub extern "C" fn urlpattern_counterexample_within(
    alloc: Global,
    patterns: &mut Patterns,
    index: usize,
    asked: usize,
    buffer: &mut [u8],
    needed: &mut usize,
) -> u32
    ensures answer { ReturnsStatus (IsCounterexampleReported (patterns_in patterns.old) index
        (patterns_in patterns.old) asked buffer.old buffer.new needed.new) result }
    ensures unchanged { patterns_in patterns.new ≡ patterns_in patterns.old }
{
    let kept = patterns.take(alloc);
    let status = counterexample(alloc, &kept, index, &kept, asked, buffer, needed);
    patterns.put(kept);
    status.number()
}

/// Writes texts that the asked pattern matches, the one of `others` at `asked`, and the pattern at
/// `index` does not: 1 if there are some, 0 if the pattern covers the asked one, 10 if it is not
/// known.
#[unsafe(no_mangle)]
pub extern "C" fn urlpattern_counterexample_between(
    alloc: Global,
    patterns: &mut Patterns,
    index: usize,
    others: &mut Patterns,
    asked: usize,
    buffer: &mut [u8],
    needed: &mut usize,
) -> u32
    ensures answer { ReturnsStatus (IsCounterexampleReported (patterns_in patterns.old) index
        (patterns_in others.old) asked buffer.old buffer.new needed.new) result }
    ensures unchanged { patterns_in patterns.new ≡ patterns_in patterns.old }
    ensures others_unchanged { patterns_in others.new ≡ patterns_in others.old }
{
    let kept = patterns.take(alloc);
    let other_kept = others.take(alloc);
    let status = counterexample(alloc, &kept, index, &other_kept, asked, buffer, needed);
    others.put(other_kept);
    patterns.put(kept);
    status.number()
}

/// Writes texts that the patterns at two indices match: 1 if there are some, 0 if there are none,
/// 10 if it is not known.
#[unsafe(no_mangle)]
pub extern "C" fn urlpattern_overlaps_within(
    alloc: Global,
    patterns: &mut Patterns,
    index: usize,
    other: usize,
    buffer: &mut [u8],
    needed: &mut usize,
) -> u32
    ensures answer { ReturnsStatus (IsOverlapReported (patterns_in patterns.old) index
        (patterns_in patterns.old) other buffer.old buffer.new needed.new) result }
    ensures unchanged { patterns_in patterns.new ≡ patterns_in patterns.old }
{
    let kept = patterns.take(alloc);
    let status = overlaps(alloc, &kept, index, &kept, other, buffer, needed);
    patterns.put(kept);
    status.number()
}

/// Writes texts that the pattern at `index` and the pattern of `others` at `other` match: 1 if
/// there are some, 0 if there are none, 10 if it is not known.
#[unsafe(no_mangle)]
pub extern "C" fn urlpattern_overlaps_between(
    alloc: Global,
    patterns: &mut Patterns,
    index: usize,
    others: &mut Patterns,
    other: usize,
    buffer: &mut [u8],
    needed: &mut usize,
) -> u32
    ensures answer { ReturnsStatus (IsOverlapReported (patterns_in patterns.old) index
        (patterns_in others.old) other buffer.old buffer.new needed.new) result }
    ensures unchanged { patterns_in patterns.new ≡ patterns_in patterns.old }
    ensures others_unchanged { patterns_in others.new ≡ patterns_in others.old }
{
    let kept = patterns.take(alloc);
    let other_kept = others.take(alloc);
    let status = overlaps(alloc, &kept, index, &other_kept, other, buffer, needed);
    others.put(other_kept);
    patterns.put(kept);
    status.number()
}
