//! The functions that match an init in JSON. Each returns the number of a `Status`.
ghost use Rattle.std.specs.Prelude.{◌≡◌};
ghost use Rattle.urlpattern_c.specs.Handles.{patterns_in};
ghost use Rattle.urlpattern_c.specs.TextReturns.{ReportsCapturesOf, ReportsFirstOf};
ghost use Rattle.urlpattern_ffi.specs.Calls.{ReturnsStatus};
ghost use Rattle.urlpattern_ffi.specs.InitMatches.{AreNoTextsOfInit, AreTextsOfInit, IsInitExecReported};

use crate::patterns::Patterns;
use std::alloc::Global;
use urlpattern_ffi::{GroupSpan, Sizes, captures_of_init, execute_init, first_captures_of_init};

/// Matches the pattern at an index against an init in JSON. If it matches, writes the captures of
/// its groups to `buffer`, a span for each group to `spans`, and the room that both need to
/// `needed`.
#[unsafe(no_mangle)]
pub extern "C" fn urlpattern_captures_of_init(
    alloc: Global,
    patterns: &mut Patterns,
    index: usize,
    json: &[u8],
    buffer: &mut [u8],
    spans: &mut [GroupSpan],
    needed: &mut Sizes,
) -> u32
    ensures answer { ReportsCapturesOf (AreTextsOfInit json.now) (AreNoTextsOfInit json.now)
        patterns.old index buffer.old buffer.new spans.old spans.new needed.new result }
    ensures unchanged { patterns_in patterns.new ≡ patterns_in patterns.old }
{
    let kept = patterns.take(alloc);
    let status = captures_of_init(alloc, &kept, index, json, buffer, spans, needed);
    patterns.put(kept);
    status.number()
}

/// Finds the first pattern that matches an init in JSON. If there is one, writes its index, the
/// captures of its groups to `buffer`, a span for each group to `spans`, and the room that both
/// need to `needed`.
#[unsafe(no_mangle)]
pub extern "C" fn urlpattern_first_captures_of_init(
    alloc: Global,
    patterns: &mut Patterns,
    json: &[u8],
    index: &mut usize,
    buffer: &mut [u8],
    spans: &mut [GroupSpan],
    needed: &mut Sizes,
) -> u32
    ensures answer { ReportsFirstOf (AreTextsOfInit json.now) (AreNoTextsOfInit json.now)
        patterns.old index.old index.new buffer.old buffer.new spans.old spans.new needed.new
        result }
    ensures unchanged { patterns_in patterns.new ≡ patterns_in patterns.old }
{
    let kept = patterns.take(alloc);
    let status = first_captures_of_init(alloc, &kept, json, index, buffer, spans, needed);
    patterns.put(kept);
    status.number()
}

/// Writes the match of an init by the pattern at an index to `buffer`, as JSON with no white space
/// between tokens, and the length of the JSON in bytes to `needed`.
#[unsafe(no_mangle)]
pub extern "C" fn urlpattern_exec_of_init(
    alloc: Global,
    patterns: &mut Patterns,
    index: usize,
    json: &[u8],
    buffer: &mut [u8],
    needed: &mut usize,
) -> u32
    ensures answer { ReturnsStatus (IsInitExecReported (patterns_in patterns.old) index json.now
        buffer.old buffer.new needed.new) result }
    ensures unchanged { patterns_in patterns.new ≡ patterns_in patterns.old }
{
    let kept = patterns.take(alloc);
    let status = execute_init(alloc, &kept, index, json, buffer, needed);
    patterns.put(kept);
    status.number()
}
