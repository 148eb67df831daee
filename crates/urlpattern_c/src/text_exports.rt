//! The functions that match a path by itself, or eight texts. Each returns the number of a
//! `Status`.
ghost use Rattle.std.specs.Prelude.{◌≡◌};
ghost use Rattle.urlpattern_c.specs.Handles.{patterns_in};
ghost use Rattle.urlpattern_c.specs.TextReturns.{ReportsCapturesOf, ReportsFirstOf};
ghost use Rattle.urlpattern_ffi.specs.PassedTexts.{AreNoTextsIn, AreTextsIn, AreTextsOfPath, IsNoPath};

use crate::patterns::Patterns;
use std::alloc::Global;
use urlpattern_ffi::{
    EightParts, GroupSpan, Sizes, captures_of_path, captures_of_texts, first_captures_of_path,
    first_captures_of_texts,
};

/// Matches the pattern at an index against a path by itself. If it matches, writes the captures of
/// its groups to `buffer`, a span for each group to `spans`, and the room that both need to
/// `needed`.
#[unsafe(no_mangle)]
pub extern "C" fn urlpattern_captures_of_path(
    alloc: Global,
    patterns: &mut Patterns,
    index: usize,
    path: &[u8],
    buffer: &mut [u8],
    spans: &mut [GroupSpan],
    needed: &mut Sizes,
) -> u32
    ensures answer { ReportsCapturesOf (AreTextsOfPath path.now) (IsNoPath path.now) patterns.old
        index buffer.old buffer.new spans.old spans.new needed.new result }
    ensures unchanged { patterns_in patterns.new ≡ patterns_in patterns.old }
{
    let kept = patterns.take(alloc);
    let status = captures_of_path(alloc, &kept, index, path, buffer, spans, needed);
    patterns.put(kept);
    status.number()
}

/// Finds the first pattern that matches a path by itself. If there is one, writes its index, the
/// captures of its groups to `buffer`, a span for each group to `spans`, and the room that both
/// need to `needed`.
#[unsafe(no_mangle)]
pub extern "C" fn urlpattern_first_captures_of_path(
    alloc: Global,
    patterns: &mut Patterns,
    path: &[u8],
    index: &mut usize,
    buffer: &mut [u8],
    spans: &mut [GroupSpan],
    needed: &mut Sizes,
) -> u32
    ensures answer { ReportsFirstOf (AreTextsOfPath path.now) (IsNoPath path.now) patterns.old
        index.old index.new buffer.old buffer.new spans.old spans.new needed.new result }
    ensures unchanged { patterns_in patterns.new ≡ patterns_in patterns.old }
{
    let kept = patterns.take(alloc);
    let status = first_captures_of_path(alloc, &kept, path, index, buffer, spans, needed);
    patterns.put(kept);
    status.number()
}

/// Matches the pattern at an index against eight texts, which are parts of one text. If it matches,
/// writes the captures of its groups to `buffer`, a span for each group to `spans`, and the room
/// that both need to `needed`.
#[unsafe(no_mangle)]
pub extern "C" fn urlpattern_captures_of_texts(
    alloc: Global,
    patterns: &mut Patterns,
    index: usize,
    text: &[u8],
    parts: &EightParts,
    buffer: &mut [u8],
    spans: &mut [GroupSpan],
    needed: &mut Sizes,
) -> u32
    ensures answer { ReportsCapturesOf (AreTextsIn text.now parts.now)
        (AreNoTextsIn text.now parts.now) patterns.old index buffer.old buffer.new spans.old
        spans.new needed.new result }
    ensures unchanged { patterns_in patterns.new ≡ patterns_in patterns.old }
{
    let kept = patterns.take(alloc);
    let status = captures_of_texts(alloc, &kept, index, text, parts, buffer, spans, needed);
    patterns.put(kept);
    status.number()
}

/// Finds the first pattern that matches eight texts, which are parts of one text. If there is one,
/// writes its index, the captures of its groups to `buffer`, a span for each group to `spans`, and
/// the room that both need to `needed`.
#[unsafe(no_mangle)]
pub extern "C" fn urlpattern_first_captures_of_texts(
    alloc: Global,
    patterns: &mut Patterns,
    text: &[u8],
    parts: &EightParts,
    index: &mut usize,
    buffer: &mut [u8],
    spans: &mut [GroupSpan],
    needed: &mut Sizes,
) -> u32
    ensures answer { ReportsFirstOf (AreTextsIn text.now parts.now)
        (AreNoTextsIn text.now parts.now) patterns.old index.old index.new buffer.old buffer.new
        spans.old spans.new needed.new result }
    ensures unchanged { patterns_in patterns.new ≡ patterns_in patterns.old }
{
    let kept = patterns.take(alloc);
    let status = first_captures_of_texts(alloc, &kept, text, parts, index, buffer, spans, needed);
    patterns.put(kept);
    status.number()
}
