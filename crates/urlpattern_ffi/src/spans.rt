//! Writes the captures of a match and their spans to memory that C owns.
ghost use Rattle.std.specs.Prelude.{◌≡◌, ◌+◌, ◌≤◌, ◌^◌, [], ◌∷◌, length, encode_utf8_all, if◌then◌else◌, is_some, IfNone, IfSome};
ghost use Rattle.std.specs.Str.{chars};
ghost use Rattle.urlpattern_ffi.specs.GroupSpans.{capture_bytes, found_groups, no_sizes, numbered, AreWrittenAt, AreSpansWritten, ExceedSizes, IsGroupWrittenAt, IsWrittenAt};
ghost use Rattle.urlpattern_matches.specs.BorrowedMatches.{groups_left};
ghost use Rattle.urlpattern_syntax.specs.Text.{option_text};

use crate::mismatching::component_number;
use crate::status::Status;
use urlpattern::{ComponentName, UrlPatternCaptures, UrlPatternGroups};

/// The place of a group's capture in the text of all captures, which is written to a buffer.
#[repr(C)]
#[derive(Clone, Copy)]
pub struct GroupSpan {
    /// The number of the component, in the order of the standard.
    pub component: u32,
    /// 1: the group took part in the match, 0: it did not.
    pub took_part: u32,
    /// The number of the group in its component, from 0 on.
    pub group: usize,
    /// The byte of the text of all captures at which this capture begins.
    pub start: usize,
    /// The length of the capture in bytes.
    pub length: usize,
}

/// The room that the captures of a match need, or how much of it is filled.
#[repr(C)]
#[derive(Clone, Copy)]
pub struct Sizes {
    /// The length of the text of all captures in bytes.
    pub bytes: usize,
    /// The number of spans, one for each group.
    pub spans: usize,
}

/// Writes the captures of a match to the start of `buffer` and their spans to the start of `spans`.
/// Writes the room that both need to `needed`. `TooSmall`: `buffer` or `spans` has too little room,
/// and some captures and spans may be written. `OutOfMemory`: a size exceeds `usize`, and `needed`
/// is unchanged.
pub fn write_groups(
    found: &UrlPatternCaptures<'_, '_>,
    buffer: &mut [u8],
    spans: &mut [GroupSpan],
    needed: &mut Sizes,
) -> Status
    ensures { AreSpansWritten (found_groups found.now) buffer.old buffer.new spans.old spans.new
        needed.new result }
{
    let Some(sizes) = put_all(found, buffer, spans) else {
        return Status::OutOfMemory;
    };
    *needed = sizes;
    if buffer.len() < sizes.bytes || spans.len() < sizes.spans {
        Status::TooSmall
    } else {
        Status::Done
    }
}

/// Writes the captures of a match and their spans, as far as there is room. Returns the room that
/// they need.
///
/// `None`: a size exceeds `usize`.
fn put_all(
    found: &UrlPatternCaptures<'_, '_>,
    buffer: &mut [u8],
    spans: &mut [GroupSpan],
) -> Option<Sizes>
    ensures written { IfSome result (λ to.
        AreWrittenAt (found_groups found.now) no_sizes to buffer.old buffer.new spans.old
        spans.new) }
    ensures large { IfNone result (ExceedSizes no_sizes (found_groups found.now)) }
{
    let mut sizes = Sizes { bytes: 0, spans: 0 };
    for name in ComponentName::all() {
        sizes = put_groups(found.groups(name), name, sizes, buffer, spans)?;
    }
    Some(sizes)
}

/// Writes the captures and the spans of a component's groups, as far as there is room. `from` is
/// how many bytes and spans are before them. Returns `from` with their sizes added.
///
/// `None`: a size exceeds `usize`.
fn put_groups(
    groups: UrlPatternGroups<'_, '_, '_>,
    component: ComponentName,
    from: Sizes,
    buffer: &mut [u8],
    spans: &mut [GroupSpan],
) -> Option<Sizes>
    ensures written { IfSome result (λ to.
        AreWrittenAt (numbered component 0 (groups_left groups.entry)) from to buffer.old buffer.new
        spans.old spans.new) }
    ensures large { IfNone result
        (ExceedSizes from (numbered component 0 (groups_left groups.entry))) }
{
    let mut sizes = from;
    for (_, capture) in groups {
        let group = sizes.spans - from.spans;
        sizes = put_group(component, group, capture, sizes, buffer, spans)?;
    }
    Some(sizes)
}

/// Writes the capture and the span of a group, as far as there is room. `group` is its number in
/// the component, and `from` is how many bytes and spans are before it. Returns `from` with its
/// sizes added.
///
/// `None`: a size exceeds `usize`.
#[tactic(auto, using(crate::proofs::SpanLemmas::bytes_exceed, crate::proofs::SpanLemmas::spans_exceed))]
fn put_group(
    component: ComponentName,
    group: usize,
    capture: Option<&str>,
    from: Sizes,
    buffer: &mut [u8],
    spans: &mut [GroupSpan],
) -> Option<Sizes>
    ensures written { IfSome result (λ to.
        IsGroupWrittenAt component group (option_text capture.entry) from to buffer.old buffer.new
        spans.old spans.new) }
    ensures large { IfNone result
        (ExceedSizes from ((component, group, option_text capture.entry) ∷ [])) }
{
    let text = capture_bytes(capture);
    let bytes = put_text(text, from.bytes, buffer)?;
    let span = GroupSpan {
        component: component_number(component),
        took_part: took_part(capture),
        group,
        start: from.bytes,
        length: text.len(),
    };
    let spans = put_span(span, from.spans, spans)?;
    Some(Sizes { bytes, spans })
}

/// Writes a text from byte `at` on, if it fits. Returns where it ends. `None`: the end exceeds
/// `usize`.
fn put_text(text: &[u8], at: usize, buffer: &mut [u8]) -> Option<usize>
    ensures end { IfSome result (λ end. end ≡ at + length text.now) }
    ensures text { IfSome result (λ _. IsWrittenAt at text.now buffer.old buffer.new) }
    ensures large { IfNone result (2 ^ 64 ≤ at + length text.now) }
{
    let end = at.checked_add(text.len())?;
    if at == end {
        return Some(end);
    }
    if end <= buffer.len() {
        buffer[at..end].copy_from_slice(text);
    }
    Some(end)
}

/// Writes a span at index `at`, if it fits. Returns the index after it. `None`: the index exceeds
/// `usize`.
fn put_span(span: GroupSpan, at: usize, spans: &mut [GroupSpan]) -> Option<usize>
    ensures end { IfSome result (λ end. end ≡ at + 1) }
    ensures span { IfSome result (λ _. IsWrittenAt at (span ∷ []) spans.old spans.new) }
    ensures large { IfNone result (2 ^ 64 ≤ at + 1) }
{
    let end = at.checked_add(1)?;
    if end <= spans.len() {
        spans[at] = span;
    }
    Some(end)
}

/// 1 if the group took part in the match, 0 if it did not.
fn took_part(capture: Option<&str>) -> u32
    ensures { result ≡ (if is_some (option_text capture.entry) then 1 else 0) }
{
    match capture {
        Some(_) => 1,
        None => 0,
    }
}

/// The bytes of a group's capture. Empty if the group took no part (`None`).
fn capture_bytes(capture: Option<&str>) -> &[u8]
    ensures { result.now ≡ capture_bytes (option_text capture.entry) }
{
    match capture {
        Some(text) => bytes(text),
        None => b"",
    }
}

/// The bytes of a text.
fn bytes(text: &str) -> &[u8]
    ensures { result.now ≡ encode_utf8_all (chars text.now) }
{
    text.as_bytes()
}
