//! Matches URLs, and writes the captures of groups.
ghost use Rattle.urlpattern.specs.Patterns.{pattern_view};
ghost use Rattle.urlpattern_ffi.specs.KeptPatterns.{boxed_patterns};
ghost use Rattle.urlpattern_ffi.specs.GroupSpans.{AreCapturesReported, AreFirstCaptures, AreFirstInBox, AreUrlCaptures};

use crate::pattern_box::{PatternBox, pattern_at};
use crate::spans::{GroupSpan, Sizes, write_groups};
use crate::status::Status;
use crate::url_inputs::url_of;
use std::alloc::Global;
use urlpattern::regexp::PatternRegexp;
use urlpattern::{UrlPattern, UrlPatternList};

/// Matches the pattern at an index against a URL, under a base URL unless `base` is empty. If it
/// matches, writes the captures of its groups to `buffer`, a span for each group to `spans`, and
/// the room that both need to `needed`.
pub fn captures(
    alloc: Global,
    kept: &Option<Box<PatternBox>>,
    index: usize,
    url: &[u8],
    base: &[u8],
    buffer: &mut [u8],
    spans: &mut [GroupSpan],
    needed: &mut Sizes,
) -> Status
    ensures { AreCapturesReported (boxed_patterns kept.now) index url.now base.now
        buffer.old buffer.new spans.old spans.new needed.new result }
{
    match pattern_at(kept, index) {
        Some(pattern) => pattern_captures(alloc, pattern, url, base, buffer, spans, needed),
        None => Status::NoPattern,
    }
}

/// Matches a pattern against a URL, under a base URL unless `base` is empty. If it matches, writes
/// the captures of its groups to `buffer`, a span for each group to `spans`, and the room that both
/// need to `needed`.
fn pattern_captures(
    alloc: Global,
    pattern: &UrlPattern<PatternRegexp>,
    url: &[u8],
    base: &[u8],
    buffer: &mut [u8],
    spans: &mut [GroupSpan],
    needed: &mut Sizes,
) -> Status
    ensures { AreUrlCaptures (pattern_view pattern.now) url.now base.now buffer.old buffer.new
        spans.old spans.new needed.new result }
{
    let url = match url_of(alloc, url, base) {
        Ok(url) => url,
        Err(status) => return status,
    };
    match pattern.captures(alloc, &url) {
        Ok(Some(found)) => write_groups(&found, buffer, spans, needed),
        Ok(None) => Status::NoMatch,
        Err(_) => Status::OutOfMemory,
    }
}

/// Finds the first pattern that matches a URL, under a base URL unless `base` is empty. If there is
/// one, writes its index, the captures of its groups to `buffer`, a span for each group to `spans`,
/// and the room that both need to `needed`.
pub fn first_captures(
    alloc: Global,
    kept: &Option<Box<PatternBox>>,
    url: &[u8],
    base: &[u8],
    index: &mut usize,
    buffer: &mut [u8],
    spans: &mut [GroupSpan],
    needed: &mut Sizes,
) -> Status
    ensures { AreFirstInBox kept.now url.now base.now index.old index.new buffer.old buffer.new
        spans.old spans.new needed.new result }
{
    match kept {
        Some(kept) => list_captures(alloc, &kept.list, url, base, index, buffer, spans, needed),
        None => Status::NoPattern,
    }
}

/// Finds the first pattern of a list that matches a URL, under a base URL unless `base` is empty.
/// If there is one, writes its index, the captures of its groups to `buffer`, a span for each group
/// to `spans`, and the room that both need to `needed`.
fn list_captures(
    alloc: Global,
    list: &UrlPatternList<PatternRegexp>,
    url: &[u8],
    base: &[u8],
    index: &mut usize,
    buffer: &mut [u8],
    spans: &mut [GroupSpan],
    needed: &mut Sizes,
) -> Status
    ensures { AreFirstCaptures list.now url.now base.now index.old index.new buffer.old buffer.new
        spans.old spans.new needed.new result }
{
    if list.is_empty() {
        return Status::NoPattern;
    }
    let url = match url_of(alloc, url, base) {
        Ok(url) => url,
        Err(status) => return status,
    };
    match list.first_captures(alloc, &url) {
        Ok(Some((first, found))) => {
            *index = first;
            write_groups(&found, buffer, spans, needed)
        }
        Ok(None) => Status::NoMatch,
        Err(_) => Status::OutOfMemory,
    }
}
