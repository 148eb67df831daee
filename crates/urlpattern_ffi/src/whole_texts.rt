//! Writes a pattern as one text, and compares patterns for being the same.
ghost use Rattle.urlpattern_ffi.specs.KeptPatterns.{boxed_patterns};
ghost use Rattle.urlpattern_ffi.specs.WholeTexts.{AreSame, IsSameReported, IsTextReported, IsWholeWritten};

use crate::pattern_box::{PatternBox, pattern_at};
use crate::status::Status;
use crate::text_buffers::write;
use std::alloc::Global;
use urlpattern::UrlPattern;
use urlpattern::regexp::PatternRegexp;

/// Writes the constructor string of the pattern at an index to `buffer`, and its length in bytes to
/// `needed`. `NoMatch`: the pattern has none. `NoPattern`: there is no such pattern.
pub fn write_text(
    alloc: Global,
    kept: &Option<Box<PatternBox>>,
    index: usize,
    buffer: &mut [u8],
    needed: &mut usize,
) -> Status
    ensures { IsTextReported (boxed_patterns kept.now) index buffer.old buffer.new needed.new
        result }
{
    match pattern_at(kept, index) {
        Some(pattern) => write_whole(alloc, pattern, buffer, needed),
        None => Status::NoPattern,
    }
}

/// Writes the constructor string of a pattern to `buffer`, and its length in bytes to `needed`.
/// `NoMatch`: the pattern has none.
fn write_whole(
    alloc: Global,
    pattern: &UrlPattern<PatternRegexp>,
    buffer: &mut [u8],
    needed: &mut usize,
) -> Status
    ensures { IsWholeWritten pattern.now buffer.old buffer.new needed.new result }
{
    match pattern.to_constructor_string(alloc) {
        Ok(Some(text)) => write(&text, buffer, needed),
        Ok(None) => Status::NoMatch,
        Err(_) => Status::OutOfMemory,
    }
}

/// Whether the pattern of `kept` at `index` and the one of `others` at `other` are the same: `Done`
/// if they are, `NoMatch` if not, `Unknown` if one was put together by hand, `NoPattern` if an
/// index is out of range.
pub fn is_same(
    kept: &Option<Box<PatternBox>>,
    index: usize,
    others: &Option<Box<PatternBox>>,
    other: usize,
) -> Status
    ensures { IsSameReported (boxed_patterns kept.now) index (boxed_patterns others.now) other
        result }
{
    let pattern = match pattern_at(kept, index) {
        Some(pattern) => pattern,
        None => return Status::NoPattern,
    };
    let compared = match pattern_at(others, other) {
        Some(compared) => compared,
        None => return Status::NoPattern,
    };
    are_same(pattern, compared)
}

/// Whether two patterns are the same: `Done` if they are, `NoMatch` if not, `Unknown` if one was
/// put together by hand.
fn are_same(pattern: &UrlPattern<PatternRegexp>, other: &UrlPattern<PatternRegexp>) -> Status
    ensures { AreSame pattern.now other.now result }
{
    match pattern.is_same(other) {
        Ok(true) => Status::Done,
        Ok(false) => Status::NoMatch,
        Err(_) => Status::Unknown,
    }
}
