//! Matches patterns against URLs, and writes matches as JSON. URLs are parsed under a base URL
//! unless `base` is empty.
ghost use Rattle.std.specs.Prelude.{◌≢◌, string_bytes, IfErr, IfOk};
ghost use Rattle.urlpattern.specs.Patterns.{pattern_view};
ghost use Rattle.urlpattern_ffi.specs.Calls.{IsFirstReported, IsTested, IsUrlTested};
ghost use Rattle.urlpattern_ffi.specs.KeptPatterns.{boxed_patterns};
ghost use Rattle.urlpattern_ffi.specs.TextBuffers.{IsExecReported, IsJsonOfMatch, IsMatchText, IsUrlExecuted};
ghost use Rattle.urlpattern_ffi.specs.declared.status.Status.TheVariants as statuses;

use crate::pattern_box::{PatternBox, pattern_at};
use crate::status::Status;
use crate::text_buffers::write;
use crate::url_inputs::url_of;
use std::alloc::Global;
use urlpattern::regexp::PatternRegexp;
use urlpattern::{Error, UrlPattern, UrlPatternCaptures, UrlPatternList};

/// Matches the pattern at an index against a URL. `Done`: it matches. `NoMatch`: it does not.
/// Any other status says why there is no URL.
pub fn test(
    alloc: Global,
    kept: &Option<Box<PatternBox>>,
    index: usize,
    url: &[u8],
    base: &[u8],
) -> Status
    ensures { IsTested (boxed_patterns kept.now) index url.now base.now result }
{
    match pattern_at(kept, index) {
        Some(pattern) => test_pattern(alloc, pattern, url, base),
        None => Status::NoPattern,
    }
}

/// Matches a pattern against a URL. `Done`: it matches. `NoMatch`: it does not.
fn test_pattern(
    alloc: Global,
    pattern: &UrlPattern<PatternRegexp>,
    url: &[u8],
    base: &[u8],
) -> Status
    ensures { IsUrlTested (pattern_view pattern.now) url.now base.now result }
{
    let url = match url_of(alloc, url, base) {
        Ok(url) => url,
        Err(status) => return status,
    };
    match pattern.test_url(alloc, &url) {
        Ok(true) => Status::Done,
        Ok(false) => Status::NoMatch,
        Err(_) => Status::OutOfMemory,
    }
}

/// Finds the first pattern that matches a URL, and writes its index. `NoMatch`: no pattern matches.
/// `NoPattern`: the handle has no pattern.
pub fn first(
    alloc: Global,
    kept: &Option<Box<PatternBox>>,
    url: &[u8],
    base: &[u8],
    index: &mut usize,
) -> Status
    ensures { IsFirstReported (boxed_patterns kept.now) url.now base.now index.old index.new
        result }
{
    match kept {
        Some(kept) => first_in(alloc, &kept.list, url, base, index),
        None => Status::NoPattern,
    }
}

/// Finds the first pattern of a list that matches a URL, and writes its index. `NoMatch`: no
/// pattern matches. `NoPattern`: the list is empty.
fn first_in(
    alloc: Global,
    list: &UrlPatternList<PatternRegexp>,
    url: &[u8],
    base: &[u8],
    index: &mut usize,
) -> Status
    ensures { IsFirstReported list.now url.now base.now index.old index.new result }
{
    if list.is_empty() {
        return Status::NoPattern;
    }
    let url = match url_of(alloc, url, base) {
        Ok(url) => url,
        Err(status) => return status,
    };
    match list.first_captures(alloc, &url) {
        Ok(Some((found, captures))) => {
            drop(captures);
            *index = found;
            Status::Done
        }
        Ok(None) => Status::NoMatch,
        Err(_) => Status::OutOfMemory,
    }
}

/// Writes the match of a URL by the pattern at an index to `buffer`, as JSON, and the length of the
/// JSON in bytes to `needed`. `NoMatch`: the pattern does not match. `NoPattern`: there is no such
/// pattern.
pub fn execute(
    alloc: Global,
    kept: &Option<Box<PatternBox>>,
    index: usize,
    url: &[u8],
    base: &[u8],
    buffer: &mut [u8],
    needed: &mut usize,
) -> Status
    ensures { IsExecReported (boxed_patterns kept.now) index url.now base.now buffer.old buffer.new
        needed.new result }
{
    match pattern_at(kept, index) {
        Some(pattern) => execute_pattern(alloc, pattern, url, base, buffer, needed),
        None => Status::NoPattern,
    }
}

/// Writes the match of a URL by a pattern to `buffer`, as JSON, and the length of the JSON in bytes
/// to `needed`. `NoMatch`: the pattern does not match. `TooSmall`: the buffer is shorter than the
/// JSON.
fn execute_pattern(
    alloc: Global,
    pattern: &UrlPattern<PatternRegexp>,
    url: &[u8],
    base: &[u8],
    buffer: &mut [u8],
    needed: &mut usize,
) -> Status
    ensures { IsUrlExecuted (pattern_view pattern.now) url.now base.now buffer.old buffer.new
        needed.new result }
{
    match match_text(alloc, pattern, url, base) {
        Ok(text) => write(&text, buffer, needed),
        Err(status) => status,
    }
}

/// Returns the match of a URL by a pattern, as JSON.
///
/// The error is the status that says why there is none: `NoMatch` if the pattern does not match,
/// `OutOfMemory`, or why the text is not read as a URL.
fn match_text(
    alloc: Global,
    pattern: &UrlPattern<PatternRegexp>,
    url: &[u8],
    base: &[u8],
) -> Result<String, Status>
    ensures text { IfOk result (λ text.
        IsJsonOfMatch (pattern_view pattern.now) url.now base.now (string_bytes text)) }
    ensures none { IfErr result (λ status.
        (status ≢ statuses.Done) × IsUrlTested (pattern_view pattern.now) url.now base.now status) }
{
    let url = url_of(alloc, url, base)?;
    let found = match pattern.captures(alloc, &url) {
        Ok(Some(found)) => found,
        Ok(None) => return Err(Status::NoMatch),
        Err(_) => return Err(Status::OutOfMemory),
    };
    match json_text(alloc, &found) {
        Ok(text) => Ok(text),
        Err(_) => Err(Status::OutOfMemory),
    }
}

/// The JSON of a match, as text with no white space between tokens.
pub(crate) fn json_text(alloc: Global, found: &UrlPatternCaptures<'_, '_>) -> Result<String, Error>
    ensures { IfOk result (λ text. IsMatchText found.now (string_bytes text)) }
{
    let tree = found.to_json_value(alloc)?;
    let text = tree.to_string(alloc)?;
    Ok(text)
}
