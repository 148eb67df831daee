//! Matches inits, which C passes as JSON, and writes matches.
ghost use Rattle.std.specs.Prelude.{IfErr, IfOk, string_bytes};
ghost use Rattle.urlpattern.specs.Patterns.{pattern_view};
ghost use Rattle.urlpattern_ffi.specs.InitMatches.{AreNoTextsOfInit, AreTextsOfInit, IsInitExecReported, IsInitExecuted, IsInitUnmatched, IsJsonOfInitMatch};
ghost use Rattle.urlpattern_ffi.specs.KeptPatterns.{boxed_patterns};
ghost use Rattle.urlpattern_ffi.specs.TextCaptures.{AreCapturesOf, AreFirstCapturesOf};

use crate::exec_calls::json_text;
use crate::init_inputs::texts_of_init;
use crate::pattern_box::{PatternBox, list_of, pattern_at};
use crate::spans::{GroupSpan, Sizes};
use crate::status::Status;
use crate::text_buffers::write;
use crate::text_captures::{write_captures, write_first};
use std::alloc::Global;
use urlpattern::UrlPattern;
use urlpattern::regexp::PatternRegexp;
use urlpattern_matches::input_texts;

/// Matches the pattern at an index against an init in JSON. If it matches, writes the captures of
/// its groups to `buffer`, a span for each group to `spans`, and the room that both need to
/// `needed`.
pub fn captures_of_init(
    alloc: Global,
    kept: &Option<Box<PatternBox>>,
    index: usize,
    json: &[u8],
    buffer: &mut [u8],
    spans: &mut [GroupSpan],
    needed: &mut Sizes,
) -> Status
    ensures { AreCapturesOf (AreTextsOfInit json.now) (AreNoTextsOfInit json.now)
        (boxed_patterns kept.now) index buffer.old buffer.new spans.old spans.new needed.new
        result }
{
    let pattern = match pattern_at(kept, index) {
        Some(pattern) => pattern,
        None => return Status::NoPattern,
    };
    let input = match texts_of_init(alloc, json) {
        Ok(input) => input,
        Err(status) => return status,
    };
    write_captures(alloc, pattern, &input_texts(&input), buffer, spans, needed)
}

/// Finds the first pattern that matches an init in JSON. If there is one, writes its index, the
/// captures of its groups to `buffer`, a span for each group to `spans`, and the room that both
/// need to `needed`.
pub fn first_captures_of_init(
    alloc: Global,
    kept: &Option<Box<PatternBox>>,
    json: &[u8],
    index: &mut usize,
    buffer: &mut [u8],
    spans: &mut [GroupSpan],
    needed: &mut Sizes,
) -> Status
    ensures { AreFirstCapturesOf (AreTextsOfInit json.now) (AreNoTextsOfInit json.now)
        (boxed_patterns kept.now) index.old index.new buffer.old buffer.new spans.old spans.new
        needed.new result }
{
    let list = match list_of(kept) {
        Some(list) => list,
        None => return Status::NoPattern,
    };
    let input = match texts_of_init(alloc, json) {
        Ok(input) => input,
        Err(status) => return status,
    };
    write_first(
        alloc,
        list,
        &input_texts(&input),
        index,
        buffer,
        spans,
        needed,
    )
}

/// Writes the match of an init by the pattern at an index to `buffer`, as JSON, and the length of
/// the JSON in bytes to `needed`. `NoMatch`: the pattern does not match. `NoPattern`: there is no
/// such pattern.
pub fn execute_init(
    alloc: Global,
    kept: &Option<Box<PatternBox>>,
    index: usize,
    json: &[u8],
    buffer: &mut [u8],
    needed: &mut usize,
) -> Status
    ensures { IsInitExecReported (boxed_patterns kept.now) index json.now buffer.old buffer.new
        needed.new result }
{
    match pattern_at(kept, index) {
        Some(pattern) => execute_pattern(alloc, pattern, json, buffer, needed),
        None => Status::NoPattern,
    }
}

/// Writes the match of an init by a pattern to `buffer`, as JSON, and the length of the JSON in
/// bytes to `needed`. `NoMatch`: the pattern does not match. `TooSmall`: the buffer is shorter than
/// the JSON.
fn execute_pattern(
    alloc: Global,
    pattern: &UrlPattern<PatternRegexp>,
    json: &[u8],
    buffer: &mut [u8],
    needed: &mut usize,
) -> Status
    ensures { IsInitExecuted (pattern_view pattern.now) json.now buffer.old buffer.new needed.new
        result }
{
    match match_text(alloc, pattern, json) {
        Ok(text) => write(&text, buffer, needed),
        Err(status) => status,
    }
}

/// Returns the match of an init by a pattern, as JSON.
///
/// The error is the status that says why there is none: `NoMatch` if the pattern does not match,
/// `OutOfMemory`, or why the init has no texts.
#[tactic(auto, using(crate::proofs::InitMatchLemmas::init_unmatched))]
fn match_text(
    alloc: Global,
    pattern: &UrlPattern<PatternRegexp>,
    json: &[u8],
) -> Result<String, Status>
    ensures text { IfOk result (λ text.
        IsJsonOfInitMatch (pattern_view pattern.now) json.now (string_bytes text)) }
    ensures none { IfErr result (IsInitUnmatched (pattern_view pattern.now) json.now) }
{
    let input = match texts_of_init(alloc, json) {
        Ok(input) => input,
        Err(status) => return Err(status),
    };
    let found = match pattern.captures_of_input(alloc, &input) {
        Ok(Some(found)) => found,
        Ok(None) => return Err(Status::NoMatch),
        Err(_) => return Err(Status::OutOfMemory),
    };
    match json_text(alloc, &found) {
        Ok(text) => Ok(text),
        Err(_) => Err(Status::OutOfMemory),
    }
}
