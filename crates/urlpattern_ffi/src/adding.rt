//! Compiles constructor strings, and appends patterns to those of a handle.
ghost use Rattle.std.specs.Arc.{arc_value};
ghost use Rattle.std.specs.Prelude.{◌≡◌, ◌≢◌, [], option_copied, IfErr, IfOk};
ghost use Rattle.urlpattern_ffi.specs.Calls.{given_base, c_options, error_status, IsAdded, IsCompiledFromText, IsPushed, KeepsItsParts, RejectsCompilation};
ghost use Rattle.urlpattern_ffi.specs.KeptPatterns.{boxed_patterns};
ghost use Rattle.urlpattern.specs.Errors.{error_view, MemoryOr};

use crate::pattern_box::{PatternBox, boxed_pattern};
use crate::status::Status;
use std::alloc::Global;
use std::str;
use std::sync::Arc;
use urlpattern::regexp::PatternRegexp;
use urlpattern::{Error, RegexSyntax, UrlPattern, UrlPatternOptions};

/// Compiles a constructor string, under a base URL unless `base` is empty, and appends the pattern
/// to `kept`, the patterns of a handle. Unless the status is `Done`, the patterns are unchanged.
pub fn add(
    alloc: Global,
    kept: &mut Option<Box<PatternBox>>,
    text: &[u8],
    base: &[u8],
    ignore_case: bool,
) -> Status
    ensures { IsAdded (boxed_patterns kept.old) text.now base.now ignore_case
        (boxed_patterns kept.new) result }
{
    let Ok(text) = str::from_utf8(text) else {
        return Status::NotUtf8;
    };
    let Ok(base) = str::from_utf8(base) else {
        return Status::NotUtf8;
    };
    match compiled(alloc, text, given_base(base), ignore_case) {
        Ok(pattern) => push(alloc, kept, pattern),
        Err(error) => {
            let status = status_of_error(&error);
            drop(error);
            status
        }
    }
}

/// The status for an error of compiling: `OutOfMemory`, or `Refused` for any other error.
pub fn status_of_error(error: &Error) -> Status
    ensures { result ≡ error_status (error_view error.now) }
{
    match error {
        Error::OutOfMemory => Status::OutOfMemory,
        _ => Status::Refused,
    }
}

/// The base URL that a text gives. `None`: the text is empty.
pub fn given_base(text: &str) -> Option<&str>
    ensures { option_copied result ≡ given_base text.now }
{
    if text.is_empty() { None } else { Some(text) }
}

/// Compiles a constructor string, under a base URL if there is one.
pub fn compiled(
    alloc: Global,
    text: &str,
    base: Option<&str>,
    ignore_case: bool,
) -> Result<UrlPattern<PatternRegexp>, Error>
    ensures compiled { IfOk result
        (IsCompiledFromText text.now (option_copied base.entry) ignore_case) }
    ensures kept { IfOk result (KeepsItsParts text.now (option_copied base.entry) ignore_case) }
    ensures refused { IfErr result
        (MemoryOr (RejectsCompilation text.now (option_copied base.entry) ignore_case)) }
{
    UrlPattern::from_constructor_string(alloc, text, base, options(ignore_case))
}

/// The options with which patterns are compiled: the syntax of `regex`, and case ignored or not.
pub fn options(ignore_case: bool) -> UrlPatternOptions
    ensures { result ≡ c_options ignore_case }
{
    UrlPatternOptions {
        regex_syntax: RegexSyntax::Rust,
        ignore_case,
    }
}

/// Appends a pattern to `kept`, the patterns of a handle. `OutOfMemory`: memory ran out. `Shared`:
/// another handle has the patterns. In both cases they are unchanged.
///
/// Handles that have no pattern share nothing: the first pattern gets a list of its own.
pub(crate) fn push(
    alloc: Global,
    kept: &mut Option<Box<PatternBox>>,
    pattern: UrlPattern<PatternRegexp>,
) -> Status
    ensures { IsPushed (boxed_patterns kept.old) pattern (boxed_patterns kept.new) result }
{
    match kept.take() {
        Some(mut taken) if !taken.list.is_empty() => {
            let status = append(&mut taken, pattern);
            *kept = Some(taken);
            status
        }
        _ => match boxed_pattern(alloc, pattern) {
            Ok(made) => {
                *kept = Some(made);
                Status::Done
            }
            Err(_) => Status::OutOfMemory,
        },
    }
}

/// Appends a pattern to those in a box, of which there is one at least. `OutOfMemory`: memory ran
/// out. `Shared`: another handle has the patterns. In both cases they are unchanged.
fn append(kept: &mut Box<PatternBox>, pattern: UrlPattern<PatternRegexp>) -> Status
    requires { arc_value kept.old.value.list ≢ [] }
    ensures { IsPushed (arc_value kept.old.value.list) pattern (arc_value kept.new.value.list)
        result }
{
    match Arc::get_mut(&mut kept.list) {
        Some(list) => match list.try_push(pattern) {
            Ok(()) => Status::Done,
            Err(_) => Status::OutOfMemory,
        },
        None => Status::Shared,
    }
}
