//! Compiles what C passes for the pattern of a route or of a rule.
ghost use Rattle.std.specs.Prelude.{IfErr, IfOk};
ghost use Rattle.urlpattern_ffi_tables.specs.Compilations.{IsPatternOfJson, IsPatternOfBytes, RejectsBytes, RejectsJson};

use std::alloc::Global;
use std::str;
use urlpattern::UrlPattern;
use urlpattern::regexp::PatternRegexp;
use urlpattern_ffi::{Status, compiled, given_base, init_of, options, status_of_error};

/// Compiles a constructor string, under a base URL unless `base` is empty.
///
/// The error is the status that says why there is no pattern.
pub(crate) fn pattern_of_text(
    alloc: Global,
    text: &[u8],
    base: &[u8],
    ignore_case: bool,
) -> Result<UrlPattern<PatternRegexp>, Status>
    ensures compiled { IfOk result (IsPatternOfBytes text.now base.now ignore_case) }
    ensures refused { IfErr result (RejectsBytes text.now base.now ignore_case) }
{
    let Ok(text) = str::from_utf8(text) else {
        return Err(Status::NotUtf8);
    };
    let Ok(base) = str::from_utf8(base) else {
        return Err(Status::NotUtf8);
    };
    match compiled(alloc, text, given_base(base), ignore_case) {
        Ok(pattern) => Ok(pattern),
        Err(error) => {
            let status = status_of_error(&error);
            drop(error);
            Err(status)
        }
    }
}

/// Compiles an init in JSON.
///
/// The error is the status that says why there is no pattern.
pub(crate) fn pattern_of_init(
    alloc: Global,
    json: &[u8],
    ignore_case: bool,
) -> Result<UrlPattern<PatternRegexp>, Status>
    ensures compiled { IfOk result (IsPatternOfJson json.now ignore_case) }
    ensures refused { IfErr result (RejectsJson json.now ignore_case) }
{
    let init = match init_of(alloc, json) {
        Ok(init) => init,
        Err(status) => return Err(status),
    };
    match UrlPattern::parse(alloc, init, options(ignore_case)) {
        Ok(pattern) => Ok(pattern),
        Err(error) => {
            let status = status_of_error(&error);
            drop(error);
            Err(status)
        }
    }
}
