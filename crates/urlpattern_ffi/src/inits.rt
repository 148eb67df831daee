//! Compiles inits, which C passes as JSON.
ghost use Rattle.std.specs.Prelude.{◌≡◌, IfErr, IfOk, Some};
ghost use Rattle.urlpattern_ffi.specs.Inits.{plain_init_of, IsInitAdded, IsInitOfJson, IsNoInit, IsUnread};
ghost use Rattle.urlpattern_ffi.specs.KeptPatterns.{boxed_patterns};
ghost use Rattle.urlpattern_inputs.specs.InputValues.{init_view};

use crate::adding::{options, push, status_of_error};
use crate::pattern_box::PatternBox;
use crate::status::Status;
use serde_json::Value;
use std::alloc::Global;
use std::str;
use urlpattern::quirks::{self, StringOrInit, process_construct_pattern_input};
use urlpattern::{UrlPattern, UrlPatternInit};

/// Compiles an init, a JSON object with the texts of components and of a base URL, and appends the
/// pattern to `kept`, the patterns of a handle. Unless the status is `Done`, the patterns are
/// unchanged.
#[tactic(auto, using(crate::proofs::ReportedInitLemmas::init_added))]
pub fn add_init(
    alloc: Global,
    kept: &mut Option<Box<PatternBox>>,
    json: &[u8],
    ignore_case: bool,
) -> Status
    ensures { IsInitAdded (boxed_patterns kept.old) json.now ignore_case (boxed_patterns kept.new)
        result }
{
    let init = match init_of(alloc, json) {
        Ok(init) => init,
        Err(status) => return status,
    };
    match UrlPattern::parse(alloc, init, options(ignore_case)) {
        Ok(pattern) => push(alloc, kept, pattern),
        Err(error) => {
            let status = status_of_error(&error);
            drop(error);
            status
        }
    }
}

/// Parses an init in JSON, and its base URL.
///
/// The error is the status that says why there is no init.
#[tactic(auto, using(crate::proofs::ReportedInitLemmas::no_init))]
pub fn init_of(alloc: Global, json: &[u8]) -> Result<UrlPatternInit, Status>
    ensures found { IfOk result (IsInitOfJson json.now) }
    ensures missing { IfErr result (IsNoInit json.now) }
{
    let plain = match plain_init(alloc, json) {
        Ok(plain) => plain,
        Err(status) => return Err(status),
    };
    match process_construct_pattern_input(alloc, StringOrInit::Init(plain), None) {
        Ok(init) => Ok(init),
        Err(error) => {
            let status = status_of_error(&error);
            drop(error);
            Err(status)
        }
    }
}

/// Parses an init in JSON, without parsing its base URL.
///
/// The error is the status that says why the JSON is not read: `NotUtf8`, `Refused` if it is not
/// the JSON of an init, or `OutOfMemory`.
pub(crate) fn plain_init(alloc: Global, json: &[u8]) -> Result<quirks::UrlPatternInit, Status>
    ensures found { IfOk result (λ init. plain_init_of json.now ≡ Some (init_view init)) }
    ensures missing { IfErr result (IsUnread json.now) }
{
    let Ok(text) = str::from_utf8(json) else {
        return Err(Status::NotUtf8);
    };
    let value = match Value::from_str(alloc, text) {
        Ok(value) => value,
        Err(error) if error.is_memory() => return Err(Status::OutOfMemory),
        Err(_) => return Err(Status::Refused),
    };
    match quirks::UrlPatternInit::from_json_value(alloc, &value) {
        Ok(Some(init)) => Ok(init),
        Ok(None) => Err(Status::Refused),
        Err(_) => Err(Status::OutOfMemory),
    }
}
