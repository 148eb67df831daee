//! The eight texts of an init in JSON, which a pattern is matched against.
ghost use Rattle.std.specs.Prelude.{IfErr, IfOk};
ghost use Rattle.urlpattern_ffi.specs.InitMatches.{AreNoTextsOfInit, AreTextsOfInit, IsNoMatchedInit};
ghost use Rattle.urlpattern_ffi.specs.Inits.{IsInitOfJson};
ghost use Rattle.urlpattern_matches.specs.MatchInput.{texts_view};

use crate::inits::plain_init;
use crate::status::Status;
use crate::url_inputs::LONG_TEXT;
use std::alloc::Global;
use urlpattern::quirks::{
    MatchInput, StringOrInit, parse_match_input, process_construct_pattern_input,
};
use urlpattern::{Error, UrlPatternInit, UrlPatternMatchInput};

/// Returns the eight texts of an init in JSON, with what it inherits from its base URL.
///
/// The error is the status that says why there are none: `TooLong`, `NotUtf8`, `Refused` if the
/// text is not the JSON of an init, `NoUrl` if `url` rejects a text of the init or its base URL, or
/// `OutOfMemory`.
#[tactic(auto, using(crate::proofs::InitMatchLemmas::no_texts_of_init))]
pub(crate) fn texts_of_init(alloc: Global, json: &[u8]) -> Result<MatchInput, Status>
    ensures found { IfOk result (λ input. AreTextsOfInit json.now (texts_view input)) }
    ensures missing { IfErr result (AreNoTextsOfInit json.now) }
{
    if json.len() >= LONG_TEXT {
        return Err(Status::TooLong);
    }
    let init = match matched_init(alloc, json) {
        Ok(init) => init,
        Err(status) => return Err(status),
    };
    match parse_match_input(alloc, UrlPatternMatchInput::Init(init)) {
        Ok(Some(input)) => Ok(input),
        Ok(None) => Err(Status::NoUrl),
        Err(_) => Err(Status::OutOfMemory),
    }
}

/// Parses an init in JSON, and its base URL.
///
/// The error is the status that says why there is no init: `NoUrl` if the base URL is rejected, or
/// why the JSON is not read.
#[tactic(auto, using(crate::proofs::InitMatchLemmas::no_matched_init))]
fn matched_init(alloc: Global, json: &[u8]) -> Result<UrlPatternInit, Status>
    ensures found { IfOk result (IsInitOfJson json.now) }
    ensures missing { IfErr result (IsNoMatchedInit json.now) }
{
    let plain = match plain_init(alloc, json) {
        Ok(plain) => plain,
        Err(status) => return Err(status),
    };
    match process_construct_pattern_input(alloc, StringOrInit::Init(plain), None) {
        Ok(init) => Ok(init),
        Err(Error::Url(_)) => Err(Status::NoUrl),
        Err(_) => Err(Status::OutOfMemory),
    }
}
