//! Reads rules from JSON, and compiles their patterns.
ghost use Rattle.std.specs.Prelude.{◌≡◌, IfErr, IfOk, option_copied};
ghost use Rattle.serde_json.specs.View.{view};
ghost use Rattle.urlpattern_compile.specs.Diagnoses.{AcceptsInit};
ghost use Rattle.urlpattern_inputs.specs.InputValues.{init_view, input_view, of_init};
ghost use Rattle.urlpattern_policy_text.specs.PolicyJson.{IsGivenCompiled, IsGivenRejected, IsInitUnder, IsMadeCompiled, IsMadeRejected, IsRead, base_of_init};
ghost use Rattle.urlpattern_policy_text.specs.PolicyTexts.{IsParsedAs, IsRejectedBase, rule_options};

use crate::outcome::{ParsedBase, compiled, not_memory, parsed_text, rule_options};
use serde_json::Value;
use std::alloc::Global;
use urlpattern_diagnosis::{Diagnosis, Subject};
use urlpattern_differences::Effect;
use urlpattern_init::UrlPatternInit as Init;
use urlpattern_inputs::{StringOrInit, UrlPatternInit};
use urlpattern_matcher::regexp::RegExp;
use urlpattern_pattern::UrlPattern;
use urlpattern_policy_json::{GivenRule, JsonReason, read_rule};
use urlpattern_syntax::error::OutOfMemory;

/// What is read of a rule: its pattern and its effect, or its fault.
pub(crate) type RuleReading<R> = Result<(UrlPattern<R>, Effect), JsonReason>;

/// Reads a rule from JSON, and compiles its pattern under the base URL.
pub(crate) fn read_policy_rule<R: RegExp>(
    alloc: Global,
    tree: &Value,
    base: Option<&str>,
) -> Result<RuleReading<R>, OutOfMemory>
    ensures { IfOk result (IsRead R.RegExp (option_copied base.entry) (view tree.now)) }
{
    let GivenRule { effect, pattern } = match read_rule(alloc, tree)? {
        Ok(given) => given,
        Err(fault) => return Ok(Err(JsonReason::Shape(fault))),
    };
    match compiled_given(alloc, pattern, base)? {
        Ok(pattern) => Ok(Ok((pattern, effect))),
        Err(diagnosis) => Ok(Err(JsonReason::Rejected(diagnosis))),
    }
}

/// Compiles a pattern as it is given, or returns why it is rejected.
fn compiled_given<R: RegExp>(
    alloc: Global,
    given: StringOrInit<'static>,
    base: Option<&str>,
) -> Result<Result<UrlPattern<R>, Diagnosis>, OutOfMemory>
    ensures compiled { IfOk result (λ it. IfOk it
        (IsGivenCompiled R.RegExp (option_copied base.entry) (input_view given.entry))) }
    ensures rejected { IfOk result (λ it. IfErr it
        (IsGivenRejected R.RegExp (option_copied base.entry) (input_view given.entry))) }
{
    match given {
        StringOrInit::String(text) => {
            let made = compiled(alloc, text.as_str(), base);
            drop(text);
            made
        }
        StringOrInit::Init(init) => compiled_init(alloc, init, base),
    }
}

/// Compiles an init, or returns why it is rejected.
fn compiled_init<R: RegExp>(
    alloc: Global,
    given: UrlPatternInit,
    base: Option<&str>,
) -> Result<Result<UrlPattern<R>, Diagnosis>, OutOfMemory>
    ensures compiled { IfOk result (λ it. IfOk it (IsGivenCompiled R.RegExp
        (option_copied base.entry) (of_init (init_view given)))) }
    ensures rejected { IfOk result (λ it. IfErr it (IsGivenRejected R.RegExp
        (option_copied base.entry) (of_init (init_view given)))) }
{
    let found = made_under(alloc, given, base)?;
    match found {
        Ok(made) => compiled_made(alloc, made),
        Err(diagnosis) => Ok(Err(diagnosis)),
    }
}

/// Returns an init with its base URL parsed, or why `url` rejects the base URL.
fn made_under(
    alloc: Global,
    given: UrlPatternInit,
    base: Option<&str>,
) -> Result<Result<Init, Diagnosis>, OutOfMemory>
    ensures made { IfOk result (λ it. IfOk it
        (IsInitUnder (option_copied base.entry) (init_view given))) }
    ensures rejected { IfOk result (λ it. IfErr it (IsRejectedBase
        (base_of_init (option_copied base.entry) (init_view given)))) }
{
    let own = base_of_init(&given, base);
    let parsed = parsed_base(alloc, own)?;
    match parsed {
        Ok(url) => Ok(Ok(Init::from_eight(given.into_eight(), url))),
        Err(diagnosis) => Ok(Err(diagnosis)),
    }
}

/// Parses a base URL, if there is one, or returns why `url` rejects it.
fn parsed_base(alloc: Global, base: Option<&str>) -> Result<ParsedBase, OutOfMemory>
    ensures parsed { IfOk result (λ it. IfOk it (IsParsedAs (option_copied base.entry))) }
    ensures rejected { IfOk result (λ it. IfErr it (IsRejectedBase (option_copied base.entry))) }
{
    match base {
        Some(text) => parsed_text(alloc, text),
        None => Ok(Ok(None)),
    }
}

/// Returns the base URL of an init: its own, or else that of the policy.
fn base_of_init<'t>(given: &'t UrlPatternInit, base: Option<&'t str>) -> Option<&'t str>
    ensures { option_copied result ≡ base_of_init (option_copied base.entry) (init_view given.now) }
{
    match &given.base_url {
        Some(own) => Some(own.as_str()),
        None => base,
    }
}

/// Compiles an init with its base URL parsed, or returns why it is rejected.
fn compiled_made<R: RegExp>(
    alloc: Global,
    made: Init,
) -> Result<Result<UrlPattern<R>, Diagnosis>, OutOfMemory>
    ensures compiled { IfOk result (λ it. IfOk it (IsMadeCompiled R.RegExp made)) }
    ensures rejected { IfOk result (λ it. IfErr it (IsMadeRejected R.RegExp made)) }
{
    let found = UrlPattern::<R>::diagnose_init(alloc, &made, rule_options())?;
    match found {
        Some(diagnosis) => Ok(Err(diagnosis)),
        None => compiled_accepted(alloc, made),
    }
}

/// Compiles an init that was accepted when it was compiled before, or returns that it is rejected
/// as a whole.
fn compiled_accepted<R: RegExp>(
    alloc: Global,
    made: Init,
) -> Result<Result<UrlPattern<R>, Diagnosis>, OutOfMemory>
    requires { AcceptsInit R.RegExp made rule_options }
    ensures compiled { IfOk result (λ it. IfOk it (IsMadeCompiled R.RegExp made)) }
    ensures rejected { IfOk result (λ it. IfErr it (IsMadeRejected R.RegExp made)) }
{
    match UrlPattern::parse(alloc, made, rule_options()) {
        Ok(pattern) => Ok(Ok(pattern)),
        Err(error) => {
            let error = not_memory(error)?;
            let diagnosis = Diagnosis::whole(alloc, error, Subject::Whole, "")?;
            Ok(Err(diagnosis))
        }
    }
}
