//! Writes policies as JSON.
ghost use Rattle.std.specs.Prelude.{◌≡◌, ◌<◌, IfOk, length, option_map};
ghost use Rattle.serde_json.specs.View.{view};
ghost use Rattle.urlpattern_inputs.specs.InputValues.{init_view, input_view};
ghost use Rattle.urlpattern_policy_json.specs.PolicyViews.{rule_view, settings_view};
ghost use Rattle.urlpattern_policy_text.specs.WrittenJson.{IsGivenAt, IsGivenBy, IsJsonOf, IsRuleGiven, settings_of, texts_of_init};

use crate::writing::has_rule_options;
use serde_json::Value;
use std::alloc::Global;
use std::borrow::CowStr;
use urlpattern::UrlPatternMap;
use urlpattern_components::{Eight, with_fields};
use urlpattern_differences::Effect;
use urlpattern_init::UrlPatternInit as Init;
use urlpattern_inputs::{StringOrInit, UrlPatternInit};
use urlpattern_matcher::regexp::RegExp;
use urlpattern_pattern::UrlPattern;
use urlpattern_policy::{PolicyOptions, UrlPolicy};
use urlpattern_policy_json::{GivenRule, GivenSettings, policy_to_json};
use urlpattern_syntax::error::OutOfMemory;

/// Returns the JSON of a policy, which is read as the same rules and options, as
/// `laws::json_of_a_policy_is_read_as_the_policy` says. The pattern of a rule is written as its
/// constructor string, or else as its init.
///
/// `None`: the pattern of a rule has neither, or was compiled under other options than the default
/// ones.
pub fn json_of_policy<R: RegExp>(
    alloc: Global,
    policy: &UrlPolicy<R>,
) -> Result<Option<Value>, OutOfMemory>
    ensures { IfOk result (λ found. IsJsonOf R.RegExp policy.now (option_map view found)) }
{
    let mut rules = Vec::new(alloc);
    for index in 0..policy.rules.len() {
        let found = rule_at(alloc, &policy.rules, index)?;
        match found {
            Some(rule) => rules.push(rule)?,
            None => {
                drop(rules);
                return Ok(None);
            }
        }
    }
    let tree = policy_to_json(alloc, settings_of(policy.options), &rules)?;
    drop(rules);
    Ok(Some(tree))
}

/// Returns what the options say apart from the rules.
fn settings_of(options: PolicyOptions) -> GivenSettings<'static>
    ensures { settings_view result ≡ settings_of options }
{
    GivenSettings {
        base: None,
        default: options.default,
        plain_spelling: options.plain_spelling,
        denies_credentials: options.denies_credentials,
    }
}

/// Returns the rule at the index as it is written. `None`: it is not written.
fn rule_at<R: RegExp>(
    alloc: Global,
    rules: &UrlPatternMap<Effect, R>,
    index: usize,
) -> Result<Option<GivenRule>, OutOfMemory>
    requires { index < length rules.now }
    ensures { IfOk result (λ given.
        IsGivenAt R.RegExp rules.now index (option_map rule_view given)) }
{
    match rules.get(index) {
        Some((pattern, effect)) => given_rule(alloc, pattern, *effect),
        None => Ok(None),
    }
}

/// Returns a rule as it is written. `None`: it is not written.
fn given_rule<R: RegExp>(
    alloc: Global,
    pattern: &UrlPattern<R>,
    effect: Effect,
) -> Result<Option<GivenRule>, OutOfMemory>
    ensures { IfOk result (λ given.
        IsRuleGiven R.RegExp (pattern.now, effect) (option_map rule_view given)) }
{
    let found = given_pattern(alloc, pattern)?;
    match found {
        Some(pattern) => Ok(Some(GivenRule { effect, pattern })),
        None => Ok(None),
    }
}

/// Returns a pattern as it is written. `None`: it is not written.
fn given_pattern<R: RegExp>(
    alloc: Global,
    pattern: &UrlPattern<R>,
) -> Result<Option<StringOrInit<'static>>, OutOfMemory>
    ensures { IfOk result (λ given.
        IsGivenBy R.RegExp pattern.now (option_map input_view given)) }
{
    if !has_rule_options(pattern) {
        return Ok(None);
    }
    match pattern.to_constructor_string(alloc) {
        Ok(Some(string)) => return Ok(Some(StringOrInit::String(CowStr::Owned(string)))),
        Ok(None) => {}
        Err(_) => return Err(OutOfMemory),
    }
    match pattern.to_init(alloc) {
        Ok(Some(init)) => Ok(Some(StringOrInit::Init(texts_of_init(init)))),
        Ok(None) => Ok(None),
        Err(_) => Err(OutOfMemory),
    }
}

/// Returns the texts of an init, without its base URL.
fn texts_of_init(init: Init) -> UrlPatternInit
    ensures { init_view result ≡ texts_of_init init }
{
    UrlPatternInit::from_eight(with_fields!(Eight, init), None)
}
