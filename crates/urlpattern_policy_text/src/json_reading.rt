//! Reads policies from JSON.
ghost use Rattle.std.specs.Prelude.{◌≡◌, IfErr, IfOk, OnOk, Some, map, option_copied};
ghost use Rattle.serde_json.specs.View.{view};
ghost use Rattle.urlpattern_policy_json.specs.PolicyViews.{fault_view, settings_view};
ghost use Rattle.urlpattern_policy_text.specs.PolicyJson.{AddsRead, GainsBase, IsJsonRefusal, IsPolicyOfJson, base_fault, options_given};

use crate::json_rules::{RuleReading, read_policy_rule};
use crate::outcome::base_diagnosis;
use serde_json::Value;
use std::alloc::{AllocError, Global};
use urlpattern::UrlPatternMap;
use urlpattern_diagnosis::Diagnosis;
use urlpattern_differences::Effect;
use urlpattern_matcher::regexp::RegExp;
use urlpattern_policy::{PolicyOptions, UrlPolicy};
use urlpattern_policy_json::{
    GivenSettings, JsonFault, JsonPlace, JsonReason, faults_of_members, rules_in, settings_in,
};
use urlpattern_syntax::error::OutOfMemory;

/// Why JSON is no policy.
#[derive(Debug, Drop)]
pub enum PolicyJsonError {
    /// The faults of the JSON, at least one: those of its members in the order of their names, that
    /// of the base URL, and those of the rules in order.
    Faults(Vec<JsonFault>),
    /// The allocator had no memory.
    OutOfMemory,
}

/// Reads a policy from JSON, or reports all faults.
///
/// The JSON is an object. Its member `rules` is an array of objects, each with one member, `allow`
/// or `deny`, whose value is a pattern: a constructor string, or an object of texts for components
/// and for `baseURL`. `base` is the base URL of all patterns but those with their own. `default`,
/// `allow` or `deny`, says what is decided where no rule matches; `spelling`, `plain` or `exact`,
/// whether URLs are brought to their plain spelling; and `credentials`, `deny` or `rules`, whether
/// a URL with a user name or a password is denied, or left to the rules. Each member may be
/// missing, and no other is accepted.
pub fn policy_of_json<R: RegExp>(
    alloc: Global,
    json: &Value,
) -> Result<UrlPolicy<R>, PolicyJsonError>
    ensures policy { IfOk result (IsPolicyOfJson R.RegExp (view json.now)) }
    ensures refused { IfErr result (IsJsonRefusal R.RegExp (view json.now)) }
{
    let settings = settings_in(json);
    let mut faults = faults_of_members(alloc, json)?;
    let base = used_base(alloc, settings.base, &mut faults)?;
    let mut rules = UrlPatternMap::new(alloc);
    let items = rules_in(json);
    for index in 0..items.len() {
        let reading = read_policy_rule(alloc, &items[index], base)?;
        add_reading(index, reading, &mut rules, &mut faults)?;
    }
    if !faults.is_empty() {
        return Err(PolicyJsonError::Faults(faults));
    }
    Ok(UrlPolicy {
        rules,
        options: options_given(settings),
    })
}

/// Returns the options that are given.
fn options_given(settings: GivenSettings<'_>) -> PolicyOptions
    ensures { result ≡ options_given (settings_view settings.entry) }
{
    PolicyOptions {
        default: settings.default,
        plain_spelling: settings.plain_spelling,
        denies_credentials: settings.denies_credentials,
    }
}

/// Returns the base URL of the patterns, and appends its fault. `None`: none is given, or `url`
/// rejects it.
fn used_base<'v>(
    alloc: Global,
    given: Option<&'v str>,
    faults: &mut Vec<JsonFault>,
) -> Result<Option<&'v str>, OutOfMemory>
    ensures { IfOk result (λ base. GainsBase (option_copied given.entry) (option_copied base)
        (map fault_view faults.old.items) (map fault_view faults.new.items)) }
{
    match given {
        Some(text) => accepted_base(alloc, text, faults),
        None => Ok(None),
    }
}

/// Returns the base URL, or appends its fault. `None`: `url` rejects it.
fn accepted_base<'v>(
    alloc: Global,
    text: &'v str,
    faults: &mut Vec<JsonFault>,
) -> Result<Option<&'v str>, OutOfMemory>
    ensures { IfOk result (λ base. GainsBase (Some text.now) (option_copied base)
        (map fault_view faults.old.items) (map fault_view faults.new.items)) }
{
    let found = base_diagnosis(alloc, text)?;
    match found {
        Some(diagnosis) => {
            let fault = base_fault(alloc, diagnosis)?;
            faults.push(fault)?;
            Ok(None)
        }
        None => Ok(Some(text)),
    }
}

/// Returns the fault of a base URL that `url` rejects.
fn base_fault(alloc: Global, diagnosis: Diagnosis) -> Result<JsonFault, OutOfMemory>
    ensures { IfOk result (λ fault. fault_view fault ≡ base_fault diagnosis) }
{
    let name = String::from_str(alloc, "base")?;
    Ok(JsonFault {
        place: JsonPlace::Member(name),
        reason: JsonReason::Rejected(diagnosis),
    })
}

/// Appends the rule that is read at the index, or its fault.
fn add_reading<R: RegExp>(
    index: usize,
    reading: RuleReading<R>,
    rules: &mut UrlPatternMap<Effect, R>,
    faults: &mut Vec<JsonFault>,
) -> Result<(), OutOfMemory>
    ensures { OnOk result (AddsRead index reading rules.old rules.new
        (map fault_view faults.old.items) (map fault_view faults.new.items)) }
{
    match reading {
        Ok((pattern, effect)) => match rules.try_insert(pattern, effect) {
            Ok(()) => Ok(()),
            Err(_) => Err(OutOfMemory),
        },
        Err(reason) => {
            let place = JsonPlace::Rule(index);
            faults.push(JsonFault { place, reason })?;
            Ok(())
        }
    }
}

impl From<AllocError> for PolicyJsonError {
    ghost use Rattle.urlpattern_policy_text.specs.declared.json_reading.PolicyJsonError.TheVariants as errors;

    ghost from_gives = { λ _ error. error ≡ errors.OutOfMemory };

    fn from(_error: AllocError) -> PolicyJsonError {
        PolicyJsonError::OutOfMemory
    }
}

impl From<OutOfMemory> for PolicyJsonError {
    ghost use Rattle.urlpattern_policy_text.specs.declared.json_reading.PolicyJsonError.TheVariants as errors;

    ghost from_gives = { λ _ error. error ≡ errors.OutOfMemory };

    fn from(_error: OutOfMemory) -> PolicyJsonError {
        PolicyJsonError::OutOfMemory
    }
}
