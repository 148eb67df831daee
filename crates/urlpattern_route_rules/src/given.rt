//! Compiles the pattern of a condition.

ghost use Rattle.std.specs.Prelude.{◌≡◌, IfOk, IsTrue, is_some};
ghost use Rattle.urlpattern_inputs.specs.InputValues.{init_view, input_view, of_init, of_text};
ghost use Rattle.urlpattern_route_rules.specs.Patterns.{Allows, CompilesPattern, GivesInit, HasFault, base_of, component_fault, name_fault, no_options, part_fault, pattern_fault};

use crate::fault::PatternFault;
use std::alloc::{AllocError, Global};
use urlpattern_canonical::parse_base;
use urlpattern_compare::PatternParts;
use urlpattern_components::ComponentName;
use urlpattern_diagnosis::{Diagnosis, Subject};
use urlpattern_init as init;
use urlpattern_inputs::{StringOrInit, UrlPatternInit, UrlPatternOptions};
use urlpattern_matcher::regexp::RegExp;
use urlpattern_pattern::UrlPattern;
use urlpattern_syntax::parser::{Part, PartType, RegexSyntax};
use urlpattern_syntax::{ComponentParts, Error};

/// A pattern, or why it is rejected, or that memory ran out.
type Made<R> = Result<Result<UrlPattern<R>, PatternFault>, AllocError>;

/// Compiles a pattern as it is given, or returns why it is rejected. `script` is the base URL of a
/// text, and of an init that has none.
pub(crate) fn compiled_pattern<R: RegExp>(
    alloc: Global,
    given: &StringOrInit<'_>,
    script: &str,
) -> Made<R>
    ensures { IfOk result (CompilesPattern R.RegExp script.now (input_view given.now)) }
{
    match given {
        StringOrInit::String(text) => compiled_text(alloc, text.as_str(), script),
        StringOrInit::Init(init) => compiled_init(alloc, init, script),
    }
}

/// Compiles a constructor string, or returns why it is rejected.
fn compiled_text<R: RegExp>(alloc: Global, text: &str, script: &str) -> Made<R>
    ensures { IfOk result (CompilesPattern R.RegExp script.now (of_text text.now)) }
{
    match UrlPattern::<R>::from_constructor_string(alloc, text, Some(script), no_options()) {
        Ok(compiled) => Ok(allowed(compiled)),
        Err(_) => match UrlPattern::<R>::diagnose(alloc, text, Some(script), no_options()) {
            Ok(Some(diagnosis)) => Ok(Err(PatternFault::Rejected(diagnosis))),
            _ => Err(AllocError),
        },
    }
}

/// Compiles an init, or returns why it is rejected.
fn compiled_init<R: RegExp>(alloc: Global, given: &UrlPatternInit, script: &str) -> Made<R>
    ensures { IfOk result (CompilesPattern R.RegExp script.now (of_init (init_view given.now))) }
{
    let init = match init_given(alloc, given, script)? {
        Ok(init) => init,
        Err(diagnosis) => return Ok(Err(PatternFault::Rejected(diagnosis))),
    };
    match UrlPattern::<R>::parse(alloc, init.clone()?, no_options()) {
        Ok(pattern) => Ok(allowed(pattern)),
        Err(_) => match UrlPattern::<R>::diagnose_init(alloc, &init, no_options()) {
            Ok(Some(diagnosis)) => Ok(Err(PatternFault::Rejected(diagnosis))),
            _ => Err(AllocError),
        },
    }
}

/// Returns the init that is given, with its base URL, or why `url` rejects the base URL.
fn init_given(
    alloc: Global,
    given: &UrlPatternInit,
    script: &str,
) -> Result<Result<init::UrlPatternInit, Diagnosis>, AllocError>
    ensures { IfOk result (GivesInit script.now (init_view given.now)) }
{
    let base = base_of(given, script);
    match parse_base(alloc, Some(base)) {
        Ok(base_url) => {
            let texts = given.clone()?.into_eight();
            Ok(Ok(init::UrlPatternInit::from_eight(texts, base_url)))
        }
        Err(Error::Url(error)) => {
            let error = Error::Url(error);
            Ok(Err(Diagnosis::whole(alloc, error, Subject::Base, base)?))
        }
        Err(_) => Err(AllocError),
    }
}

/// Returns the base URL of an init: its own, or else the URL of the script.
fn base_of<'a>(given: &'a UrlPatternInit, script: &'a str) -> &'a str
    ensures { Some result.now ≡ base_of script.now (init_view given.now) }
{
    match &given.base_url {
        Some(own) => own.as_str(),
        None => script,
    }
}

/// Returns the options of a browser, of a pattern that is given without any.
fn no_options() -> UrlPatternOptions
    ensures { result ≡ no_options }
{
    UrlPatternOptions {
        regex_syntax: RegexSyntax::EcmaScript,
        ignore_case: false,
    }
}

/// Returns the pattern, or why no condition may have it.
fn allowed<R: RegExp>(pattern: UrlPattern<R>) -> Result<UrlPattern<R>, PatternFault>
    requires { IsTrue (is_some pattern.parts) }
    ensures { Allows pattern result }
{
    match fault_of(&pattern) {
        Some(fault) => Err(fault),
        None => Ok(pattern),
    }
}

/// Returns why no condition may have the pattern.
fn fault_of<R: RegExp>(pattern: &UrlPattern<R>) -> Option<PatternFault>
    requires { IsTrue (is_some pattern.now.parts) }
    ensures { HasFault pattern.now result }
{
    match pattern.parts() {
        Some(parts) => pattern_fault(parts),
        None => None,
    }
}

/// Returns the fault of the first part that no condition may have, in the order of the components.
fn pattern_fault(parts: &PatternParts) -> Option<PatternFault>
    ensures { result ≡ pattern_fault parts.now }
{
    for name in ComponentName::all() {
        match component_fault(name, parts.components.get(name)) {
            Some(fault) => return Some(fault),
            None => {}
        }
    }
    None
}

/// Returns the fault of the first part of a component that no condition may have.
fn component_fault(name: ComponentName, kept: &ComponentParts) -> Option<PatternFault>
    ensures { result ≡ component_fault name kept.now.parts.items }
{
    for part in &kept.parts {
        match part_fault(name, part) {
            Some(fault) => return Some(fault),
            None => {}
        }
    }
    None
}

/// Returns why no condition may have the part in this component.
fn part_fault(name: ComponentName, part: &Part) -> Option<PatternFault>
    ensures { result ≡ part_fault name part.now }
{
    match part.kind {
        PartType::Regexp => Some(PatternFault::CustomExpression(name)),
        PartType::SegmentWildcard => name_fault(name),
        PartType::FixedText | PartType::FullWildcard => None,
    }
}

/// Returns why no condition may have a name in this component.
fn name_fault(name: ComponentName) -> Option<PatternFault>
    ensures { result ≡ name_fault name }
{
    match name {
        ComponentName::Hostname | ComponentName::Pathname => None,
        _ => Some(PatternFault::Name(name)),
    }
}
