//! What the lines of a text add to a policy.
ghost use Rattle.std.specs.List.{list_any};
ghost use Rattle.std.specs.Prelude.{◌≡◌, ◌≢◌, ℕ, IfErr, IfNone, IfOk, IfSome, List, Option, Some, false, map, option_copied};
ghost use Rattle.std.specs.Str.{chars};
ghost use Rattle.urlpattern_policy_text.specs.PolicyTexts.{IsCompiled, IsOutcome, IsOutcomeOf, IsParsedAs, IsRejected, IsRejectedBase, IsUrl, RejectsRule, faulty_part, place_in, rule_options};
ghost use Rattle.urlpattern_syntax.specs.Errors.{ErrorView as errors, error_view};
ghost use Rattle.urlpattern_policy_text.specs.Statements.{SettingView as settings, StatementView as views, StatementView, setting_view, sets_like, statement_view};

use crate::lines::column_of;
use crate::policy_fault::FaultReason;
use crate::settings::{base_in, has_like};
use crate::statement::{Setting, Statement, WordFault, after_word, statement_of};
use std::alloc::Global;
use url::Url;
use urlpattern_canonical::parse_base;
use urlpattern_diagnosis::{Diagnosis, Subject};
use urlpattern_differences::Effect;
use urlpattern_inputs::UrlPatternOptions;
use urlpattern_matcher::regexp::RegExp;
use urlpattern_pattern::UrlPattern;
use urlpattern_syntax::error::OutOfMemory;
use urlpattern_syntax::{Error, RegexSyntax};

/// A base URL that is parsed, if there is one, or why `url` rejects it.
pub(crate) type ParsedBase = Result<Option<Url>, Diagnosis>;

/// What a line adds to a policy.
#[derive(Drop)]
pub(crate) enum Outcome<R: RegExp> {
    /// No rule, and no fault.
    Nothing,
    /// A rule.
    Rule(Effect, UrlPattern<R>),
    /// A fault, at this column.
    Fault(usize, FaultReason),
}

/// Returns what a line adds to a policy. `before` is what the lines before it say, and `base` the
/// base URL of the patterns.
pub(crate) fn outcome_of<R: RegExp>(
    alloc: Global,
    line: &str,
    before: &[Statement<'_>],
    base: Option<&str>,
) -> Result<Outcome<R>, OutOfMemory>
    ensures { IfOk result (IsOutcome R.RegExp (option_copied base.entry)
        (map statement_view before.now) line.now) }
{
    match statement_of(line) {
        Statement::Nothing => Ok(Outcome::Nothing),
        Statement::Rule(effect, text) => rule_outcome(alloc, line, effect, text, base),
        Statement::Setting(setting) => setting_outcome(alloc, line, setting, before),
        Statement::Fault(fault) => Ok(Outcome::Fault(
            column_of(line, faulty_part(line, fault), 0),
            FaultReason::Word(fault),
        )),
    }
}

/// Returns the part of a line at fault.
fn faulty_part(line: &str, fault: WordFault) -> &str
    ensures { result.now ≡ faulty_part line.now fault }
{
    match fault {
        WordFault::UnknownWord => line.trim(),
        WordFault::MissingValue => "",
        WordFault::UnknownValue | WordFault::UnclearValue => after_word(line.trim()),
    }
}

/// Returns what the rule of a line adds, with the pattern of this text.
fn rule_outcome<R: RegExp>(
    alloc: Global,
    line: &str,
    effect: Effect,
    text: &str,
    base: Option<&str>,
) -> Result<Outcome<R>, OutOfMemory>
    ensures { IfOk result (λ outcome. (before : List StatementView)
        → IsOutcomeOf R.RegExp (option_copied base.entry) before line.now
        (views.Rule effect text.now) outcome) }
{
    match compiled(alloc, text, base)? {
        Ok(pattern) => Ok(Outcome::Rule(effect, pattern)),
        Err(shown) => Ok(Outcome::Fault(
            column_of(line, text, place_in(text, &shown)),
            FaultReason::Rejected(shown),
        )),
    }
}

/// Returns where a diagnosis is of a fault in the text: at its beginning, if another text is shown.
pub fn place_in(text: &str, diagnosis: &Diagnosis) -> usize
    ensures { result ≡ place_in text.now diagnosis.now }
{
    if diagnosis.text.as_str() == text {
        diagnosis.fault.span.start
    } else {
        0
    }
}

/// Compiles a pattern under a base URL, or returns why it is rejected.
pub(crate) fn compiled<R: RegExp>(
    alloc: Global,
    text: &str,
    base: Option<&str>,
) -> Result<Result<UrlPattern<R>, Diagnosis>, OutOfMemory>
    ensures compiled { IfOk result (λ it. IfOk it
        (IsCompiled R.RegExp (option_copied base.entry) text.now)) }
    ensures rejected { IfOk result (λ it. IfErr it
        (IsRejected R.RegExp (option_copied base.entry) text.now)) }
{
    match UrlPattern::from_constructor_string(alloc, text, base, rule_options()) {
        Ok(pattern) => Ok(Ok(pattern)),
        Err(error) => {
            let error = not_memory(error)?;
            let diagnosis = diagnosed::<R>(alloc, text, base, error)?;
            Ok(Err(diagnosis))
        }
    }
}

/// Returns the diagnosis of a pattern that is rejected with the error.
fn diagnosed<R: RegExp>(
    alloc: Global,
    text: &str,
    base: Option<&str>,
    error: Error,
) -> Result<Diagnosis, OutOfMemory>
    requires { RejectsRule R.RegExp (option_copied base) text.now (error_view error) }
    ensures { IfOk result (IsRejected R.RegExp (option_copied base.entry) text.now) }
{
    let found = UrlPattern::<R>::diagnose(alloc, text, base, rule_options())?;
    match found {
        Some(diagnosis) => {
            drop(error);
            Ok(diagnosis)
        }
        None => {
            let diagnosis = Diagnosis::whole(alloc, error, Subject::Whole, text)?;
            Ok(diagnosis)
        }
    }
}

/// Returns the options under which the patterns of rules are compiled.
pub(crate) fn rule_options() -> UrlPatternOptions
    ensures { result ≡ rule_options }
{
    UrlPatternOptions {
        regex_syntax: RegexSyntax::Rust,
        ignore_case: false,
    }
}

/// Returns what the setting of a line adds: nothing, unless it is at fault.
fn setting_outcome<R: RegExp>(
    alloc: Global,
    line: &str,
    setting: Setting<'_>,
    before: &[Statement<'_>],
) -> Result<Outcome<R>, OutOfMemory>
    ensures { IfOk result (λ outcome. (base : Option (List ℕ))
        → IsOutcomeOf R.RegExp base (map statement_view before.now) line.now
        (views.Says (setting_view setting.entry)) outcome) }
{
    if has_like(before, setting) {
        let column = column_of(line, line.trim(), 0);
        return Ok(Outcome::Fault(column, FaultReason::Repeated));
    }
    match base_in(Some(Statement::Setting(setting))) {
        Some(text) => base_outcome(alloc, line, text),
        None => Ok(Outcome::Nothing),
    }
}

/// Returns what the base URL of a line adds: nothing, unless `url` rejects it.
fn base_outcome<R: RegExp>(alloc: Global, line: &str, text: &str) -> Result<Outcome<R>, OutOfMemory>
    ensures { IfOk result (λ outcome. (base : Option (List ℕ)) (before : List StatementView)
        → list_any (sets_like (settings.Base text.now)) before ≡ false
        → IsOutcomeOf R.RegExp base before line.now (views.Says (settings.Base text.now)) outcome) }
{
    let found = base_diagnosis(alloc, text)?;
    match found {
        None => Ok(Outcome::Nothing),
        Some(diagnosis) => Ok(Outcome::Fault(
            column_of(line, text, place_in(text, &diagnosis)),
            FaultReason::Rejected(diagnosis),
        )),
    }
}

/// Returns why `url` rejects a base URL. `None`: it accepts the base URL.
pub(crate) fn base_diagnosis(alloc: Global, text: &str) -> Result<Option<Diagnosis>, OutOfMemory>
    ensures accepted { IfOk result (λ found. IfNone found (IsUrl text.now)) }
    ensures rejected { IfOk result (λ found. IfSome found (IsRejectedBase (Some text.now))) }
{
    let parsed = parsed_text(alloc, text)?;
    match parsed {
        Ok(url) => {
            drop(url);
            Ok(None)
        }
        Err(diagnosis) => Ok(Some(diagnosis)),
    }
}

/// Parses the text of a base URL, or returns why `url` rejects it.
pub(crate) fn parsed_text(alloc: Global, text: &str) -> Result<ParsedBase, OutOfMemory>
    ensures parsed { IfOk result (λ it. IfOk it (IsParsedAs (Some text.now))) }
    ensures rejected { IfOk result (λ it. IfErr it (IsRejectedBase (Some text.now))) }
{
    match parse_base(alloc, Some(text)) {
        Ok(url) => Ok(Ok(url)),
        Err(error) => {
            let error = not_memory(error)?;
            let diagnosis = Diagnosis::whole(alloc, error, Subject::Base, text)?;
            Ok(Err(diagnosis))
        }
    }
}

/// Returns the error, unless it is that memory ran out.
pub fn not_memory(error: Error) -> Result<Error, OutOfMemory>
    ensures { IfOk result (λ other. (other ≡ error) × (error_view error ≢ errors.OutOfMemory)) }
{
    match error {
        Error::OutOfMemory => Err(OutOfMemory),
        _ => Ok(error),
    }
}
