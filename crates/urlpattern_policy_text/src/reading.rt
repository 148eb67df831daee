//! Reads the text of a policy.
ghost use Rattle.std.specs.Prelude.{◌≡◌, ◌<◌, ◌^◌, IfErr, IfOk, OnOk, Some, length, map, option_copied, slice_get};
ghost use Rattle.urlpattern_policy_text.specs.PolicyTexts.{AddsOutcome, IsAcceptedBase, IsOutcomeAt, IsPolicyOf, IsRefusal, IsUsedBase};
ghost use Rattle.urlpattern_policy_text.specs.Statements.{statement_of, statement_view};

use crate::lines::lines_of;
use crate::outcome::{Outcome, base_diagnosis, outcome_of};
use crate::policy_fault::{PolicyFault, PolicyTextError};
use crate::settings::{base_of, options_of};
use crate::statement::{Statement, statement_of};
use std::alloc::{AllocError, Global};
use urlpattern::UrlPatternMap;
use urlpattern_differences::Effect;
use urlpattern_matcher::regexp::RegExp;
use urlpattern_policy::UrlPolicy;
use urlpattern_syntax::error::OutOfMemory;

/// Reads a policy from its text, or reports all faults of the text.
///
/// Each line that is not empty, and does not begin with `#`, says one of these: `allow PATTERN` and
/// `deny PATTERN` are the rules, in order; `base URL` is the base URL of all patterns; `default
/// allow` and `default deny` say what is decided where no rule matches; `spelling plain` and
/// `spelling exact` whether URLs are brought to their plain spelling; and `credentials deny` and
/// `credentials rules` whether a URL with a user name or a password is denied, or left to the
/// rules. The settings may stand anywhere, each at most once. Without them the policy denies where
/// no rule matches, brings URLs to their plain spelling, and leaves credentials to the rules.
///
/// A comment has a line of its own: in a pattern or a base URL, a space before `#` is a fault, and
/// so is a control character.
///
/// A pattern whose base URL is rejected is compiled without one.
pub fn policy_of_text<R: RegExp>(alloc: Global, text: &str) -> Result<UrlPolicy<R>, PolicyTextError>
    ensures policy { IfOk result (IsPolicyOf R.RegExp text.now) }
    ensures refused { IfErr result (IsRefusal R.RegExp text.now) }
{
    let lines = lines_of(alloc, text)?;
    let statements = statements_of(alloc, &lines)?;
    let base = used_base(alloc, &statements)?;
    let mut rules = UrlPatternMap::new(alloc);
    let mut faults = Vec::new(alloc);
    for index in 0..lines.len() {
        let outcome = outcome_at(alloc, &lines, &statements, index, base)?;
        add_outcome(index, outcome, &mut rules, &mut faults)?;
    }
    if !faults.is_empty() {
        return Err(PolicyTextError::Faults(faults));
    }
    Ok(UrlPolicy {
        rules,
        options: options_of(&statements),
    })
}

/// Returns what each line says.
fn statements_of<'t>(alloc: Global, lines: &[&'t str]) -> Result<Vec<Statement<'t>>, AllocError>
    ensures { IfOk result (λ statements. map statement_view statements.items
        ≡ map (λ line. statement_of line.now) lines.now) }
{
    let mut statements = Vec::new(alloc);
    for line in lines {
        statements.push(statement_of(line))?;
    }
    Ok(statements)
}

/// Returns the base URL that the statements set. `None`: they set none, or `url` rejects it.
fn used_base<'t>(
    alloc: Global,
    statements: &[Statement<'t>],
) -> Result<Option<&'t str>, OutOfMemory>
    ensures { IfOk result (λ base.
        IsUsedBase (map statement_view statements.now) (option_copied base)) }
{
    match base_of(statements) {
        Some(text) => accepted_base(alloc, text),
        None => Ok(None),
    }
}

/// Returns the base URL. `None`: `url` rejects it.
fn accepted_base(alloc: Global, text: &str) -> Result<Option<&str>, OutOfMemory>
    ensures { IfOk result (λ base. IsAcceptedBase text.now (option_copied base)) }
{
    let found = base_diagnosis(alloc, text)?;
    match found {
        Some(diagnosis) => {
            drop(diagnosis);
            Ok(None)
        }
        None => Ok(Some(text)),
    }
}

/// Returns what the line at the index adds, by what all lines say.
fn outcome_at<R: RegExp>(
    alloc: Global,
    lines: &[&str],
    statements: &[Statement<'_>],
    index: usize,
    base: Option<&str>,
) -> Result<Outcome<R>, OutOfMemory>
    requires within { index < length lines.now }
    requires all { length statements.now ≡ length lines.now }
    ensures { IfOk result (IsOutcomeAt R.RegExp (option_copied base.entry)
        (map (λ line. line.now) lines.now) (map statement_view statements.now) index) }
{
    outcome_of(alloc, line_at(lines, index), &statements[..index], base)
}

/// Returns the line at the index.
fn line_at<'t>(lines: &[&'t str], index: usize) -> &'t str
    requires { index < length lines.now }
    ensures { slice_get (map (λ line. line.now) lines.now) index ≡ Some result.now }
{
    lines[index]
}

/// Appends what the line at the index adds: its rule or its fault.
fn add_outcome<R: RegExp>(
    index: usize,
    outcome: Outcome<R>,
    rules: &mut UrlPatternMap<Effect, R>,
    faults: &mut Vec<PolicyFault>,
) -> Result<(), OutOfMemory>
    requires { index < 2 ^ 63 }
    ensures { OnOk result (AddsOutcome index outcome rules.old rules.new faults.old.items
        faults.new.items) }
{
    match outcome {
        Outcome::Nothing => Ok(()),
        Outcome::Rule(effect, pattern) => match rules.try_insert(pattern, effect) {
            Ok(()) => Ok(()),
            Err(_) => Err(OutOfMemory),
        },
        Outcome::Fault(column, reason) => {
            faults.push(PolicyFault {
                line: index + 1,
                column,
                reason,
            })?;
            Ok(())
        }
    }
}
