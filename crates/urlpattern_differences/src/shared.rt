//! Patterns that two lists of rules share.
ghost use Rattle.std.specs.Bool.{OnTrue};
ghost use Rattle.std.specs.Prelude.{◌≡◌, Some, false, take};
ghost use Rattle.urlpattern_components.specs.Eight.{at};
ghost use Rattle.urlpattern_components.specs.declared.eight.ComponentName.{ComponentName};
ghost use Rattle.urlpattern_differences.specs.Excess.{NoneDecided};
ghost use Rattle.urlpattern_differences.specs.Shared.{AreAlike, IsAmong, IsEarlier};

use crate::rules::PolicyAutomata;
use urlpattern_compare::{PatternAutomata, PatternParts};

/// Whether it is plain that no texts exist of which `first` is the first rule of `one` that
/// matches, and `second` the first of `other`: a rule before the one of them has the pattern of the
/// other. So of rules that stand in both lists, only those near a change are asked about.
pub(crate) fn are_settled(
    one: &PolicyAutomata,
    other: &PolicyAutomata,
    first: Option<usize>,
    second: Option<usize>,
) -> bool
    ensures { OnTrue result (NoneDecided one.now other.now first second) }
{
    if is_earlier(&one.patterns, first, &other.patterns, second) {
        return true;
    }
    is_earlier(&other.patterns, second, &one.patterns, first)
}

/// Whether a rule of `others` before `other` has the pattern that `rule` has in `patterns`.
fn is_earlier(
    patterns: &[PatternAutomata],
    rule: Option<usize>,
    others: &[PatternAutomata],
    other: Option<usize>,
) -> bool
    ensures { OnTrue result (IsEarlier patterns.now rule others.now other) }
{
    match rule {
        Some(index) => is_earlier_than(patterns, index, others, other),
        None => false,
    }
}

/// Whether a rule of `others` before `other` has the pattern that is in `patterns` at the index.
fn is_earlier_than(
    patterns: &[PatternAutomata],
    index: usize,
    others: &[PatternAutomata],
    other: Option<usize>,
) -> bool
    ensures { OnTrue result (IsEarlier patterns.now (Some index) others.now other) }
{
    if index >= patterns.len() {
        return false;
    }
    match other {
        Some(end) => is_among(&patterns[index], others, end),
        None => is_among(&patterns[index], others, others.len()),
    }
}

/// Whether one of the first `end` patterns is the same as `asked`.
fn is_among(asked: &PatternAutomata, patterns: &[PatternAutomata], end: usize) -> bool
    ensures { OnTrue result (IsAmong asked.now (take end patterns.now)) }
{
    let mut place = 0;
    while place < end && place < patterns.len() {
        if is_same(&patterns[place].parts, &asked.parts) {
            return true;
        }
        place += 1;
    }
    false
}

/// Whether two patterns are known to match the same texts: their parts are equal, and no component
/// ignores case.
fn is_same(parts: &PatternParts, others: &PatternParts) -> bool
    ensures { OnTrue result (AreAlike parts.now others.now) }
{
    if !parts.is_same(others) {
        return false;
    }
    keeps_case(parts)
}

/// Whether no component ignores case.
fn keeps_case(parts: &PatternParts) -> bool
    ensures { OnTrue result ((name : ComponentName)
        → (at parts.now.components name).options.ignore_case ≡ false) }
{
    let eight = &parts.components;
    !(eight.protocol.options.ignore_case
        || eight.username.options.ignore_case
        || eight.password.options.ignore_case
        || eight.hostname.options.ignore_case
        || eight.port.options.ignore_case
        || eight.pathname.options.ignore_case
        || eight.search.options.ignore_case
        || eight.hash.options.ignore_case)
}
