//! Whether texts exist that a rule of one list decides, and a rule of another one.
ghost use Rattle.std.specs.Prelude.{◌≡◌, ◌++◌, All, IfOk, OnOk, map, take};
ghost use Rattle.urlpattern_compare.specs.CommonTexts.{AreAutomata};
ghost use Rattle.urlpattern_differences.specs.Deciding.{before, pattern_of};
ghost use Rattle.urlpattern_differences.specs.Excess.{IsPairAnswer};

use crate::rules::PolicyAutomata;
use std::alloc::{AllocError, Global};
use urlpattern_compare::{Common, Limits, PatternAutomata, find_common};

/// Returns whether eight texts exist of which `first` is the first rule of `one` that matches, and
/// `second` the first of `other`. `None` is for a rule after the last one, which matches any texts.
pub(crate) fn ask(
    alloc: Global,
    one: &PolicyAutomata,
    other: &PolicyAutomata,
    first: Option<usize>,
    second: Option<usize>,
    limits: Limits,
) -> Result<Common, AllocError>
    requires one { All AreAutomata one.now.patterns.items }
    requires other { All AreAutomata other.now.patterns.items }
    ensures { IfOk result (IsPairAnswer limits one.now other.now first second) }
{
    let mut all_of = Vec::new(alloc);
    push_pattern(&mut all_of, &one.patterns, first)?;
    push_pattern(&mut all_of, &other.patterns, second)?;
    let mut none_of = Vec::new(alloc);
    push_before(&mut none_of, &one.patterns, first)?;
    push_before(&mut none_of, &other.patterns, second)?;
    find_common(alloc, &all_of, &none_of, limits)
}

/// Appends the pattern of the rule, if it has one.
fn push_pattern<'a>(
    all: &mut Vec<&'a PatternAutomata>,
    patterns: &'a [PatternAutomata],
    rule: Option<usize>,
) -> Result<(), AllocError>
    ensures { OnOk result (map (λ it. it.now) all.new.items
        ≡ map (λ it. it.now) all.old.items ++ pattern_of patterns.now rule) }
{
    match rule {
        Some(index) => push_at(all, patterns, index),
        None => Ok(()),
    }
}

/// Appends the pattern at the index, if there is one.
fn push_at<'a>(
    all: &mut Vec<&'a PatternAutomata>,
    patterns: &'a [PatternAutomata],
    index: usize,
) -> Result<(), AllocError>
    ensures { OnOk result (map (λ it. it.now) all.new.items
        ≡ map (λ it. it.now) all.old.items ++ pattern_of patterns.now (Some index)) }
{
    if index < patterns.len() {
        all.push(&patterns[index])?;
        Ok(())
    } else {
        Ok(())
    }
}

/// Appends the patterns of the rules before the rule.
fn push_before<'a>(
    all: &mut Vec<&'a PatternAutomata>,
    patterns: &'a [PatternAutomata],
    rule: Option<usize>,
) -> Result<(), AllocError>
    ensures { OnOk result (map (λ it. it.now) all.new.items
        ≡ map (λ it. it.now) all.old.items ++ before patterns.now rule) }
{
    match rule {
        Some(index) => push_first(all, patterns, index),
        None => push_first(all, patterns, patterns.len()),
    }
}

/// Appends the first `count` patterns.
fn push_first<'a>(
    all: &mut Vec<&'a PatternAutomata>,
    patterns: &'a [PatternAutomata],
    count: usize,
) -> Result<(), AllocError>
    ensures { OnOk result (map (λ it. it.now) all.new.items
        ≡ map (λ it. it.now) all.old.items ++ take count patterns.now) }
{
    for index in 0..count {
        push_at(all, patterns, index)?;
    }
    Ok(())
}
