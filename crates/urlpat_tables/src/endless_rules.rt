//! Whether the rules of a table lead from one to another without end.

ghost use Rattle.std.specs.List.{AllZip};
ghost use Rattle.std.specs.Prelude.{◌≡◌, [], All, IfOk, OnOk};
ghost use Rattle.urlpat_tables.specs.RewriteRules.{AreAutomataOf, AreEndless, AreLeads, AreRuleAutomata, DecidesLeading, HasEnds, with_index};
ghost use Rattle.urlpattern_compare.specs.CommonTexts.{AreAutomata};

use crate::endless::endless_among;
use crate::rewrite_rules::RewriteRules;
use std::alloc::{AllocError, Global};
use urlpattern::UrlPattern;
use urlpattern::regexp::PatternRegexp;
use urlpattern::rules::{Common, PatternAutomata, USUAL_LIMITS, find_common};

/// The automata of the patterns of a rule.
#[derive(Drop)]
pub(crate) struct RuleAutomata {
    /// The automata of the first pattern.
    pub first: PatternAutomata,
    /// The automata of the second pattern.
    pub second: PatternAutomata,
}

/// The indices of rules that lead from one to another without end: each is known to lead to one of
/// them. A rule leads to another if its second pattern and the other's first are known to match a
/// text in common.
pub(crate) fn endless_rules(
    alloc: Global,
    rules: &RewriteRules<'_>,
) -> Result<Vec<usize>, AllocError>
    ensures ends { IfOk result (λ rest. rest.items ≡ [] → HasEnds rules.now) }
    ensures endless { IfOk result (λ rest. AreEndless rules.now rest.items) }
{
    let automata = automata_of_each(alloc, rules)?;
    let mut leads = Vec::with_capacity(alloc, automata.len())?;
    for one in &automata {
        leads.push(leads_of(alloc, &one.second, &automata)?)?;
    }
    endless_among(alloc, &leads)
}

/// The automata of the patterns of each rule.
fn automata_of_each(
    alloc: Global,
    rules: &RewriteRules<'_>,
) -> Result<Vec<RuleAutomata>, AllocError>
    ensures { IfOk result (λ all. AllZip AreRuleAutomata rules.now all.items) }
{
    let mut all = Vec::with_capacity(alloc, rules.len())?;
    for (first, rule) in rules {
        all.push(RuleAutomata {
            first: automata_of(alloc, first)?,
            second: automata_of(alloc, &rule.to)?,
        })?;
    }
    Ok(all)
}

/// The automata of a pattern that was compiled.
fn automata_of(
    alloc: Global,
    pattern: &UrlPattern<PatternRegexp>,
) -> Result<PatternAutomata, AllocError>
    ensures { IfOk result (AreAutomataOf pattern.now) }
{
    match pattern.parts() {
        Some(parts) => PatternAutomata::of(alloc, parts),
        None => Err(AllocError),
    }
}

/// The indices of the rules whose first pattern is known to match texts that the pattern with the
/// automata `second` matches, too.
fn leads_of(
    alloc: Global,
    second: &PatternAutomata,
    all: &[RuleAutomata],
) -> Result<Vec<usize>, AllocError>
    requires second { AreAutomata second.now }
    requires all { All (λ one. AreAutomata one.first) all.now }
    ensures { IfOk result (λ leads. AreLeads second.now all.now leads.items) }
{
    let mut leads = Vec::new(alloc);
    for index in 0..all.len() {
        let led = leads_to(alloc, second, &all[index].first)?;
        push_if(led, index, &mut leads)?;
    }
    Ok(leads)
}

/// Appends an index, if `led`.
fn push_if(led: bool, index: usize, leads: &mut Vec<usize>) -> Result<(), AllocError>
    ensures { OnOk result (leads.new.items ≡ with_index led index leads.old.items) }
{
    if led {
        leads.push(index)?;
    }
    Ok(())
}

/// Whether two patterns are known to match a text in common.
fn leads_to(
    alloc: Global,
    second: &PatternAutomata,
    first: &PatternAutomata,
) -> Result<bool, AllocError>
    requires second { AreAutomata second.now }
    requires first { AreAutomata first.now }
    ensures { IfOk result (DecidesLeading second.now first.now) }
{
    match find_common(alloc, &[second, first], &[], USUAL_LIMITS)? {
        Common::Texts(texts) => {
            drop(texts);
            Ok(true)
        }
        Common::Nothing | Common::Unknown(_) => Ok(false),
    }
}
