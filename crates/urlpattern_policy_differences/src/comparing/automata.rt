//! The automata of the rules of policies.
ghost use Rattle.std.specs.Prelude.{All, IfOk, OnOk};
ghost use Rattle.urlpattern_compare.specs.CommonTexts.{AreAutomata};
ghost use Rattle.urlpattern_policy_differences.specs.Comparing.{AppendsAt, AppendsPattern, AppendsRules, IsMadeOf, IsOpening, IsWhole};

use std::alloc::{AllocError, Global};
use urlpattern::UrlPatternMap;
use urlpattern_compare::PatternAutomata;
use urlpattern_differences::{Effect, PolicyAutomata};
use urlpattern_matcher::regexp::RegExp;
use urlpattern_pattern::{CompareError, UrlPattern};
use urlpattern_policy::{PolicyOptions, UrlPolicy};

/// Returns the automata of a policy's rules, after two rules that deny credentials if the policy
/// does.
pub(super) fn automata_of<R: RegExp>(
    alloc: Global,
    policy: &UrlPolicy<R>,
) -> Result<PolicyAutomata, CompareError>
    ensures made { IfOk result (IsMadeOf R.RegExp policy.now) }
    ensures automata { IfOk result (λ it. All AreAutomata it.patterns.items) }
{
    let mut automata = opening(alloc, policy.options)?;
    push_rules(alloc, &mut automata, &policy.rules)?;
    Ok(automata)
}

/// Returns the automata of a policy with a single rule, which allows what the pattern matches.
pub(super) fn automata_of_pattern<R: RegExp>(
    alloc: Global,
    pattern: &UrlPattern<R>,
) -> Result<PolicyAutomata, CompareError>
    ensures made { IfOk result (IsWhole R.RegExp pattern.now) }
    ensures automata { IfOk result (λ it. All AreAutomata it.patterns.items) }
{
    let mut automata = PolicyAutomata::new(alloc, Effect::Deny);
    push_pattern(alloc, &mut automata, pattern, Effect::Allow)?;
    Ok(automata)
}

/// Returns the automata of a policy with these options and without rules.
fn opening(alloc: Global, options: PolicyOptions) -> Result<PolicyAutomata, AllocError>
    ensures { IfOk result (IsOpening options) }
{
    let mut automata = PolicyAutomata::new(alloc, options.default);
    if options.denies_credentials {
        automata.deny_credentials(alloc)?;
        return Ok(automata);
    }
    Ok(automata)
}

/// Appends the rules, in order.
fn push_rules<R: RegExp>(
    alloc: Global,
    automata: &mut PolicyAutomata,
    rules: &UrlPatternMap<Effect, R>,
) -> Result<(), CompareError>
    ensures { OnOk result (AppendsRules R.RegExp rules.now automata.old automata.new) }
{
    for index in 0..rules.len() {
        push_at(alloc, automata, rules, index)?;
    }
    Ok(())
}

/// Appends the rule at the index, if there is one.
fn push_at<R: RegExp>(
    alloc: Global,
    automata: &mut PolicyAutomata,
    rules: &UrlPatternMap<Effect, R>,
    index: usize,
) -> Result<(), CompareError>
    ensures { OnOk result (AppendsAt R.RegExp rules.now index automata.old automata.new) }
{
    match rules.get(index) {
        Some((pattern, effect)) => push_pattern(alloc, automata, pattern, *effect),
        None => Ok(()),
    }
}

/// Appends a rule with this pattern.
fn push_pattern<R: RegExp>(
    alloc: Global,
    automata: &mut PolicyAutomata,
    pattern: &UrlPattern<R>,
    effect: Effect,
) -> Result<(), CompareError>
    ensures { OnOk result
        (AppendsPattern R.RegExp pattern.now effect automata.old automata.new) }
{
    let Some(parts) = pattern.parts() else {
        return Err(CompareError::NoParts);
    };
    let one = PatternAutomata::of(alloc, parts)?;
    automata.push(one, effect)?;
    Ok(())
}
