//! Policies compared before they are used.
ghost use Rattle.std.specs.Map.{keys_of};
ghost use Rattle.std.specs.Prelude.{◌≡◌, ◌++◌, ◌∷◌, [], All, IfErr, IfOk, MatchBool, OnOk, option_map};
ghost use Rattle.urlpattern.specs.Reached.{LacksParts};
ghost use Rattle.urlpattern_compare.specs.CommonTexts.{AreAutomata};
ghost use Rattle.urlpattern_policy_differences.specs.Comparing.{AreDead, AreDifferences, AreNever, IsDifferenceOf, IsWithin, deny_reason, difference_of, is_never, is_spelled_alike, rule_of};

mod automata;
mod compare_errors;

use automata::{automata_of, automata_of_pattern};
use compare_errors::{error_of, error_of_pattern, first_error};
use std::alloc::{AllocError, Global};
use urlpattern_compare::{Doubt, Limits, Reach};
use urlpattern_components::Eight;
use urlpattern_differences::{Excess, PolicyAutomata, find_excess};
use urlpattern_matcher::regexp::RegExp;
use urlpattern_pattern::{CompareError, UrlPattern};
use urlpattern_policy::{DenyReason, PolicyOptions, UrlPolicy};

/// How two policies differ.
#[derive(Debug, Drop)]
pub struct PolicyDifference {
    /// What the new policy allows, and the old one denies.
    pub gained: PolicyExcess,
    /// What the old policy allows, and the new one denies.
    pub lost: PolicyExcess,
    /// Whether both policies bring URLs to their plain spelling, or neither does. `false`: the same
    /// URL may have other texts for the other policy, so that nothing follows for it.
    pub same_spelling: bool,
}

/// Whether eight texts exist that one policy allows and another one denies. The texts are those
/// that are matched: if the policies bring URLs to their plain spelling, those of that spelling.
#[derive(Debug, Drop)]
pub enum PolicyExcess {
    /// The one allows these texts, and the other denies them.
    Texts(DifferentTexts),
    /// No such texts without line feeds exist.
    Nothing,
    /// Not known, for this reason.
    Unknown(DifferenceDoubt),
}

/// Eight texts that one policy allows and another one denies.
#[derive(Debug, Drop)]
pub struct DifferentTexts {
    /// The texts, without line feeds.
    pub texts: Eight<String>,
    /// The rule that allows. `None`: no rule matches, which is allowed.
    pub allowing: Option<usize>,
    /// Why the other policy denies.
    pub denying: DenyReason,
}

/// Why it is not known whether eight texts exist that one policy allows and another one denies.
#[derive(Clone, Copy, Debug, PartialEq, Eq)]
pub struct DifferenceDoubt {
    /// The rule that would allow. `None`: no rule would match, which is allowed.
    pub allowing: Option<usize>,
    /// Why the other policy would deny.
    pub denying: DenyReason,
    /// Why it is not known. Indices of patterns are those of the question, as
    /// `urlpattern_differences::PairDoubt` says.
    pub doubt: Doubt,
}

/// Compares two policies: which texts the new one allows and the old one denies, and the other way
/// round.
///
/// Patterns are compared by what their parts mean, over texts without line feeds. Of rules that
/// both policies have, only those near a change are asked about. That nothing is found means that
/// no URL is decided so, as `laws::policies_without_difference_allow_alike` says.
///
/// The error is `NoParts` if a pattern has no parts, else `OutOfMemory`.
pub fn difference<R: RegExp>(
    alloc: Global,
    old: &UrlPolicy<R>,
    new: &UrlPolicy<R>,
    limits: Limits,
) -> Result<PolicyDifference, CompareError>
    ensures found { IfOk result (AreDifferences R.RegExp limits old.now new.now) }
    ensures missing { IfErr result
        (LacksParts (keys_of old.now.rules ++ keys_of new.now.rules)) }
{
    match both_differences(alloc, old, new, limits) {
        Ok(found) => Ok(found),
        Err(_) => Err(first_error(error_of(&old.rules), error_of(&new.rules))),
    }
}

/// Returns which texts the policy allows and the pattern does not match, for which `denying` is
/// `NoRule`. `Nothing`: the pattern matches all that the policy allows.
///
/// The error is `NoParts` if a pattern has no parts, else `OutOfMemory`.
pub fn is_within<R: RegExp>(
    alloc: Global,
    policy: &UrlPolicy<R>,
    pattern: &UrlPattern<R>,
    limits: Limits,
) -> Result<PolicyExcess, CompareError>
    ensures within { IfOk result (IsWithin R.RegExp limits policy.now pattern.now) }
    ensures missing { IfErr result
        (LacksParts (keys_of policy.now.rules ++ pattern.now ∷ [])) }
{
    match difference_within(alloc, policy, pattern, limits) {
        Ok(found) => Ok(found),
        Err(_) => Err(first_error(error_of(&policy.rules), error_of_pattern(pattern))),
    }
}

/// Returns the indices of the rules of a policy that are dead, in order: earlier rules cover them
/// together, so that they decide about no URL, as `laws::dead_rules_decide_about_no_url` says.
///
/// The error is `NoParts` if a pattern has no parts, else `OutOfMemory`.
pub fn dead_rules<R: RegExp>(
    alloc: Global,
    policy: &UrlPolicy<R>,
    limits: Limits,
) -> Result<Vec<usize>, CompareError>
    ensures dead { IfOk result (λ dead. AreDead R.RegExp limits policy.now dead.items) }
    ensures missing { IfErr result (LacksParts (keys_of policy.now.rules)) }
{
    let found = policy.rules.reach_of_each(alloc, limits)?;
    match never_reached(alloc, &found) {
        Ok(dead) => Ok(dead),
        Err(_) => Err(error_of(&policy.rules)),
    }
}

/// Returns the differences of two policies in both directions.
fn both_differences<R: RegExp>(
    alloc: Global,
    old: &UrlPolicy<R>,
    new: &UrlPolicy<R>,
    limits: Limits,
) -> Result<PolicyDifference, CompareError>
    ensures { IfOk result (AreDifferences R.RegExp limits old.now new.now) }
{
    let olds = automata_of(alloc, old)?;
    let news = automata_of(alloc, new)?;
    let gained = difference_by(alloc, &news, &olds, new.options, old.options, limits)?;
    let lost = difference_by(alloc, &olds, &news, old.options, new.options, limits)?;
    Ok(PolicyDifference {
        gained,
        lost,
        same_spelling: is_spelled_alike(old.options, new.options),
    })
}

/// Returns which texts the policy allows and the pattern does not match.
fn difference_within<R: RegExp>(
    alloc: Global,
    policy: &UrlPolicy<R>,
    pattern: &UrlPattern<R>,
    limits: Limits,
) -> Result<PolicyExcess, CompareError>
    ensures { IfOk result (IsWithin R.RegExp limits policy.now pattern.now) }
{
    let automata = automata_of(alloc, policy)?;
    let whole = automata_of_pattern(alloc, pattern)?;
    let options = PolicyOptions::new();
    difference_by(alloc, &automata, &whole, policy.options, options, limits)
}

/// Returns the indices of the patterns that are never reached, in order.
fn never_reached(alloc: Global, found: &[Reach]) -> Result<Vec<usize>, AllocError>
    ensures { IfOk result (λ dead. AreNever found.now dead.items) }
{
    let mut dead = Vec::new(alloc);
    for index in 0..found.len() {
        push_if_never(&mut dead, &found[index], index)?;
    }
    Ok(dead)
}

/// Appends the index of a pattern if it is never reached.
fn push_if_never(dead: &mut Vec<usize>, reach: &Reach, index: usize) -> Result<(), AllocError>
    ensures { OnOk result (MatchBool (is_never reach.now)
        (dead.new.items ≡ dead.old.items ++ index ∷ []) (dead.new.items ≡ dead.old.items)) }
{
    if is_never(reach) {
        dead.push(index)?;
        return Ok(());
    }
    Ok(())
}

/// Whether a pattern is never reached.
fn is_never(reach: &Reach) -> bool
    ensures { result ≡ is_never reach.now }
{
    match reach {
        Reach::Never(_) => true,
        Reach::First(_) | Reach::Unknown(_) => false,
    }
}

/// Returns which texts the rules `one` allow and the rules `other` deny, of policies with these
/// options.
fn difference_by(
    alloc: Global,
    one: &PolicyAutomata,
    other: &PolicyAutomata,
    options: PolicyOptions,
    others: PolicyOptions,
    limits: Limits,
) -> Result<PolicyExcess, CompareError>
    requires one { All AreAutomata one.now.patterns.items }
    requires other { All AreAutomata other.now.patterns.items }
    ensures { IfOk result (IsDifferenceOf limits one.now other.now options others) }
{
    let excess = find_excess(alloc, one, other, limits)?;
    Ok(difference_of(excess, options, others))
}

/// Returns what was found, by the rules of the policies in place of those of the automata.
fn difference_of(excess: Excess, options: PolicyOptions, others: PolicyOptions) -> PolicyExcess
    ensures { result ≡ difference_of options others excess }
{
    match excess {
        Excess::Texts(found) => PolicyExcess::Texts(DifferentTexts {
            texts: found.texts,
            allowing: own_rule(options, found.allowing),
            denying: deny_reason(others, found.denying),
        }),
        Excess::Nothing => PolicyExcess::Nothing,
        Excess::Unknown(found) => PolicyExcess::Unknown(DifferenceDoubt {
            allowing: own_rule(options, found.allowing),
            denying: deny_reason(others, found.denying),
            doubt: found.doubt,
        }),
    }
}

/// Returns the rule of a policy with these options that is the rule of its automata.
fn own_rule(options: PolicyOptions, rule: Option<usize>) -> Option<usize>
    ensures { result ≡ option_map (rule_of options) rule }
{
    match rule {
        Some(index) => Some(rule_of(options, index)),
        None => None,
    }
}

/// Returns the index in a policy with these options of the rule that has this one in its automata,
/// where two rules may be before them that deny credentials.
fn rule_of(options: PolicyOptions, index: usize) -> usize
    ensures { result ≡ rule_of options index }
{
    if options.denies_credentials {
        index.saturating_sub(2)
    } else {
        index
    }
}

/// Returns why a policy with these options denies, by the rule of its automata that does.
fn deny_reason(options: PolicyOptions, rule: Option<usize>) -> DenyReason
    ensures { result ≡ deny_reason options rule }
{
    match rule {
        Some(index) => {
            if options.denies_credentials && index < 2 {
                DenyReason::Credentials
            } else {
                DenyReason::Rule(rule_of(options, index))
            }
        }
        None => DenyReason::NoRule,
    }
}

/// Whether two policies with these options bring URLs to their plain spelling, or neither does.
fn is_spelled_alike(options: PolicyOptions, others: PolicyOptions) -> bool
    ensures { result ≡ is_spelled_alike options others }
{
    if options.plain_spelling {
        others.plain_spelling
    } else {
        !others.plain_spelling
    }
}
