//! Appends rules to the policy of a handle, and sets its options.
ghost use Rattle.std.specs.Arc.{arc_value};
ghost use Rattle.std.specs.Prelude.{◌≡◌, ◌≢◌, ◌∷◌, [], IfOk};
ghost use Rattle.urlpattern_ffi_tables.specs.Compilations.{IsPatternOfBytes, IsPatternOfJson, RejectsBytes, RejectsJson};
ghost use Rattle.urlpattern_ffi_tables.specs.KeptPolicies.{AreOptionsSet, boxed_policy, effect_of, IsRuleAdded, IsRulePushed, SetsOptions};

use crate::compiling::{pattern_of_init, pattern_of_text};
use crate::policy_box::{PolicyBox, box_of_policy, has_rules, options_of};
use std::alloc::{AllocError, Global};
use std::sync::Arc;
use urlpattern::regexp::PatternRegexp;
use urlpattern::{UrlPattern, UrlPatternMap};
use urlpattern_ffi::Status;
use urlpattern_policy::{Effect, PolicyOptions, UrlPolicy};

/// Compiles a constructor string, under a base URL unless `base` is empty, and appends a rule that
/// allows the URLs that the pattern matches, or denies them. Unless the status is `Done`, the
/// policy is unchanged.
pub fn add_rule(
    alloc: Global,
    kept: &mut Option<Box<PolicyBox>>,
    allows: bool,
    text: &[u8],
    base: &[u8],
    ignore_case: bool,
) -> Status
    ensures { IsRuleAdded (IsPatternOfBytes text.now base.now ignore_case)
        (RejectsBytes text.now base.now ignore_case) (boxed_policy kept.old) allows
        (boxed_policy kept.new) result }
{
    match pattern_of_text(alloc, text, base, ignore_case) {
        Ok(pattern) => push_rule(alloc, kept, allows, pattern),
        Err(status) => status,
    }
}

/// Compiles an init in JSON, and appends a rule that allows the URLs that the pattern matches, or
/// denies them. Unless the status is `Done`, the policy is unchanged.
pub fn add_init_rule(
    alloc: Global,
    kept: &mut Option<Box<PolicyBox>>,
    allows: bool,
    json: &[u8],
    ignore_case: bool,
) -> Status
    ensures { IsRuleAdded (IsPatternOfJson json.now ignore_case) (RejectsJson json.now ignore_case)
        (boxed_policy kept.old) allows (boxed_policy kept.new) result }
{
    match pattern_of_init(alloc, json, ignore_case) {
        Ok(pattern) => push_rule(alloc, kept, allows, pattern),
        Err(status) => status,
    }
}

/// Appends a rule with a pattern to the policy of a handle. `Shared`: another handle has the
/// policy. `OutOfMemory`: memory ran out. In both cases it is unchanged.
///
/// Handles that have no rule share nothing: the first rule gets a policy of its own.
fn push_rule(
    alloc: Global,
    kept: &mut Option<Box<PolicyBox>>,
    allows: bool,
    pattern: UrlPattern<PatternRegexp>,
) -> Status
    ensures { IsRulePushed (boxed_policy kept.old) allows pattern (boxed_policy kept.new) result }
{
    if has_rules(&*kept) {
        push_later(kept, allows, pattern)
    } else {
        push_first(alloc, kept, allows, pattern)
    }
}

/// Appends a rule to those of a handle, of which there is one at least. `Shared`: another handle
/// has the policy. `OutOfMemory`: memory ran out. In both cases it is unchanged.
fn push_later(
    kept: &mut Option<Box<PolicyBox>>,
    allows: bool,
    pattern: UrlPattern<PatternRegexp>,
) -> Status
    requires { (boxed_policy kept.old).rules ≢ [] }
    ensures { IsRulePushed (boxed_policy kept.old) allows pattern (boxed_policy kept.new) result }
{
    match kept.take() {
        Some(mut taken) => {
            let status = push_unshared(&mut taken, allows, pattern);
            *kept = Some(taken);
            status
        }
        None => Status::Shared,
    }
}

/// Appends a rule to those in a box, of which there is one at least. `Shared`: another handle has
/// the policy. `OutOfMemory`: memory ran out. In both cases it is unchanged.
fn push_unshared(
    kept: &mut Box<PolicyBox>,
    allows: bool,
    pattern: UrlPattern<PatternRegexp>,
) -> Status
    requires { (arc_value kept.old.value.policy).rules ≢ [] }
    ensures { IsRulePushed (arc_value kept.old.value.policy) allows pattern
        (arc_value kept.new.value.policy) result }
{
    match Arc::get_mut(&mut kept.policy) {
        Some(policy) => append(policy, allows, pattern),
        None => Status::Shared,
    }
}

/// Gives a handle without rules a rule. `OutOfMemory`: memory ran out, and the policy is unchanged.
#[tactic(auto, using(crate::proofs::PolicyLemmas::first_rule))]
fn push_first(
    alloc: Global,
    kept: &mut Option<Box<PolicyBox>>,
    allows: bool,
    pattern: UrlPattern<PatternRegexp>,
) -> Status
    requires { (boxed_policy kept.old).rules ≡ [] }
    ensures { IsRulePushed (boxed_policy kept.old) allows pattern (boxed_policy kept.new) result }
{
    match boxed_rule(alloc, options_of(&*kept), effect_of(allows), pattern) {
        Ok(made) => {
            *kept = Some(made);
            Status::Done
        }
        Err(_) => Status::OutOfMemory,
    }
}

/// Puts a rule into a box, by itself, in a policy with these options.
fn boxed_rule(
    alloc: Global,
    options: PolicyOptions,
    effect: Effect,
    pattern: UrlPattern<PatternRegexp>,
) -> Result<Box<PolicyBox>, AllocError>
    ensures { IfOk result (λ made. arc_value made.value.policy
        ≡ record { rules = (pattern, effect) ∷ []; options = options }) }
{
    let mut rules = UrlPatternMap::new(alloc);
    if let Err(_) = rules.try_insert(pattern, effect) {
        return Err(AllocError);
    }
    box_of_policy(alloc, UrlPolicy { rules, options })
}

/// Appends a rule with a pattern. `OutOfMemory`: memory ran out, and the policy is unchanged.
fn append(
    policy: &mut UrlPolicy<PatternRegexp>,
    allows: bool,
    pattern: UrlPattern<PatternRegexp>,
) -> Status
    ensures { IsRulePushed policy.old allows pattern policy.new result }
{
    let appended = if allows {
        policy.allow(pattern)
    } else {
        policy.deny(pattern)
    };
    match appended {
        Ok(()) => Status::Done,
        Err(_) => Status::OutOfMemory,
    }
}

/// Sets what the policy of a handle decides apart from its rules: whether it allows a URL that no
/// rule matches, whether it brings a URL to its plain spelling first, and whether it denies one
/// with a user name or a password. `OutOfMemory`, `Shared`: the policy is unchanged.
pub fn set_options(
    alloc: Global,
    kept: &mut Option<Box<PolicyBox>>,
    default_allows: bool,
    plain_spelling: bool,
    denies_credentials: bool,
) -> Status
    ensures { AreOptionsSet (boxed_policy kept.old) default_allows plain_spelling denies_credentials
        (boxed_policy kept.new) result }
{
    let options = PolicyOptions {
        default: effect_of(default_allows),
        plain_spelling,
        denies_credentials,
    };
    if has_rules(&*kept) {
        set_later(kept, options)
    } else {
        set_first(alloc, kept, options)
    }
}

/// Sets the options of the policy of a handle, which has a rule at least. `Shared`: another handle
/// has the policy, which is unchanged.
fn set_later(kept: &mut Option<Box<PolicyBox>>, options: PolicyOptions) -> Status
    requires { (boxed_policy kept.old).rules ≢ [] }
    ensures { SetsOptions (boxed_policy kept.old) options (boxed_policy kept.new) result }
{
    match kept.take() {
        Some(mut taken) => {
            let status = set_unshared(&mut taken, options);
            *kept = Some(taken);
            status
        }
        None => Status::Shared,
    }
}

/// Sets the options of a policy in a box, which has a rule at least. `Shared`: another handle has
/// the policy, which is unchanged.
fn set_unshared(kept: &mut Box<PolicyBox>, options: PolicyOptions) -> Status
    requires { (arc_value kept.old.value.policy).rules ≢ [] }
    ensures { SetsOptions (arc_value kept.old.value.policy) options
        (arc_value kept.new.value.policy) result }
{
    match Arc::get_mut(&mut kept.policy) {
        Some(policy) => {
            policy.options = options;
            Status::Done
        }
        None => Status::Shared,
    }
}

/// Gives a handle without rules a policy with these options, which has no rule either.
/// `OutOfMemory`: memory ran out, and the policy is unchanged.
#[tactic(auto, using(crate::proofs::PolicyLemmas::options_alone))]
fn set_first(alloc: Global, kept: &mut Option<Box<PolicyBox>>, options: PolicyOptions) -> Status
    requires { (boxed_policy kept.old).rules ≡ [] }
    ensures { SetsOptions (boxed_policy kept.old) options (boxed_policy kept.new) result }
{
    let rules = UrlPatternMap::new(alloc);
    match box_of_policy(alloc, UrlPolicy { rules, options }) {
        Ok(made) => {
            *kept = Some(made);
            Status::Done
        }
        Err(_) => Status::OutOfMemory,
    }
}

/// What a rule decides: to allow, or to deny.
fn effect_of(allows: bool) -> Effect
    ensures { result ≡ effect_of allows }
{
    if allows { Effect::Allow } else { Effect::Deny }
}
