//! Decides about URLs by the policy of a handle.
ghost use Rattle.std.specs.Prelude.{◌≡◌};
ghost use Rattle.urlpattern_ffi_tables.specs.KeptPolicies.{boxed_policy};
ghost use Rattle.urlpattern_ffi_tables.specs.Verdicts.{IsDecided, refusal_of, rule_of, verdict_number, verdict_of};

use crate::policy_box::{PolicyBox, policy_in};
use std::alloc::Global;
use urlpattern::regexp::PatternRegexp;
use urlpattern_ffi::{Status, url_of};
use urlpattern_policy::{Decision, DenyReason, UrlPolicy};

/// What is written where no rule decides.
const NO_RULE: usize = usize::MAX;

/// What a policy decides about a URL, for C. `Allow` alone allows it.
#[derive(Clone, Copy)]
pub enum Verdict {
    /// A rule denies the URL, or no rule matches and the default is to deny.
    Deny,
    /// A rule allows the URL, or no rule matches and the default is to allow.
    Allow,
    /// The text is no URL, or its base URL is none, and is denied.
    NoUrl,
    /// The text or its base URL has 16 MB or more, and is denied.
    TooLong,
    /// The text or its base URL is not UTF-8, and is denied.
    NotUtf8,
    /// Memory ran out, and the URL is denied.
    OutOfMemory,
    /// The URL has a user name or a password, which the policy denies.
    Credentials,
}

impl Verdict {
    /// The number of the verdict for C.
    pub fn number(self) -> u32
        ensures { result ≡ verdict_number self }
    {
        match self {
            Verdict::Deny => 0,
            Verdict::Allow => 1,
            Verdict::NoUrl => 2,
            Verdict::TooLong => 4,
            Verdict::NotUtf8 => 5,
            Verdict::OutOfMemory => 7,
            Verdict::Credentials => 13,
        }
    }
}

/// Decides about a text, which is read as a URL, under a base URL unless `base` is empty. Writes
/// the index of the rule that decides, or `NO_RULE` if none does.
pub fn decide(
    alloc: Global,
    kept: &Option<Box<PolicyBox>>,
    text: &[u8],
    base: &[u8],
    rule: &mut usize,
) -> Verdict
    ensures { IsDecided (boxed_policy kept.now) text.now base.now rule.new result }
{
    match policy_in(kept) {
        Some(policy) => decide_by(alloc, policy, text, base, rule),
        None => decide_by(alloc, &UrlPolicy::new(alloc), text, base, rule),
    }
}

/// Decides about a text by a policy. Writes the index of the rule that decides, or `NO_RULE`.
fn decide_by(
    alloc: Global,
    policy: &UrlPolicy<PatternRegexp>,
    text: &[u8],
    base: &[u8],
    rule: &mut usize,
) -> Verdict
    ensures { IsDecided policy.now text.now base.now rule.new result }
{
    let url = match url_of(alloc, text, base) {
        Ok(url) => url,
        Err(status) => {
            *rule = NO_RULE;
            return refusal_of(status);
        }
    };
    let decision = policy.decide_url(alloc, &url);
    drop(url);
    *rule = rule_of(decision);
    verdict_of(decision)
}

/// The verdict for a decision.
fn verdict_of(decision: Decision) -> Verdict
    ensures { result ≡ verdict_of decision }
{
    match decision {
        Decision::Allow(_) => Verdict::Allow,
        Decision::Deny(DenyReason::Rule(_)) => Verdict::Deny,
        Decision::Deny(DenyReason::NoRule) => Verdict::Deny,
        Decision::Deny(DenyReason::NotAUrl(_)) => Verdict::NoUrl,
        Decision::Deny(DenyReason::TooLong) => Verdict::TooLong,
        Decision::Deny(DenyReason::Credentials) => Verdict::Credentials,
        Decision::Deny(DenyReason::OutOfMemory) => Verdict::OutOfMemory,
    }
}

/// The index of the rule that decides, or `NO_RULE` if none does.
fn rule_of(decision: Decision) -> usize
    ensures { result ≡ rule_of decision }
{
    match decision {
        Decision::Allow(Some(index)) => index,
        Decision::Deny(DenyReason::Rule(index)) => index,
        _ => NO_RULE,
    }
}

/// The verdict where there is no URL.
fn refusal_of(status: Status) -> Verdict
    ensures { result ≡ refusal_of status }
{
    match status {
        Status::NoUrl => Verdict::NoUrl,
        Status::TooLong => Verdict::TooLong,
        Status::NotUtf8 => Verdict::NotUtf8,
        _ => Verdict::OutOfMemory,
    }
}
