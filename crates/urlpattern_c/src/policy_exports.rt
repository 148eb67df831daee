//! The functions on policies. Each returns the number of a `Status`, apart from
//! `urlpattern_policy_free` and `urlpattern_policy_decide`. A URL is parsed under a base URL unless
//! `base` is empty.
ghost use Rattle.std.specs.Prelude.{◌≡◌, None};
ghost use Rattle.urlpattern_c.specs.Handles.{policy_in};
ghost use Rattle.urlpattern_c.specs.PolicyReturns.{AddsRule, ReturnsVerdict};
ghost use Rattle.urlpattern_ffi.specs.Calls.{ReturnsStatus};
ghost use Rattle.urlpattern_ffi_tables.specs.Compilations.{IsPatternOfBytes, IsPatternOfJson, RejectsBytes, RejectsJson};
ghost use Rattle.urlpattern_ffi_tables.specs.KeptPolicies.{AreOptionsSet, IsPolicyShared};
ghost use Rattle.urlpattern_ffi_tables.specs.Verdicts.{IsDecided};

use crate::policy::Policy;
use std::alloc::Global;
use urlpattern_ffi::Status;
use urlpattern_ffi_tables::{add_init_rule, add_rule, decide, set_options, share_policy};

/// Compiles a constructor string, under a base URL unless `base` is empty, and appends a rule that
/// allows the URLs that the pattern matches, or denies them. If an error occurs, the policy is
/// unchanged.
#[unsafe(no_mangle)]
pub extern "C" fn urlpattern_policy_add(
    alloc: Global,
    policy: &mut Policy,
    allows: bool,
    text: &[u8],
    base: &[u8],
    ignore_case: bool,
) -> u32
    ensures { AddsRule (IsPatternOfBytes text.now base.now ignore_case)
        (RejectsBytes text.now base.now ignore_case) policy.old allows policy.new result }
{
    let mut kept = policy.take(alloc);
    let status = add_rule(alloc, &mut kept, allows, text, base, ignore_case);
    policy.put(kept);
    status.number()
}

/// Compiles an init in JSON, and appends a rule that allows the URLs that the pattern matches, or
/// denies them. If an error occurs, the policy is unchanged.
#[unsafe(no_mangle)]
pub extern "C" fn urlpattern_policy_add_init(
    alloc: Global,
    policy: &mut Policy,
    allows: bool,
    json: &[u8],
    ignore_case: bool,
) -> u32
    ensures { AddsRule (IsPatternOfJson json.now ignore_case) (RejectsJson json.now ignore_case)
        policy.old allows policy.new result }
{
    let mut kept = policy.take(alloc);
    let status = add_init_rule(alloc, &mut kept, allows, json, ignore_case);
    policy.put(kept);
    status.number()
}

/// Sets what a policy decides apart from its rules: whether it allows a URL that no rule matches,
/// whether it brings a URL to its plain spelling first, and whether it denies one with a user name
/// or a password. If an error occurs, the policy is unchanged.
#[unsafe(no_mangle)]
pub extern "C" fn urlpattern_policy_set_options(
    alloc: Global,
    policy: &mut Policy,
    default_allows: bool,
    plain_spelling: bool,
    denies_credentials: bool,
) -> u32
    ensures { ReturnsStatus (AreOptionsSet (policy_in policy.old) default_allows plain_spelling
        denies_credentials (policy_in policy.new)) result }
{
    let mut kept = policy.take(alloc);
    let status = set_options(
        alloc,
        &mut kept,
        default_allows,
        plain_spelling,
        denies_credentials,
    );
    policy.put(kept);
    status.number()
}

/// Frees the policy, unless another handle has it. The handle is then empty, and freeing it again
/// does nothing.
#[unsafe(no_mangle)]
pub extern "C" fn urlpattern_policy_free(alloc: Global, policy: &mut Policy)
    ensures { policy.new.slot.held ≡ None }
{
    drop(policy.take(alloc));
}

/// Gives another handle the same policy, and frees what it had. Until one of the two is freed,
/// neither is changed. If memory runs out, both are unchanged.
#[unsafe(no_mangle)]
pub extern "C" fn urlpattern_policy_share(
    alloc: Global,
    policy: &mut Policy,
    other: &mut Policy,
) -> u32
    ensures answer { ReturnsStatus
        (IsPolicyShared (policy_in policy.old) (policy_in other.old) (policy_in other.new))
        result }
    ensures unchanged { policy_in policy.new ≡ policy_in policy.old }
{
    let kept = policy.take(alloc);
    let shared = share_policy(alloc, &kept);
    policy.put(kept);
    match shared {
        Ok(shared) => {
            drop(other.take(alloc));
            other.put(shared);
            Status::Done.number()
        }
        Err(_) => Status::OutOfMemory.number(),
    }
}

/// Decides about a URL, and writes the index of the rule that decides, or the largest number if
/// none does. Returns 1 if the URL is allowed, and any other number if it is denied, as is a text
/// that is no URL, and every text if memory runs out.
#[unsafe(no_mangle)]
pub extern "C" fn urlpattern_policy_decide(
    alloc: Global,
    policy: &mut Policy,
    url: &[u8],
    base: &[u8],
    rule: &mut usize,
) -> u32
    ensures answer { ReturnsVerdict
        (IsDecided (policy_in policy.old) url.now base.now rule.new) result }
    ensures unchanged { policy_in policy.new ≡ policy_in policy.old }
{
    let kept = policy.take(alloc);
    let verdict = decide(alloc, &kept, url, base, rule);
    policy.put(kept);
    verdict.number()
}
