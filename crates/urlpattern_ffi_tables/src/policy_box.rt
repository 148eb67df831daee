//! The policy that a handle keeps. `None` is an empty handle.
ghost use Rattle.std.specs.Arc.{arc_value};
ghost use Rattle.std.specs.Bool.{OnFalse, OnTrue};
ghost use Rattle.std.specs.Prelude.{◌≡◌, ◌≢◌, [], IfNone, IfOk, IfSome};
ghost use Rattle.urlpattern_ffi_tables.specs.KeptPolicies.{boxed_policy, no_rules};

use std::alloc::{AllocError, Global};
use std::sync::Arc;
use urlpattern::regexp::PatternRegexp;
use urlpattern_policy::{PolicyOptions, UrlPolicy};

/// The policy of a handle, which several handles may share. A handle keeps it in a box.
#[derive(Drop)]
pub struct PolicyBox {
    pub(crate) policy: Arc<UrlPolicy<PatternRegexp>, Global>,
}

/// Whether the policy of a handle has a rule.
pub(crate) fn has_rules(kept: &Option<Box<PolicyBox>>) -> bool
    ensures some { OnTrue result ((boxed_policy kept.now).rules ≢ []) }
    ensures none { OnFalse result ((boxed_policy kept.now).rules ≡ []) }
{
    match policy_of(kept) {
        Some(_) => true,
        None => false,
    }
}

/// The policy of a handle. `None`: the handle is empty.
pub(crate) fn policy_in(kept: &Option<Box<PolicyBox>>) -> Option<&UrlPolicy<PatternRegexp>>
    ensures some { IfSome result (λ policy. policy.now ≡ boxed_policy kept.now) }
    ensures none { IfNone result (boxed_policy kept.now ≡ no_rules) }
{
    match kept {
        Some(kept) => {
            let policy: &UrlPolicy<PatternRegexp> = &kept.policy;
            Some(policy)
        }
        None => None,
    }
}

/// The policy of a handle. `None`: the handle has no rule.
fn policy_of(kept: &Option<Box<PolicyBox>>) -> Option<&UrlPolicy<PatternRegexp>>
    ensures some { IfSome result (λ policy.
        (policy.now ≡ boxed_policy kept.now) × (policy.now.rules ≢ [])) }
    ensures none { IfNone result ((boxed_policy kept.now).rules ≡ []) }
{
    match kept {
        Some(kept) => {
            let policy: &UrlPolicy<PatternRegexp> = &kept.policy;
            if policy.rules.is_empty() {
                None
            } else {
                Some(policy)
            }
        }
        None => None,
    }
}

/// The options of the policy of a handle.
pub(crate) fn options_of(kept: &Option<Box<PolicyBox>>) -> PolicyOptions
    ensures { result ≡ (boxed_policy kept.now).options }
{
    match kept {
        Some(kept) => kept.policy.options,
        None => PolicyOptions::new(),
    }
}

/// Puts a policy into a box, by itself.
pub(crate) fn box_of_policy(
    alloc: Global,
    policy: UrlPolicy<PatternRegexp>,
) -> Result<Box<PolicyBox>, AllocError>
    ensures { IfOk result (λ kept. arc_value kept.value.policy ≡ policy) }
{
    match Arc::new(alloc, policy) {
        Ok(policy) => boxed(alloc, policy),
        Err(failed) => {
            drop(failed);
            Err(AllocError)
        }
    }
}

/// Puts a policy into a box.
fn boxed(
    alloc: Global,
    policy: Arc<UrlPolicy<PatternRegexp>, Global>,
) -> Result<Box<PolicyBox>, AllocError>
    ensures { IfOk result (λ kept. arc_value kept.value.policy ≡ arc_value policy) }
{
    match Box::new(alloc, PolicyBox { policy }) {
        Ok(kept) => Ok(kept),
        Err(failed) => {
            drop(failed);
            Err(AllocError)
        }
    }
}

/// Returns what another handle has that shares the policy of one, which stays where it is.
pub fn share_policy(
    alloc: Global,
    kept: &Option<Box<PolicyBox>>,
) -> Result<Option<Box<PolicyBox>>, AllocError>
    ensures { IfOk result (λ shared. boxed_policy shared ≡ boxed_policy kept.now) }
{
    match kept {
        Some(kept) => {
            let policy = Arc::try_clone(&kept.policy)?;
            match boxed(alloc, policy) {
                Ok(shared) => Ok(Some(shared)),
                Err(error) => Err(error),
            }
        }
        None => Ok(None),
    }
}
