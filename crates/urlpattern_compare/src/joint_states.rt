//! The sets of states of several automata, one after the other in one list of flags.

ghost use Rattle.std.specs.Prelude.{◌≡◌, IfOk, drop, take};
ghost use Rattle.std.specs.List.{list_any};
ghost use Rattle.urlpattern_compare.specs.Conditions.{are_met, are_open, is_as, joint_starts};

use crate::condition::Condition;
use crate::states::{is_in, set_of};
use std::alloc::{AllocError, Global};

/// Returns the sets of the start states of the automata of `conditions`.
pub(crate) fn joint_starts(
    alloc: Global,
    conditions: &[Condition<'_>],
) -> Result<Vec<bool>, AllocError>
    ensures { IfOk result (λ flags. flags.items ≡ joint_starts conditions.now) }
{
    let mut flags = Vec::new(alloc);
    for condition in conditions {
        let own = set_of(
            alloc,
            &condition.automaton.starts,
            condition.automaton.states,
        )?;
        flags.extend_from_slice(&own)?;
    }
    Ok(flags)
}

/// Whether a text that leads to the sets `flags` meets each of `conditions`.
pub(crate) fn are_met(conditions: &[Condition<'_>], flags: &[bool]) -> bool
    ensures { result ≡ are_met conditions.now flags.now }
{
    let mut left = flags;
    for condition in conditions {
        let (own, others) = split(left, condition.automaton.states);
        if !is_as(condition.is_accepted, is_in(own, 0)) {
            return false;
        }
        left = others;
    }
    true
}

/// Whether each automaton that has to accept a text is in some state at the sets `flags`.
pub(crate) fn are_open(conditions: &[Condition<'_>], flags: &[bool]) -> bool
    ensures { result ≡ are_open conditions.now flags.now }
{
    let mut left = flags;
    for condition in conditions {
        let (own, others) = split(left, condition.automaton.states);
        if condition.is_accepted && !has_state(own) {
            return false;
        }
        left = others;
    }
    true
}

/// Whether an automaton does what is asked of it, where `found` says whether it accepts.
pub(crate) fn is_as(asked: bool, found: bool) -> bool
    ensures { result ≡ is_as asked found }
{
    if asked { found } else { !found }
}

/// Whether the set `flags` has a state.
pub(crate) fn has_state(flags: &[bool]) -> bool
    ensures { result ≡ list_any (λ flag. flag) flags.now }
{
    flags.iter().any(|flag| *flag)
}

/// Splits off the first `count` items, or all if there are fewer.
pub(crate) fn split<T>(items: &[T], count: usize) -> (&[T], &[T])
    ensures own { result.0.now ≡ take count items.now }
    ensures others { result.1.now ≡ drop count items.now }
{
    if count < items.len() {
        items.split_at(count)
    } else {
        items.split_at(items.len())
    }
}
