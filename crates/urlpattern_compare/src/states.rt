//! Sets of states of an automaton, with a flag for each state.

ghost use Rattle.std.specs.Prelude.{◌≡◌, IfOk, false, replicate, slice_set, true};
ghost use Rattle.urlpattern_compare.specs.Searching.{is_in, moved, with_states};

use crate::parts_automaton::Edge;
use std::alloc::{AllocError, Global};

/// Whether the set `flags` contains `state`.
pub(crate) fn is_in(flags: &[bool], state: usize) -> bool
    ensures { result ≡ is_in flags.now state }
{
    state < flags.len() && flags[state]
}

/// Adds `state` to the set `flags`. A state for which the set has no flag is ignored.
pub(crate) fn set_state(flags: &mut [bool], state: usize)
    ensures { flags.new ≡ slice_set flags.old state true }
{
    if state < flags.len() {
        flags[state] = true;
    }
}

/// Returns the empty set, with a flag for each of `states` states.
pub(crate) fn none(alloc: Global, states: usize) -> Result<Vec<bool>, AllocError>
    ensures { IfOk result (λ flags. flags.items ≡ replicate states false) }
{
    vec![in alloc; false; states]
}

/// Returns the set of the states `starts`, with a flag for each of `states` states.
pub(crate) fn set_of(
    alloc: Global,
    starts: &[usize],
    states: usize,
) -> Result<Vec<bool>, AllocError>
    ensures { IfOk result (λ flags. flags.items ≡ with_states (replicate states false) starts.now) }
{
    let mut flags = none(alloc, states)?;
    for state in starts {
        set_state(&mut flags, *state);
    }
    Ok(flags)
}

/// Returns the set of the states to which `edges` lead from the states of `from` by the character
/// `c`.
pub(crate) fn moved(
    alloc: Global,
    edges: &[Edge],
    from: &[bool],
    c: char,
) -> Result<Vec<bool>, AllocError>
    ensures { IfOk result (λ flags. flags.items ≡ moved edges.now from.now c) }
{
    let mut flags = none(alloc, from.len())?;
    for edge in edges {
        if is_in(from, edge.from) && edge.test.passes(c) {
            set_state(&mut flags, edge.to);
        }
    }
    Ok(flags)
}
