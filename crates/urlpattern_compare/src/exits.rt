//! Exits: the edges that leave a set of states.

ghost use Rattle.std.specs.Prelude.{◌≡◌, ℕ, IfOk, filter, length};
ghost use Rattle.urlpattern_compare.specs.Exits.{AreExits, joint_moved_by, moved_by, with_ends};
ghost use Rattle.urlpattern_compare.specs.Searching.{is_in};

use crate::condition::Condition;
use crate::folding::folded_character;
use crate::joint_states::split;
use crate::parts_automaton::{Edge, PartsAutomaton};
use crate::states::{is_in, none, set_state};
use std::alloc::{AllocError, Global};

/// The edges of an automaton that leave a state of a set.
#[derive(Debug, Drop)]
pub(crate) struct Exits {
    /// The edges.
    pub(crate) edges: Vec<Edge>,
    /// The number of states for which the set has a flag.
    pub(crate) states: usize,
    /// Whether the automaton ignores case.
    pub(crate) ignore_case: bool,
}

/// Returns the exits of the automata of `conditions` from the sets of states `flags`.
pub(crate) fn exits_at(
    alloc: Global,
    conditions: &[Condition<'_>],
    flags: &[bool],
) -> Result<Vec<Exits>, AllocError>
    ensures { IfOk result (λ exits. AreExits conditions.now flags.now exits.items) }
{
    let mut exits = Vec::new(alloc);
    let mut left = flags;
    for condition in conditions {
        let (own, others) = split(left, condition.automaton.states);
        let own_exits = exits_from(alloc, condition.automaton, own)?;
        exits.push(own_exits)?;
        left = others;
    }
    Ok(exits)
}

/// Returns the exits of the automaton from the set of states `from`.
fn exits_from(alloc: Global, automaton: &PartsAutomaton, from: &[bool]) -> Result<Exits, AllocError>
    ensures edges { IfOk result (λ exits. exits.edges.items
        ≡ filter (λ edge. is_in from.now edge.from) automaton.now.edges.items) }
    ensures states { IfOk result (λ exits. exits.states ≡ length from.now) }
    ensures case { IfOk result (λ exits. exits.ignore_case ≡ automaton.now.ignore_case) }
{
    let mut edges = Vec::new(alloc);
    for edge in &automaton.edges {
        if is_in(from, edge.from) {
            edges.push(*edge)?;
        }
    }
    Ok(Exits {
        edges,
        states: from.len(),
        ignore_case: automaton.ignore_case,
    })
}

/// Returns the sets of the states to which the character `c` leads by the exits of several
/// automata.
pub(crate) fn joint_moved_by(
    alloc: Global,
    exits: &[Exits],
    c: char,
) -> Result<Vec<bool>, AllocError>
    ensures { IfOk result (λ flags. flags.items ≡ joint_moved_by exits.now c) }
{
    let mut flags = Vec::new(alloc);
    for own in exits {
        let own_moved = moved_by(alloc, own, c)?;
        flags.extend_from_slice(&own_moved)?;
    }
    Ok(flags)
}

/// Returns the set of the states to which the character `c` leads by the exits.
fn moved_by(alloc: Global, exits: &Exits, c: char) -> Result<Vec<bool>, AllocError>
    ensures { IfOk result (λ flags. flags.items ≡ moved_by exits.now c) }
{
    let folded = folded_character(exits.ignore_case, c);
    let mut flags = none(alloc, exits.states)?;
    for edge in &exits.edges {
        if edge.test.passes(folded) {
            set_state(&mut flags, edge.to);
        }
    }
    Ok(flags)
}
