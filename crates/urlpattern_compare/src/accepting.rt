//! Whether texts meet conditions.

ghost use Rattle.std.specs.Prelude.{◌≡◌, ◌↔◌, ℕ, All, Contains, IfOk, IsTrue, List};
ghost use Rattle.urlpattern_compare.specs.Candidates.{IsFirstMet, MeetsAt, MeetsEach, text_at};
ghost use Rattle.urlpattern_compare.specs.Conditions.{Meets, accepts};

use crate::condition::Condition;
use crate::folding::folded_character;
use crate::joint_states::{has_state, is_as};
use crate::parts_automaton::PartsAutomaton;
use crate::states::{is_in, moved, set_of};
use std::alloc::{AllocError, Global};
use urlpattern_components::{ComponentName, Eight};

/// Whether the automaton accepts the text.
pub(crate) fn accepts(
    alloc: Global,
    automaton: &PartsAutomaton,
    text: &[char],
) -> Result<bool, AllocError>
    ensures { IfOk result (λ found. found ≡ accepts automaton.now text.now) }
{
    let mut flags = set_of(alloc, &automaton.starts, automaton.states)?;
    for c in text {
        if !has_state(&flags) {
            return Ok(false);
        }
        let c = folded_character(automaton.ignore_case, *c);
        flags = moved(alloc, &automaton.edges, &flags, c)?;
    }
    Ok(is_in(&flags, 0))
}

/// Whether the eight texts meet each of `conditions`.
pub(crate) fn meets(
    alloc: Global,
    conditions: &[Condition<'_>],
    texts: &Eight<Vec<char>>,
) -> Result<bool, AllocError>
    ensures { IfOk result (λ found.
        IsTrue found ↔ MeetsEach conditions.now (text_at texts.now)) }
{
    for condition in conditions {
        let text = texts.get(condition.component);
        let found = accepts(alloc, condition.automaton, text)?;
        if !is_as(condition.is_accepted, found) {
            return Ok(false);
        }
    }
    Ok(true)
}

/// Returns the index of the first of `lists`, each a list of conditions, that the eight texts meet.
/// `None`: they meet none of the lists.
pub(crate) fn first_met(
    alloc: Global,
    lists: &[Vec<Condition<'_>>],
    texts: &Eight<Vec<char>>,
) -> Result<Option<usize>, AllocError>
    ensures { IfOk result (IsFirstMet lists.now (text_at texts.now)) }
{
    for index in 0..lists.len() {
        if meets(alloc, &lists[index], texts)? {
            return Ok(Some(index));
        }
    }
    Ok(None)
}

/// Returns those of `conditions` that are on the component.
pub(crate) fn conditions_at<'a>(
    alloc: Global,
    conditions: &[Condition<'a>],
    component: ComponentName,
) -> Result<Vec<Condition<'a>>, AllocError>
    ensures meets { IfOk result (λ own. (text : List ℕ)
        → Meets own.items text ↔ MeetsAt conditions.now component text) }
    ensures within { IfOk result (λ own.
        All (λ it. (it.component ≡ component) × Contains conditions.now it) own.items) }
{
    let mut own = Vec::new(alloc);
    for condition in conditions {
        if is_on(*condition, component) {
            own.push(*condition)?;
        }
    }
    Ok(own)
}

/// Whether the condition is on the component.
fn is_on(condition: Condition<'_>, component: ComponentName) -> bool
    ensures { IsTrue result ↔ condition.entry.component ≡ component }
{
    condition.component == component
}
