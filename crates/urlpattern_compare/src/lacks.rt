//! Which components of patterns have an automaton, or are the same in another pattern.

ghost use Rattle.std.specs.Prelude.{◌↔◌, All, IfNone, IfOk, IfSome, IsTrue, map};
ghost use Rattle.urlpattern_compare.specs.CommonTexts.{AreAutomata, IsLack, IsLackOf, IsSameIn, IsSure, IsSureIn, LacksBy};

use crate::common_texts::{Lack, PatternAutomata};
use crate::component_coverage::{is_same, unknown};
use crate::coverage::Reason;
use std::alloc::{AllocError, Global};
use urlpattern_components::ComponentName;
use urlpattern_syntax::ComponentParts;

/// Whether each component of the pattern has an automaton, or is the same in a pattern of `all_of`.
pub(crate) fn is_sure_of(all_of: &[&PatternAutomata], pattern: &PatternAutomata) -> bool
    ensures { IsTrue result ↔ IsSure (map (λ it. it.now) all_of.now) pattern.now }
{
    for component in ComponentName::all() {
        if !is_sure_in(all_of, pattern, component) {
            return false;
        }
    }
    true
}

/// Whether the component has an automaton, or is the same in a pattern of `all_of`.
fn is_sure_in(
    all_of: &[&PatternAutomata],
    pattern: &PatternAutomata,
    component: ComponentName,
) -> bool
    ensures { IsTrue result ↔ IsSureIn (map (λ it. it.now) all_of.now) pattern.now component }
{
    match pattern.automata.get(component) {
        Some(_) => true,
        None => is_same_in(all_of, pattern, component),
    }
}

/// Whether a pattern of `all_of` has the same component as `pattern`, but for names.
pub(crate) fn is_same_in(
    all_of: &[&PatternAutomata],
    pattern: &PatternAutomata,
    component: ComponentName,
) -> bool
    ensures { IsTrue result ↔ IsSameIn (map (λ it. it.now) all_of.now) pattern.now component }
{
    let own = pattern.parts.components.get(component);
    for one in all_of {
        if is_same(one.parts.components.get(component), own) {
            return true;
        }
    }
    false
}

/// Returns the first component of `patterns` that has no automaton, and is not the same in a
/// pattern of `all_of`. `None`: there is none.
pub(crate) fn first_lack(
    alloc: Global,
    all_of: &[&PatternAutomata],
    patterns: &[&PatternAutomata],
) -> Result<Option<Lack>, AllocError>
    requires { All AreAutomata (map (λ it. it.now) patterns.now) }
    ensures none { IfOk result (λ found. IfNone found
        (All (IsSure (map (λ it. it.now) all_of.now)) (map (λ it. it.now) patterns.now))) }
    ensures some { IfOk result (λ found. IfSome found
        (IsLack (map (λ it. it.now) patterns.now))) }
{
    for index in 0..patterns.len() {
        match lack_of(alloc, all_of, patterns[index], index)? {
            Some(lack) => return Ok(Some(lack)),
            None => {}
        }
    }
    Ok(None)
}

/// Returns the first component of the pattern that has no automaton, and is not the same in a
/// pattern of `all_of`; `index` is that of the pattern. `None`: there is none.
fn lack_of(
    alloc: Global,
    all_of: &[&PatternAutomata],
    pattern: &PatternAutomata,
    index: usize,
) -> Result<Option<Lack>, AllocError>
    requires { AreAutomata pattern.now }
    ensures none { IfOk result (λ found.
        IfNone found (IsSure (map (λ it. it.now) all_of.now) pattern.now)) }
    ensures some { IfOk result (λ found. IfSome found (IsLackOf pattern.now index)) }
{
    for component in ComponentName::all() {
        if !is_sure_in(all_of, pattern, component) {
            let reason = reason_of(alloc, pattern.parts.components.get(component))?;
            return Ok(Some(Lack {
                pattern: index,
                component,
                reason,
            }));
        }
    }
    Ok(None)
}

/// Returns why the component has no automaton.
fn reason_of(alloc: Global, component: &ComponentParts) -> Result<Reason, AllocError>
    requires { (reason : Reason) × LacksBy component.now reason }
    ensures { IfOk result (LacksBy component.now) }
{
    match unknown(alloc, component)? {
        Some(reason) => Ok(reason),
        None => Ok(Reason::TooMany),
    }
}
