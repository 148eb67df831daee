//! Patterns that match no texts in common, as the fronts of their paths or hosts tell. No search is
//! needed for them, and nearly all pairs of a large table are such.

ghost use Rattle.std.specs.Prelude.{ℕ, All, IsTrue, List, map};
ghost use Rattle.urlpattern_components.specs.Eight.{at};
ghost use Rattle.urlpattern_compare.specs.{Candidates.AreLines, Candidates.TextAt, CommonTexts.AreAutomata, CommonTexts.Takes, CommonTexts.TakesAll, CommonTexts.TakesNone, TextSearch.IsLine};

use crate::common_texts::PatternAutomata;
use crate::coverage::are_apart;
use crate::lacks::is_same_in;
use urlpattern_components::ComponentName;

/// Whether the fronts of paths or hosts tell that the first two patterns match no texts in common.
pub(crate) fn are_apart_by_fronts(patterns: &[&PatternAutomata]) -> bool
    requires { All AreAutomata (map (λ it. it.now) patterns.now) }
    ensures { IsTrue result → (texts : TextAt) → AreLines texts
        → ¬ All (λ pattern. TakesAll pattern texts) (map (λ it. it.now) patterns.now) }
{
    if patterns.len() < 2 {
        return false;
    }
    let first = patterns[0];
    let second = patterns[1];
    if are_apart_in(first, second, ComponentName::Pathname) {
        return true;
    }
    are_apart_in(first, second, ComponentName::Hostname)
}

/// Whether the fronts of the component tell that the two patterns match no text in common.
fn are_apart_in(one: &PatternAutomata, other: &PatternAutomata, name: ComponentName) -> bool
    requires one { AreAutomata one.now }
    requires other { AreAutomata other.now }
    ensures { IsTrue result → (text : List ℕ) → IsLine text
        → Takes (at one.now.automata name) text → ¬ Takes (at other.now.automata name) text }
{
    if one.automata.get(name).is_none() {
        return false;
    }
    if other.automata.get(name).is_none() {
        return false;
    }
    let component = one.parts.components.get(name);
    let others = other.parts.components.get(name);
    are_apart(
        &component.options,
        &component.parts,
        &others.options,
        &others.parts,
    )
}

/// Whether the front of the path or of the host tells that `pattern` takes no texts that each of
/// `patterns` takes.
pub(crate) fn is_apart_from(patterns: &[&PatternAutomata], pattern: &PatternAutomata) -> bool
    requires patterns { All AreAutomata (map (λ it. it.now) patterns.now) }
    requires pattern { AreAutomata pattern.now }
    ensures { IsTrue result → TakesNone (map (λ it. it.now) patterns.now) pattern.now }
{
    if is_apart_from_in(patterns, pattern, ComponentName::Pathname) {
        return true;
    }
    is_apart_from_in(patterns, pattern, ComponentName::Hostname)
}

/// Whether the front of the component tells that `pattern` takes no texts that each of `patterns`
/// takes.
fn is_apart_from_in(
    patterns: &[&PatternAutomata],
    pattern: &PatternAutomata,
    name: ComponentName,
) -> bool
    requires patterns { All AreAutomata (map (λ it. it.now) patterns.now) }
    requires pattern { AreAutomata pattern.now }
    ensures { IsTrue result → TakesNone (map (λ it. it.now) patterns.now) pattern.now }
{
    if patterns.is_empty() {
        return false;
    }
    if is_same_in(patterns, pattern, name) {
        return false;
    }
    let first = patterns[0];
    are_apart_in(first, pattern, name)
}
