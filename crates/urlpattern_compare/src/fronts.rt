//! Fronts: the fixed texts with which all texts begin that parts match.

ghost use Rattle.std.specs.Prelude.{◌≡◌, ◌≢◌, ◌++◌, ℕ, List, IsTrue};
ghost use Rattle.std.specs.Str.{chars};
ghost use Rattle.urlpattern_compare.specs.Fronts.{front_of, part_front};
ghost use Rattle.urlpattern_expressions.specs.MatchedPartTexts.{PartsMatch};
ghost use Rattle.urlpattern_syntax.specs.{Options.OptionsView, Parts.part_view, Parts.parts_view};

use crate::parts_automaton::may_miss;
use urlpattern_syntax::parser::{Part, PartType};

/// Whether neither front of two lists of parts begins with the other, so that no text is matched by
/// both lists.
pub(crate) fn fronts_part_ways(parts: &[Part], others: &[Part]) -> bool
    ensures { IsTrue result → (options other_options : OptionsView) → (text : List ℕ)
        → PartsMatch options (parts_view parts.now) text
        → ¬ PartsMatch other_options (parts_view others.now) text }
{
    part_ways(front_of(parts), front_of(others))
}

/// Returns the front of `parts`: that of the first part, or the empty text if there is none.
fn front_of(parts: &[Part]) -> &str
    ensures { chars result.now ≡ front_of (parts_view parts.now) }
{
    match parts.first() {
        Some(part) => part_front(part),
        None => "",
    }
}

/// Returns the front of `part`: the empty text if the part may be left out.
fn part_front(part: &Part) -> &str
    ensures { chars result.now ≡ part_front (part_view part.now) }
{
    if may_miss(part.modifier) {
        return "";
    }
    match part.kind {
        PartType::FixedText => &part.value,
        _ => &part.prefix,
    }
}

/// Whether neither text begins with the other.
fn part_ways(one: &str, other: &str) -> bool
    ensures { IsTrue result → (rest more : List ℕ)
        → chars one.now ++ rest ≢ chars other.now ++ more }
{
    if one.starts_with(other) {
        return false;
    }
    if other.starts_with(one) {
        return false;
    }
    true
}
