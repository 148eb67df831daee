//! Whether the parts of two patterns are equal.

ghost use Rattle.std.specs.Prelude.{◌≡◌, ◌↔◌, IsTrue};
ghost use Rattle.urlpattern_compare.specs.EqualParts.{AreEqual, AreEqualParts};
ghost use Rattle.urlpattern_syntax.specs.Parts.{part_view, parts_view};

use crate::component_coverage::{are_same_options, is_same_text};
use crate::pattern_parts::PatternParts;
use urlpattern_components::ComponentName;
use urlpattern_syntax::ComponentParts;
use urlpattern_syntax::parser::Part;

impl PatternParts {
    /// Whether each component has equal options and equal parts in both patterns, names of groups
    /// included, and both honour the flag `i` there, or neither does.
    ///
    /// Patterns with different texts may be the same: `/a{b}` has the parts of `/ab`.
    pub fn is_same(&self, other: &Self) -> bool
        ensures { IsTrue result ↔ AreEqualParts self.now other.now }
    {
        for name in ComponentName::all() {
            if !is_equal(self.components.get(name), other.components.get(name)) {
                return false;
            }
        }
        true
    }
}

/// Whether two components have equal options and equal parts, names of groups included, and honour
/// the flag `i` alike.
fn is_equal(component: &ComponentParts, other: &ComponentParts) -> bool
    ensures { IsTrue result ↔ AreEqual component.now other.now }
{
    are_same_options(&component.options, &other.options)
        && are_equal_parts(&component.parts, &other.parts)
        && component.honours_case == other.honours_case
}

/// Whether two lists of parts are equal.
fn are_equal_parts(parts: &[Part], others: &[Part]) -> bool
    ensures { IsTrue result ↔ parts_view parts.now ≡ parts_view others.now }
{
    if parts.len() != others.len() {
        return false;
    }
    for index in 0..parts.len() {
        if !is_equal_part(&parts[index], &others[index]) {
            return false;
        }
    }
    true
}

/// Whether two parts are equal.
fn is_equal_part(part: &Part, other: &Part) -> bool
    ensures { IsTrue result ↔ part_view part.now ≡ part_view other.now }
{
    part.kind == other.kind
        && part.modifier == other.modifier
        && is_same_text(&part.value, &other.value)
        && is_same_text(&part.name, &other.name)
        && is_same_text(&part.prefix, &other.prefix)
        && is_same_text(&part.suffix, &other.suffix)
}
