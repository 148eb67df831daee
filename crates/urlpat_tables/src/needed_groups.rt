//! The groups of the second pattern of a rule, and from which groups of the first they take their
//! texts.

ghost use Rattle.std.specs.Char.{is_ascii_digit};
ghost use Rattle.std.specs.Prelude.{◌≡◌, ℕ, IfNone, IfOk, IfSome, List, MatchBool};
ghost use Rattle.std.specs.Str.{chars};
ghost use Rattle.urlpat_tables.specs.RewriteRules.{LacksText, NeedsAmong, NeedsGroup, NeedsNothing, needs_text, source_of};
ghost use Rattle.urlpattern.specs.Patterns.{pattern_view};
ghost use Rattle.urlpattern_syntax.specs.Parts.{part_view, parts_view};
ghost use Rattle.urlpattern_syntax.specs.Text.{begins_with, text_of};

use std::alloc::{AllocError, Global};
use urlpat_matching::{has_group, owner};
use urlpattern::regexp::PatternRegexp;
use urlpattern::{ComponentName, UrlPattern};
use urlpattern_syntax::parser::{Part, PartModifier, PartType};

/// The component of the group of `from` from which the group `name` of a component of the second
/// pattern takes its text: the component itself if it has such a group, or else the only one that
/// has. `None`: there is no such component, or several have such a group.
pub(crate) fn source_of(
    from: &UrlPattern<PatternRegexp>,
    component: ComponentName,
    name: &str,
) -> Option<ComponentName>
    ensures { result ≡ source_of (pattern_view from.now) component (chars name.now) }
{
    if has_group(from.get(component), name) {
        return Some(component);
    }
    owner(from, name)
}

/// The first group of the second pattern that needs a text and takes none from `from`, with its
/// component. `None`: there is none.
pub(crate) fn needed_group(
    alloc: Global,
    from: &UrlPattern<PatternRegexp>,
    to: &UrlPattern<PatternRegexp>,
) -> Result<Option<(ComponentName, String)>, AllocError>
    ensures nothing { IfOk result (λ found. IfNone found (NeedsNothing from.now to.now)) }
    ensures needed { IfOk result (λ found.
        IfSome found (λ group. NeedsGroup from.now to.now group.0 (text_of group.1))) }
{
    let Some(parts) = to.parts() else {
        return Ok(None);
    };
    for component in ComponentName::all() {
        let of_component = parts.components.get(component);
        if let Some(name) = needed_among(from, component, &of_component.parts) {
            return Ok(Some((component, String::from_str(alloc, name)?)));
        }
    }
    Ok(None)
}

/// The name of the first of the parts of a component that is a group which needs a text and takes
/// none from `from`. `None`: there is none.
fn needed_among<'p>(
    from: &UrlPattern<PatternRegexp>,
    component: ComponentName,
    parts: &'p [Part],
) -> Option<&'p str>
    ensures needed { IfSome result (λ name.
        NeedsAmong (pattern_view from.now) component (parts_view parts.now) (chars name.now)) }
    ensures none { IfNone result ((name : List ℕ)
        → ¬ NeedsAmong (pattern_view from.now) component (parts_view parts.now) name) }
{
    for part in parts {
        if lacks_text(from, component, part) {
            return Some(part.name.as_str());
        }
    }
    None
}

/// Whether a part is a group that needs a text and takes none from `from`.
fn lacks_text(from: &UrlPattern<PatternRegexp>, component: ComponentName, part: &Part) -> bool
    ensures { MatchBool result
        (LacksText (pattern_view from.now) component (part_view part.now))
        (¬ LacksText (pattern_view from.now) component (part_view part.now)) }
{
    needs_text(part) && source_of(from, component, &part.name).is_none()
}

/// Whether a part is a group that needs a text: it has at least one copy, and is no wildcard
/// without name, which may be empty.
fn needs_text(part: &Part) -> bool
    ensures { result ≡ needs_text (part_view part.now) }
{
    match part.modifier {
        PartModifier::Optional | PartModifier::ZeroOrMore => false,
        PartModifier::None | PartModifier::OneOrMore => match part.kind {
            PartType::FixedText => false,
            PartType::FullWildcard => !begins_with_digit(&part.name),
            PartType::Regexp | PartType::SegmentWildcard => true,
        },
    }
}

/// Whether a text begins with a digit.
fn begins_with_digit(text: &str) -> bool
    ensures { result ≡ begins_with is_ascii_digit (chars text.now) }
{
    match text.chars().next() {
        Some(first) => first.is_ascii_digit(),
        None => false,
    }
}
