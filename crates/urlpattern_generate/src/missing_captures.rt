//! The captures of groups without a value.

ghost use Rattle.std.specs.Prelude.{◌≡◌};
ghost use Rattle.std.specs.Char.{is_ascii_digit};
ghost use Rattle.std.specs.Str.{chars};
ghost use Rattle.urlpattern_generate.specs.Requested.{default_capture, empty_if, is_unnamed_full_wildcard};
ghost use Rattle.urlpattern_syntax.specs.Parts.{part_view};
ghost use Rattle.urlpattern_syntax.specs.Text.{begins_with, option_text, text_of};

use urlpattern_printing::is_bare;
use urlpattern_syntax::parser::{Part, PartModifier, PartType};

/// The capture that is requested of a group without a value. `None`: the group is to be left out,
/// or has to have a value.
pub(crate) fn default_capture(part: &Part) -> Option<&'static str>
    ensures { option_text result ≡ default_capture (part_view part.now) }
{
    match part.modifier {
        PartModifier::Optional => None,
        PartModifier::ZeroOrMore => empty_if(is_bare(part)),
        PartModifier::None | PartModifier::OneOrMore => empty_if(is_unnamed_full_wildcard(part)),
    }
}

/// The empty text if `is`, otherwise `None`.
fn empty_if(is: bool) -> Option<&'static str>
    ensures { option_text result ≡ empty_if is }
{
    if is { Some("") } else { None }
}

/// Whether a group is an unnamed full wildcard, which has a number as its name.
fn is_unnamed_full_wildcard(part: &Part) -> bool
    ensures { result ≡ is_unnamed_full_wildcard part.now.kind (text_of part.now.name) }
{
    part.kind == PartType::FullWildcard && begins_with_digit(&part.name)
}

/// Whether a text begins with a digit.
fn begins_with_digit(text: &str) -> bool
    ensures { result ≡ begins_with is_ascii_digit (chars text.now) }
{
    match text.chars().next() {
        Some(first) => first.is_ascii_digit(),
        None => false,
    }
}
