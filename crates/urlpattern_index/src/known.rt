//! What the parts of a component say about the texts that it matches.
ghost use Rattle.std.specs.Prelude.{IsTrue};
ghost use Rattle.urlpattern_index.specs.FixedTexts.{IsText, path_view};
ghost use Rattle.urlpattern_index.specs.Known.{FitsKept, IsFirstText, IsOfParts, MatchesOnly};
ghost use Rattle.urlpattern_index.specs.Paths.{FitsPath};
ghost use Rattle.urlpattern_syntax.specs.ComponentParts.{kept_options, kept_parts};
ghost use Rattle.urlpattern_syntax.specs.Parts.{parts_view};
ghost use Rattle.urlpattern_syntax.specs.Text.{option_text};

use crate::fixed::KnownPath;
use urlpattern_matcher::component::{Component, is_plain};
use urlpattern_matcher::matcher::InnerMatcher;
use urlpattern_matcher::regexp::RegExp;
use urlpattern_syntax::ComponentParts;
use urlpattern_syntax::parser::Part;

/// Returns the only text that a component can match, by the parts in `kept`, of which it is made.
/// `None`: no such text is known.
pub fn fixed_text<'a, R: RegExp>(
    kept: &'a ComponentParts,
    component: &Component<R>,
) -> Option<&'a str>
    requires { IsOfParts R.RegExp kept.now component.now }
    ensures { MatchesOnly R.answer component.now (IsText (option_text result)) }
{
    if !matches_parts(kept, component) {
        return None;
    }
    match kept.parts.as_slice() {
        [] => Some(""),
        [part] if is_plain(part) => Some(&part.value),
        _ => None,
    }
}

/// Returns what is known of each path that a component matches, by `kept`, the parts of which it is
/// made: all parts, or else a fixed text with which the path begins, or nothing.
pub fn known_path<'a, R: RegExp>(
    kept: &'a ComponentParts,
    component: &Component<R>,
) -> KnownPath<'a>
    requires { IsOfParts R.RegExp kept.now component.now }
    ensures { MatchesOnly R.answer component.now (FitsPath (path_view result)) }
{
    let delimiter = kept.options.delimiter_code_point;
    if matches_parts(kept, component) {
        return KnownPath {
            parts: &kept.parts,
            delimiter,
            is_exact: true,
        };
    }
    KnownPath {
        parts: first_text(kept),
        delimiter,
        is_exact: false,
    }
}

/// Whether each text that a component matches is known to fit the parts in `kept`, of which it is
/// made.
fn matches_parts<R: RegExp>(kept: &ComponentParts, component: &Component<R>) -> bool
    requires { IsOfParts R.RegExp kept.now component.now }
    ensures { IsTrue result → MatchesOnly R.answer component.now (FitsKept kept.now) }
{
    if kept.options.ignore_case {
        return false;
    }
    match &component.matcher.inner {
        InnerMatcher::RegExp { .. } => R::agrees_with_parts() && !component.has_regexp_group,
        _ => true,
    }
}

/// Returns the first part alone, if it is a fixed text without modifier and case is not ignored;
/// otherwise no parts.
fn first_text(kept: &ComponentParts) -> &[Part]
    ensures { IsFirstText (kept_options kept.now) (kept_parts kept.now) (parts_view result.now) }
{
    match kept.parts.as_slice() {
        [first, ..] if !kept.options.ignore_case && is_plain(first) => &kept.parts[..1],
        _ => &[],
    }
}
