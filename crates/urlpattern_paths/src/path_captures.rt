//! What parts capture in a path.
ghost use Rattle.std.specs.Prelude.{◌≡◌, [], ◌∷◌, ◌++◌, IfOk, Some, option_map};
ghost use Rattle.std.specs.Str.{chars};
ghost use Rattle.urlpattern_matches.specs.GroupTexts.{captures_of};
ghost use Rattle.urlpattern_paths.specs.PathCaptures.{after_front, after_segment, read_first_segment, read_view, segment};
ghost use Rattle.urlpattern_paths.specs.Templates.{template_captured};
ghost use Rattle.urlpattern_syntax.specs.Text.{option_text};

use crate::template::{PathTemplate, SEGMENT};
use std::alloc::Global;
use urlpattern_matches::GroupCaptures;
use urlpattern_syntax::error::OutOfMemory;

/// The number of captures for which there is room at first, if there are more than one.
const ROOM: usize = 4;

/// Returns what the parts of a template capture in a path, in order. `None`: they do not match it.
///
/// Allocates for two captures or more.
#[inline(always)]
pub(crate) fn read_path<'u>(
    alloc: Global,
    template: &PathTemplate,
    path: &'u str,
) -> Result<Option<GroupCaptures<'u>>, OutOfMemory>
    ensures { IfOk result (λ found.
        option_map captures_of found ≡ template_captured template.now (chars path.now)) }
{
    let mut groups = GroupCaptures::Nothing;
    let mut left = template.text.as_str();
    let mut rest = path;
    while let Some((front, after)) = left.split_once(SEGMENT) {
        let Some((capture, further)) = read_segment(front, rest) else {
            return Ok(None);
        };
        groups = with_capture(alloc, groups, capture)?;
        left = after;
        rest = further;
    }
    let Some(end) = after_front(rest, left) else {
        return Ok(None);
    };
    if template.takes_rest {
        return Ok(Some(with_capture(alloc, groups, end)?));
    }
    if !end.is_empty() {
        return Ok(None);
    }
    Ok(Some(groups))
}

/// Appends a capture to those of a component.
///
/// Allocates unless it is the first.
fn with_capture<'u>(
    alloc: Global,
    groups: GroupCaptures<'u>,
    text: &'u str,
) -> Result<GroupCaptures<'u>, OutOfMemory>
    ensures { IfOk result (λ more.
        captures_of more ≡ captures_of groups.entry ++ Some (chars text.entry.now) ∷ []) }
{
    match groups {
        GroupCaptures::Nothing => Ok(GroupCaptures::One(Some(text))),
        GroupCaptures::One(first) => {
            let mut texts = Vec::with_capacity(alloc, ROOM)?;
            texts.push(first)?;
            texts.push(Some(text))?;
            Ok(GroupCaptures::Groups(texts))
        }
        GroupCaptures::Groups(texts) => {
            let mut texts = texts;
            texts.push(Some(text))?;
            Ok(GroupCaptures::Groups(texts))
        }
    }
}

/// Returns the segment of a text after `front`, and the rest of the text. `None`: the text does not
/// begin with `front`, or the segment is empty.
fn read_segment<'u>(front: &str, text: &'u str) -> Option<(&'u str, &'u str)>
    ensures { option_map read_view result
        ≡ read_first_segment (after_front (chars front.now) (chars text.now)) }
{
    let (segment, rest) = split_segment(after_front(text, front)?);
    if segment.is_empty() {
        return None;
    }
    Some((segment, rest))
}

/// Returns the text after `front`. `None`: it does not begin with `front`.
fn after_front<'u>(text: &'u str, front: &str) -> Option<&'u str>
    ensures { option_text result ≡ after_front (chars front.now) (chars text.now) }
{
    text.strip_prefix(front)
}

/// Splits a text before its first slash, or at its end.
fn split_segment(text: &str) -> (&str, &str)
    ensures segment { chars result.0.now ≡ segment (chars text.now) }
    ensures rest { chars result.1.now ≡ after_segment (chars text.now) }
{
    match text.find('/') {
        Some(slash) => text.split_at(slash),
        None => (text, ""),
    }
}
