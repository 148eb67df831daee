//! The captures of a match by the crate `regex`.

ghost use Rattle.std.specs.Prelude.{◌≡◌, map, option_map, IfOk};
ghost use Rattle.regex.specs.Strings.{captures_haystack, captures_span};
ghost use Rattle.urlpattern_matcher.specs.Regexes.{found_texts, text_between};
ghost use Rattle.urlpattern_syntax.specs.Text.{option_text};

use regex::Captures;
use std::alloc::Global;
use urlpattern_syntax::error::OutOfMemory;

/// Returns what the groups of a match capture, without group 0, the whole match. `None` in the
/// list: the group took no part.
pub(super) fn groups<'h>(
    alloc: Global,
    captures: &Captures<'_, 'h>,
) -> Result<Vec<Option<&'h str>>, OutOfMemory>
    ensures { IfOk result (λ groups. map option_text groups.items ≡ found_texts captures.now) }
{
    let count = captures.len();
    let mut groups = Vec::with_capacity(alloc, count.saturating_sub(1))?;
    for index in 1..count {
        groups.push(group(captures, index))?;
    }
    Ok(groups)
}

/// Returns what group `index` of a match captures. `None`: the group took no part.
fn group<'h>(captures: &Captures<'_, 'h>, index: usize) -> Option<&'h str>
    ensures { option_text result
        ≡ option_map (text_between (captures_haystack captures.now))
        (captures_span captures.now index) }
{
    let found = captures.get(index)?;
    Some(found.as_str())
}
