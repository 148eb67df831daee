//! The command `first`: the first of several patterns that matches a URL, and its captures.

ghost use Rattle.std.specs.Prelude.{option_copied, string_bytes, IfErr, IfOk};
ghost use Rattle.urlpat_commands.specs.CommandAnswers.{ArePatterns, FindsFirst, FindsFirstBy, RejectsOneOf, ShowsFirst};
ghost use Rattle.urlpat_matching.specs.Texts.{texts_view};
ghost use Rattle.urlpattern.specs.BorrowedMatches.{pattern_captures_view};
ghost use Rattle.urlpattern.specs.Errors.{MemoryOr, OnlyOutOfMemory};
ghost use Rattle.urlpattern.specs.FirstMatch.{patterns_view};

use crate::first_json::first_json;
use std::alloc::{AllocError, Global};
use urlpat_matching::{FirstArguments, Flags, GivenPattern, compiled, push_match};
use urlpattern::regexp::PatternRegexp;
use urlpattern::{Error, UrlPatternCaptures, UrlPatternList};
use urlpattern_canonical::find_url;

/// Returns the first match of an input, a URL under a base URL if there is one: a line with the
/// index of its pattern and a line for each group, or JSON. `None`: no pattern matches, or the
/// input is not a URL.
///
/// The error is that of the first pattern that is rejected, or of the base, or that memory ran out.
pub fn first_groups(
    alloc: Global,
    asked: FirstArguments<'_, '_>,
    flags: Flags,
) -> Result<Option<String>, Error>
    ensures found { IfOk result (FindsFirst flags (texts_view asked.entry.patterns.now)
        asked.entry.input.now (option_copied asked.entry.base)) }
    ensures refused { IfErr result (MemoryOr (RejectsOneOf flags.ignore_case
        (texts_view asked.entry.patterns.now) (option_copied asked.entry.base))) }
{
    let list = compiled_list(alloc, asked.patterns, asked.base, flags.ignore_case)?;
    let answer = groups_of_first(alloc, &list, asked.base, flags.json, asked.input);
    drop(list);
    Ok(answer?)
}

/// Compiles constructor strings, in order, under a base URL if there is one.
///
/// The error is that of the first pattern that is rejected, or of the base, or that memory ran out.
fn compiled_list(
    alloc: Global,
    patterns: &[&str],
    base: Option<&str>,
    ignore_case: bool,
) -> Result<UrlPatternList<PatternRegexp>, Error>
    ensures compiled { IfOk result (λ list.
        ArePatterns ignore_case (texts_view patterns.now) (option_copied base.entry)
        (patterns_view list)) }
    ensures refused { IfErr result
        (MemoryOr (RejectsOneOf ignore_case (texts_view patterns.now) (option_copied base.entry))) }
{
    let mut list = UrlPatternList::new(alloc);
    for pattern in patterns {
        let pattern = compiled(alloc, GivenPattern::Text(*pattern), base, ignore_case)?;
        if let Err(refused) = list.push(pattern) {
            drop(refused);
            return Err(Error::OutOfMemory);
        }
    }
    Ok(list)
}

/// Returns the first match of an input by compiled patterns: a line with the index of its pattern
/// and a line for each group, or JSON. `None`: no pattern matches, or the input is not a URL.
fn groups_of_first(
    alloc: Global,
    list: &UrlPatternList<PatternRegexp>,
    base: Option<&str>,
    json: bool,
    input: &str,
) -> Result<Option<String>, Error>
    ensures found { IfOk result
        (FindsFirstBy json (patterns_view list.now) input.now (option_copied base.entry)) }
    ensures memory { OnlyOutOfMemory result }
{
    let Some(url) = find_url(alloc, input, base)? else {
        return Ok(None);
    };
    let Some((index, found)) = list.first_captures(alloc, &url)? else {
        return Ok(None);
    };
    let text = first_text(alloc, json, index, &found);
    drop(found);
    Ok(Some(text?))
}

/// The text of the first match: a line with the index of its pattern and a line for each group, or
/// JSON.
fn first_text(
    alloc: Global,
    json: bool,
    index: usize,
    found: &UrlPatternCaptures<'_, '_>,
) -> Result<String, AllocError>
    ensures { IfOk result (λ text.
        ShowsFirst json index (pattern_captures_view found.now) (string_bytes text)) }
{
    if json {
        return first_json(alloc, index, found);
    }
    let mut text = format!(in alloc; "match {index}\n")?;
    push_match(alloc, &mut text, found)?;
    Ok(text)
}
