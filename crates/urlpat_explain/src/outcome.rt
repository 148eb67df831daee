//! The outcome of matching the texts of a URL, component by component.

ghost use Rattle.std.specs.Prelude.{IfOk};
ghost use Rattle.urlpat_explain.specs.Outcomes.{HasCaptures, IsOutcome};
ghost use Rattle.urlpattern_components.specs.Eight.{at};
ghost use Rattle.urlpattern_init.specs.Inheritance.{texts_of_url};
ghost use Rattle.urlpattern_matches.specs.GroupTexts.{borrowed_texts};
ghost use Rattle.urlpattern_pattern.specs.Patterns.{pattern_view};

use std::alloc::Global;
use url::Url;
use urlpattern_components::{ComponentName, Eight};
use urlpattern_engine::PatternRegexp;
use urlpattern_matches::url_texts;
use urlpattern_pattern::UrlPattern;
use urlpattern_syntax::Error;

/// The texts of a URL, and what the groups of a pattern capture of them.
#[derive(Drop)]
pub struct Outcome<'u> {
    /// The text of each component.
    pub texts: Eight<&'u str>,
    /// What the groups of each component capture of its text, in order, with `None` for a group
    /// that took no part. `None` as a whole: the text does not match.
    pub captures: Eight<Option<Vec<Option<&'u str>>>>,
}

/// Matches each text of a URL by the pattern of its component.
///
/// The only error is that memory ran out.
pub fn outcome_of<'u>(
    alloc: Global,
    pattern: &UrlPattern<PatternRegexp>,
    url: &'u Url,
) -> Result<Outcome<'u>, Error>
    ensures { IfOk result (IsOutcome (pattern_view pattern.now) (texts_of_url url.now)) }
{
    let texts = url_texts(url);
    let captures = captures_of(alloc, pattern, &texts)?;
    Ok(Outcome { texts, captures })
}

/// What the groups of each component capture of its text.
fn captures_of<'u>(
    alloc: Global,
    pattern: &UrlPattern<PatternRegexp>,
    texts: &Eight<&'u str>,
) -> Result<Eight<Option<Vec<Option<&'u str>>>>, Error>
    ensures { IfOk result (λ captures. (name : ComponentName)
        → HasCaptures (pattern_view pattern.now) (borrowed_texts texts.now) name
        (at captures name)) }
{
    let captures = |name: ComponentName| -> Result<Option<Vec<Option<&str>>>, Error>
        ensures { IfOk result
            (HasCaptures (pattern_view pattern.entry.now) (borrowed_texts texts.entry.now) name) }
    { component_captures(alloc, pattern, texts, name) };
    Eight::try_from_fn(captures)
}

/// What the groups of the component `name` capture of its text.
fn component_captures<'u>(
    alloc: Global,
    pattern: &UrlPattern<PatternRegexp>,
    texts: &Eight<&'u str>,
    name: ComponentName,
) -> Result<Option<Vec<Option<&'u str>>>, Error>
    ensures { IfOk result
        (HasCaptures (pattern_view pattern.now) (borrowed_texts texts.now) name) }
{
    pattern.get(name).matcher.matches(alloc, *texts.get(name))
}
