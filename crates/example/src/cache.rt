//! Rules for a cache: how long a page is kept.

ghost use Rattle.example.specs.FirstRule.{IsOfFirst};
ghost use Rattle.std.specs.Prelude.{◌≡◌, length, IfOk};
ghost use Rattle.urlpattern.specs.Errors.{OnlyOutOfMemory};
ghost use Rattle.urlpattern.specs.FirstMatch.{patterns_view};

use std::alloc::Global;
use url::Url;
use urlpattern::regexp::RegExp;
use urlpattern::{Error, UrlPatternList, UrlPatternMatchInput};

/// Returns for how many seconds the page of a URL is kept: the age of the first pattern that
/// matches the URL. `ages` has an age for each pattern. `None`: no pattern matches.
pub fn max_age<R: RegExp>(
    alloc: Global,
    patterns: &UrlPatternList<R>,
    ages: &[u32],
    url: &Url,
) -> Result<Option<u32>, Error>
    requires { length ages.now ≡ length patterns.now }
    ensures first { IfOk result (IsOfFirst R.answer (patterns_view patterns.now) ages.now
        (UrlPatternMatchInput.Url url.now)) }
    ensures memory { OnlyOutOfMemory result }
{
    // docs: max_age
    let Some((index, found)) = patterns.first_captures(alloc, url)? else {
        return Ok(None);
    };
    drop(found);
    Ok(ages.get(index).copied())
    // docs: end
}
