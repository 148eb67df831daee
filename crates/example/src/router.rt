//! A router for URLs under `/users/:id`.

ghost use Rattle.example.specs.NamedUsers.{NamesNone, NamesUser};
ghost use Rattle.std.specs.Prelude.{IfErr, IfNone, IfOk, IfSome, Some};
ghost use Rattle.std.specs.Str.{chars};
ghost use Rattle.urlpattern.specs.Errors.{OnlyOutOfMemory};
ghost use Rattle.urlpattern.specs.Inheritance.{texts_of_url};
ghost use Rattle.urlpattern.specs.Match.{CallsAnEngine};
ghost use Rattle.urlpattern.specs.Patterns.{pattern_view};

use std::alloc::Global;
use url::Url;
use urlpattern::regexp::RegExp;
use urlpattern::{ComponentName, Error, UrlPattern, UrlPatternMatchInput};

/// The pattern of users. The group `id` matches between `/users/` and the end of the path.
pub const USERS: &str = "https://example.com/users/:id";

/// The name of the group for the user.
const ID: &str = "id";

/// The user that a URL names, borrowed from the URL: the capture of the group `id` of the path.
/// `None`: the pattern of users does not match the URL, or the group takes no part in the match.
///
/// Only an engine allocates.
pub fn user<'u, R: RegExp>(
    alloc: Global,
    users: &UrlPattern<R>,
    url: &'u Url,
) -> Result<Option<&'u str>, Error>
    ensures some { IfOk result (λ found. IfSome found (λ id.
        NamesUser R.answer (pattern_view users.now) url.now (Some (chars id.now)))) }
    ensures none { IfOk result (λ found.
        IfNone found (NamesNone R.answer (pattern_view users.now) url.now)) }
    ensures memory { OnlyOutOfMemory result }
    ensures asked { IfErr result (λ _.
        CallsAnEngine R.answer (pattern_view users.now) (texts_of_url url.now)) }
{
    // docs: user
    let Some(found) = users.captures(alloc, url)? else {
        return Ok(None);
    };
    Ok(found.get(ComponentName::Pathname, ID))
    // docs: end
}
