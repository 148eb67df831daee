//! A server that sees paths and no URLs.

ghost use Rattle.example.specs.NamedUsers.{PathNamesNone, PathNamesUser};
ghost use Rattle.std.specs.Prelude.{IfNone, IfOk, IfSome};
ghost use Rattle.std.specs.Str.{chars};
ghost use Rattle.urlpattern.specs.Errors.{OnlyOutOfMemory};
ghost use Rattle.urlpattern.specs.Patterns.{pattern_view};

use std::alloc::Global;
use urlpattern::regexp::RegExp;
use urlpattern::{ComponentName, Error, UrlPattern, is_line, pathname_texts};

/// The name of the group for the user.
const ID: &str = "id";

/// The user that a path names, borrowed from the path: the capture of the group `id`. `None`: the
/// path has a line feed, the pattern of users does not match it, all other components being empty,
/// or the group takes no part in the match.
pub fn user<'u, R: RegExp>(
    alloc: Global,
    users: &UrlPattern<R>,
    path: &'u str,
) -> Result<Option<&'u str>, Error>
    ensures some { IfOk result (λ found. IfSome found (λ id.
        PathNamesUser R.answer (pattern_view users.now) (chars path.now) (chars id.now))) }
    ensures none { IfOk result (λ found.
        IfNone found (PathNamesNone R.answer (pattern_view users.now) (chars path.now))) }
    ensures memory { OnlyOutOfMemory result }
{
    // docs: path
    // docs: line
    if !is_line(path) {
        return Ok(None);
    }
    // docs: end
    let Some(found) = users.captures_of_texts(alloc, &pathname_texts(path))? else {
        return Ok(None);
    };
    Ok(found.get(ComponentName::Pathname, ID))
    // docs: end
}
