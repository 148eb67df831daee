//! A router with values: the page that a URL shows, and the user.

ghost use Rattle.example.specs.Routes.{ShowsNothing, ShowsValue};
ghost use Rattle.std.specs.Prelude.{IfNone, IfOk, IfSome};
ghost use Rattle.urlpattern.specs.Errors.{OnlyOutOfMemory};
ghost use Rattle.urlpattern.specs.Text.{option_text};

use std::alloc::Global;
use url::Url;
use urlpattern::regexp::RegExp;
use urlpattern::{ComponentName, Error, UrlPatternMap};

/// The name of the group for the user.
const ID: &str = "id";

/// The value of the first route that matches a URL, borrowed from the routes, and the capture of
/// the group `id` of its path, borrowed from the URL, if the group took part. `None`: no route
/// matches.
pub fn shown<'m, 'u, T, R: RegExp>(
    alloc: Global,
    routes: &'m UrlPatternMap<T, R>,
    url: &'u Url,
) -> Result<Option<(&'m T, Option<&'u str>)>, Error>
    ensures some { IfOk result (λ found. IfSome found (λ shown.
        ShowsValue R.answer routes.now url.now shown.0.now (option_text shown.1))) }
    ensures none { IfOk result (λ found. IfNone found (ShowsNothing R.answer routes.now url.now)) }
    ensures memory { OnlyOutOfMemory result }
{
    // docs: routes
    let Some((_, value, found)) = routes.first_captures(alloc, url)? else {
        return Ok(None);
    };
    Ok(Some((value, found.get(ComponentName::Pathname, ID))))
    // docs: end
}
