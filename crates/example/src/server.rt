//! A server's routes: what a request gets, with the page, or the methods that are allowed, and the
//! link to a page.

ghost use Rattle.example.specs.Server.{IsAllow, IsPatternOfPath, IsResponse, IsRouteOf, IsShown, captured_id, user_groups};
ghost use Rattle.std.specs.List.{AllZip};
ghost use Rattle.std.specs.Prelude.{IfOk, codes};
ghost use Rattle.std.specs.Str.{chars};
ghost use Rattle.urlpattern.specs.Errors.{OnlyOutOfMemory};
ghost use Rattle.urlpattern.specs.PatternRegexps.{pattern_result};
ghost use Rattle.urlpattern.specs.Routes.{IsRouteLink};

use crate::{link_words, text};
use url::Url;
// docs: server
use std::alloc::Global;
use std::borrow::CowStr;
use urlpattern::regexp::PatternRegexp;
use urlpattern::{
    AllowedMethods, ComponentName, DecodeError, Error, NoLink, PathError, Routed, UrlPattern,
    UrlPatternCaptures, UrlPatternInit, UrlPatternOptions, UrlPatternRouter,
};

/// A router whose values are the names of pages.
type Pages = UrlPatternRouter<&'static str, PatternRegexp>;

/// The routes, in order: a method, a path, and a page, which is also the route's name.
const ROUTES: [(&str, &str, &str); 10] = [
    ("GET", "/", "home"),
    ("GET", "/users", "users"),
    ("POST", "/users", "added"),
    ("GET", "/users/:id", "profile"),
    ("PUT", "/users/:id", "changed"),
    ("DELETE", "/users/:id", "removed"),
    ("GET", "/users/:id/files/*", "file"),
    ("GET", "/search", "search"),
    ("POST", "/search", "found"),
    ("GET", "/static/*", "asset"),
];

/// Returns a router with a route for each row, in order.
fn pages(alloc: Global, rows: &[(&'static str, &'static str, &'static str)]) -> Result<Pages, Error>
    ensures { IfOk result (λ pages. AllZip IsRouteOf rows.now pages.routes) }
{
    let mut pages = UrlPatternRouter::new(alloc);
    for row in rows {
        let (method, path, page) = *row;
        let pattern = pattern_of_path(alloc, path)?;
        // An error is that memory ran out, if the methods are tokens and the names differ.
        let Ok(()) = pages.insert_named(alloc, page, method, pattern, page) else {
            return Err(Error::OutOfMemory);
        };
    }
    Ok(pages)
}
// docs: end

/// Compiles the pattern of a path, which leaves all other components open.
pub fn pattern_of_path(alloc: Global, path: &str) -> Result<UrlPattern<PatternRegexp>, Error>
    ensures { IfOk result (IsPatternOfPath (chars path.now)) }
{
    let text = String::from_str(alloc, path)?;
    let mut init = UrlPatternInit::default();
    init.pathname = Some(text);
    let options = UrlPatternOptions::default();
    UrlPattern::parse(alloc, init, options)
}

/// What a request gets.
// docs: routed
#[derive(Drop)]
enum Response<'u> {
    /// The status 200: a page, and the id in the path, if there is one.
    Page(&'static str, Option<CowStr<'u>>),
    /// The status 405: the methods for the header `Allow`.
    NotAllowed(String),
    /// The status 404.
    NotFound,
    /// The status 400: what was requested is no path, or its id is not UTF-8.
    BadRequest,
}

/// Returns what a request gets.
fn respond<'u>(
    alloc: Global,
    pages: &Pages,
    method: &str,
    path: &'u str,
) -> Result<Response<'u>, Error>
    ensures response { IfOk result (IsResponse pages.now (chars method.now) (chars path.now)) }
    ensures memory { OnlyOutOfMemory result }
{
    match pages.at(alloc, method, path) {
        Ok(Routed::Found(_, page, found)) => shown(alloc, *page, &found),
        Ok(Routed::MethodNotAllowed(methods)) => Ok(Response::NotAllowed(allow(alloc, methods)?)),
        Ok(Routed::NotFound) => Ok(Response::NotFound),
        Err(PathError::NotAPath) => Ok(Response::BadRequest),
        Err(PathError::OutOfMemory) => Err(Error::OutOfMemory),
    }
}
// docs: end

/// Returns what a request gets that a route with this page serves.
fn shown<'u>(
    alloc: Global,
    page: &'static str,
    found: &UrlPatternCaptures<'_, 'u>,
) -> Result<Response<'u>, Error>
    ensures shown { IfOk result (IsShown page.entry (captured_id found.now)) }
    ensures memory { OnlyOutOfMemory result }
{
    // docs: decoded
    match found.decoded(alloc, ComponentName::Pathname, "id") {
        Ok(id) => Ok(Response::Page(page, id)),
        Err(DecodeError::Utf8(_)) => Ok(Response::BadRequest),
        Err(DecodeError::OutOfMemory) => Err(Error::OutOfMemory),
    }
    // docs: end
}

/// Returns the methods that are allowed, as the header `Allow` has them.
fn allow(
    alloc: Global,
    methods: AllowedMethods<'_, '_, &'static str, PatternRegexp>,
) -> Result<String, Error>
    ensures allow { IfOk result (IsAllow methods.entry) }
    ensures memory { OnlyOutOfMemory result }
{
    let mut names = Vec::new(alloc);
    for method in methods {
        names.push(method?)?;
    }
    Ok(names.join(alloc, ", ")?)
}

/// Returns the URL of a user's page, of which `decoded` returns exactly the id. `None`: no route
/// has the name.
fn user_url(alloc: Global, pages: &Pages, id: &str) -> Result<Option<Url>, NoLink>
    ensures { IfOk result (IsRouteLink pattern_result pages.now.routes (chars (codes "profile"))
        (user_groups (chars id.now))) }
{
    // docs: named_link
    let groups = [
        (ComponentName::Protocol, "0", "https"),
        (ComponentName::Hostname, "0", "example.com"),
        (ComponentName::Pathname, "id", id),
    ];
    pages.link(alloc, "profile", &groups)
    // docs: end
}

/// What a request gets, in words.
pub fn response_line(alloc: Global, method: &str, path: &str) -> Result<String, Error> {
    let pages = pages(alloc, &ROUTES)?;
    let response = respond(alloc, &pages, method, path);
    drop(pages);
    in_words(alloc, response?)
}

/// A response, in words.
fn in_words(alloc: Global, response: Response<'_>) -> Result<String, Error> {
    match response {
        Response::Page(page, Some(id)) => Ok(format!(in alloc; "{page} of {id}")?),
        Response::Page(page, None) => text(alloc, page),
        Response::NotAllowed(allow) => Ok(allow),
        Response::NotFound => text(alloc, "not found"),
        Response::BadRequest => text(alloc, "bad request"),
    }
}

/// The link to the page of a user, in words.
pub fn link_line(alloc: Global, id: &str) -> Result<String, Error> {
    let pages = pages(alloc, &ROUTES)?;
    let url = user_url(alloc, &pages, id);
    drop(pages);
    match url {
        Ok(Some(url)) => link_words(alloc, Ok(url)),
        Ok(None) => text(alloc, "no route"),
        Err(error) => link_words(alloc, Err(error)),
    }
}
