//! Small programs that use the library, each with a contract in the library's words: a router, a
//! router for paths alone, a router with values, a permission check, a store of permissions, rules
//! for a cache, a pattern that is printed and read again, users, orders and pages of documentation
//! by their URLs, and the routes of a server.
#![tactic(auto)]

mod cache;
mod docs;
mod grants;
mod orders;
mod path;
mod permission;
mod printed;
mod router;
mod routes;
mod server;
mod users;

use docs::Docs;
use grants::Grants;
use orders::Orders;
use std::alloc::Global;
use std::io;
use std::io::Write;
use url::Url;
use urlpattern::component::generate_pattern_string;
use urlpattern::parser::{Options, parse_pattern_string};
use urlpattern::regexp::PatternRegexp;
use urlpattern::rules::PatternParts;
use urlpattern::{Error, NoLink, UrlPattern, UrlPatternList, UrlPatternMap, UrlPatternOptions};
use users::Users;

/// What is looked up by a text.
#[derive(Clone, Copy)]
enum Subject {
    /// For how many seconds the page of a URL is kept.
    Age,
    /// Whether a pattern is permitted.
    Grant,
    /// The language of the page of documentation with a URL.
    Language,
    /// The URL of the user with an id.
    Link,
    /// The order that a URL names.
    Order,
    /// The page that a URL shows, and for which user.
    Page,
    /// Why a URL may not be seen.
    Refusal,
    /// What a request with a method gets for a path.
    Response(&'static str),
    /// The link to the page of the user with an id.
    Route,
    /// The user that a URL names.
    User,
}

/// What is looked up, each with its text.
const LOOKUPS: [(Subject, &str); 20] = [
    (Subject::User, "https://example.com/users/123"),
    (Subject::User, "https://example.com/about"),
    (Subject::Page, "https://example.com/users/123"),
    (Subject::Page, "https://example.com/about"),
    (Subject::Refusal, "https://example.com/users/123"),
    (Subject::Refusal, "https://example.com/about"),
    (Subject::Age, "https://example.com/users/123"),
    (Subject::Grant, "https://cdn.example.com/:file"),
    (Subject::Grant, "https://example.com/*"),
    (Subject::Link, "a b"),
    (Subject::Link, "a/b"),
    (Subject::Order, "https://example.com/orders/17"),
    (Subject::Order, "https://example.com/orders/x"),
    (Subject::Language, "https://example.com/fr/docs"),
    (Subject::Language, "https://example.com/docs?q"),
    (Subject::Response("HEAD"), "/users/a%20b"),
    (Subject::Response("POST"), "/users/123"),
    (Subject::Response("GET"), "/files"),
    (Subject::Response("GET"), "/search?q=a"),
    (Subject::Route, "123"),
];

// docs: main
fn main(rt: HostRuntime) -> io::Result<()> {
    let mut out = rt.stdout();
    write_line(&mut out, path_line(rt.alloc(), "/users/123"))?;
    calls(rt.alloc(), &mut out)
}
// docs: end

/// Writes all lines but the first.
fn calls<W: Write>(alloc: Global, out: &mut W) -> io::Result<()> {
    for (subject, asked) in &LOOKUPS {
        write!(out, "{asked}: ")?;
        write_line(out, line(alloc, *subject, asked))?;
    }
    write_line(out, printed_line(alloc))
}

/// Writes a line, or the error.
// docs: write_line
fn write_line<W: Write>(out: &mut W, line: Result<String, Error>) -> io::Result<()> {
    match line {
        Ok(line) => writeln!(out, "{line}"),
        Err(error) => writeln!(out, "{error}"),
    }
}
// docs: end

/// Looks up a subject by a text, and returns it in words.
fn line(alloc: Global, subject: Subject, asked: &str) -> Result<String, Error> {
    match subject {
        Subject::Age => age_line(alloc, asked),
        Subject::Grant => grant_line(alloc, asked),
        Subject::Language => language_line(alloc, asked),
        Subject::Link => link_line(alloc, asked),
        Subject::Order => order_line(alloc, asked),
        Subject::Page => page_line(alloc, asked),
        Subject::Refusal => refusal_line(alloc, asked),
        Subject::Response(method) => server::response_line(alloc, method, asked),
        Subject::Route => server::link_line(alloc, asked),
        Subject::User => user_line(alloc, asked),
    }
}

/// The user that a path names.
fn path_line(alloc: Global, path: &str) -> Result<String, Error> {
    let users = server::pattern_of_path(alloc, "/users/:id")?;
    let id = path::user(alloc, &users, path);
    drop(users);
    text(alloc, id?.unwrap_or("no user"))
}

/// The user that a URL names.
fn user_line(alloc: Global, asked: &str) -> Result<String, Error> {
    let url = Url::parse(alloc, asked)?;
    let users = Users::new(alloc)?;
    let id = users.id(alloc, &url);
    // The id is a slice of the URL, which is still there.
    drop(users);
    text(alloc, id.unwrap_or("no user"))
}

/// The URL of a user.
fn link_line(alloc: Global, id: &str) -> Result<String, Error> {
    let users = Users::new(alloc)?;
    let url = users.url(alloc, id);
    drop(users);
    link_words(alloc, url)
}

/// A URL, or that there is none.
fn link_words(alloc: Global, url: Result<Url, NoLink>) -> Result<String, Error> {
    match url {
        Ok(url) => text(alloc, url.as_str()),
        Err(NoLink::OutOfMemory) => Err(Error::OutOfMemory),
        Err(_) => text(alloc, "no URL"),
    }
}

/// The order that a URL names.
fn order_line(alloc: Global, asked: &str) -> Result<String, Error> {
    let url = Url::parse(alloc, asked)?;
    let orders = Orders::new(alloc)?;
    let id = orders.id(alloc, &url);
    drop(orders);
    text(alloc, id?.unwrap_or("no order"))
}

/// The language of the page of documentation with a URL.
fn language_line(alloc: Global, asked: &str) -> Result<String, Error> {
    let url = Url::parse(alloc, asked)?;
    let docs = Docs::new(alloc)?;
    let language = docs.language(alloc, &url);
    drop(docs);
    match language? {
        Some(language) => text(alloc, language.unwrap_or("no language")),
        None => text(alloc, "no page"),
    }
}

/// The page that a URL shows, and for which user.
fn page_line(alloc: Global, asked: &str) -> Result<String, Error> {
    let url = Url::parse(alloc, asked)?;
    let mut pages = UrlPatternMap::new(alloc);
    pages.try_insert(pattern(alloc, "https://example.com/users/:id")?, "profile")?;
    let line = match routes::shown(alloc, &pages, &url) {
        Ok(Some((page, id))) => page_words(alloc, page, id.unwrap_or("no user")),
        Ok(None) => text(alloc, "no page"),
        Err(error) => Err(error),
    };
    drop(pages);
    line
}

/// A page, and a user.
fn page_words(alloc: Global, page: &str, id: &str) -> Result<String, Error> {
    Ok(format!(in alloc; "{page} of {id}")?)
}

/// Why a URL may not be seen.
fn refusal_line(alloc: Global, asked: &str) -> Result<String, Error> {
    let url = Url::parse(alloc, asked)?;
    let public = pattern(alloc, "https://example.com/:page(about|help)")?;
    let refusal = permission::refusal(alloc, &public, &url);
    drop(public);
    match refusal? {
        Some(component) => text(alloc, component.as_str()),
        None => text(alloc, "may be seen"),
    }
}

/// For how many seconds the page of a URL is kept.
fn age_line(alloc: Global, asked: &str) -> Result<String, Error> {
    let url = Url::parse(alloc, asked)?;
    let mut patterns = UrlPatternList::new(alloc);
    patterns.try_push(pattern(alloc, "https://example.com/users/*")?)?;
    let seconds = cache::max_age(alloc, &patterns, &[60], &url);
    drop(patterns);
    let seconds = seconds?;
    Ok(format!(in alloc; "{seconds:?}")?)
}

/// The parts of the pattern of a constructor string.
fn parts(alloc: Global, text: &str) -> Result<PatternParts, Error> {
    // docs: parts
    let options = UrlPatternOptions::default();
    match Pattern::from_constructor_string(alloc, text, None, options)?.into_parts() {
        Some(parts) => Ok(parts),
        None => unreachable!(),
    }
    // docs: end
}

/// Whether a pattern is permitted.
fn grant_line(alloc: Global, asked: &str) -> Result<String, Error> {
    let parts_asked = parts(alloc, asked)?;
    let mut grants = Grants::new(alloc);
    grants.grant(parts(alloc, "https://*.example.com/*")?)?;
    let permitted = grants.check(alloc, &parts_asked);
    drop(grants);
    drop(parts_asked);
    if permitted? {
        text(alloc, "permitted")
    } else {
        text(alloc, "not permitted")
    }
}

/// The pattern text of parts that were printed and read again.
fn printed_line(alloc: Global) -> Result<String, Error> {
    // docs: printed
    let options = Options::pathname(alloc)?;
    let copied = |text: &str| -> Result<String, Error> { Ok(String::from_str(alloc, text)?) };
    let parts = parse_pattern_string(alloc, "/users/:id([^/]+?)/edit", &options, copied)?;
    let again = printed::printed_and_read(alloc, &parts, &options)?;
    generate_pattern_string(alloc, &again, &options)
    // docs: end
}

/// A copy of a text.
// docs: text
fn text(alloc: Global, words: &str) -> Result<String, Error> {
    Ok(String::from_str(alloc, words)?)
}
// docs: end

// docs: pattern
/// A pattern over the library's own engine. The engine returns what `regex::Regex`, the default
/// engine of `UrlPattern`, returns, and is mostly faster.
// docs: own_engine
type Pattern = UrlPattern<PatternRegexp>;

/// Compiles a constructor string.
fn pattern(alloc: Global, text: &str) -> Result<Pattern, Error> {
    Pattern::from_constructor_string(alloc, text, None, UrlPatternOptions::default())
}
// docs: end
// docs: end
