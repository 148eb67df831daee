//! Routers, which find the first route that serves the method and the path of a request.
//!
//! The routes are a map, whose index finds those that can match.
ghost use Rattle.http_header.specs.Token.{IsToken};
ghost use Rattle.std.specs.Prelude.{◌≡◌, [], true, IfErr, IfOk, None, OnErr, OnOk, Some};
ghost use Rattle.std.specs.Str.{chars};
ghost use Rattle.urlpattern.specs.PatternKeys.{address_of};
ghost use Rattle.urlpattern.specs.Routes.{AppendsRoute, CallsEngineOfRequest, IsCandidate, IsNewName, IsRouteError, IsRoutePathError, IsRouted, IsRoutedPath};
ghost use Rattle.urlpattern_index.specs.Keys.{hashes_of, hashes_view};
ghost use Rattle.urlpattern_init.specs.Inheritance.{texts_of_url};
ghost use Rattle.urlpattern_matches.specs.GroupTexts.{borrowed_texts};
ghost use Rattle.urlpattern_syntax.specs.Errors.{OnlyOutOfMemory};
ghost use Rattle.urlpattern_syntax.specs.Text.{option_text};

mod allowed_methods;
mod check;
mod contending;
mod copy;
mod named;
mod quick;
mod reach;
mod route;
mod route_conflicts;
mod route_contentions;
mod route_error;
mod route_reaches;
mod routed;
mod serving;

use crate::map::UrlPatternMap;
use crate::path::{is_path, is_plain_path};
use crate::path_error::PathError;
pub use allowed_methods::AllowedMethods;
pub use check::unreached_routes_serve_nothing;
use http_header::is_token;
pub use reach::covered_routes_serve_nothing;
pub use route::Route;
pub use route_conflicts::{RouteConflicts, Unreached, UnreachedRoute};
pub use route_contentions::RouteContentions;
pub use route_error::RouteError;
pub use route_reaches::RouteReaches;
pub use routed::Routed;
use std::alloc::Global;
use url::Url;
use urlpattern_components::Eight;
use urlpattern_index::{Address, AddressHashes};
use urlpattern_matcher::regexp::RegExp;
use urlpattern_matches::{pathname_texts, url_texts};
use urlpattern_pattern::UrlPattern;
use urlpattern_syntax::Error;
use urlpattern_syntax::error::OutOfMemory;

/// Routes in order: each has a pattern, a value, and the method of the requests that it serves. A
/// route may have a name.
#[derive(Debug, Drop)]
pub struct UrlPatternRouter<T, R: RegExp = regex::Regex> {
    /// The routes, in order.
    pub routes: UrlPatternMap<Route<T>, R>,
    /// Whether a request with the method `HEAD` is served as one with `GET`, unless the first route
    /// that takes `HEAD` has this method itself. True unless it is changed.
    pub head_as_get: bool,
}

impl<T, R: RegExp> UrlPatternRouter<T, R> {
    /// Returns a router without routes. Does not allocate.
    pub fn new(alloc: Global) -> Self
        ensures routes { result.routes ≡ [] }
        ensures head { result.head_as_get ≡ true }
    {
        Self {
            routes: UrlPatternMap::new(alloc),
            head_as_get: true,
        }
    }

    /// Returns the first route that serves this method and whose pattern matches the path, all
    /// other components being empty. Case counts in the method. The path is not made canonical.
    ///
    /// The error is `NotAPath` unless `is_path`, else `OutOfMemory`. Only an engine allocates, or
    /// reading captures in place of one.
    pub fn at<'m, 'u>(
        &'m self,
        alloc: Global,
        method: &str,
        path: &'u str,
    ) -> Result<Routed<'m, 'u, T, R>, PathError>
        ensures routed { IfOk result
            (IsRoutedPath R.answer self.now (chars method.now) (chars path.now)) }
        ensures refused { IfErr result
            (IsRoutePathError R.answer self.now (chars method.now) (chars path.now)) }
    {
        let mut hashes = AddressHashes::new();
        if !is_plain_path(path, &mut hashes) {
            return self.at_any_path(alloc, method, path);
        }
        let Some(first) = self.routes.next_candidate(&hashes, 0) else {
            return Ok(Routed::NotFound);
        };
        self.at_plain_path(alloc, method, path, &hashes, first)
    }

    /// Returns what the router has for a request with this method and a text that may be a path, as
    /// `at` does. The variables that it needs are initialized only for such a text, since it is
    /// inlined.
    #[inline(always)]
    fn at_any_path<'m, 'u>(
        &'m self,
        alloc: Global,
        method: &str,
        path: &'u str,
    ) -> Result<Routed<'m, 'u, T, R>, PathError>
        ensures routed { IfOk result
            (IsRoutedPath R.answer self.now (chars method.now) (chars path.now)) }
        ensures refused { IfErr result
            (IsRoutePathError R.answer self.now (chars method.now) (chars path.now)) }
    {
        if !is_path(path) {
            return Err(PathError::NotAPath);
        }
        Ok(self.at_texts(alloc, method, pathname_texts(path))?)
    }

    /// Returns the first route that serves this method and whose pattern matches the URL. Case
    /// counts in the method.
    ///
    /// Only an engine allocates.
    pub fn at_url<'m, 'u>(
        &'m self,
        alloc: Global,
        method: &str,
        url: &'u Url,
    ) -> Result<Routed<'m, 'u, T, R>, Error>
        ensures routed { IfOk result
            (IsRouted R.answer self.now (chars method.now) (texts_of_url url.now)) }
        ensures memory { OnlyOutOfMemory result }
        ensures asked { IfErr result (λ _.
            CallsEngineOfRequest R.answer self.now (chars method.now) (texts_of_url url.now)) }
    {
        Ok(self.at_texts(alloc, method, url_texts(url))?)
    }

    /// Returns what the router has for a request with this method and eight texts.
    fn at_texts<'m, 'u>(
        &'m self,
        alloc: Global,
        method: &str,
        texts: Eight<&'u str>,
    ) -> Result<Routed<'m, 'u, T, R>, OutOfMemory>
        ensures routed { IfOk result
            (IsRouted R.answer self.now (chars method.now) (borrowed_texts texts.entry)) }
        ensures asked { IfErr result (λ _.
            CallsEngineOfRequest R.answer self.now (chars method.now)
            (borrowed_texts texts.entry)) }
    {
        let mut hashes = AddressHashes::new();
        hashes.fill(Address {
            protocol: texts.protocol,
            hostname: texts.hostname,
            pathname: texts.pathname,
        });
        match self.routes.next_candidate(&hashes, 0) {
            Some(first) => self.at_candidate(alloc, method, texts, &hashes, first),
            None => Ok(Routed::NotFound),
        }
    }

    /// Returns what the router has for a request with this method and eight texts. `hashes` are
    /// those of the texts, and no route before the index `first` matches them.
    ///
    /// The variables that this function needs are initialized only for a request that some route
    /// may match, since it is not inlined into `at_texts`.
    #[inline(never)]
    fn at_candidate<'m, 'u>(
        &'m self,
        alloc: Global,
        method: &str,
        texts: Eight<&'u str>,
        hashes: &AddressHashes,
        first: usize,
    ) -> Result<Routed<'m, 'u, T, R>, OutOfMemory>
        requires hashes { hashes_view hashes.now
            ≡ hashes_of (address_of (borrowed_texts texts)) }
        requires first { IsCandidate R.answer self.now.routes (borrowed_texts texts) first }
        ensures routed { IfOk result
            (IsRouted R.answer self.now (chars method.now) (borrowed_texts texts.entry)) }
        ensures asked { IfErr result (λ _.
            CallsEngineOfRequest R.answer self.now (chars method.now)
            (borrowed_texts texts.entry)) }
    {
        let found = self.first_route(alloc, method, &texts, hashes, first)?;
        if let Some((index, value, captures)) = found {
            return Ok(Routed::Found(index, value, captures));
        }
        match self.routes.first_from(alloc, &texts, 0)? {
            Some((_, _, captures)) => {
                drop(captures);
                Ok(Routed::MethodNotAllowed(AllowedMethods::new(&self.routes, alloc, texts)))
            }
            None => Ok(Routed::NotFound),
        }
    }
}

impl<T: Drop, R: RegExp> UrlPatternRouter<T, R> {
    /// Appends a route for this method, such as `GET`.
    ///
    /// The error is `NotAMethod` unless the method is a token of HTTP, else `OutOfMemory`. The
    /// pattern and the value are then dropped, and the router is unchanged.
    pub fn insert(
        &mut self,
        alloc: Global,
        method: &str,
        pattern: UrlPattern<R>,
        value: T,
    ) -> Result<(), RouteError>
        ensures appended { OnOk result
            (AppendsRoute self.old None (Some (chars method.now)) pattern value self.new) }
        ensures unchanged { OnErr result (self.new ≡ self.old) }
        ensures method { OnOk result (IsToken method.now) }
        ensures refused { IfErr result (IsRouteError self.old.routes None method.now) }
    {
        self.append(alloc, None, method, pattern, value)
    }

    /// Appends a route for this method, with a name, by which `find` and `link` find it.
    ///
    /// The error is `NameTaken` if a route has the name, `NotAMethod` unless the method is a token
    /// of HTTP, else `OutOfMemory`. The pattern and the value are then dropped, and the router is
    /// unchanged. Takes time in proportion to the number of routes.
    pub fn insert_named(
        &mut self,
        alloc: Global,
        name: &str,
        method: &str,
        pattern: UrlPattern<R>,
        value: T,
    ) -> Result<(), RouteError>
        ensures appended { OnOk result
            (AppendsRoute self.old (Some (chars name.now)) (Some (chars method.now)) pattern value
            self.new) }
        ensures unchanged { OnErr result (self.new ≡ self.old) }
        ensures method { OnOk result (IsToken method.now) }
        ensures name { OnOk result (IsNewName self.old.routes (Some (chars name.now))) }
        ensures refused { IfErr result
            (IsRouteError self.old.routes (Some (chars name.now)) method.now) }
    {
        if self.find(name).is_some() {
            return Err(RouteError::NameTaken);
        }
        self.append(alloc, Some(name), method, pattern, value)
    }

    /// Appends a route for this method, with the name if there is one.
    ///
    /// The error is `NotAMethod` unless the method is a token of HTTP, else `OutOfMemory`. The
    /// pattern and the value are then dropped, and the router is unchanged.
    fn append(
        &mut self,
        alloc: Global,
        name: Option<&str>,
        method: &str,
        pattern: UrlPattern<R>,
        value: T,
    ) -> Result<(), RouteError>
        ensures appended { OnOk result
            (AppendsRoute self.old (option_text name.entry) (Some (chars method.now)) pattern value
            self.new) }
        ensures unchanged { OnErr result (self.new ≡ self.old) }
        ensures method { OnOk result (IsToken method.now) }
        ensures refused { IfErr result (IsRouteError self.old.routes None method.now) }
    {
        if !is_token(method.as_bytes()) {
            return Err(RouteError::NotAMethod);
        }
        let Ok(route) = Route::new(alloc, name, method, value) else {
            return Err(RouteError::OutOfMemory);
        };
        let Ok(()) = self.routes.try_insert(pattern, route) else {
            return Err(RouteError::OutOfMemory);
        };
        Ok(())
    }

    /// Appends a route that serves every method.
    ///
    /// If memory runs out, the pattern and the value are dropped, and the router is unchanged.
    pub fn insert_any(&mut self, pattern: UrlPattern<R>, value: T) -> Result<(), Error>
        ensures appended { OnOk result (AppendsRoute self.old None None pattern value self.new) }
        ensures unchanged { OnErr result (self.new ≡ self.old) }
        ensures memory { OnlyOutOfMemory result }
    {
        let route = Route {
            name: None,
            method: None,
            value,
        };
        self.routes.try_insert(pattern, route)
    }
}
