//! The methods of the routes that match a request.

use super::route::Route;
use crate::map::UrlPatternMap;
use std::alloc::Global;
use urlpattern_components::Eight;
use urlpattern_matcher::regexp::RegExp;
use urlpattern_syntax::Error;
use urlpattern_syntax::error::OutOfMemory;

/// The methods of the routes that match a request, each once, in the order of the routes.
///
/// Returned by a router that has no route with the method of the request. Only an engine allocates.
/// If it runs out of memory, the last item is that error.
#[derive(Drop)]
pub struct AllowedMethods<'m, 'u, T, R: RegExp> {
    routes: &'m UrlPatternMap<Route<T>, R>,
    alloc: Global,
    texts: Eight<&'u str>,
    /// The index from which on the next call tries routes.
    from: usize,
}

impl<'m, 'u, T, R: RegExp> AllowedMethods<'m, 'u, T, R> {
    ghost use Rattle.std.specs.Prelude.{◌≡◌, ◌↔◌, ◌<◌, ◌≤◌, length, IfErr, IfOk, IsTrue, MatchOption};
    ghost use Rattle.std.specs.Str.{chars};
    ghost use Rattle.urlpattern.specs.Routes.{allowed_left, CallsEngineOfRoutes, HasMethod, HasMethodBefore, HasNoNewMethod, IsNextMethod, NoneAddsMethod};
    ghost use Rattle.urlpattern_matches.specs.GroupTexts.{borrowed_texts};

    /// Returns an iterator over the methods of the routes that match eight texts.
    pub(super) fn new(
        routes: &'m UrlPatternMap<Route<T>, R>,
        alloc: Global,
        texts: Eight<&'u str>,
    ) -> Self
        ensures { allowed_left result
            ≡ record { routes = routes.now; texts = borrowed_texts texts.entry; from = 0 } }
    {
        Self {
            routes,
            alloc,
            texts,
            from: 0,
        }
    }

    /// Whether a route before `end` that matches has this method.
    fn is_listed(&self, method: &str, end: usize) -> Result<bool, OutOfMemory>
        requires { end ≤ length self.now.routes.now }
        ensures listed { IfOk result (λ is.
            IsTrue is ↔ HasMethodBefore R.answer (allowed_left self.now) (chars method.now) end) }
        ensures asked { IfErr result (λ _. CallsEngineOfRoutes R.answer (allowed_left self.now)) }
    {
        let mut from = 0;
        while from < end {
            let Some((index, route, captures)) = self
                .routes
                .first_from(self.alloc, &self.texts, from)?
            else {
                return Ok(false);
            };
            drop(captures);
            if index >= end {
                return Ok(false);
            }
            if route.has_method(method) {
                return Ok(true);
            }
            from = index + 1;
        }
        Ok(false)
    }

    /// Returns the method of a route, unless a route before `end` that matches has it. `None`: the
    /// route has no method, or one such a route has.
    fn new_method(&self, route: &'m Route<T>, end: usize) -> Result<Option<&'m str>, OutOfMemory>
        requires { end ≤ length self.now.routes.now }
        ensures new { IfOk result (λ found. MatchOption found
            (HasNoNewMethod R.answer (allowed_left self.now) end route.now)
            (λ method. HasMethod (chars method.now) route.now
            × ¬ HasMethodBefore R.answer (allowed_left self.now) (chars method.now) end)) }
        ensures asked { IfErr result (λ _. CallsEngineOfRoutes R.answer (allowed_left self.now)) }
    {
        let Some(method) = &route.method else {
            return Ok(None);
        };
        if self.is_listed(method, end)? {
            return Ok(None);
        }
        Ok(Some(method))
    }

    /// Returns the next method, and the index of its route. `None`: no method is left.
    fn next_method(&self) -> Result<Option<(usize, &'m str)>, OutOfMemory>
        ensures next { IfOk result (λ found. MatchOption found
            (NoneAddsMethod R.answer (allowed_left self.now) (length self.now.routes.now))
            (λ next. IsNextMethod R.answer (allowed_left self.now) next.0 (chars next.1.now))) }
        ensures asked { IfErr result (λ _. CallsEngineOfRoutes R.answer (allowed_left self.now)) }
        ensures left { IfErr result (λ _. self.now.from < length self.now.routes.now) }
    {
        let len = self.routes.len();
        let mut from = self.from;
        while from < len {
            let Some((index, route, captures)) = self
                .routes
                .first_from(self.alloc, &self.texts, from)?
            else {
                return Ok(None);
            };
            drop(captures);
            if let Some(method) = self.new_method(route, index)? {
                return Ok(Some((index, method)));
            }
            from = index + 1;
        }
        Ok(None)
    }
}

impl<'m, 'u, T, R: RegExp> Iterator for AllowedMethods<'m, 'u, T, R> {
    ghost use Rattle.std.specs.Iterator.{at_most, UpTo};
    ghost use Rattle.std.specs.Iterator.SizeHint.{IsWithinCount};
    ghost use Rattle.std.specs.Prelude.{◌≡◌, ◌-◌, IfSome, length};
    ghost use Rattle.urlpattern.specs.Routes.{allowed_left, YieldsMethod};

    type Item = Result<&'m str, Error>;

    ghost next_gives = { λ old found new.
        YieldsMethod R.answer (allowed_left old) found (allowed_left new) };

    ghost remaining = { λ methods. at_most (length methods.routes.now - methods.from) };

    fn next(&mut self) -> Option<Result<&'m str, Error>> {
        let len = self.routes.len();
        match self.next_method() {
            Ok(Some((index, method))) => {
                self.from = index + 1;
                Some(Ok(method))
            }
            Ok(None) => None,
            Err(error) => {
                self.from = len;
                Some(Err(Error::from(error)))
            }
        }
    }

    fn size_hint(&self) -> (usize, Option<usize>)
        ensures lower { IsWithinCount result.0
            (at_most (length self.now.routes.now - self.now.from)) }
        ensures upper { IfSome result.1
            (UpTo (at_most (length self.now.routes.now - self.now.from))) }
        ensures least { result.0 ≡ 0 }
    {
        (0, None)
    }
}
