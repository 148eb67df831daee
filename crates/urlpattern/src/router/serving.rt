//! Which route of a router serves a request.
ghost use Rattle.std.specs.Prelude.{◌≡◌, ◌↔◌, IfErr, IfOk, IsTrue, MatchOption};
ghost use Rattle.std.specs.Str.{chars};
ghost use Rattle.urlpattern.specs.PatternKeys.{address_of};
ghost use Rattle.urlpattern.specs.Routes.{CallsEngineAt, CallsEngineBeforeRoute, CallsEngineOfHead, CallsEngineOfServing, HasMethodAt, IsCandidate, IsHead, IsRouteFound, IsServed, IsServedAsHead, NoneServesAt, Serves, Takes};
ghost use Rattle.urlpattern_index.specs.Keys.{hashes_of, hashes_view};
ghost use Rattle.urlpattern_matches.specs.GroupTexts.{borrowed_texts};

use super::UrlPatternRouter;
use std::alloc::Global;
use urlpattern_components::Eight;
use urlpattern_index::AddressHashes;
use urlpattern_matcher::regexp::RegExp;
use urlpattern_matches::UrlPatternCaptures;
use urlpattern_pattern::match_of_texts;
use urlpattern_syntax::error::OutOfMemory;

impl<T, R: RegExp> UrlPatternRouter<T, R> {
    /// Returns the route that serves a request with this method and eight texts: its index, its
    /// value, and the match. `hashes` are those of the texts, and no route before the index `first`
    /// matches them.
    pub(super) fn first_route<'m, 'u>(
        &'m self,
        alloc: Global,
        method: &str,
        texts: &Eight<&'u str>,
        hashes: &AddressHashes,
        first: usize,
    ) -> Result<Option<(usize, &'m T, UrlPatternCaptures<'m, 'u>)>, OutOfMemory>
        requires hashes { hashes_view hashes.now
            ≡ hashes_of (address_of (borrowed_texts texts.now)) }
        requires first { IsCandidate R.answer self.now.routes (borrowed_texts texts.now) first }
        ensures served { IfOk result
            (IsServed R.answer self.now (chars method.now) (borrowed_texts texts.now)) }
        ensures asked { IfErr result (λ _.
            CallsEngineOfServing R.answer self.now (chars method.now)
            (borrowed_texts texts.now)) }
    {
        if self.is_head(method) {
            return self.first_for_head(alloc, texts, hashes, first);
        }
        self.first_that_takes(alloc, method, texts, hashes, first)
    }

    /// Returns the first route that takes `HEAD`, if it has this method itself, else the first that
    /// takes `GET`: its index, its value, and the match. `hashes` are those of the texts, and no
    /// route before the index `first` matches them.
    fn first_for_head<'m, 'u>(
        &'m self,
        alloc: Global,
        texts: &Eight<&'u str>,
        hashes: &AddressHashes,
        first: usize,
    ) -> Result<Option<(usize, &'m T, UrlPatternCaptures<'m, 'u>)>, OutOfMemory>
        requires hashes { hashes_view hashes.now
            ≡ hashes_of (address_of (borrowed_texts texts.now)) }
        requires first { IsCandidate R.answer self.now.routes (borrowed_texts texts.now) first }
        ensures served { IfOk result
            (IsServedAsHead R.answer self.now.routes (borrowed_texts texts.now)) }
        ensures asked { IfErr result (λ _.
            CallsEngineOfHead R.answer self.now.routes (borrowed_texts texts.now)) }
    {
        let own = self.first_that_takes(alloc, "HEAD", texts, hashes, first)?;
        let Some((index, value, captures)) = own else {
            return self.first_that_takes(alloc, "GET", texts, hashes, first);
        };
        if self.has_method_at("HEAD", index) {
            return Ok(Some((index, value, captures)));
        }
        drop(captures);
        self.first_that_takes(alloc, "GET", texts, hashes, first)
    }

    /// Whether the route at an index has this method itself.
    fn has_method_at(&self, method: &str, index: usize) -> bool
        ensures { IsTrue result ↔ HasMethodAt self.now.routes (chars method.now) index }
    {
        match self.routes.get(index) {
            Some((_, route)) => route.has_method(method),
            None => false,
        }
    }

    /// Whether the method is `HEAD`, and is served by routes for `GET`.
    pub(super) fn is_head(&self, method: &str) -> bool
        ensures { IsTrue result ↔ IsHead self.now (chars method.now) }
    {
        if !self.head_as_get {
            return false;
        }
        method == "HEAD"
    }

    /// Returns the first route that takes this method and whose pattern matches eight texts: its
    /// index, its value, and the match. `hashes` are those of the texts, and no route before the
    /// index `first` matches them.
    fn first_that_takes<'m, 'u>(
        &'m self,
        alloc: Global,
        method: &str,
        texts: &Eight<&'u str>,
        hashes: &AddressHashes,
        first: usize,
    ) -> Result<Option<(usize, &'m T, UrlPatternCaptures<'m, 'u>)>, OutOfMemory>
        requires hashes { hashes_view hashes.now
            ≡ hashes_of (address_of (borrowed_texts texts.now)) }
        requires first { IsCandidate R.answer self.now.routes (borrowed_texts texts.now) first }
        ensures found { IfOk result (IsRouteFound R.answer self.now.routes
            (Takes (chars method.now)) (borrowed_texts texts.now)) }
        ensures asked { IfErr result (λ _.
            CallsEngineBeforeRoute R.answer self.now.routes (Takes (chars method.now))
            (borrowed_texts texts.now)) }
    {
        let len = self.routes.len();
        let mut found = Some(first);
        while let Some(index) = found {
            if let Some((value, captures)) = self.served_at(alloc, method, texts, index)? {
                return Ok(Some((index, value, captures)));
            }
            let next = index + 1;
            if next >= len {
                return Ok(None);
            }
            found = self.routes.next_candidate(hashes, next);
        }
        Ok(None)
    }

    /// Returns the value of the route at an index, and the match, if the route takes this method
    /// and its pattern matches eight texts.
    fn served_at<'m, 'u>(
        &'m self,
        alloc: Global,
        method: &str,
        texts: &Eight<&'u str>,
        index: usize,
    ) -> Result<Option<(&'m T, UrlPatternCaptures<'m, 'u>)>, OutOfMemory>
        ensures served { IfOk result (λ found. MatchOption found
            (NoneServesAt R.answer self.now.routes (Takes (chars method.now))
            (borrowed_texts texts.now) index)
            (λ first. Serves R.answer self.now.routes (Takes (chars method.now))
            (borrowed_texts texts.now) (index, first.0, first.1))) }
        ensures asked { IfErr result (λ _.
            CallsEngineAt R.answer self.now.routes (Takes (chars method.now))
            (borrowed_texts texts.now) index) }
    {
        let Some((pattern, route)) = self.routes.get(index) else {
            return Ok(None);
        };
        if !route.takes(method) {
            return Ok(None);
        }
        match match_of_texts(alloc, pattern, texts)? {
            Some(captures) => Ok(Some((&route.value, captures))),
            None => Ok(None),
        }
    }
}
