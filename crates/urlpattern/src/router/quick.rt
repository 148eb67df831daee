//! What a router has for a path, by patterns of a path alone.
ghost use Rattle.std.specs.Prelude.{◌≡◌, ◌&&◌, IfErr, IfOk};
ghost use Rattle.std.specs.Str.{chars};
ghost use Rattle.urlpattern.specs.PatternKeys.{address_of};
ghost use Rattle.urlpattern.specs.Paths.{IsPath};
ghost use Rattle.urlpattern.specs.QuickRoutes.{IsPassed, IsQuick, IsQuickAt, quick_end};
ghost use Rattle.urlpattern.specs.Routes.{IsCandidate, IsRoutePathError, IsRoutedPath, Takes};
ghost use Rattle.urlpattern_index.specs.Keys.{hashes_of, hashes_view};
ghost use Rattle.urlpattern_matches.specs.MatchInput.{pathname_alone};

use super::{Routed, UrlPatternRouter};
use crate::path_error::PathError;
use std::alloc::Global;
use urlpattern_index::AddressHashes;
use urlpattern_matcher::regexp::RegExp;
use urlpattern_matches::{GroupCaptures, pathname_texts};
use urlpattern_paths::{PathReading, match_with_path, read_by_template};
use urlpattern_pattern::UrlPattern;

/// What patterns of a path alone say of a request for a path.
#[derive(Drop)]
pub(super) enum Quick<'m, 'u, T, R: RegExp> {
    /// The route that serves the request: its index, its value, its pattern, and what the groups of
    /// the path capture.
    Served(usize, &'m T, &'m UrlPattern<R>, GroupCaptures<'u>),
    /// No route matches.
    NotFound,
    /// Other routes have to be asked.
    Unknown,
}

impl<T, R: RegExp> UrlPatternRouter<T, R> {
    /// Returns what the router has for a request with this method and a path. `hashes` are those of
    /// the path, and no route before the index `first` matches it.
    ///
    /// Inlined into `at`, which then does not copy the match.
    #[inline(always)]
    pub(super) fn at_plain_path<'m, 'u>(
        &'m self,
        alloc: Global,
        method: &str,
        path: &'u str,
        hashes: &AddressHashes,
        first: usize,
    ) -> Result<Routed<'m, 'u, T, R>, PathError>
        requires path { IsPath (chars path.now) }
        requires hashes { hashes_view hashes.now
            ≡ hashes_of (address_of (pathname_alone (chars path.now))) }
        requires first { IsCandidate R.answer self.now.routes (pathname_alone (chars path.now))
            first }
        ensures routed { IfOk result
            (IsRoutedPath R.answer self.now (chars method.now) (chars path.now)) }
        ensures refused { IfErr result
            (IsRoutePathError R.answer self.now (chars method.now) (chars path.now)) }
    {
        match self.first_quickly(alloc, method, path, hashes, first) {
            Quick::Served(index, value, pattern, groups) => {
                let texts = pathname_texts(path);
                let found = match_with_path(pattern, &texts, groups);
                return Ok(Routed::Found(index, value, found));
            }
            Quick::NotFound => return Ok(Routed::NotFound),
            Quick::Unknown => {}
        }
        self.at_path_slowly(alloc, method, path, hashes, first)
    }

    /// Returns what the router has for a request with this method and a path, as `at_plain_path`
    /// does, without reading the path by parts. The variables that it needs are initialized only
    /// for such a request, since it is inlined.
    #[inline(always)]
    fn at_path_slowly<'m, 'u>(
        &'m self,
        alloc: Global,
        method: &str,
        path: &'u str,
        hashes: &AddressHashes,
        first: usize,
    ) -> Result<Routed<'m, 'u, T, R>, PathError>
        requires path { IsPath (chars path.now) }
        requires hashes { hashes_view hashes.now
            ≡ hashes_of (address_of (pathname_alone (chars path.now))) }
        requires first { IsCandidate R.answer self.now.routes (pathname_alone (chars path.now))
            first }
        ensures routed { IfOk result
            (IsRoutedPath R.answer self.now (chars method.now) (chars path.now)) }
        ensures refused { IfErr result
            (IsRoutePathError R.answer self.now (chars method.now) (chars path.now)) }
    {
        Ok(self.at_candidate(alloc, method, pathname_texts(path), hashes, first)?)
    }

    /// Returns the first route that takes this method and whose pattern matches the path, all other
    /// components being empty, if it and all routes before it that may match are patterns of a path
    /// alone. `hashes` are those of the path, and no route before the index `first` matches it.
    fn first_quickly<'m, 'u>(
        &'m self,
        alloc: Global,
        method: &str,
        path: &'u str,
        hashes: &AddressHashes,
        first: usize,
    ) -> Quick<'m, 'u, T, R>
        requires path { IsPath (chars path.now) }
        requires hashes { hashes_view hashes.now
            ≡ hashes_of (address_of (pathname_alone (chars path.now))) }
        requires first { IsCandidate R.answer self.now.routes (pathname_alone (chars path.now))
            first }
        ensures { IsQuick R.answer self.now (chars method.now) (chars path.now) result }
    {
        if self.is_head(method) {
            return Quick::Unknown;
        }
        let len = self.routes.len();
        let mut is_missing = true;
        let mut found = Some(first);
        while let Some(index) = found {
            match self.quick_at(alloc, method, path, index) {
                Ok(is_unmatched) => is_missing = both(is_missing, is_unmatched),
                Err(quick) => return quick,
            }
            let next = index + 1;
            if next >= len {
                return end_of(is_missing);
            }
            found = self.routes.next_candidate(hashes, next);
        }
        end_of(is_missing)
    }

    /// Tries the route at an index. `Ok`: it does not serve the request, and if true, it does not
    /// match the path either. `Err`: it serves the request, or it is not known whether it does.
    #[inline(always)]
    fn quick_at<'m, 'u>(
        &'m self,
        alloc: Global,
        method: &str,
        path: &'u str,
        index: usize,
    ) -> Result<bool, Quick<'m, 'u, T, R>>
        requires path { IsPath (chars path.now) }
        ensures passed { IfOk result (λ is_unmatched.
            IsPassed R.answer self.now.routes (Takes (chars method.now))
            (pathname_alone (chars path.now)) index is_unmatched) }
        ensures served { IfErr result (IsQuickAt R.answer self.now.routes
            (Takes (chars method.now)) (chars path.now) index) }
    {
        let Some((pattern, route)) = self.routes.get(index) else {
            return Err(Quick::Unknown);
        };
        if !route.takes(method) {
            return Ok(false);
        }
        let Some(template) = self.routes.template(index) else {
            return Err(Quick::Unknown);
        };
        match read_by_template(alloc, template, path) {
            PathReading::Matched(groups) => {
                Err(Quick::Served(index, &route.value, pattern, groups))
            }
            PathReading::Unmatched => Ok(true),
            PathReading::Unknown => Err(Quick::Unknown),
        }
    }
}

/// What is known once no route is left: that none matches, if `is_missing`.
#[inline(always)]
fn end_of<'m, 'u, T, R: RegExp>(is_missing: bool) -> Quick<'m, 'u, T, R>
    ensures { result ≡ quick_end is_missing }
{
    if is_missing {
        Quick::NotFound
    } else {
        Quick::Unknown
    }
}

/// Whether both hold.
#[inline(always)]
fn both(one: bool, other: bool) -> bool
    ensures { result ≡ (one && other) }
{
    one && other
}
