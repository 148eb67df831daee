//! What conflicts in the routes of a router, for requests with any method.
ghost use Rattle.regex.specs.declared.string.regex.Regex.{Regex};
ghost use Rattle.std.specs.Map.{keys_of};
ghost use Rattle.std.specs.Prelude.{◌≡◌, ◌↔◌, ◌++◌, ◌∷◌, [], All, if◌then◌else◌, IfErr, IfOk, IsTrue, MatchOption, OnOk, map};
ghost use Rattle.urlpattern.specs.Reached.{LacksParts};
ghost use Rattle.urlpattern.specs.Conflicts.{AreConflicts, AreConflictsOf, AreEarlier, AreKept, AreUnreached, IsUnreached, OfRoutes, Reports, ShareMethod, TakesAllOf, UnreachedServeNothing, route_doubt};
ghost use Rattle.urlpattern.specs.declared.router.UrlPatternRouter.{UrlPatternRouter};
ghost use Rattle.urlpattern_compare.specs.CommonTexts.{AreAutomata};
ghost use Rattle.urlpattern_compare.specs.CoveringTogether.{at_each};
ghost use Rattle.urlpattern_engine.specs.PatternRegexps.{pattern_engine};
ghost use Rattle.urlpattern_engine.specs.declared.pattern_regexp.PatternRegexp.{PatternRegexp};
ghost use Rattle.urlpattern_matcher.specs.Regexes.{regex_engine};

use super::UrlPatternRouter;
use super::route_conflicts::{RouteConflicts, Unreached, UnreachedRoute};
use crate::contention::{Contention, contending};
use crate::list::{automata_of_each, error_without_memory, references};
use std::alloc::{AllocError, Global};
use urlpattern_compare::{Doubt, Lack, Limits, PatternAutomata, Reach, reach_of};
use urlpattern_matcher::regexp::RegExp;
use urlpattern_pattern::CompareError;

/// In a router over `PatternRegexp` or `regex::Regex`, a route that others cover, as `check` finds,
/// serves no request, whatever its method.
pub fn unreached_routes_serve_nothing<T>()
    ensures pattern_regexp { (router : UrlPatternRouter T PatternRegexp)
        → UnreachedServeNothing pattern_engine router }
    ensures regex { (router : UrlPatternRouter T Regex)
        → UnreachedServeNothing regex_engine router }
{}

impl<T, R: RegExp> UrlPatternRouter<T, R> {
    /// Returns what conflicts in the routes, whatever the method of a request: the routes that are
    /// never reached, and the pairs that contend. A test of a table asks whether the result
    /// `is_clean`.
    ///
    /// A route is never reached if earlier routes that take each method that it takes cover it
    /// together: for a route with a method, those with this method or for all methods; for a route
    /// for all methods, those for all methods too. No request gets such a route, as the law
    /// `rules::unreached_routes_serve_nothing` says. A pair contends if some method is taken by
    /// both routes, both match some texts, and neither matches all that the other does.
    ///
    /// The error is `NoParts` if the pattern of a route has no parts, else `OutOfMemory`.
    pub fn check(&self, alloc: Global, limits: Limits) -> Result<RouteConflicts, CompareError>
        ensures found { IfOk result (AreConflicts R.RegExp limits self.now.routes) }
        ensures missing { IfErr result (LacksParts (keys_of self.now.routes)) }
    {
        let patterns = self.routes.patterns();
        let automata = automata_of_each(alloc, patterns)?;
        match self.conflicts_of(alloc, &automata, limits) {
            Ok(found) => Ok(found),
            Err(_) => Err(error_without_memory(patterns)),
        }
    }

    /// Returns what conflicts in the routes, whose patterns have these automata.
    fn conflicts_of(
        &self,
        alloc: Global,
        automata: &[PatternAutomata],
        limits: Limits,
    ) -> Result<RouteConflicts, AllocError>
        requires { All AreAutomata automata.now }
        ensures { IfOk result (AreConflictsOf limits self.now.routes automata.now) }
    {
        let all = references(alloc, automata)?;
        let unreached = self.unreached_routes(alloc, &all, limits)?;
        let pairs = contending(alloc, &all, limits)?;
        let contending = self.pairs_with_method(alloc, pairs)?;
        Ok(RouteConflicts {
            unreached,
            contending,
        })
    }

    /// Returns the routes that are never reached, or may never be. Their patterns have these
    /// automata.
    fn unreached_routes<'a>(
        &self,
        alloc: Global,
        all: &[&'a PatternAutomata],
        limits: Limits,
    ) -> Result<Vec<UnreachedRoute>, AllocError>
        requires { All AreAutomata (map (λ it. it.now) all.now) }
        ensures { IfOk result (λ found.
            AreUnreached limits self.now.routes (map (λ it. it.now) all.now) found.items) }
    {
        let mut found = Vec::new(alloc);
        for index in 0..all.len() {
            let earlier = self.earlier_routes(alloc, index)?;
            let unreached = unreached_after(alloc, all, &earlier, all[index], limits)?;
            push_route(&mut found, index, unreached)?;
        }
        Ok(found)
    }

    /// Returns the indices of the routes before the one at `index` that take each method that it
    /// takes.
    fn earlier_routes(&self, alloc: Global, index: usize) -> Result<Vec<usize>, AllocError>
        ensures { IfOk result (λ earlier. AreEarlier self.now.routes index earlier.items) }
    {
        let mut earlier = Vec::new(alloc);
        for before in 0..index {
            let takes_all = self.takes_all_at(before, index);
            push_if(&mut earlier, before, takes_all)?;
        }
        Ok(earlier)
    }

    /// Returns those of the pairs of which both routes take some method.
    fn pairs_with_method(
        &self,
        alloc: Global,
        pairs: Vec<Contention>,
    ) -> Result<Vec<Contention>, AllocError>
        ensures { IfOk result (λ kept.
            AreKept (λ pair. OfRoutes self.now.routes ShareMethod pair.first pair.second)
            pairs.items kept.items) }
    {
        let mut kept = Vec::new(alloc);
        for pair in pairs {
            let share = self.share_method_at(pair.first, pair.second);
            push_if(&mut kept, pair, share)?;
        }
        Ok(kept)
    }

    /// Whether the route at an index takes each method that the one at another index takes.
    fn takes_all_at(&self, index: usize, other: usize) -> bool
        ensures { IsTrue result ↔ OfRoutes self.now.routes TakesAllOf index other }
    {
        let Some((_, route)) = self.routes.get(index) else {
            return false;
        };
        let Some((_, another)) = self.routes.get(other) else {
            return false;
        };
        route.takes_all_of(another)
    }

    /// Whether the routes at two indices both take some method.
    fn share_method_at(&self, index: usize, other: usize) -> bool
        ensures { IsTrue result ↔ OfRoutes self.now.routes ShareMethod index other }
    {
        let Some((_, route)) = self.routes.get(index) else {
            return false;
        };
        let Some((_, another)) = self.routes.get(other) else {
            return false;
        };
        route.shares_method(another)
    }
}

/// Returns why the pattern with the automata `asked` is never reached after those at the indices
/// `earlier`, or may never be. `None`: it is reached.
fn unreached_after<'a>(
    alloc: Global,
    all: &[&'a PatternAutomata],
    earlier: &[usize],
    asked: &'a PatternAutomata,
    limits: Limits,
) -> Result<Option<Unreached>, AllocError>
    requires all { All AreAutomata (map (λ it. it.now) all.now) }
    requires asked { AreAutomata asked.now }
    ensures { IfOk result
        (IsUnreached limits (map (λ it. it.now) all.now) earlier.now asked.now) }
{
    let before = at_each(alloc, all, earlier)?;
    let reach = reach_of(alloc, &before, asked, limits)?;
    reported(alloc, earlier, reach)
}

/// Returns what a `Reach` after the routes at the indices `earlier` says of a route. `None`: the
/// route is reached.
fn reported(alloc: Global, earlier: &[usize], reach: Reach) -> Result<Option<Unreached>, AllocError>
    ensures { IfOk result (Reports earlier.now reach) }
{
    match reach {
        Reach::First(texts) => {
            drop(texts);
            Ok(None)
        }
        Reach::Never(places) => {
            let by = at_each(alloc, earlier, &places)?;
            Ok(Some(Unreached::Never(by)))
        }
        Reach::Unknown(doubt) => Ok(Some(Unreached::Unknown(route_doubt(earlier, doubt)))),
    }
}

/// Returns the doubt, with the index of a route in place of a place in `earlier`.
fn route_doubt(earlier: &[usize], doubt: Doubt) -> Doubt
    ensures { result ≡ route_doubt earlier.now doubt }
{
    match doubt {
        Doubt::NoneOf(lack) => Doubt::NoneOf(Lack {
            pattern: earlier.get(lack.pattern).copied().unwrap_or(lack.pattern),
            component: lack.component,
            reason: lack.reason,
        }),
        Doubt::AllOf(lack) => Doubt::AllOf(lack),
        Doubt::TooManySets(component) => Doubt::TooManySets(component),
        Doubt::TooManyTexts => Doubt::TooManyTexts,
    }
}

/// Appends a route, if it is never reached or may never be.
fn push_route(
    found: &mut Vec<UnreachedRoute>,
    route: usize,
    unreached: Option<Unreached>,
) -> Result<(), AllocError>
    ensures { OnOk result (MatchOption unreached (found.new.items ≡ found.old.items) (λ one.
        found.new.items ≡ found.old.items ++ record { route = route; found = one } ∷ [])) }
{
    match unreached {
        Some(unreached) => {
            found.push(UnreachedRoute {
                route,
                found: unreached,
            })?;
            Ok(())
        }
        None => Ok(()),
    }
}

/// Appends a value, if `is` is true.
fn push_if<T: Drop>(list: &mut Vec<T>, value: T, is: bool) -> Result<(), AllocError>
    ensures { OnOk result
        (list.new.items ≡ list.old.items ++ (if is then value ∷ [] else [])) }
{
    if !is {
        return Ok(());
    }
    list.push(value)?;
    Ok(())
}

/// Returns the values at the indices, where there are some.
fn at_each<T: Copy>(alloc: Global, values: &[T], indices: &[usize]) -> Result<Vec<T>, AllocError>
    ensures { IfOk result (λ found. found.items ≡ at_each values.now indices.now) }
{
    let mut found = Vec::new(alloc);
    for index in indices {
        push_at(&mut found, values, *index)?;
    }
    Ok(found)
}

/// Appends the value at the index, if there is one.
fn push_at<T: Copy>(found: &mut Vec<T>, values: &[T], index: usize) -> Result<(), AllocError>
    ensures { OnOk result
        (found.new.items ≡ found.old.items ++ at_each values.now (index ∷ [])) }
{
    if index >= values.len() {
        return Ok(());
    }
    found.push(values[index])?;
    Ok(())
}
