//! The routes of a router that contend for the same texts.
ghost use Rattle.std.specs.Prelude.{IfErr, IfOk};
ghost use Rattle.std.specs.Str.{chars};
ghost use Rattle.urlpattern.specs.RouteReach.{AreContendingRoutes, LacksRouteParts};
ghost use Rattle.urlpattern.specs.Routes.{Takes};

use super::UrlPatternRouter;
use super::route_contentions::RouteContentions;
use crate::list::contending_of_all;
use std::alloc::Global;
use urlpattern_compare::Limits;
use urlpattern_matcher::regexp::RegExp;
use urlpattern_pattern::CompareError;

impl<T, R: RegExp> UrlPatternRouter<T, R> {
    /// Returns the pairs of routes that take this method and contend: both match some texts, and
    /// neither matches all that the other does. The order of the two in the router decides which
    /// one serves a request.
    ///
    /// The patterns are compared as `UrlPatternList::contending` does. Of `HEAD`, routes for `GET`
    /// are not looked at, though they may serve it too.
    ///
    /// The error is `NoParts` if the pattern of such a route has no parts, else `OutOfMemory`.
    pub fn contending(
        &self,
        alloc: Global,
        method: &str,
        limits: Limits,
    ) -> Result<RouteContentions, CompareError>
        ensures found { IfOk result (AreContendingRoutes R.RegExp limits self.now.routes
            (Takes (chars method.now))) }
        ensures missing { IfErr result
            (LacksRouteParts self.now.routes (Takes (chars method.now))) }
    {
        let (routes, automata) = self.automata_of_each(alloc, method)?;
        let Ok(pairs) = contending_of_all(alloc, &automata, limits) else {
            return Err(self.error_without_memory(method));
        };
        Ok(RouteContentions { routes, pairs })
    }
}
