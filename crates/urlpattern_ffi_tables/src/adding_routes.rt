//! Appends routes to those of a handle.
ghost use Rattle.std.specs.Arc.{arc_value};
ghost use Rattle.std.specs.Prelude.{◌≡◌, ◌≢◌, [], IfErr, IfOk};
ghost use Rattle.urlpattern_ffi.specs.declared.status.Status.TheVariants.{Done};
ghost use Rattle.urlpattern_ffi_tables.specs.AddedRoutes.{insert_status, IsRouteAdded, IsRouteInserted, IsRoutePushed};
ghost use Rattle.urlpattern_ffi_tables.specs.Compilations.{IsPatternOfJson, IsPatternOfBytes, RejectsBytes, RejectsJson};
ghost use Rattle.urlpattern_ffi_tables.specs.KeptRouters.{boxed_router};

use crate::compiling::{pattern_of_init, pattern_of_text};
use crate::router_box::{RouterBox, box_of_router, has_routes, router_without_routes};
use std::alloc::Global;
use std::str;
use std::sync::Arc;
use urlpattern::regexp::PatternRegexp;
use urlpattern::{RouteError, UrlPattern, UrlPatternRouter};
use urlpattern_ffi::Status;

/// Compiles a constructor string, under a base URL unless `base` is empty, and appends a route with
/// the pattern, for the method and with the name. An empty name is none, and an empty method then
/// stands for every method. Unless the status is `Done`, the routes are unchanged.
pub fn add_route(
    alloc: Global,
    kept: &mut Option<Box<RouterBox>>,
    name: &[u8],
    method: &[u8],
    text: &[u8],
    base: &[u8],
    ignore_case: bool,
) -> Status
    ensures { IsRouteAdded (IsPatternOfBytes text.now base.now ignore_case)
        (RejectsBytes text.now base.now ignore_case) (boxed_router kept.old) name.now method.now
        (boxed_router kept.new) result }
{
    match pattern_of_text(alloc, text, base, ignore_case) {
        Ok(pattern) => push_route(alloc, kept, name, method, pattern),
        Err(status) => status,
    }
}

/// Compiles an init in JSON, and appends a route with the pattern, for the method and with the
/// name. An empty name is none, and an empty method then stands for every method. Unless the status
/// is `Done`, the routes are unchanged.
pub fn add_init_route(
    alloc: Global,
    kept: &mut Option<Box<RouterBox>>,
    name: &[u8],
    method: &[u8],
    json: &[u8],
    ignore_case: bool,
) -> Status
    ensures { IsRouteAdded (IsPatternOfJson json.now ignore_case) (RejectsJson json.now ignore_case)
        (boxed_router kept.old) name.now method.now (boxed_router kept.new) result }
{
    match pattern_of_init(alloc, json, ignore_case) {
        Ok(pattern) => push_route(alloc, kept, name, method, pattern),
        Err(status) => status,
    }
}

/// Appends a route with a pattern to the routes of a handle. `NotUtf8`: the name or the method is
/// not UTF-8. `Shared`: another handle has the routes. `NameTaken`: another route has the name.
/// `NotAMethod`: the method is no token. `OutOfMemory`: memory ran out. In these cases the routes
/// are unchanged.
///
/// Handles that have no route share nothing: the first route gets a router of its own.
fn push_route(
    alloc: Global,
    kept: &mut Option<Box<RouterBox>>,
    name: &[u8],
    method: &[u8],
    pattern: UrlPattern<PatternRegexp>,
) -> Status
    ensures { IsRoutePushed (boxed_router kept.old) name.now method.now pattern
        (boxed_router kept.new) result }
{
    let Ok(name) = str::from_utf8(name) else {
        return Status::NotUtf8;
    };
    let Ok(method) = str::from_utf8(method) else {
        return Status::NotUtf8;
    };
    if has_routes(&*kept) {
        insert_later(alloc, kept, name, method, pattern)
    } else {
        insert_first(alloc, kept, name, method, pattern)
    }
}

/// Appends a route to those of a handle, of which there is one at least. `Shared`: another handle
/// has the routes. `NameTaken`: another route has the name. `NotAMethod`: the method is no token.
/// `OutOfMemory`: memory ran out. In these cases the routes are unchanged.
fn insert_later(
    alloc: Global,
    kept: &mut Option<Box<RouterBox>>,
    name: &str,
    method: &str,
    pattern: UrlPattern<PatternRegexp>,
) -> Status
    requires { (boxed_router kept.old).routes ≢ [] }
    ensures { IsRoutePushed (boxed_router kept.old) name.now method.now pattern
        (boxed_router kept.new) result }
{
    match kept.take() {
        Some(mut taken) => {
            let status = insert_unshared(alloc, &mut taken, name, method, pattern);
            *kept = Some(taken);
            status
        }
        None => Status::Shared,
    }
}

/// Appends a route to those in a box, of which there is one at least. `Shared`: another handle has
/// the routes. `NameTaken`: another route has the name. `NotAMethod`: the method is no token.
/// `OutOfMemory`: memory ran out. In these cases the routes are unchanged.
#[tactic(auto, using(crate::proofs::RouteLemmas::pushed))]
fn insert_unshared(
    alloc: Global,
    kept: &mut Box<RouterBox>,
    name: &str,
    method: &str,
    pattern: UrlPattern<PatternRegexp>,
) -> Status
    requires { (arc_value kept.old.value.router).routes ≢ [] }
    ensures { IsRoutePushed (arc_value kept.old.value.router) name.now method.now pattern
        (arc_value kept.new.value.router) result }
{
    match Arc::get_mut(&mut kept.router) {
        Some(router) => insert(alloc, router, name, method, pattern),
        None => Status::Shared,
    }
}

/// Gives a handle without routes a route. `NotAMethod`: the method is no token. `OutOfMemory`:
/// memory ran out. In both cases the handle has no route.
#[tactic(auto, using(crate::proofs::RouteLemmas::pushed))]
fn insert_first(
    alloc: Global,
    kept: &mut Option<Box<RouterBox>>,
    name: &str,
    method: &str,
    pattern: UrlPattern<PatternRegexp>,
) -> Status
    requires { (boxed_router kept.old).routes ≡ [] }
    ensures { IsRoutePushed (boxed_router kept.old) name.now method.now pattern
        (boxed_router kept.new) result }
{
    match boxed_route(alloc, &*kept, name, method, pattern) {
        Ok(made) => {
            *kept = Some(made);
            Status::Done
        }
        Err(status) => status,
    }
}

/// Puts a route into a box, by itself, in place of a handle's, which has no route.
///
/// The error is the status that says why there is none: `NotAMethod` if the method is no token, or
/// `OutOfMemory`.
#[tactic(auto, using(crate::proofs::RouteLemmas::not_inserted, crate::proofs::RouteLemmas::not_boxed))]
fn boxed_route(
    alloc: Global,
    kept: &Option<Box<RouterBox>>,
    name: &str,
    method: &str,
    pattern: UrlPattern<PatternRegexp>,
) -> Result<Box<RouterBox>, Status>
    requires { (boxed_router kept.now).routes ≡ [] }
    ensures made { IfOk result (λ made. IsRouteInserted (boxed_router kept.now) name.now method.now
        pattern (arc_value made.value.router) Done) }
    ensures refused { IfErr result (λ status. IsRouteInserted (boxed_router kept.now) name.now
        method.now pattern (boxed_router kept.now) status) }
{
    let mut router = router_without_routes(alloc, kept);
    match insert(alloc, &mut router, name, method, pattern) {
        Status::Done => match box_of_router(alloc, router) {
            Ok(made) => Ok(made),
            Err(_) => Err(Status::OutOfMemory),
        },
        status => Err(status),
    }
}

/// Appends a route with a pattern. `OutOfMemory`: memory ran out. `NameTaken`: another route has
/// the name. `NotAMethod`: the method is no token. In these cases the router is unchanged.
#[tactic(auto, using(crate::proofs::RouteLemmas::named, crate::proofs::RouteLemmas::named_refused))]
fn insert(
    alloc: Global,
    router: &mut UrlPatternRouter<(), PatternRegexp>,
    name: &str,
    method: &str,
    pattern: UrlPattern<PatternRegexp>,
) -> Status
    ensures { IsRouteInserted router.old name.now method.now pattern router.new result }
{
    if name.is_empty() {
        return insert_unnamed(alloc, router, method, pattern);
    }
    match router.insert_named(alloc, name, method, pattern, ()) {
        Ok(()) => Status::Done,
        Err(error) => insert_status(error),
    }
}

/// Appends a route with a pattern, and without a name. `OutOfMemory`: memory ran out. `NotAMethod`:
/// the method is no token. In both cases the router is unchanged.
#[tactic(auto, using(crate::proofs::RouteLemmas::unnamed, crate::proofs::RouteLemmas::unnamed_refused))]
fn insert_unnamed(
    alloc: Global,
    router: &mut UrlPatternRouter<(), PatternRegexp>,
    method: &str,
    pattern: UrlPattern<PatternRegexp>,
) -> Status
    ensures { IsRouteInserted router.old [] method.now pattern router.new result }
{
    if method.is_empty() {
        return match router.insert_any(pattern, ()) {
            Ok(()) => Status::Done,
            Err(_) => Status::OutOfMemory,
        };
    }
    match router.insert(alloc, method, pattern, ()) {
        Ok(()) => Status::Done,
        Err(error) => insert_status(error),
    }
}

/// The status for a route that is not added: it has the name of the error.
fn insert_status(error: RouteError) -> Status
    ensures { result ≡ insert_status error }
{
    match error {
        RouteError::OutOfMemory => Status::OutOfMemory,
        RouteError::NameTaken => Status::NameTaken,
        RouteError::NotAMethod => Status::NotAMethod,
    }
}
