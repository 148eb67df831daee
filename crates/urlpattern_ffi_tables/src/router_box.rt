//! The router that a handle keeps. `None` is an empty handle.
ghost use Rattle.std.specs.Arc.{arc_value};
ghost use Rattle.std.specs.Bool.{OnFalse, OnTrue};
ghost use Rattle.std.specs.Map.{keys_of};
ghost use Rattle.std.specs.Prelude.{◌≡◌, ◌≢◌, [], IfNone, IfOk, IfSome, option_copied, slice_get};
ghost use Rattle.urlpattern_ffi_tables.specs.KeptRouters.{boxed_router};

use std::alloc::{AllocError, Global};
use std::sync::Arc;
use urlpattern::regexp::PatternRegexp;
use urlpattern::{UrlPattern, UrlPatternMap, UrlPatternRouter};

/// The routes of a handle, in order, which several handles may share. A handle keeps them in a box.
#[derive(Drop)]
pub struct RouterBox {
    pub(crate) router: Arc<UrlPatternRouter<(), PatternRegexp>, Global>,
}

/// The router of a handle. `None`: the handle has no route.
pub(crate) fn router_of(
    kept: &Option<Box<RouterBox>>,
) -> Option<&UrlPatternRouter<(), PatternRegexp>>
    ensures some { IfSome result (λ router.
        (router.now ≡ boxed_router kept.now) × (router.now.routes ≢ [])) }
    ensures none { IfNone result ((boxed_router kept.now).routes ≡ []) }
{
    match kept {
        Some(kept) => {
            let router: &UrlPatternRouter<(), PatternRegexp> = &kept.router;
            if router.routes.is_empty() {
                None
            } else {
                Some(router)
            }
        }
        None => None,
    }
}

/// Whether a handle has a route.
pub(crate) fn has_routes(kept: &Option<Box<RouterBox>>) -> bool
    ensures some { OnTrue result ((boxed_router kept.now).routes ≢ []) }
    ensures none { OnFalse result ((boxed_router kept.now).routes ≡ []) }
{
    match router_of(kept) {
        Some(_) => true,
        None => false,
    }
}

/// The pattern of the route at an index. `None`: the index is out of range, or the handle is empty.
#[tactic(auto, using(crate::proofs::RouteLemmas::pattern_there, crate::proofs::RouteLemmas::none_there))]
pub(crate) fn pattern_of_route(
    kept: &Option<Box<RouterBox>>,
    index: usize,
) -> Option<&UrlPattern<PatternRegexp>>
    ensures { option_copied result ≡ slice_get (keys_of (boxed_router kept.now).routes) index }
{
    match kept {
        Some(kept) => match kept.router.routes.get(index) {
            Some((pattern, _)) => Some(pattern),
            None => None,
        },
        None => None,
    }
}

/// A router without routes, with the options of a handle's, which has no route.
#[tactic(auto, using(crate::proofs::RouteLemmas::same_router))]
pub(crate) fn router_without_routes(
    alloc: Global,
    kept: &Option<Box<RouterBox>>,
) -> UrlPatternRouter<(), PatternRegexp>
    requires { (boxed_router kept.now).routes ≡ [] }
    ensures { result ≡ boxed_router kept.now }
{
    let head_as_get = head_as_get_of(kept);
    let routes = UrlPatternMap::new(alloc);
    UrlPatternRouter {
        routes,
        head_as_get,
    }
}

/// Whether the router of a handle serves `HEAD` by routes for `GET`.
fn head_as_get_of(kept: &Option<Box<RouterBox>>) -> bool
    ensures { result ≡ (boxed_router kept.now).head_as_get }
{
    match kept {
        Some(kept) => kept.router.head_as_get,
        None => true,
    }
}

/// Puts a router into a box, by itself.
pub(crate) fn box_of_router(
    alloc: Global,
    router: UrlPatternRouter<(), PatternRegexp>,
) -> Result<Box<RouterBox>, AllocError>
    ensures { IfOk result (λ kept. arc_value kept.value.router ≡ router) }
{
    match Arc::new(alloc, router) {
        Ok(router) => boxed(alloc, router),
        Err(failed) => {
            drop(failed);
            Err(AllocError)
        }
    }
}

/// Puts a router into a box.
fn boxed(
    alloc: Global,
    router: Arc<UrlPatternRouter<(), PatternRegexp>, Global>,
) -> Result<Box<RouterBox>, AllocError>
    ensures { IfOk result (λ kept. arc_value kept.value.router ≡ arc_value router) }
{
    match Box::new(alloc, RouterBox { router }) {
        Ok(kept) => Ok(kept),
        Err(failed) => {
            drop(failed);
            Err(AllocError)
        }
    }
}

/// Returns what another handle has that shares the routes of one, which stay where they are.
pub fn share_router(
    alloc: Global,
    kept: &Option<Box<RouterBox>>,
) -> Result<Option<Box<RouterBox>>, AllocError>
    ensures { IfOk result (λ shared. boxed_router shared ≡ boxed_router kept.now) }
{
    match kept {
        Some(kept) => {
            let router = Arc::try_clone(&kept.router)?;
            match boxed(alloc, router) {
                Ok(shared) => Ok(Some(shared)),
                Err(error) => Err(error),
            }
        }
        None => Ok(None),
    }
}
