//! The functions on routers. Each returns the number of a `Status`, apart from
//! `urlpattern_router_free`. A URL is parsed under a base URL unless `base` is empty.
ghost use Rattle.std.specs.Map.{keys_of};
ghost use Rattle.std.specs.Prelude.{◌≡◌, None};
ghost use Rattle.urlpattern_c.specs.Handles.{router_in};
ghost use Rattle.urlpattern_c.specs.RouterReturns.{AddsRoute, ReportsAllowed, ReportsRequest};
ghost use Rattle.urlpattern_ffi.specs.Calls.{IsNoUrl, ReturnsStatus};
ghost use Rattle.urlpattern_ffi.specs.PassedTexts.{AreTextsOfPath, IsNoPath};
ghost use Rattle.urlpattern_ffi.specs.TextBuffers.{IsGroupNameWritten};
ghost use Rattle.urlpattern_ffi_tables.specs.Compilations.{IsPatternOfBytes, IsPatternOfJson, RejectsBytes, RejectsJson};
ghost use Rattle.urlpattern_ffi_tables.specs.KeptRouters.{IsRouterShared};
ghost use Rattle.urlpattern_ffi_tables.specs.RouteLinks.{IsRouteLinkReported};
ghost use Rattle.urlpattern_ffi_tables.specs.RoutedRequests.{AreTextsOfUrl};

use crate::router::Router;
use std::alloc::Global;
use urlpattern_ffi::{GivenBytes, GroupSpan, Sizes, Status};
use urlpattern_ffi_tables::{
    add_init_route, add_route, allowed_methods_of_path, allowed_methods_of_url, link_route,
    route_of_path, route_of_url, share_router, write_route_group_name,
};

/// Compiles a constructor string, under a base URL unless `base` is empty, and appends a route with
/// the pattern: for the method, or for every method if `method` is empty, and with a name unless
/// `name` is empty. If an error occurs, the routes are unchanged.
#[unsafe(no_mangle)]
pub extern "C" fn urlpattern_router_insert(
    alloc: Global,
    router: &mut Router,
    name: &[u8],
    method: &[u8],
    text: &[u8],
    base: &[u8],
    ignore_case: bool,
) -> u32
    ensures { AddsRoute (IsPatternOfBytes text.now base.now ignore_case)
        (RejectsBytes text.now base.now ignore_case) router.old name.now method.now router.new
        result }
{
    let mut kept = router.take(alloc);
    let status = add_route(alloc, &mut kept, name, method, text, base, ignore_case);
    router.put(kept);
    status.number()
}

/// Compiles an init in JSON, and appends a route with the pattern: for the method, or for every
/// method if `method` is empty, and with a name unless `name` is empty. If an error occurs, the
/// routes are unchanged.
#[unsafe(no_mangle)]
pub extern "C" fn urlpattern_router_insert_init(
    alloc: Global,
    router: &mut Router,
    name: &[u8],
    method: &[u8],
    json: &[u8],
    ignore_case: bool,
) -> u32
    ensures { AddsRoute (IsPatternOfJson json.now ignore_case) (RejectsJson json.now ignore_case)
        router.old name.now method.now router.new result }
{
    let mut kept = router.take(alloc);
    let status = add_init_route(alloc, &mut kept, name, method, json, ignore_case);
    router.put(kept);
    status.number()
}

/// Frees the routes, unless another handle has them. The handle is then empty, and freeing it again
/// does nothing.
#[unsafe(no_mangle)]
pub extern "C" fn urlpattern_router_free(alloc: Global, router: &mut Router)
    ensures { router.new.slot.held ≡ None }
{
    drop(router.take(alloc));
}

/// Gives another handle the same routes, and frees what it had. Until one of the two is freed, no
/// route is appended to either. If memory runs out, both are unchanged.
#[unsafe(no_mangle)]
pub extern "C" fn urlpattern_router_share(
    alloc: Global,
    router: &mut Router,
    other: &mut Router,
) -> u32
    ensures answer { ReturnsStatus
        (IsRouterShared (router_in router.old) (router_in other.old) (router_in other.new))
        result }
    ensures unchanged { router_in router.new ≡ router_in router.old }
{
    let kept = router.take(alloc);
    let shared = share_router(alloc, &kept);
    router.put(kept);
    match shared {
        Ok(shared) => {
            drop(other.take(alloc));
            other.put(shared);
            Status::Done.number()
        }
        Err(_) => Status::OutOfMemory.number(),
    }
}

/// Finds the route that serves a request with a method for a path by itself. If there is one,
/// writes its index, the captures of its groups to `buffer`, a span for each group to `spans`, and
/// the room that both need to `needed`. Returns 12 if a route matches, but none that serves the
/// method, and 0 if no route matches.
#[unsafe(no_mangle)]
pub extern "C" fn urlpattern_router_at(
    alloc: Global,
    router: &mut Router,
    method: &[u8],
    path: &[u8],
    index: &mut usize,
    buffer: &mut [u8],
    spans: &mut [GroupSpan],
    needed: &mut Sizes,
) -> u32
    ensures answer { ReportsRequest (AreTextsOfPath path.now) (IsNoPath path.now) router.old
        method.now index.old index.new buffer.old buffer.new spans.old spans.new needed.new
        result }
    ensures unchanged { router_in router.new ≡ router_in router.old }
{
    let kept = router.take(alloc);
    let status = route_of_path(alloc, &kept, method, path, index, buffer, spans, needed);
    router.put(kept);
    status.number()
}

/// Finds the route that serves a request with a method for a URL. If there is one, writes its
/// index, the captures of its groups to `buffer`, a span for each group to `spans`, and the room
/// that both need to `needed`. Returns 12 if a route matches, but none that serves the method, and
/// 0 if no route matches.
#[unsafe(no_mangle)]
pub extern "C" fn urlpattern_router_at_url(
    alloc: Global,
    router: &mut Router,
    method: &[u8],
    url: &[u8],
    base: &[u8],
    index: &mut usize,
    buffer: &mut [u8],
    spans: &mut [GroupSpan],
    needed: &mut Sizes,
) -> u32
    ensures answer { ReportsRequest (AreTextsOfUrl url.now base.now) (IsNoUrl url.now base.now)
        router.old method.now index.old index.new buffer.old buffer.new spans.old spans.new
        needed.new result }
    ensures unchanged { router_in router.new ≡ router_in router.old }
{
    let kept = router.take(alloc);
    let status = route_of_url(
        alloc, &kept, method, url, base, index, buffer, spans, needed,
    );
    router.put(kept);
    status.number()
}

/// Writes the methods of the routes that match a path by itself to `buffer`, as the header `Allow`
/// has them, and their length in bytes to `needed`, if some route matches, but none that serves the
/// method. Returns 0 if not.
#[unsafe(no_mangle)]
pub extern "C" fn urlpattern_router_allowed(
    alloc: Global,
    router: &mut Router,
    method: &[u8],
    path: &[u8],
    buffer: &mut [u8],
    needed: &mut usize,
) -> u32
    ensures answer { ReportsAllowed (AreTextsOfPath path.now) (IsNoPath path.now) router.old
        method.now buffer.old buffer.new needed.new result }
    ensures unchanged { router_in router.new ≡ router_in router.old }
{
    let kept = router.take(alloc);
    let status = allowed_methods_of_path(alloc, &kept, method, path, buffer, needed);
    router.put(kept);
    status.number()
}

/// Writes the methods of the routes that match a URL to `buffer`, as the header `Allow` has them,
/// and their length in bytes to `needed`, if some route matches, but none that serves the method.
/// Returns 0 if not.
#[unsafe(no_mangle)]
pub extern "C" fn urlpattern_router_allowed_at_url(
    alloc: Global,
    router: &mut Router,
    method: &[u8],
    url: &[u8],
    base: &[u8],
    buffer: &mut [u8],
    needed: &mut usize,
) -> u32
    ensures answer { ReportsAllowed (AreTextsOfUrl url.now base.now) (IsNoUrl url.now base.now)
        router.old method.now buffer.old buffer.new needed.new result }
    ensures unchanged { router_in router.new ≡ router_in router.old }
{
    let kept = router.take(alloc);
    let status = allowed_methods_of_url(alloc, &kept, method, url, base, buffer, needed);
    router.put(kept);
    status.number()
}

/// Writes to `buffer` the URL of the first route with a name, with the groups that `given` cuts out
/// of `text`, percent-encoded, and its length in bytes to `needed`. Returns 0 if no route has the
/// name, and 6 if there is no URL, and then writes the reason in its place.
#[unsafe(no_mangle)]
pub extern "C" fn urlpattern_router_link(
    alloc: Global,
    router: &mut Router,
    name: &[u8],
    text: &[u8],
    given: &[GivenBytes],
    buffer: &mut [u8],
    needed: &mut usize,
) -> u32
    ensures answer { ReturnsStatus (IsRouteLinkReported (router_in router.old) name.now text.now
        given.now buffer.old buffer.new needed.new) result }
    ensures unchanged { router_in router.new ≡ router_in router.old }
{
    let kept = router.take(alloc);
    let status = link_route(alloc, &kept, name, text, given, buffer, needed);
    router.put(kept);
    status.number()
}

/// Writes the name of a group of the route at an index to `buffer`, and its length in bytes to
/// `needed`, given the number of its component and its number in the component.
#[unsafe(no_mangle)]
pub extern "C" fn urlpattern_router_group_name(
    alloc: Global,
    router: &mut Router,
    index: usize,
    component: u32,
    group: usize,
    buffer: &mut [u8],
    needed: &mut usize,
) -> u32
    ensures answer { ReturnsStatus (IsGroupNameWritten (keys_of (router_in router.old).routes)
        index component group buffer.old buffer.new needed.new) result }
    ensures unchanged { router_in router.new ≡ router_in router.old }
{
    let kept = router.take(alloc);
    let status = write_route_group_name(&kept, index, component, group, buffer, needed);
    router.put(kept);
    status.number()
}
