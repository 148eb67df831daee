//! Finds the route that serves a request, and writes the captures of its groups.
ghost use Rattle.urlpattern_ffi.specs.Calls.{IsNoUrl};
ghost use Rattle.urlpattern_ffi.specs.PassedTexts.{AreTextsOfPath, IsNoPath};
ghost use Rattle.urlpattern_ffi_tables.specs.KeptRouters.{boxed_router};
ghost use Rattle.urlpattern_ffi_tables.specs.RoutedRequests.{AreTextsOfUrl, IsRequestReported, IsRoutedWritten};

use crate::router_box::{RouterBox, router_of, router_without_routes};
use std::alloc::Global;
use std::str;
use urlpattern::regexp::PatternRegexp;
use urlpattern::{PathError, Routed, UrlPatternRouter};
use urlpattern_ffi::{GroupSpan, Sizes, Status, url_of, write_groups};

/// Finds the route that serves a request with a method for a path by itself. If there is one,
/// writes its index, the captures of its groups to `buffer`, a span for each group to `spans`, and
/// the room that both need to `needed`. `NotAllowed`: a route matches, but none that serves the
/// method. `NoMatch`: no route matches.
pub fn route_of_path(
    alloc: Global,
    kept: &Option<Box<RouterBox>>,
    method: &[u8],
    path: &[u8],
    index: &mut usize,
    buffer: &mut [u8],
    spans: &mut [GroupSpan],
    needed: &mut Sizes,
) -> Status
    ensures { IsRequestReported (AreTextsOfPath path.now) (IsNoPath path.now)
        (boxed_router kept.now) method.now index.old index.new buffer.old buffer.new spans.old
        spans.new needed.new result }
{
    match router_of(kept) {
        Some(router) => routed_path(alloc, router, method, path, index, buffer, spans, needed),
        None => {
            let router = router_without_routes(alloc, kept);
            routed_path(alloc, &router, method, path, index, buffer, spans, needed)
        }
    }
}

/// Finds the route of a router that serves a request with a method for a path by itself, and writes
/// it as `route_of_path` does.
fn routed_path(
    alloc: Global,
    router: &UrlPatternRouter<(), PatternRegexp>,
    method: &[u8],
    path: &[u8],
    index: &mut usize,
    buffer: &mut [u8],
    spans: &mut [GroupSpan],
    needed: &mut Sizes,
) -> Status
    ensures { IsRequestReported (AreTextsOfPath path.now) (IsNoPath path.now) router.now method.now
        index.old index.new buffer.old buffer.new spans.old spans.new needed.new result }
{
    let Ok(method) = str::from_utf8(method) else {
        return Status::NotUtf8;
    };
    let Ok(path) = str::from_utf8(path) else {
        return Status::NotUtf8;
    };
    match router.at(alloc, method, path) {
        Ok(routed) => write_routed(routed, index, buffer, spans, needed),
        Err(PathError::NotAPath) => Status::NoPath,
        Err(PathError::OutOfMemory) => Status::OutOfMemory,
    }
}

/// Finds the route that serves a request with a method for a URL, under a base URL unless `base` is
/// empty. If there is one, writes its index, the captures of its groups to `buffer`, a span for
/// each group to `spans`, and the room that both need to `needed`. `NotAllowed`: a route matches,
/// but none that serves the method. `NoMatch`: no route matches.
pub fn route_of_url(
    alloc: Global,
    kept: &Option<Box<RouterBox>>,
    method: &[u8],
    url: &[u8],
    base: &[u8],
    index: &mut usize,
    buffer: &mut [u8],
    spans: &mut [GroupSpan],
    needed: &mut Sizes,
) -> Status
    ensures { IsRequestReported (AreTextsOfUrl url.now base.now) (IsNoUrl url.now base.now)
        (boxed_router kept.now) method.now index.old index.new buffer.old buffer.new spans.old
        spans.new needed.new result }
{
    match router_of(kept) {
        Some(router) => routed_url(
            alloc, router, method, url, base, index, buffer, spans, needed,
        ),
        None => {
            let router = router_without_routes(alloc, kept);
            routed_url(
                alloc, &router, method, url, base, index, buffer, spans, needed,
            )
        }
    }
}

/// Finds the route of a router that serves a request with a method for a URL, under a base URL
/// unless `base` is empty, and writes it as `route_of_url` does.
fn routed_url(
    alloc: Global,
    router: &UrlPatternRouter<(), PatternRegexp>,
    method: &[u8],
    url: &[u8],
    base: &[u8],
    index: &mut usize,
    buffer: &mut [u8],
    spans: &mut [GroupSpan],
    needed: &mut Sizes,
) -> Status
    ensures { IsRequestReported (AreTextsOfUrl url.now base.now) (IsNoUrl url.now base.now)
        router.now method.now index.old index.new buffer.old buffer.new spans.old spans.new
        needed.new result }
{
    let Ok(method) = str::from_utf8(method) else {
        return Status::NotUtf8;
    };
    let url = match url_of(alloc, url, base) {
        Ok(url) => url,
        Err(status) => return status,
    };
    match router.at_url(alloc, method, &url) {
        Ok(routed) => write_routed(routed, index, buffer, spans, needed),
        Err(_) => Status::OutOfMemory,
    }
}

/// Writes the index of a route that was found, the captures of its groups to `buffer`, a span for
/// each group to `spans`, and the room that both need to `needed`.
fn write_routed(
    routed: Routed<'_, '_, (), PatternRegexp>,
    index: &mut usize,
    buffer: &mut [u8],
    spans: &mut [GroupSpan],
    needed: &mut Sizes,
) -> Status
    ensures { IsRoutedWritten routed.entry index.old index.new buffer.old buffer.new spans.old
        spans.new needed.new result }
{
    match routed {
        Routed::Found(first, _, found) => {
            *index = first;
            write_groups(&found, buffer, spans, needed)
        }
        Routed::MethodNotAllowed(_) => Status::NotAllowed,
        Routed::NotFound => Status::NoMatch,
    }
}
