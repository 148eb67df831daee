//! Writes the methods of the routes that match a request which none of them serves.
ghost use Rattle.std.specs.Prelude.{IfOk, string_bytes};
ghost use Rattle.urlpattern.specs.Routes.{allowed_left};
ghost use Rattle.urlpattern_ffi.specs.Calls.{IsNoUrl};
ghost use Rattle.urlpattern_ffi.specs.PassedTexts.{AreTextsOfPath, IsNoPath};
ghost use Rattle.urlpattern_ffi_tables.specs.AllowedMethodTexts.{AreAllowedReported, AreAllowedWritten, AreMethodsIn};
ghost use Rattle.urlpattern_ffi_tables.specs.KeptRouters.{boxed_router};
ghost use Rattle.urlpattern_ffi_tables.specs.RoutedRequests.{AreTextsOfUrl};

use crate::router_box::{RouterBox, router_of, router_without_routes};
use std::alloc::Global;
use std::str;
use urlpattern::regexp::PatternRegexp;
use urlpattern::{AllowedMethods, Error, PathError, Routed, UrlPatternRouter};
use urlpattern_ffi::{Status, url_of, write};

/// Writes the methods of the routes that match a path by itself to `buffer`, as the header `Allow`
/// has them, and their length in bytes to `needed`, if no route serves a request with this method.
/// `NoMatch`: a route serves the request, or no route matches.
pub fn allowed_methods_of_path(
    alloc: Global,
    kept: &Option<Box<RouterBox>>,
    method: &[u8],
    path: &[u8],
    buffer: &mut [u8],
    needed: &mut usize,
) -> Status
    ensures { AreAllowedReported (AreTextsOfPath path.now) (IsNoPath path.now)
        (boxed_router kept.now) method.now buffer.old buffer.new needed.new result }
{
    match router_of(kept) {
        Some(router) => allowed_at_path(alloc, router, method, path, buffer, needed),
        None => {
            let router = router_without_routes(alloc, kept);
            allowed_at_path(alloc, &router, method, path, buffer, needed)
        }
    }
}

/// Writes the methods of the routes of a router that match a path by itself, as
/// `allowed_methods_of_path` does.
fn allowed_at_path(
    alloc: Global,
    router: &UrlPatternRouter<(), PatternRegexp>,
    method: &[u8],
    path: &[u8],
    buffer: &mut [u8],
    needed: &mut usize,
) -> Status
    ensures { AreAllowedReported (AreTextsOfPath path.now) (IsNoPath path.now) router.now
        method.now buffer.old buffer.new needed.new result }
{
    let Ok(method) = str::from_utf8(method) else {
        return Status::NotUtf8;
    };
    let Ok(path) = str::from_utf8(path) else {
        return Status::NotUtf8;
    };
    match router.at(alloc, method, path) {
        Ok(routed) => write_allowed(alloc, routed, buffer, needed),
        Err(PathError::NotAPath) => Status::NoPath,
        Err(PathError::OutOfMemory) => Status::OutOfMemory,
    }
}

/// Writes the methods of the routes that match a URL, under a base URL unless `base` is empty, to
/// `buffer`, as the header `Allow` has them, and their length in bytes to `needed`, if no route
/// serves a request with this method. `NoMatch`: a route serves the request, or no route matches.
pub fn allowed_methods_of_url(
    alloc: Global,
    kept: &Option<Box<RouterBox>>,
    method: &[u8],
    url: &[u8],
    base: &[u8],
    buffer: &mut [u8],
    needed: &mut usize,
) -> Status
    ensures { AreAllowedReported (AreTextsOfUrl url.now base.now) (IsNoUrl url.now base.now)
        (boxed_router kept.now) method.now buffer.old buffer.new needed.new result }
{
    match router_of(kept) {
        Some(router) => allowed_at_url(alloc, router, method, url, base, buffer, needed),
        None => {
            let router = router_without_routes(alloc, kept);
            allowed_at_url(alloc, &router, method, url, base, buffer, needed)
        }
    }
}

/// Writes the methods of the routes of a router that match a URL, under a base URL unless `base` is
/// empty, as `allowed_methods_of_url` does.
fn allowed_at_url(
    alloc: Global,
    router: &UrlPatternRouter<(), PatternRegexp>,
    method: &[u8],
    url: &[u8],
    base: &[u8],
    buffer: &mut [u8],
    needed: &mut usize,
) -> Status
    ensures { AreAllowedReported (AreTextsOfUrl url.now base.now) (IsNoUrl url.now base.now)
        router.now method.now buffer.old buffer.new needed.new result }
{
    let Ok(method) = str::from_utf8(method) else {
        return Status::NotUtf8;
    };
    let url = match url_of(alloc, url, base) {
        Ok(url) => url,
        Err(status) => return status,
    };
    match router.at_url(alloc, method, &url) {
        Ok(routed) => write_allowed(alloc, routed, buffer, needed),
        Err(_) => Status::OutOfMemory,
    }
}

/// Writes the methods that a router returned to `buffer`, and their length in bytes to `needed`.
/// `NoMatch`: it returned none.
fn write_allowed(
    alloc: Global,
    routed: Routed<'_, '_, (), PatternRegexp>,
    buffer: &mut [u8],
    needed: &mut usize,
) -> Status
    ensures { AreAllowedWritten routed.entry buffer.old buffer.new needed.new result }
{
    match routed {
        Routed::Found(_, _, _) => Status::NoMatch,
        Routed::MethodNotAllowed(allowed) => match methods_text(alloc, allowed) {
            Ok(text) => write(&text, buffer, needed),
            Err(_) => Status::OutOfMemory,
        },
        Routed::NotFound => Status::NoMatch,
    }
}

/// The methods, one after the other, with a comma and a space between two.
fn methods_text(
    alloc: Global,
    allowed: AllowedMethods<'_, '_, (), PatternRegexp>,
) -> Result<String, Error>
    ensures { IfOk result (λ text. AreMethodsIn (allowed_left allowed.entry) (string_bytes text)) }
{
    let mut methods = Vec::new(alloc);
    for method in allowed {
        methods.push(method?)?;
    }
    Ok(methods.join(alloc, ", ")?)
}
