//! Writes the URL of the route with a name, for given groups.
ghost use Rattle.std.specs.Prelude.{IfErr, IfOk};
ghost use Rattle.urlpattern_ffi_tables.specs.KeptRouters.{boxed_router};
ghost use Rattle.urlpattern_ffi_tables.specs.RouteLinks.{IsLinkFound, IsLinkWritten, IsNamedLinkWritten, IsNoLinkFound, IsRouteLinkReported};

use crate::router_box::{RouterBox, router_of, router_without_routes};
use std::alloc::Global;
use std::str;
use url::Url;
use urlpattern::regexp::PatternRegexp;
use urlpattern::{NoLink, UrlPatternRouter};
use urlpattern_ffi::{GivenBytes, Status, write, write_reason};
use urlpattern_ffi_links::{Unlinked, groups_of};

/// Writes the URL of the first route with a name, with the groups that `given` cuts out of `text`,
/// percent-encoded, to `buffer`, and its length in bytes to `needed`. `NoMatch`: no route has the
/// name. `Refused`: there is no URL, and the reason is written in its place. `NoPattern`: an
/// element of `given` gives no group.
pub fn link_route(
    alloc: Global,
    kept: &Option<Box<RouterBox>>,
    name: &[u8],
    text: &[u8],
    given: &[GivenBytes],
    buffer: &mut [u8],
    needed: &mut usize,
) -> Status
    ensures { IsRouteLinkReported (boxed_router kept.now) name.now text.now given.now buffer.old
        buffer.new needed.new result }
{
    let Ok(name) = str::from_utf8(name) else {
        return Status::NotUtf8;
    };
    match router_of(kept) {
        Some(router) => link_named(alloc, router, name, text, given, buffer, needed),
        None => {
            let router = router_without_routes(alloc, kept);
            link_named(alloc, &router, name, text, given, buffer, needed)
        }
    }
}

/// Writes the URL of the first route of a router with a name, with the groups that `given` cuts out
/// of `text`, percent-encoded, to `buffer`, and its length in bytes to `needed`. `NoMatch`: no
/// route has the name. `Refused`: there is no URL, and the reason is written in its place.
/// `NoPattern`: an element of `given` gives no group.
fn link_named(
    alloc: Global,
    router: &UrlPatternRouter<(), PatternRegexp>,
    name: &str,
    text: &[u8],
    given: &[GivenBytes],
    buffer: &mut [u8],
    needed: &mut usize,
) -> Status
    ensures { IsNamedLinkWritten router.now name.now text.now given.now buffer.old buffer.new
        needed.new result }
{
    match find_link(alloc, router, name, text, given) {
        Ok(link) => write_link(link, buffer, needed),
        Err(Unlinked::NoLink(reason)) => write_reason(alloc, &reason, buffer, needed),
        Err(Unlinked::Given) => Status::NoPattern,
        Err(Unlinked::OutOfMemory) => Status::OutOfMemory,
    }
}

/// Returns the URL of the first route of a router with a name, with the groups that `given` cuts
/// out of `text`, percent-encoded. `None`: no route has the name.
///
/// The error is the reason why there is no URL.
fn find_link(
    alloc: Global,
    router: &UrlPatternRouter<(), PatternRegexp>,
    name: &str,
    text: &[u8],
    given: &[GivenBytes],
) -> Result<Option<Url>, Unlinked>
    ensures linked { IfOk result (IsLinkFound router.now name.now text.now given.now) }
    ensures refused { IfErr result (IsNoLinkFound router.now name.now text.now given.now) }
{
    let groups = match groups_of(alloc, text, given) {
        Ok(groups) => groups,
        Err(error) => return Err(error),
    };
    match router.link(alloc, name, &groups) {
        Ok(url) => Ok(url),
        Err(NoLink::OutOfMemory) => Err(Unlinked::OutOfMemory),
        Err(error) => Err(Unlinked::NoLink(error)),
    }
}

/// Writes a URL to `buffer`, and its length in bytes to `needed`. `NoMatch`: there is none.
fn write_link(link: Option<Url>, buffer: &mut [u8], needed: &mut usize) -> Status
    ensures { IsLinkWritten link buffer.old buffer.new needed.new result }
{
    match link {
        Some(url) => write(url.as_str(), buffer, needed),
        None => Status::NoMatch,
    }
}
