//! Decides about requests by the static routes of a handle.

ghost use Rattle.std.specs.Prelude.{◌≡◌, map, option_copied, slice_get};
ghost use Rattle.urlpattern_ffi_routes.specs.DecidedRequests.{IsDecided, IsRequestDecided, IsSourceWritten};
ghost use Rattle.urlpattern_ffi_routes.specs.KeptRoutes.{boxed_routes};
ghost use Rattle.urlpattern_route_rules.specs.Fetches.{fetch_view};

use crate::numbers::source_number;
use crate::routes_box::RoutesBox;
use std::alloc::Global;
use std::str;
use urlpattern_ffi::{Status, url_of, write};
use urlpattern_route_rules::RouterFetch;
use urlpattern_routes::RouterRule;

/// Decides about a request, and writes the index of the rule that decides. `NoMatch`: no rule's
/// condition holds, and the index is unchanged.
pub fn decide_request(
    alloc: Global,
    kept: &Option<Box<RoutesBox>>,
    url: &[u8],
    method: &[u8],
    mode: &[u8],
    destination: &[u8],
    is_running: bool,
    rule: &mut usize,
) -> Status
    ensures { IsRequestDecided (boxed_routes kept.now).rules url.now method.now mode.now
        destination.now is_running rule.old rule.new result }
{
    let Ok(method) = str::from_utf8(method) else {
        return Status::NotUtf8;
    };
    let Ok(mode) = str::from_utf8(mode) else {
        return Status::NotUtf8;
    };
    let Ok(destination) = str::from_utf8(destination) else {
        return Status::NotUtf8;
    };
    let url = match url_of(alloc, url, b"") {
        Ok(url) => url,
        Err(status) => return status,
    };
    let request = RouterFetch {
        url: &url,
        method,
        mode,
        destination,
        is_running,
    };
    decide(alloc, kept, &request, rule)
}

/// Decides about a request, and writes the index of the rule that decides. `NoMatch`: no rule's
/// condition holds, and the index is unchanged.
fn decide(
    alloc: Global,
    kept: &Option<Box<RoutesBox>>,
    request: &RouterFetch<'_>,
    rule: &mut usize,
) -> Status
    ensures { IsDecided (boxed_routes kept.now).rules (fetch_view request.now) rule.old rule.new
        result }
{
    let Some(kept) = kept else {
        return Status::NoMatch;
    };
    match kept.rules.decide(alloc, request) {
        Ok(Some((index, _))) => {
            *rule = index;
            Status::Done
        }
        Ok(None) => Status::NoMatch,
        Err(_) => Status::OutOfMemory,
    }
}

/// Writes the number of the source of the rule at an index to `source`, the source's name in JSON
/// or that of its cache to `buffer`, and the length of that in bytes to `needed`. `NoPattern`:
/// there is no such rule.
pub fn write_source(
    kept: &Option<Box<RoutesBox>>,
    index: usize,
    source: &mut u32,
    buffer: &mut [u8],
    needed: &mut usize,
) -> Status
    ensures { IsSourceWritten (boxed_routes kept.now).rules index source.new buffer.old buffer.new
        needed.new result }
{
    match rule_at(kept, index) {
        Some(rule) => {
            *source = source_number(&rule.source);
            write(rule.source.as_str(), buffer, needed)
        }
        None => Status::NoPattern,
    }
}

/// The rule at an index, as it is given.
fn rule_at(kept: &Option<Box<RoutesBox>>, index: usize) -> Option<&RouterRule>
    ensures { option_copied result
        ≡ slice_get (map (λ rule. rule.value) (boxed_routes kept.now).rules) index }
{
    match kept {
        Some(kept) => match kept.rules.table.rules.get(index) {
            Some(rule) => Some(&rule.value),
            None => None,
        },
        None => None,
    }
}
