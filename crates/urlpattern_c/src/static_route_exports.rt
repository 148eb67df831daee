//! The functions on static routes of service workers. Each returns the number of a `Status`, apart
//! from `urlpattern_static_routes_free`.
ghost use Rattle.std.specs.Prelude.{◌≡◌, None};
ghost use Rattle.urlpattern_c.specs.Handles.{static_routes_in};
ghost use Rattle.urlpattern_ffi.specs.Calls.{ReturnsStatus};
ghost use Rattle.urlpattern_ffi_routes.specs.DecidedRequests.{IsRequestDecided, IsSourceWritten};
ghost use Rattle.urlpattern_ffi_routes.specs.ReadRoutes.{AreRead};
ghost use Rattle.urlpattern_ffi_routes.specs.WrittenFaults.{IsFaultWritten, IsTextAtFaultWritten};

use crate::static_routes::StaticRoutes;
use std::alloc::Global;
use urlpattern_ffi_routes::{
    FaultPlace, decide_request, read_routes, write_fault, write_source, write_text_at_fault,
};

/// Reads rules in JSON, an array or a single one, and puts them into a handle in place of what it
/// had. `script` is the URL of the worker's script. If rules have faults, the handle has these and
/// no rules; if another error occurs, it is empty.
#[unsafe(no_mangle)]
pub extern "C" fn urlpattern_static_routes_read(
    alloc: Global,
    routes: &mut StaticRoutes,
    script: &[u8],
    json: &[u8],
    has_handler: bool,
) -> u32
    ensures { ReturnsStatus
        (AreRead script.now json.now has_handler (static_routes_in routes.new)) result }
{
    let mut kept = routes.take(alloc);
    let status = read_routes(alloc, &mut kept, script, json, has_handler);
    routes.put(kept);
    status.number()
}

/// Writes the fault at an index to `fault`, and why it is one to `buffer`.
#[unsafe(no_mangle)]
pub extern "C" fn urlpattern_static_routes_fault(
    alloc: Global,
    routes: &mut StaticRoutes,
    index: usize,
    buffer: &mut [u8],
    needed: &mut usize,
    fault: &mut FaultPlace,
) -> u32
    ensures answer { ReturnsStatus (IsFaultWritten (static_routes_in routes.old).faults index
        buffer.old buffer.new needed.new fault.new) result }
    ensures unchanged { static_routes_in routes.new ≡ static_routes_in routes.old }
{
    let kept = routes.take(alloc);
    let status = write_fault(&kept, index, buffer, needed, fault);
    routes.put(kept);
    status.number()
}

/// Writes the text of a pattern in which the fault at an index is to `buffer`.
#[unsafe(no_mangle)]
pub extern "C" fn urlpattern_static_routes_text_at_fault(
    alloc: Global,
    routes: &mut StaticRoutes,
    index: usize,
    buffer: &mut [u8],
    needed: &mut usize,
) -> u32
    ensures answer { ReturnsStatus (IsTextAtFaultWritten (static_routes_in routes.old).faults index
        buffer.old buffer.new needed.new) result }
    ensures unchanged { static_routes_in routes.new ≡ static_routes_in routes.old }
{
    let kept = routes.take(alloc);
    let status = write_text_at_fault(&kept, index, buffer, needed);
    routes.put(kept);
    status.number()
}

/// Decides about a request, and writes the index of the rule that decides.
#[unsafe(no_mangle)]
pub extern "C" fn urlpattern_static_routes_decide(
    alloc: Global,
    routes: &mut StaticRoutes,
    url: &[u8],
    method: &[u8],
    mode: &[u8],
    destination: &[u8],
    is_running: bool,
    rule: &mut usize,
) -> u32
    ensures answer { ReturnsStatus (IsRequestDecided (static_routes_in routes.old).rules url.now
        method.now mode.now destination.now is_running rule.old rule.new) result }
    ensures unchanged { static_routes_in routes.new ≡ static_routes_in routes.old }
{
    let kept = routes.take(alloc);
    let status = decide_request(
        alloc,
        &kept,
        url,
        method,
        mode,
        destination,
        is_running,
        rule,
    );
    routes.put(kept);
    status.number()
}

/// Writes the source of the rule at an index: its number to `source`, and its name in JSON, or that
/// of its cache, to `buffer`.
#[unsafe(no_mangle)]
pub extern "C" fn urlpattern_static_routes_source(
    alloc: Global,
    routes: &mut StaticRoutes,
    index: usize,
    source: &mut u32,
    buffer: &mut [u8],
    needed: &mut usize,
) -> u32
    ensures answer { ReturnsStatus (IsSourceWritten (static_routes_in routes.old).rules index
        source.new buffer.old buffer.new needed.new) result }
    ensures unchanged { static_routes_in routes.new ≡ static_routes_in routes.old }
{
    let kept = routes.take(alloc);
    let status = write_source(&kept, index, source, buffer, needed);
    routes.put(kept);
    status.number()
}

/// Frees the static routes. The handle is then empty, and freeing it again does nothing.
#[unsafe(no_mangle)]
pub extern "C" fn urlpattern_static_routes_free(alloc: Global, routes: &mut StaticRoutes)
    ensures { routes.new.slot.held ≡ None }
{
    drop(routes.take(alloc));
}
