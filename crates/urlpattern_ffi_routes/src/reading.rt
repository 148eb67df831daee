//! Reads static routes from JSON.

ghost use Rattle.serde_json.specs.Read.{read};
ghost use Rattle.serde_json.specs.View.{view};
ghost use Rattle.std.specs.Prelude.{◌≡◌, IfErr, IfOk, Some};
ghost use Rattle.url.specs.Parts.{serialize};
ghost use Rattle.urlpattern_ffi_routes.specs.KeptRoutes.{boxed_routes, no_routes};
ghost use Rattle.urlpattern_ffi_routes.specs.ReadRoutes.{AreCompiled, AreRead, IsNoTree, limits_with};

use crate::routes_box::{RoutesBox, keep};
use serde_json::Value;
use std::alloc::Global;
use std::str;
use url::Url;
use urlpattern_ffi::{Status, url_of};
use urlpattern_route_rules::{RouterRules, RoutesError};
use urlpattern_routes::RouterLimits;

/// Reads rules in JSON, an array or a single one, and puts them into a handle in place of what it
/// had. `script` is the URL of the worker's script.
///
/// `Refused`: rules have faults, and the handle has all of them; or, if it has none, the text is
/// not JSON. Unless the status is `Done`, the handle has no rules.
pub fn read_routes(
    alloc: Global,
    kept: &mut Option<Box<RoutesBox>>,
    script: &[u8],
    json: &[u8],
    has_handler: bool,
) -> Status
    ensures { AreRead script.now json.now has_handler (boxed_routes kept.new) result }
{
    *kept = None;
    let url = match url_of(alloc, script, b"") {
        Ok(url) => url,
        Err(status) => return status,
    };
    match tree_of(alloc, json) {
        Ok(tree) => compile(alloc, kept, url, &tree, has_handler),
        Err(status) => status,
    }
}

/// Parses JSON.
///
/// The error is the status that says why it is not parsed: `NotUtf8`, `Refused` if it is not JSON,
/// or `OutOfMemory`.
fn tree_of(alloc: Global, json: &[u8]) -> Result<Value, Status>
    ensures found { IfOk result (λ tree. read json.now ≡ Some (view tree)) }
    ensures missing { IfErr result (IsNoTree json.now) }
{
    let Ok(text) = str::from_utf8(json) else {
        return Err(Status::NotUtf8);
    };
    match Value::from_str(alloc, text) {
        Ok(tree) => Ok(tree),
        Err(error) if error.is_memory() => Err(Status::OutOfMemory),
        Err(_) => Err(Status::Refused),
    }
}

/// Compiles rules, and puts them into an empty handle, or all of their faults.
fn compile(
    alloc: Global,
    kept: &mut Option<Box<RoutesBox>>,
    script: Url,
    tree: &Value,
    has_handler: bool,
) -> Status
    requires { boxed_routes kept.old ≡ no_routes }
    ensures { AreCompiled (serialize script) (limits_with has_handler) (view tree.now)
        (boxed_routes kept.new) result }
{
    let mut limits = RouterLimits::new();
    limits.has_handler = has_handler;
    let mut rules = RouterRules::new(alloc, script);
    match rules.add(alloc, tree, &limits) {
        Ok(()) => keep(alloc, kept, rules, Vec::new(alloc), Status::Done),
        Err(RoutesError::Rejected(faults)) => keep(alloc, kept, rules, faults, Status::Refused),
        Err(RoutesError::OutOfMemory) => Status::OutOfMemory,
    }
}
