//! Static routes in files.

ghost use Rattle.std.specs.Prelude.{◌≡◌, IfErr, IfOk, IfSome, Ok};
ghost use Rattle.std.specs.Str.{IsUtf8};
ghost use Rattle.serde_json.specs.View.{view};
ghost use Rattle.url.specs.Parts.{serialize};
ghost use Rattle.urlpat_routes.specs.RouteFiles.{AreCompiled, AreIn, HasRoutes, IsScript};

use crate::reports::{report_memory, report_refusal, url_or_report};
use serde_json::Value;
use std::alloc::{AllocError, Global};
use std::io::Write;
use std::str;
use url::Url;
use urlpat_commands::{Tables, read_table};
use urlpattern_matcher::regexp::RegExp;
use urlpattern_route_rules::{RouteFault, RouterRules, RoutesError};
use urlpattern_routes::RouterLimits;

/// The reason why a file is rejected.
#[derive(Drop)]
pub enum NoRoutes {
    /// The file is not UTF-8.
    NotUtf8,
    /// The file is not JSON.
    NotJson(serde_json::Error),
    /// The rules have these faults.
    Rejected(Vec<RouteFault>),
}

/// Rules, or why there are none, or that memory ran out.
type Made<R> = Result<Result<RouterRules<R>, NoRoutes>, AllocError>;

/// Reads the rules of a file, of the worker whose script has this URL, or returns why the file has
/// none. `None`: the script has no URL, the file cannot be read, or memory ran out, which is
/// reported.
pub(crate) fn read_routes<R: RegExp, T: Tables, Err: Write>(
    alloc: Global,
    files: &T,
    script: &str,
    name: &str,
    err: &mut Err,
) -> Option<Result<RouterRules<R>, NoRoutes>>
    ensures routes { IfSome result (HasRoutes R.RegExp (T.Has files.now name.now) script.now) }
    ensures quiet { IfSome result (λ _. err.new ≡ err.old) }
{
    let url = script_or_report(alloc, script, err)?;
    let bytes = read_table(files, name, err)?;
    let found = routes_in(alloc, url, &bytes);
    drop(bytes);
    match found {
        Ok(found) => Some(found),
        Err(_) => {
            report_memory(err);
            None
        }
    }
}

/// Reads the rules of a file, of the worker whose script has this URL. `None`: the file has none,
/// or this is not known, which is reported.
pub(crate) fn routes_or_report<R: RegExp, T: Tables, Err: Write>(
    alloc: Global,
    files: &T,
    script: &str,
    name: &str,
    err: &mut Err,
) -> Option<RouterRules<R>>
    ensures routes { IfSome result (λ rules.
        HasRoutes R.RegExp (T.Has files.now name.now) script.now (Ok rules)) }
    ensures quiet { IfSome result (λ _. err.new ≡ err.old) }
{
    match read_routes::<R, T, Err>(alloc, files, script, name, err)? {
        Ok(rules) => Some(rules),
        Err(refusal) => {
            report_refusal(alloc, name, &refusal, err);
            drop(refusal);
            None
        }
    }
}

/// Parses a text as the URL of a script, which has no fragment. `None`: it is none or is too long,
/// or memory ran out, which is reported.
fn script_or_report<Err: Write>(alloc: Global, text: &str, err: &mut Err) -> Option<Url>
    ensures url { IfSome result (IsScript text.now) }
    ensures quiet { IfSome result (λ _. err.new ≡ err.old) }
{
    let mut url = url_or_report(alloc, text, None, err)?;
    match url.set_fragment(None) {
        Ok(()) => Some(url),
        Err(_) => {
            report_memory(err);
            None
        }
    }
}

/// Returns the rules that bytes have, or why they have none.
fn routes_in<R: RegExp>(alloc: Global, script: Url, bytes: &[u8]) -> Made<R>
    ensures are { IfOk result (AreIn R.RegExp (serialize script) bytes.now) }
    ensures memory { IfErr result (λ _. IsUtf8 bytes.now) }
{
    let Ok(text) = str::from_utf8(bytes) else {
        return Ok(Err(NoRoutes::NotUtf8));
    };
    match Value::from_str(alloc, text) {
        Ok(tree) => {
            let found = compiled(alloc, script, &tree);
            drop(tree);
            found
        }
        Err(error) if error.is_memory() => Err(AllocError),
        Err(error) => Ok(Err(NoRoutes::NotJson(error))),
    }
}

/// Returns the rules that JSON has, or why it has none.
fn compiled<R: RegExp>(alloc: Global, script: Url, tree: &Value) -> Made<R>
    ensures { IfOk result (AreCompiled R.RegExp (serialize script) (view tree.now)) }
{
    let mut rules = RouterRules::new(alloc, script);
    match rules.add(alloc, tree, &RouterLimits::new()) {
        Ok(()) => Ok(Ok(rules)),
        Err(RoutesError::Rejected(faults)) => Ok(Err(NoRoutes::Rejected(faults))),
        Err(RoutesError::OutOfMemory) => Err(AllocError),
    }
}
