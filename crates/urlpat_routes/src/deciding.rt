//! The command `routes decide`: decides about a request.

ghost use Rattle.std.specs.Prelude.{◌≡◌, ◌≢◌, ◌⊎◌};
ghost use Rattle.urlpat_routes.specs.RouteCommands.{Decides, ShowsDecision};

use crate::command::AskedRequest;
use crate::reports::{report_memory, show, url_or_report};
use crate::route_file::routes_or_report;
use crate::route_printer::RoutePrinter;
use std::alloc::Global;
use std::io::Write;
use url::Url;
use urlpat_commands::Tables;
use urlpat_matching::{DONE, FAILED, NO_MATCH, status_of};
use urlpattern_matcher::regexp::RegExp;
use urlpattern_route_rules::{RouterFetch, RouterRules};

/// Runs `routes decide`. Returns the exit status: `DONE` if a rule of the file decides about the
/// request, `NO_MATCH` if none does.
pub(crate) fn decide<R: RegExp, T: Tables, P: RoutePrinter, Out: Write, Err: Write>(
    alloc: Global,
    files: &T,
    printer: &P,
    json: bool,
    script: &str,
    file: &str,
    asked: AskedRequest<'_>,
    out: &mut Out,
    err: &mut Err,
) -> u8
    ensures status { (result ≡ DONE) ⊎ (result ≡ NO_MATCH) ⊎ (result ≡ FAILED) }
    ensures answers { result ≢ FAILED → Decides R.RegExp (T.Has files.now file.now)
        (P.PrintsDecision printer.now json) script.now asked.entry result
        (Out.contents out.old) (Out.contents out.new) }
    ensures quiet { result ≢ FAILED → err.new ≡ err.old }
{
    let found = routes_or_report::<R, T, Err>(alloc, files, script, file, err);
    let Some(rules) = found else {
        return FAILED;
    };
    let Some(url) = url_or_report(alloc, asked.url, Some(script), err) else {
        return FAILED;
    };
    let status = decide_by(alloc, printer, json, &rules, &url, asked, out, err);
    drop(rules);
    status
}

/// Prints the rule that decides about the request with this URL. Returns the exit status.
fn decide_by<R: RegExp, P: RoutePrinter, Out: Write, Err: Write>(
    alloc: Global,
    printer: &P,
    json: bool,
    rules: &RouterRules<R>,
    url: &Url,
    asked: AskedRequest<'_>,
    out: &mut Out,
    err: &mut Err,
) -> u8
    ensures status { (result ≡ DONE) ⊎ (result ≡ NO_MATCH) ⊎ (result ≡ FAILED) }
    ensures answers { result ≢ FAILED → ShowsDecision R.RegExp
        (P.PrintsDecision printer.now json) url.now asked.entry rules.now.table.rules.items result
        (Out.contents out.old) (Out.contents out.new) }
    ensures quiet { result ≢ FAILED → err.new ≡ err.old }
{
    let request = RouterFetch {
        url,
        method: asked.method,
        mode: asked.mode,
        destination: asked.destination,
        is_running: asked.is_running,
    };
    let Ok(decided) = rules.decide(alloc, &request) else {
        report_memory(err);
        return FAILED;
    };
    let printed = printer.print_decision(alloc, json, decided);
    show(status_of(decided.is_some()), printed, out, err)
}
