//! Runs the commands on static routes.

ghost use Rattle.std.specs.Prelude.{◌≡◌, ◌≢◌, ◌⊎◌};
ghost use Rattle.urlpat_routes.specs.RouteCommands.{Runs};

use crate::checking::check;
use crate::command::RouteCommand;
use crate::comparing::diff;
use crate::deciding::decide;
use crate::route_printer::RoutePrinter;
use std::alloc::Global;
use std::io::Write;
use urlpat_commands::Tables;
use urlpat_matching::{DONE, FAILED, NO_MATCH};
use urlpattern_matcher::regexp::RegExp;

/// Runs a command on static routes. Returns the exit status.
///
/// Rules are read from `files`. The URL of the worker's script, `script`, is the base of patterns
/// and of other URLs. What is found is written to `out`, as `printer` prints it, and why a command
/// failed to `err`.
pub fn run_on_routes<R: RegExp, T: Tables, P: RoutePrinter, Out: Write, Err: Write>(
    alloc: Global,
    files: &T,
    printer: &P,
    json: bool,
    script: &str,
    command: RouteCommand<'_>,
    out: &mut Out,
    err: &mut Err,
) -> u8
    ensures status { (result ≡ DONE) ⊎ (result ≡ NO_MATCH) ⊎ (result ≡ FAILED) }
    ensures answers { result ≢ FAILED
        → Runs R.RegExp (T.Has files.now) (record {
          PrintsRefusal = P.PrintsRefusal printer.now json;
          PrintsUses = P.PrintsUses printer.now json;
          PrintsDecision = P.PrintsDecision printer.now json;
          PrintsDifference = P.PrintsDifference printer.now json;
        }) script.now command.entry result (Out.contents out.old) (Out.contents out.new) }
    ensures quiet { result ≢ FAILED → err.new ≡ err.old }
{
    match command {
        RouteCommand::Check(file, scope) => check::<R, T, P, Out, Err>(
            alloc, files, printer, json, script, file, scope, out, err,
        ),
        RouteCommand::Decide(file, asked) => decide::<R, T, P, Out, Err>(
            alloc, files, printer, json, script, file, asked, out, err,
        ),
        RouteCommand::Diff(old, new) => diff::<R, T, P, Out, Err>(
            alloc, files, printer, json, script, old, new, out, err,
        ),
    }
}
