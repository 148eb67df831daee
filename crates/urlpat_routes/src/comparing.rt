//! The command `routes diff`: compares the rules of two files.

ghost use Rattle.std.specs.List.{list_any};
ghost use Rattle.std.specs.Prelude.{◌≡◌, ◌≢◌, ◌⊎◌, ◌||◌, IfErr, IfOk, IfSome, not, option_copied};
ghost use Rattle.urlpat_routes.specs.RouteCommands.{Differs, ShowsDifference, difference_status};
ghost use Rattle.urlpat_routes.specs.RouteUses.{AreCompared, AreDifferences, has_url, is_change, is_named, is_same_source, lack_parts, rule_at, source_of};
ghost use Rattle.urlpattern_route_analysis.specs.Making.{IsLacking};
ghost use Rattle.urlpattern_routes.specs.Sources.{source_text};

use crate::checking::found_status;
use crate::reports::{report_comparison, show};
use crate::route_file::routes_or_report;
use crate::route_printer::RoutePrinter;
use crate::rule_use::CASE_LIMITS;
use std::alloc::Global;
use std::io::Write;
use urlpat_commands::Tables;
use urlpat_matching::{DONE, FAILED, NO_MATCH};
use urlpattern_matcher::regexp::RegExp;
use urlpattern_pattern::CompareError;
use urlpattern_route_analysis::{Analysis, Decisions, JointDecision, route_attributes};
use urlpattern_route_rules::RouterRules;
use urlpattern_routes::{RouterRule, RouterSource};
use urlpattern_urls::CommonUrl;

/// Runs `routes diff`. Returns the exit status: `DONE` if the response to each request comes from
/// the same source by the rules of both files, `NO_MATCH` if not, `FAILED` if that is not known,
/// which is reported to `err`.
pub(crate) fn diff<R: RegExp, T: Tables, P: RoutePrinter, Out: Write, Err: Write>(
    alloc: Global,
    files: &T,
    printer: &P,
    json: bool,
    script: &str,
    old: &str,
    new: &str,
    out: &mut Out,
    err: &mut Err,
) -> u8
    ensures status { (result ≡ DONE) ⊎ (result ≡ NO_MATCH) ⊎ (result ≡ FAILED) }
    ensures answers { result ≢ FAILED → Differs R.RegExp (T.Has files.now old.now)
        (T.Has files.now new.now) (P.PrintsDifference printer.now json) script.now result
        (Out.contents out.old) (Out.contents out.new) }
    ensures quiet { result ≢ FAILED → err.new ≡ err.old }
{
    let found = routes_or_report::<R, T, Err>(alloc, files, script, old, err);
    let Some(rules) = found else {
        return FAILED;
    };
    let found = routes_or_report::<R, T, Err>(alloc, files, script, new, err);
    let Some(others) = found else {
        return FAILED;
    };
    let status = diff_rules(alloc, printer, json, &rules, &others, out, err);
    drop(rules);
    drop(others);
    status
}

/// Prints requests whose responses come from elsewhere by the new rules. Returns the exit status.
fn diff_rules<R: RegExp, P: RoutePrinter, Out: Write, Err: Write>(
    alloc: Global,
    printer: &P,
    json: bool,
    old: &RouterRules<R>,
    new: &RouterRules<R>,
    out: &mut Out,
    err: &mut Err,
) -> u8
    ensures status { (result ≡ DONE) ⊎ (result ≡ NO_MATCH) ⊎ (result ≡ FAILED) }
    ensures answers { result ≢ FAILED → ShowsDifference R.RegExp
        (P.PrintsDifference printer.now json) old.now.table.rules.items new.now.table.rules.items
        result (Out.contents out.old) (Out.contents out.new) }
    ensures quiet { result ≢ FAILED → err.new ≡ err.old }
{
    match differences(alloc, old, new) {
        Ok(found) => {
            let printed = printer.print_difference(alloc, json, old, new, &found);
            let status = difference_status(&found);
            drop(found);
            show(status, printed, out, err)
        }
        Err(error) => {
            report_comparison(error, err);
            FAILED
        }
    }
}

/// Finds requests whose responses come from elsewhere by the new rules.
fn differences<R: RegExp>(
    alloc: Global,
    old: &RouterRules<R>,
    new: &RouterRules<R>,
) -> Result<Decisions, CompareError>
    ensures are { IfOk result (AreDifferences R.RegExp old.now.table.rules.items
        new.now.table.rules.items) }
    ensures missing { IfErr result (IsLacking
        (lack_parts old.now.table.rules.items || lack_parts new.now.table.rules.items)) }
{
    let mut found = compared(alloc, old, new)?;
    found.found.retain(|it| is_change(old, new, it));
    Ok(found)
}

/// Finds which rules of two tables decide about the same request.
fn compared<R: RegExp>(
    alloc: Global,
    old: &RouterRules<R>,
    new: &RouterRules<R>,
) -> Result<Decisions, CompareError>
    ensures are { IfOk result (AreCompared R.RegExp old.now.table.rules.items
        new.now.table.rules.items) }
    ensures missing { IfErr result (IsLacking
        (lack_parts old.now.table.rules.items || lack_parts new.now.table.rules.items)) }
{
    let attributes = route_attributes();
    let mut analysis = Analysis::new(alloc, &attributes, CASE_LIMITS)?;
    let ones = analysis.formulas(&old.table)?;
    let others = analysis.formulas(&new.table)?;
    let found = analysis.decisions(&ones, &others)?;
    Ok(found)
}

/// Whether the response comes from elsewhere by the new rules.
fn is_change<R: RegExp>(old: &RouterRules<R>, new: &RouterRules<R>, it: &JointDecision) -> bool
    ensures { result ≡ is_change old.now.table.rules.items new.now.table.rules.items it.now }
{
    !is_same_source(rule_at(old, it.one), rule_at(new, it.other))
}

/// Returns the rule at an index, as it is given. `None`: there is no rule.
pub(crate) fn rule_at<R: RegExp>(
    rules: &RouterRules<R>,
    index: Option<usize>,
) -> Option<&RouterRule>
    ensures { option_copied result ≡ rule_at rules.now.table.rules.items index }
{
    match index {
        Some(index) => match rules.table.rules.get(index) {
            Some(rule) => Some(&rule.value),
            None => None,
        },
        None => None,
    }
}

/// Whether two rules have the same source. Where no rule decides, the handler of the event `fetch`
/// gets the request.
fn is_same_source(one: Option<&RouterRule>, other: Option<&RouterRule>) -> bool
    ensures { result ≡ is_same_source (source_of (option_copied one.entry))
        (source_of (option_copied other.entry)) }
{
    is_named(one) == is_named(other) && source_name(one) == source_name(other)
}

/// Whether the source of a rule is a cache with a name.
fn is_named(rule: Option<&RouterRule>) -> bool
    ensures { result ≡ is_named (source_of (option_copied rule.entry)) }
{
    match rule {
        Some(rule) => matches!(rule.source, RouterSource::NamedCache(_)),
        None => false,
    }
}

/// Returns the name of a rule's source, or that of its cache.
fn source_name(rule: Option<&RouterRule>) -> &str
    ensures { result.now ≡ source_text (source_of (option_copied rule.entry)) }
{
    match rule {
        Some(rule) => rule.source.as_str(),
        None => "fetch-event",
    }
}

/// Returns the exit status for requests whose responses come from elsewhere.
fn difference_status(found: &Decisions) -> u8
    ensures either { (result ≡ DONE) ⊎ (result ≡ NO_MATCH) ⊎ (result ≡ FAILED) }
    ensures is { result ≡ difference_status found.now }
{
    let any = any_url(&found.found);
    let doubt = any_doubt(&found.found);
    found_status(any, !found.is_complete || doubt)
}

/// Whether a request is known.
fn any_url(found: &[JointDecision]) -> bool
    ensures { result ≡ list_any has_url found.now }
{
    found.iter().any(|it| has_url(it))
}

/// Whether it is not known if there is a request.
fn any_doubt(found: &[JointDecision]) -> bool
    ensures { result ≡ list_any (λ it. not (has_url it)) found.now }
{
    found.iter().any(|it| !has_url(it))
}

/// Whether the request is known.
pub(crate) fn has_url(it: &JointDecision) -> bool
    ensures { result ≡ has_url it.now }
{
    matches!(it.url, CommonUrl::Url(_))
}
