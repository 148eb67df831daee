//! The command `covers`: whether a pattern matches everything that another one matches.

ghost use Rattle.std.specs.Prelude.{◌≡◌, ◌≢◌, ◌⊎◌, option_copied, IfSome};
ghost use Rattle.urlpat_commands.specs.Coverings.{ComparesWith, PrintsDecided, PrintsWhether, PrintsWhich, parting_status};

use crate::comparison_text::{covering_shown, reason_text};
use crate::text_parts::parts_or_report;
use std::alloc::Global;
use std::io::Write;
use urlpat_matching::{CoversArguments, DONE, FAILED, Flags, NO_MATCH, print};
use urlpattern::rules::{Parting, PatternCovering};

/// Runs `covers`. Returns the exit status: `DONE` if the first pattern covers the second, the asked
/// one, `NO_MATCH` if not, `FAILED` if that is not known, which is reported to `err`.
pub fn covers<Out: Write, Err: Write>(
    alloc: Global,
    patterns: CoversArguments<'_>,
    flags: Flags,
    out: &mut Out,
    err: &mut Err,
) -> u8
    ensures status { (result ≡ DONE) ⊎ (result ≡ NO_MATCH) ⊎ (result ≡ FAILED) }
    ensures answers { result ≢ FAILED
        → PrintsWhether flags patterns.entry result (Out.contents out.old) (Out.contents out.new) }
    ensures quiet { result ≢ FAILED → err.new ≡ err.old }
{
    let Some(covering) = compared(alloc, patterns, flags.ignore_case, err) else {
        return FAILED;
    };
    let status = print_covering(alloc, flags.json, &covering, out, err);
    drop(covering);
    status
}

/// Compares two patterns: whether the first one covers the asked one. `None`: a pattern is
/// rejected, or memory ran out, which is reported.
fn compared<Err: Write>(
    alloc: Global,
    patterns: CoversArguments<'_>,
    ignore_case: bool,
    err: &mut Err,
) -> Option<PatternCovering>
    ensures covering { IfSome result (ComparesWith ignore_case patterns.entry) }
    ensures quiet { IfSome result (λ covering. err.new ≡ err.old) }
{
    let base = patterns.base;
    let parts = parts_or_report(alloc, patterns.pattern, base, ignore_case, err)?;
    let asked_parts = parts_or_report(alloc, patterns.asked, base, ignore_case, err);
    let Some(asked_parts) = asked_parts else {
        drop(parts);
        return None;
    };
    let covering = parts.covers(alloc, &asked_parts);
    drop(parts);
    drop(asked_parts);
    match covering {
        Ok(covering) => Some(covering),
        Err(_) => {
            let _ = err.write_all(b"out of memory\n");
            None
        }
    }
}

/// Prints whether a pattern covers the asked one, or reports why that is not known. Returns the
/// exit status.
fn print_covering<Out: Write, Err: Write>(
    alloc: Global,
    json: bool,
    covering: &PatternCovering,
    out: &mut Out,
    err: &mut Err,
) -> u8
    ensures status { (result ≡ DONE) ⊎ (result ≡ NO_MATCH) ⊎ (result ≡ FAILED) }
    ensures answers { result ≢ FAILED → PrintsWhich json covering.now result
        (Out.contents out.old) (Out.contents out.new) }
    ensures quiet { result ≢ FAILED → err.new ≡ err.old }
{
    match covering {
        PatternCovering::Covered => print_decided(alloc, json, None, out, err),
        PatternCovering::NotCovered(parting) => {
            print_decided(alloc, json, Some(parting), out, err)
        }
        PatternCovering::Unknown(component, reason) => {
            let why = reason_text(*reason);
            let _ = writeln!(err, "urlpat: not known: the {component} {why}");
            FAILED
        }
    }
}

/// Prints whether a pattern covers the asked one. `parting` shows that it does not. Returns the
/// exit status.
fn print_decided<Out: Write, Err: Write>(
    alloc: Global,
    json: bool,
    parting: Option<&Parting>,
    out: &mut Out,
    err: &mut Err,
) -> u8
    ensures status { (result ≡ DONE) ⊎ (result ≡ NO_MATCH) ⊎ (result ≡ FAILED) }
    ensures answers { result ≢ FAILED → PrintsDecided json (option_copied parting.entry) result
        (Out.contents out.old) (Out.contents out.new) }
    ensures quiet { result ≢ FAILED → err.new ≡ err.old }
{
    let Ok(text) = covering_shown(alloc, json, parting) else {
        let _ = err.write_all(b"out of memory\n");
        return FAILED;
    };
    match print(text.as_bytes(), out) {
        Ok(()) => parting_status(parting),
        Err(_) => FAILED,
    }
}

/// The exit status: whether a pattern covers the asked one. `parting` shows that it does not.
fn parting_status(parting: Option<&Parting>) -> u8
    ensures either { (result ≡ DONE) ⊎ (result ≡ NO_MATCH) }
    ensures is { result ≡ parting_status (option_copied parting.entry) }
{
    match parting {
        None => DONE,
        Some(_) => NO_MATCH,
    }
}
