//! The command `policy check`: finds the faults of a policy in a file.

ghost use Rattle.std.specs.Prelude.{◌≡◌, ◌≢◌, ◌⊎◌};
ghost use Rattle.urlpat_policies.specs.PolicyCommands.{Checks, PrintsRefusal};

use crate::policy_file::{NoPolicy, read_policy};
use crate::policy_printer::PolicyPrinter;
use crate::reports::{is_failure, report_memory, report_refusal};
use std::alloc::Global;
use std::io::Write;
use urlpat_commands::Tables;
use urlpat_matching::{DONE, FAILED, NO_MATCH, print};
use urlpattern_matcher::regexp::RegExp;

/// Runs `policy check`. Returns the exit status: `DONE` if the file has a policy; `NO_MATCH` if it
/// has none, which is printed with all faults.
pub(crate) fn check<R: RegExp, T: Tables, P: PolicyPrinter, Out: Write, Err: Write>(
    alloc: Global,
    files: &T,
    printer: &P,
    json: bool,
    file: &str,
    out: &mut Out,
    err: &mut Err,
) -> u8
    ensures status { (result ≡ DONE) ⊎ (result ≡ NO_MATCH) ⊎ (result ≡ FAILED) }
    ensures answers { result ≢ FAILED → Checks R.RegExp (T.Has files.now file.now)
        (P.PrintsFaults printer.now json) result (Out.contents out.old) (Out.contents out.new) }
{
    match read_policy::<T, R>(alloc, files, file) {
        Ok(policy) => {
            drop(policy);
            DONE
        }
        Err(refusal) => {
            let status = print_refusal(alloc, printer, json, file, &refusal, out, err);
            drop(refusal);
            status
        }
    }
}

/// Prints why a file has no policy, or reports that this is not known. Returns the exit status.
fn print_refusal<P: PolicyPrinter, Out: Write, Err: Write>(
    alloc: Global,
    printer: &P,
    json: bool,
    file: &str,
    refusal: &NoPolicy,
    out: &mut Out,
    err: &mut Err,
) -> u8
    ensures either { (result ≡ NO_MATCH) ⊎ (result ≡ FAILED) }
    ensures answers { result ≢ FAILED → PrintsRefusal (P.PrintsFaults printer.now json) refusal.now
        (Out.contents out.old) (Out.contents out.new) }
{
    if is_failure(refusal) {
        report_refusal(alloc, file, refusal, err);
        return FAILED;
    }
    let Ok(text) = printer.print_faults(alloc, json, refusal) else {
        report_memory(err);
        return FAILED;
    };
    match print(text.as_bytes(), out) {
        Ok(()) => NO_MATCH,
        Err(_) => FAILED,
    }
}
