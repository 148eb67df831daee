//! The command `policy diff`: compares two policies in files.

ghost use Rattle.std.specs.Prelude.{◌≡◌, ◌≢◌, ◌⊎◌, IfSome};
ghost use Rattle.urlpat_policies.specs.PolicyCommands.{Differs, IsCompared, PrintsCompared, are_texts, difference_status, has_doubts, has_texts, is_unknown};
ghost use Rattle.urlpat_policies.specs.PolicyFiles.{HasPolicy};
ghost use Rattle.urlpattern_compare.specs.declared.candidates.TheConstants.{USUAL_LIMITS};
ghost use Rattle.urlpattern_policy_differences.specs.Comparing.{AreDifferences};

use crate::policy_file::read_policy;
use crate::policy_printer::PolicyPrinter;
use crate::reports::{report_memory, report_refusal};
use std::alloc::Global;
use std::io::Write;
use urlpat_commands::Tables;
use urlpat_matching::{DONE, FAILED, NO_MATCH, print};
use urlpattern_compare::USUAL_LIMITS;
use urlpattern_matcher::regexp::RegExp;
use urlpattern_policy::UrlPolicy;
use urlpattern_policy_differences::{PolicyDifference, PolicyExcess, difference};

/// Runs `policy diff`. Returns the exit status: `DONE` if the policies of both files allow the same
/// texts, `NO_MATCH` if not, `FAILED` if that is not known, which is reported to `err`.
pub(crate) fn diff<R: RegExp, T: Tables, P: PolicyPrinter, Out: Write, Err: Write>(
    alloc: Global,
    files: &T,
    printer: &P,
    json: bool,
    old: &str,
    new: &str,
    out: &mut Out,
    err: &mut Err,
) -> u8
    ensures status { (result ≡ DONE) ⊎ (result ≡ NO_MATCH) ⊎ (result ≡ FAILED) }
    ensures answers { result ≢ FAILED → Differs R.RegExp (T.Has files.now old.now)
        (T.Has files.now new.now) (P.PrintsDifference printer.now json) result
        (Out.contents out.old) (Out.contents out.new) }
{
    let Some(found) = compared::<T, R, Err>(alloc, files, old, new, err) else {
        return FAILED;
    };
    let status = print_compared(alloc, printer, json, &found, out, err);
    drop(found);
    status
}

/// Compares the policies of two files. `None`: a file has no policy, or memory ran out, which is
/// reported.
fn compared<T: Tables, R: RegExp, Err: Write>(
    alloc: Global,
    files: &T,
    old: &str,
    new: &str,
    err: &mut Err,
) -> Option<PolicyDifference>
    ensures { IfSome result
        (IsCompared R.RegExp (T.Has files.now old.now) (T.Has files.now new.now)) }
{
    let policy: UrlPolicy<R> = policy_or_report(alloc, files, old, err)?;
    let Some(other) = policy_or_report(alloc, files, new, err) else {
        drop(policy);
        return None;
    };
    let found = difference_or_report(alloc, &policy, &other, err);
    drop(policy);
    drop(other);
    found
}

/// Reads the policy of a file. `None`: it has none, or memory ran out, which is reported.
fn policy_or_report<T: Tables, R: RegExp, Err: Write>(
    alloc: Global,
    files: &T,
    name: &str,
    err: &mut Err,
) -> Option<UrlPolicy<R>>
    ensures { IfSome result (HasPolicy R.RegExp (T.Has files.now name.now)) }
{
    match read_policy::<T, R>(alloc, files, name) {
        Ok(policy) => Some(policy),
        Err(refusal) => {
            report_refusal(alloc, name, &refusal, err);
            drop(refusal);
            None
        }
    }
}

/// Compares two policies. `None`: memory ran out, which is reported.
fn difference_or_report<R: RegExp, Err: Write>(
    alloc: Global,
    policy: &UrlPolicy<R>,
    other: &UrlPolicy<R>,
    err: &mut Err,
) -> Option<PolicyDifference>
    ensures { IfSome result (AreDifferences R.RegExp USUAL_LIMITS policy.now other.now) }
{
    match difference(alloc, policy, other, USUAL_LIMITS) {
        Ok(found) => Some(found),
        Err(_) => {
            report_memory(err);
            None
        }
    }
}

/// Prints how two policies differ, or reports that this is not known. Returns the exit status.
fn print_compared<P: PolicyPrinter, Out: Write, Err: Write>(
    alloc: Global,
    printer: &P,
    json: bool,
    found: &PolicyDifference,
    out: &mut Out,
    err: &mut Err,
) -> u8
    ensures status { (result ≡ DONE) ⊎ (result ≡ NO_MATCH) ⊎ (result ≡ FAILED) }
    ensures answers { result ≢ FAILED → PrintsCompared (P.PrintsDifference printer.now json)
        found.now result (Out.contents out.old) (Out.contents out.new) }
{
    let status = difference_status(found);
    let Ok(text) = printer.print_difference(alloc, json, found) else {
        report_memory(err);
        return FAILED;
    };
    if status == FAILED {
        let _ = err.write_all(text.as_bytes());
        return FAILED;
    }
    match print(text.as_bytes(), out) {
        Ok(()) => status,
        Err(_) => FAILED,
    }
}

/// Returns the exit status for what was found.
fn difference_status(found: &PolicyDifference) -> u8
    ensures either { (result ≡ DONE) ⊎ (result ≡ NO_MATCH) ⊎ (result ≡ FAILED) }
    ensures is { result ≡ difference_status found.now }
{
    if !found.same_spelling {
        return FAILED;
    }
    if has_texts(found) {
        return NO_MATCH;
    }
    if has_doubts(found) {
        return FAILED;
    }
    DONE
}

/// Whether texts are known that one policy allows and the other denies.
fn has_texts(found: &PolicyDifference) -> bool
    ensures { result ≡ has_texts found.now }
{
    are_texts(&found.gained) || are_texts(&found.lost)
}

/// Whether texts are known that the one policy allows and the other denies.
fn are_texts(excess: &PolicyExcess) -> bool
    ensures { result ≡ are_texts excess.now }
{
    matches!(excess, PolicyExcess::Texts(_))
}

/// Whether it is not known if texts exist that one policy allows and the other denies.
fn has_doubts(found: &PolicyDifference) -> bool
    ensures { result ≡ has_doubts found.now }
{
    is_unknown(&found.gained) || is_unknown(&found.lost)
}

/// Whether it is not known if texts exist that the one policy allows and the other denies.
fn is_unknown(excess: &PolicyExcess) -> bool
    ensures { result ≡ is_unknown excess.now }
{
    matches!(excess, PolicyExcess::Unknown(_))
}
