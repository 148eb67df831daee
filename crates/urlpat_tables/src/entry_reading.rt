//! Compiles the patterns in the lines of a table.

ghost use Rattle.std.specs.Prelude.{IfErr, IfOk, option_copied};
ghost use Rattle.urlpat_matching.specs.PatternWords.{RejectsPatternOf};
ghost use Rattle.urlpat_tables.specs.TableRules.{IsCompiledTo, IsDiagnosed, IsRejectedCell};
ghost use Rattle.urlpat_matching.specs.Tables.{entry_view};
ghost use Rattle.urlpattern.specs.Errors.{error_view};

use crate::table_fault::{FaultReason, TableFault};
use std::alloc::Global;
use urlpat_matching::{Entry, GivenPattern, compiled};
use urlpattern::error::OutOfMemory;
use urlpattern::regexp::PatternRegexp;
use urlpattern::{Diagnosis, Error, RegexSyntax, Subject, UrlPattern, UrlPatternOptions};
use urlpattern_policy_text::{column_of, not_memory, place_in};

/// A pattern that is compiled, or the fault with which it is rejected.
pub(crate) type Compiled = Result<UrlPattern<PatternRegexp>, TableFault>;

/// How patterns of a table are compiled.
#[derive(Clone, Copy)]
pub(crate) struct Compiling<'w> {
    /// The base URL.
    pub base: Option<&'w str>,
    /// Whether patterns ignore case.
    pub ignore_case: bool,
}

/// Compiles a pattern in the line of an entry, or returns the fault with which it is rejected.
/// `rest` is what the line has from the pattern on, without white space at its end.
pub(crate) fn compiled_cell(
    alloc: Global,
    how: Compiling<'_>,
    entry: Entry<'_>,
    rest: &str,
    pattern: &str,
) -> Result<Compiled, OutOfMemory>
    ensures compiled { IfOk result (λ it. IfOk it
        (IsCompiledTo how.entry.ignore_case (option_copied how.entry.base) pattern.now)) }
    ensures rejected { IfOk result (λ it. IfErr it (IsRejectedCell how.entry.ignore_case
        (option_copied how.entry.base) (entry_view entry.entry) rest.now pattern.now)) }
{
    let text = GivenPattern::Text(pattern);
    match compiled(alloc, text, how.base, how.ignore_case) {
        Ok(compiled) => Ok(Ok(compiled)),
        Err(error) => {
            let error = not_memory(error)?;
            let diagnosis = diagnosed(alloc, how, pattern, error)?;
            Ok(Err(TableFault {
                line: entry.number,
                column: column_of(entry.line, rest, place_in(pattern, &diagnosis)),
                reason: FaultReason::Rejected(diagnosis),
            }))
        }
    }
}

/// Returns the diagnosis of a pattern that is rejected with the error.
fn diagnosed(
    alloc: Global,
    how: Compiling<'_>,
    pattern: &str,
    error: Error,
) -> Result<Diagnosis, OutOfMemory>
    requires { RejectsPatternOf how.ignore_case pattern.now (option_copied how.base)
        (error_view error) }
    ensures { IfOk result (IsDiagnosed how.entry.ignore_case (option_copied how.entry.base)
        pattern.now) }
{
    let options = UrlPatternOptions {
        regex_syntax: RegexSyntax::Rust,
        ignore_case: how.ignore_case,
    };
    let found = UrlPattern::<PatternRegexp>::diagnose(alloc, pattern, how.base, options)?;
    match found {
        Some(diagnosis) => {
            drop(error);
            Ok(diagnosis)
        }
        None => {
            let diagnosis = Diagnosis::whole(alloc, error, Subject::Whole, pattern)?;
            Ok(diagnosis)
        }
    }
}
