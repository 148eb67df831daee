//! What is found in a table: lines at fault, patterns that are never the first match, patterns that
//! contend for the same URLs, and names that are given again.

ghost use Rattle.std.specs.List.{cons_option, list_any};
ghost use Rattle.std.specs.Prelude.{◌≡◌, ◌++◌, IfOk, OnOk, [], not, option_copied};
ghost use Rattle.urlpat_matching.specs.Tables.{entries_view, entry_view};
ghost use Rattle.urlpat_tables.specs.Findings.{AreCompared, AreFindings, contends, fault_after, first_named, is_at_fault, is_in_doubt, is_some_list, repeated_names};
ghost use Rattle.urlpat_tables.specs.Unreached.{AreReached};

use crate::entry_reading::Compiling;
use crate::routing::RouteReader;
use crate::table_fault::{FaultReason, TableFault};
use crate::table_rules::read_each;
use crate::unreachable::{any_never, any_unknown};
use std::alloc::{AllocError, Global};
use urlpat_matching::Entry;
use urlpattern::UrlPatternMap;
use urlpattern::error::OutOfMemory;
use urlpattern::regexp::PatternRegexp;
use urlpattern::rules::{Contended, Contention, Reach, USUAL_LIMITS};
use urlpattern_policy_text::column_of;

/// What is found in the entries of a table.
#[derive(Drop)]
pub struct Findings {
    /// The faults of lines whose pattern is rejected.
    pub rejected: Vec<TableFault>,
    /// How the other patterns compare.
    pub compared: Compared,
    /// The faults of lines whose name an earlier line has.
    pub repeated: Vec<TableFault>,
}

/// How the patterns of a table compare.
#[derive(Drop)]
pub struct Compared {
    /// Which patterns are ever the first match.
    pub reached: Reached,
    /// The pairs of patterns that contend, or may.
    pub contentions: Vec<Contention>,
}

/// Which patterns of a table are ever the first match.
#[derive(Drop)]
pub struct Reached {
    /// The numbers of the patterns' lines.
    pub lines: Vec<u64>,
    /// Whether each pattern is the first match of some texts.
    pub reaches: Vec<Reach>,
}

/// Finds what is to be reported of the entries of a table.
pub(crate) fn findings_of(
    alloc: Global,
    how: Compiling<'_>,
    entries: &[Entry<'_>],
) -> Result<Findings, OutOfMemory>
    ensures { IfOk result (AreFindings how.entry.ignore_case (option_copied how.entry.base)
        (entries_view entries.now)) }
{
    let mut rules = UrlPatternMap::new(alloc);
    let rejected = read_each(alloc, &RouteReader(how), entries, &mut rules)?;
    let compared = comparison_of(alloc, &rules);
    drop(rules);
    let compared = compared?;
    let repeated = repeated_names(alloc, entries)?;
    Ok(Findings {
        rejected,
        compared,
        repeated,
    })
}

/// Compares the patterns of a table.
fn comparison_of(
    alloc: Global,
    rules: &UrlPatternMap<Entry<'_>, PatternRegexp>,
) -> Result<Compared, OutOfMemory>
    ensures { IfOk result (AreCompared rules.now) }
{
    let reached = reached_of(alloc, rules)?;
    let Ok(contentions) = rules.contending(alloc, USUAL_LIMITS) else {
        return Err(OutOfMemory);
    };
    Ok(Compared {
        reached,
        contentions,
    })
}

/// Finds which patterns of a table are ever the first match.
pub(crate) fn reached_of(
    alloc: Global,
    rules: &UrlPatternMap<Entry<'_>, PatternRegexp>,
) -> Result<Reached, OutOfMemory>
    ensures { IfOk result (AreReached rules.now) }
{
    let mut lines = Vec::with_capacity(alloc, rules.len())?;
    for (_, entry) in rules {
        lines.push(entry.number)?;
    }
    let Ok(reaches) = rules.reach_of_each(alloc, USUAL_LIMITS) else {
        return Err(OutOfMemory);
    };
    Ok(Reached { lines, reaches })
}

/// The faults of lines whose name an earlier line has.
fn repeated_names(alloc: Global, entries: &[Entry<'_>]) -> Result<Vec<TableFault>, AllocError>
    ensures { IfOk result (λ faults.
        faults.items ≡ repeated_names [] (entries_view entries.now)) }
{
    let mut faults = Vec::new(alloc);
    for index in 0..entries.len() {
        push_repeated(&entries[..index], entries[index], &mut faults)?;
    }
    Ok(faults)
}

/// Appends the fault of an entry whose name one of the entries `before` has.
fn push_repeated(
    before: &[Entry<'_>],
    entry: Entry<'_>,
    faults: &mut Vec<TableFault>,
) -> Result<(), AllocError>
    ensures { OnOk result (faults.new.items ≡ faults.old.items
        ++ cons_option (fault_after (entries_view before.now) (entry_view entry.entry)) []) }
{
    if let Some(first) = first_named(before, entry.name) {
        faults.push(TableFault {
            line: entry.number,
            column: column_of(entry.line, entry.name, 0),
            reason: FaultReason::Repeated(first),
        })?;
    }
    Ok(())
}

/// The number of the line of the first entry with this name. `None`: no entry has it, or it is
/// empty.
fn first_named(entries: &[Entry<'_>], name: &str) -> Option<u64>
    ensures { result ≡ first_named (entries_view entries.now) name.now }
{
    if name.is_empty() {
        return None;
    }
    for entry in entries {
        if entry.name == name {
            return Some(entry.number);
        }
    }
    None
}

/// Whether something is to be reported.
pub(crate) fn is_at_fault(found: &Findings) -> bool
    ensures { result ≡ is_at_fault found.now }
{
    let rejected = has_some(&found.rejected);
    let repeated = has_some(&found.repeated);
    let never = any_never(&found.compared.reached);
    let known = any_known(&found.compared.contentions);
    rejected || repeated || never || known
}

/// Whether there is a fault.
fn has_some(faults: &[TableFault]) -> bool
    ensures { result ≡ is_some_list faults.now }
{
    !faults.is_empty()
}

/// Whether it is not known if something is to be reported.
pub(crate) fn is_in_doubt(found: &Findings) -> bool
    ensures { result ≡ is_in_doubt found.now }
{
    any_unknown(&found.compared.reached) || any_open(&found.compared.contentions)
}

/// Whether two patterns are known to contend.
fn any_known(pairs: &[Contention]) -> bool
    ensures { result ≡ list_any contends pairs.now }
{
    pairs.iter().any(|pair| contends(pair))
}

/// Whether it is not known of two patterns if they contend.
fn any_open(pairs: &[Contention]) -> bool
    ensures { result ≡ list_any (λ pair. not (contends pair)) pairs.now }
{
    pairs.iter().any(|pair| !contends(pair))
}

/// Whether a pair of patterns is known to contend.
fn contends(pair: &Contention) -> bool
    ensures { result ≡ contends pair.now }
{
    matches!(pair.found, Contended::Texts(_))
}
