//! Counts how often each entry of a table is the first whose pattern matches.

ghost use Rattle.std.specs.Prelude.{◌≡◌, IfOk, IsPermutation, bytes_eq, map};
ghost use Rattle.urlpat_matching.specs.Tables.{entries_view, entry_view};
ghost use Rattle.urlpat_tables.specs.Summaries.{IsMostFirst, KeepsTies, count_of, counted, counted_view};

use bstr::ByteSlice;
use std::alloc::{AllocError, Global};
use urlpat_matching::Entry;

/// An entry, and how often it is the first whose pattern matches.
#[derive(Clone, Copy)]
pub(crate) struct Counted<'t> {
    /// The entry.
    pub entry: Entry<'t>,
    /// How often the entry is the first whose pattern matches.
    pub count: u64,
}

/// Counts the lines of `numbers` that have the number of each entry. The entry that is counted most
/// is first. Entries that are counted as often keep their order.
pub(crate) fn sorted_counts<'t>(
    alloc: Global,
    entries: &[Entry<'t>],
    numbers: &[u8],
) -> Result<Vec<Counted<'t>>, AllocError>
    ensures same { IfOk result (λ all. IsPermutation
        (map (counted numbers.now) (entries_view entries.now)) (map counted_view all.items)) }
    ensures sorted { IfOk result (λ all. IsMostFirst (map counted_view all.items)) }
    ensures ties { IfOk result (λ all. KeepsTies
        (map (counted numbers.now) (entries_view entries.now)) (map counted_view all.items)) }
{
    let mut all = counts_of(alloc, entries, numbers)?;
    all.sort_by(|one: &Counted<'_>, other: &Counted<'_>| other.count.cmp(&one.count))?;
    Ok(all)
}

/// Counts the lines of `numbers` that have the number of each entry.
fn counts_of<'t>(
    alloc: Global,
    entries: &[Entry<'t>],
    numbers: &[u8],
) -> Result<Vec<Counted<'t>>, AllocError>
    ensures { IfOk result (λ all.
        map counted_view all.items ≡ map (counted numbers.now) (entries_view entries.now)) }
{
    let mut all = Vec::with_capacity(alloc, entries.len())?;
    for entry in entries {
        all.push(count_in(alloc, *entry, numbers)?)?;
    }
    Ok(all)
}

/// Counts the lines of `numbers` that have the number of an entry.
fn count_in<'t>(alloc: Global, entry: Entry<'t>, numbers: &[u8]) -> Result<Counted<'t>, AllocError>
    ensures { IfOk result (λ one.
        counted_view one ≡ counted numbers.now (entry_view entry.entry)) }
{
    let number = entry.number;
    let text = format!(in alloc; "{number}")?;
    Ok(Counted {
        entry,
        count: count_of(text.as_bytes(), numbers),
    })
}

/// How many of the lines are `line`.
fn count_of(line: &[u8], lines: &[u8]) -> u64
    ensures { result ≡ count_of line.now lines.now }
{
    lines.lines().filter(|other| is_same(line, *other)).count() as u64
}

/// Whether two lines are the same.
fn is_same(line: &[u8], other: &[u8]) -> bool
    ensures { result ≡ bytes_eq line.now other.now }
{
    line == other
}
