//! Writes what a command says of each line, by the first pattern that matches it.

ghost use Rattle.std.specs.Io.KnownBytes.{Appends};
ghost use Rattle.std.specs.Prelude.{◌≡◌, ◌≢◌, ◌⊎◌, IfOk, IsTrue, List, option_copied, ℕ};
ghost use Rattle.urlpat_tables.specs.FirstRules.{FiltersFields, IsAnswered, IsHead, first_number};
ghost use Rattle.urlpattern_canonical.specs.BaseUrls.{base_view};

use crate::fault_printing::{report_memory, report_memory_error};
use crate::first_rule::{FirstRule, Reply};
use crate::placing::place_of;
use std::alloc::{AllocError, Global};
use std::io::{BufRead, Write};
use urlpat_matching::{DONE, FAILED, LineArguments, NO_MATCH, fail, write_answers};
use urlpattern::UrlPatternMap;
use urlpattern::regexp::PatternRegexp;
use urlpattern_canonical::BaseUrl;

/// Writes for each line what `reply` says, by the first pattern that matches it, and the number of
/// selected lines if `counts`. Returns the exit status: `NO_MATCH` if no line is selected.
pub(crate) fn answer_by<T, A: Reply<T>, In: BufRead, Out: Write, Err: Write>(
    alloc: Global,
    rules: &UrlPatternMap<T, PatternRegexp>,
    reply: &A,
    asked: LineArguments<'_>,
    counts: bool,
    input: &mut In,
    out: &mut Out,
    err: &mut Err,
) -> u8
    ensures status { (result ≡ DONE) ⊎ (result ≡ NO_MATCH) ⊎ (result ≡ FAILED) }
    ensures answers { result ≢ FAILED → FiltersFields (A.Heads reply.now)
        (IsAnswered (A.Matched reply.now) (A.Leaves reply.now) rules.now
        (base_view (option_copied asked.entry.base))) asked.entry counts result
        (In.remaining input.old) (Out.contents out.old) (Out.contents out.new) }
{
    let base = match BaseUrl::parse(alloc, asked.base) {
        Ok(base) => base,
        Err(error) => return fail(&error, err),
    };
    let mut header = Vec::new(alloc);
    let Some(place) = place_of(alloc, asked.field, &mut header, input, err) else {
        return FAILED;
    };
    if !write_head(alloc, reply, asked.headed, &header, out, err) {
        return FAILED;
    }
    let rule = FirstRule {
        alloc,
        patterns: rules,
        base: &base,
        place,
        reply,
    };
    let first = first_number(&header);
    write_answers(alloc, &rule, asked.style, first, counts, input, out, err)
}

/// The number of the first line after a header, which is empty if there is none.
fn first_number(header: &[u8]) -> u64
    ensures { result ≡ first_number header.now }
{
    if header.is_empty() { 1 } else { 2 }
}

/// Writes what `reply` says for the header of lines, if `headed`. Returns whether it is written;
/// otherwise it is reported if memory ran out.
fn write_head<T, A: Reply<T>, Out: Write, Err: Write>(
    alloc: Global,
    reply: &A,
    headed: bool,
    header: &[u8],
    out: &mut Out,
    err: &mut Err,
) -> bool
    ensures { IsTrue result → (head : List ℕ) × IsHead (A.Heads reply.now) headed header.now head
        × Appends (Out.contents out.old) (Out.contents out.new) head }
{
    let Ok(head) = head_of(alloc, reply, headed, header) else {
        report_memory(err);
        return false;
    };
    match out.write_all(&head) {
        Ok(()) => true,
        Err(error) => {
            report_memory_error(error, err);
            false
        }
    }
}

/// What `reply` says for the header of lines, if `headed`. Otherwise empty.
fn head_of<T, A: Reply<T>>(
    alloc: Global,
    reply: &A,
    headed: bool,
    header: &[u8],
) -> Result<Vec<u8>, AllocError>
    ensures { IfOk result (λ head. IsHead (A.Heads reply.now) headed header.now head.items) }
{
    let mut head = Vec::new(alloc);
    if !headed {
        return Ok(head);
    }
    reply.head(header, &mut head)?;
    Ok(head)
}
