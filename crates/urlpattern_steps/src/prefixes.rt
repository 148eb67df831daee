//! The prefix of a text that a step matches, found from the end of the text to its start.

ghost use Rattle.std.specs.Prelude.{◌≡◌, ◌∷◌, Option, Some, None, length, option_map, take, IfOk, if◌then◌else◌};
ghost use Rattle.std.specs.Str.{chars};
ghost use Rattle.urlpattern_steps.specs.Walk.{literals};
ghost use Rattle.urlpattern_steps.specs.Table.{result_after_literal, run_end, following, has, result_within_run, own_count, literal_string_of, result_at_start, is_capture, IsEntryAfter, IsRow, IsSingle};
ghost use Rattle.urlpattern_steps.specs.AddedCaptures.{IsEndOfPrefix};

use crate::repeats::{choose_ends, end_if_continued, entry_after_literal, first_steps, skip_steps};
use crate::step::{LiteralString, Step};
use crate::text_cuts::{after_prefix, without_last};
use std::alloc::Global;
use urlpattern_syntax::error::OutOfMemory;

/// The prefix of a text that a step matches, and which suffixes of the text the step matches
/// together with the steps after it.
#[derive(Drop)]
pub struct MatchedPrefix {
    /// For each suffix of the text, from the shortest, whether the step and the steps after it
    /// match the suffix.
    pub row: Vec<bool>,
    /// The length in bytes of the prefix that the step matches. `None`: the step and the steps
    /// after it do not match the text.
    pub end: Option<usize>,
}

/// Finds the preferred prefix of `text` that `step` matches and after which the steps that follow
/// match the rest.
///
/// `others` are the steps after `step`, which is not an optional group. `row_after` says for each
/// suffix of `text`, from the shortest, whether the steps that `following` returns match it.
pub fn matched_prefix(
    alloc: Global,
    step: Step,
    others: &[Step],
    ignore_case: bool,
    row_after: &[bool],
    text: &str,
) -> Result<MatchedPrefix, OutOfMemory>
    requires single { IsSingle step }
    requires after { IsRow ignore_case (chars text.now) (following step others.now) row_after.now }
    ensures row { IfOk result (λ front.
        IsRow ignore_case (chars text.now) (step ∷ others.now) front.row.items) }
    ensures end { IfOk result (λ front.
        IsEndOfPrefix ignore_case step others.now text.now front.end) }
{
    let literal_string = literal_string_of(step);
    let literal = own_steps(step, others);
    let mut begun = Vec::with_capacity(alloc, text.len())?;
    let mut row = Vec::with_capacity(alloc, text.len())?;
    let mut later = None;
    let mut front = text;
    loop {
        let rest = after_prefix(text, front);
        let next = entry_after(&begun, literal_string, literal, ignore_case, rest);
        let here = end_here(row_after, row.len(), front.len());
        let onward = end_if_continued(rest, end_of(step), ignore_case, later);
        let ends = ends_of(step, next, here, onward);
        row.push(ends.whole.is_some())?;
        let Some(shorter) = without_last(front) else {
            return Ok(MatchedPrefix {
                row,
                end: ends.whole,
            });
        };
        begun.push(ends.begun)?;
        later = ends.later;
        front = shorter;
    }
}

/// The literal that a step matches, repeats, or has as a separator. `None`: the step has no
/// literal.
fn literal_string_of(step: Step) -> Option<LiteralString>
    ensures { result ≡ literal_string_of step }
{
    match step {
        Step::Literal(c) => Some(LiteralString {
            first: c,
            others: 0,
        }),
        Step::RepeatedLiteral(copies) => Some(copies.text),
        Step::Segments(segments) => Some(segments.separator),
        Step::LazyRun(_) | Step::DotStar | Step::GreedyRun(_) | Step::OptionalGroup(_) => None,
    }
}

/// The number of steps after `step` that have the characters of its literal after the first.
fn own_count(step: Step) -> usize
    ensures { result ≡ own_count (literal_string_of step) }
{
    match literal_string_of(step) {
        Some(literal_string) => literal_string.others,
        None => 0,
    }
}

/// The steps in `others`, which come after `step`, that have the characters of its literal after
/// the first.
fn own_steps(step: Step, others: &[Step]) -> &[Step]
    ensures { result.now ≡ take (own_count (literal_string_of step)) others.now }
{
    first_steps(others, own_count(step))
}

/// The steps in `others`, which come after `step`, without those that have the characters of its
/// literal after the first.
pub fn following(step: Step, others: &[Step]) -> &[Step]
    ensures { result.now ≡ following step others.now }
{
    skip_steps(others, own_count(step))
}

/// The character that ends a run of the step; a line feed if the step has no run.
fn end_of(step: Step) -> char
    ensures { result ≡ run_end step }
{
    match step {
        Step::LazyRun(end) => end,
        Step::GreedyRun(run) => run.end,
        Step::Segments(segments) => segments.end,
        Step::DotStar | Step::Literal(_) | Step::RepeatedLiteral(_) | Step::OptionalGroup(_) =>
            '\n',
    }
}

/// Whether the step itself captures. An `OptionalGroup` does not; the steps of its group may.
pub fn is_capture(step: Step) -> bool
    ensures { result ≡ is_capture step }
{
    match step {
        Step::LazyRun(_) | Step::DotStar | Step::GreedyRun(_) | Step::Segments(_) => true,
        Step::Literal(_) | Step::RepeatedLiteral(_) | Step::OptionalGroup(_) => false,
    }
}

/// Returns the entry for the rest of `text` after a literal: the first character of
/// `literal_string`, then the character of each literal step in `literal`. `None`: there is no
/// literal, `text` does not begin with it, or the entry is `None`.
///
/// `entries` has an entry for each suffix that is shorter than `text`, from the shortest: where the
/// step ends, in bytes, if a literal of the step ends before the suffix.
fn entry_after(
    entries: &[Option<usize>],
    literal_string: Option<LiteralString>,
    literal: &[Step],
    ignore_case: bool,
    text: &str,
) -> Option<usize>
    requires { length entries.now ≡ length (chars text.now) }
    ensures { IsEntryAfter ignore_case entries.now
        (option_map (λ own. own.first ∷ literals literal.now) literal_string) (chars text.now)
        result }
{
    match literal_string {
        Some(own) => entry_after_literal(entries, own.first, literal, ignore_case, text),
        None => None,
    }
}

/// Returns `here`, where the step would end, in bytes, if `row` says that the steps after it match
/// the suffix of `rest` characters. Otherwise `None`.
fn end_here(row: &[bool], rest: usize, here: usize) -> Option<usize>
    ensures { result ≡ (if has row.now rest then Some here else None) }
{
    if has(row, rest) { Some(here) } else { None }
}

/// Whether `row` says that its steps match the suffix of `count` characters: a row says so of each
/// suffix of a text, from the shortest. `false` if the row is too short.
pub fn has(row: &[bool], count: usize) -> bool
    ensures { result ≡ has row.now count }
{
    match row.get(count) {
        Some(does_match) => *does_match,
        None => false,
    }
}

/// Where the prefix that a step matches ends, in bytes, seen from one place in the text, for each
/// state in which the step may be at the place. `None`: the step cannot be in that state, or no
/// match follows.
#[derive(Clone, Copy)]
struct Ends {
    /// The end, if a literal of the step ends at the place.
    begun: Option<usize>,
    /// The end, if a run of the step has begun before the place.
    later: Option<usize>,
    /// The end, if the step begins at the place.
    whole: Option<usize>,
}

/// Chooses the ends, seen from one place in the text. `next` is the end if the literal of the step
/// follows, `here` the place itself if the steps after `step` match the rest, and `onward` the end
/// if a run consumes the next character.
fn ends_of(step: Step, next: Option<usize>, here: Option<usize>, onward: Option<usize>) -> Ends
    ensures begun { result.begun ≡ result_after_literal step next here onward }
    ensures later { result.later ≡ result_within_run step next here onward }
    ensures whole { result.whole ≡ result_at_start step next here onward }
{
    let stopping = next.or(here);
    let (begun, later, whole) = match step {
        Step::Literal(_) => (here, None, next),
        Step::LazyRun(_) => (None, here.or(onward), onward),
        Step::DotStar => (None, onward.or(here), onward.or(here)),
        Step::GreedyRun(run) if run.may_be_empty => (None, onward.or(here), onward.or(here)),
        Step::GreedyRun(_) => (None, onward.or(here), onward),
        Step::RepeatedLiteral(copies) if copies.allows_zero => (stopping, None, stopping),
        Step::RepeatedLiteral(_) => (stopping, None, next),
        Step::Segments(segments) => {
            let (whole, later) = choose_ends(segments.is_greedy, onward, stopping);
            (whole, later, whole)
        }
        Step::OptionalGroup(_) => (None, None, None),
    };
    Ends {
        begun,
        later,
        whole,
    }
}
