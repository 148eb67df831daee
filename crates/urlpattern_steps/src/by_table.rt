//! Matches a text without backtracking, by a table of the suffixes that steps match.

ghost use Rattle.std.specs.Prelude.{◌≡◌, ◌∷◌, ◌++◌, [], None, Some, IfNone, IfOk, IfSome, OnOk, if◌then◌else◌};
ghost use Rattle.std.specs.Str.{chars};
ghost use Rattle.urlpattern_meaning.specs.CaptureTexts.{captures_view};
ghost use Rattle.urlpattern_steps.specs.FailedStates.{EndsWith};
ghost use Rattle.urlpattern_steps.specs.Walk.{walk};
ghost use Rattle.urlpattern_steps.specs.Table.{following, is_capture, IsRow, IsSingle};
ghost use Rattle.urlpattern_steps.specs.AddedCaptures.{LeavesChosen, LeavesFollowing};

use crate::prefixes::{following, is_capture, matched_prefix};
use crate::repeats::skip_steps;
use crate::step::{Group, Step};
use crate::suffix_table::{does_match, row_for, rows_of};
use crate::text_cuts::split_at_boundary;
use crate::walk::push_unmatched;
use std::alloc::Global;
use urlpattern_syntax::error::OutOfMemory;

/// Returns the captures of the steps, if they match the whole text. A capture in an optional group
/// that does not match is `None`. `None` instead of captures: no match.
///
/// No choice is tried: a table has the suffixes of the text that each suffix of the steps matches.
pub fn walk_by_table<'t>(
    alloc: Global,
    steps: &[Step],
    ignore_case: bool,
    text: &'t str,
) -> Result<Option<Vec<Option<&'t str>>>, OutOfMemory>
    ensures { IfOk result (λ found.
        captures_view found ≡ walk ignore_case steps.now (chars text.now)) }
{
    let rows = rows_of(alloc, steps, ignore_case, text)?;
    let mut captures = Vec::new(alloc);
    let mut left = steps;
    let mut rest = text;
    while let Some((step, others)) = left.split_first() {
        match step {
            Step::OptionalGroup(group) => {
                left = choose_group(&mut captures, &rows, *group, others, rest)?;
            }
            Step::Literal(_)
            | Step::LazyRun(_)
            | Step::DotStar
            | Step::GreedyRun(_)
            | Step::RepeatedLiteral(_)
            | Step::Segments(_) => {
                let row = row_for(&rows, following(*step, others));
                let Some(remaining) = match_prefix(
                    alloc,
                    &mut captures,
                    *step,
                    others,
                    ignore_case,
                    row,
                    rest,
                )?
                else {
                    return Ok(None);
                };
                left = following(*step, others);
                rest = remaining;
            }
        }
    }
    if rest.is_empty() {
        Ok(Some(captures))
    } else {
        Ok(None)
    }
}

/// Returns the steps to match next: `others`, which begin with the steps of an optional group, if
/// by their row they match `text`; otherwise the steps after the group, whose captures are added as
/// `None`.
fn choose_group<'s>(
    captures: &mut Vec<Option<&str>>,
    rows: &[Vec<bool>],
    group: Group,
    others: &'s [Step],
    text: &str,
) -> Result<&'s [Step], OutOfMemory>
    ensures chosen { IfOk result (λ left.
        LeavesChosen rows.now captures.old captures.new group others.now text.now left.now) }
    ensures end { IfOk result (λ left. EndsWith others.now left.now) }
{
    if does_match(rows, others, text) {
        return Ok(others);
    }
    push_unmatched(captures, group.captures)?;
    Ok(skip_steps(others, group.steps))
}

/// Matches `step`, which is not an optional group, with the preferred prefix of `text` after which
/// the steps that follow match the rest, and returns the rest. If the step captures, the prefix is
/// added to the captures. `None`: `step` and `others` do not match `text`.
///
/// `row` says for each suffix of `text`, from the shortest, whether the steps that `following`
/// returns match it.
fn match_prefix<'t>(
    alloc: Global,
    captures: &mut Vec<Option<&'t str>>,
    step: Step,
    others: &[Step],
    ignore_case: bool,
    row: &[bool],
    text: &'t str,
) -> Result<Option<&'t str>, OutOfMemory>
    requires single { IsSingle step }
    requires row { IsRow ignore_case (chars text.now) (following step others.now) row.now }
    ensures taken { IfOk result
        (LeavesFollowing ignore_case captures.old captures.new step others.now text.now) }
    ensures none { IfOk result (λ left.
        IfNone left (walk ignore_case (step ∷ others.now) (chars text.now) ≡ None)) }
    ensures end { IfOk result (λ left. IfSome left (λ rest.
        EndsWith (chars text.now) (chars rest.now))) }
{
    let Some(count) = matched_prefix(alloc, step, others, ignore_case, row, text)?.end else {
        return Ok(None);
    };
    let (front, rest) = split_at_boundary(text, count);
    push_prefix(captures, step, front)?;
    Ok(Some(rest))
}

/// Adds `front`, the prefix that the step matches, to the captures, if the step captures.
fn push_prefix<'t>(
    captures: &mut Vec<Option<&'t str>>,
    step: Step,
    front: &'t str,
) -> Result<(), OutOfMemory>
    ensures { OnOk result (captures.new.items
        ≡ (if is_capture step then captures.old.items ++ Some front.entry ∷ []
        else captures.old.items)) }
{
    if is_capture(step) {
        captures.push(Some(front))?;
    }
    Ok(())
}
