//! A table of the suffixes of a text that the steps match, with a row for each suffix of the steps.

ghost use Rattle.std.specs.Prelude.{◌≡◌, ◌∷◌, ◌||◌, ℕ, ◌<◌, [], Bool, length, IfOk};
ghost use Rattle.std.specs.Str.{chars};
ghost use Rattle.urlpattern_steps.specs.Table.{has, row_at, AreRows, IsRow, IsMatchedByRows};

use crate::prefixes::{following, has, matched_prefix};
use crate::repeats::skip_steps;
use crate::step::Step;
use std::alloc::Global;
use urlpattern_syntax::error::OutOfMemory;
use urlpattern_syntax::text::split_first;

/// Returns the row of each suffix of the steps, from the row of no steps to the row of all.
///
/// A row says for each suffix of `text`, from the shortest, whether its steps match the suffix.
pub fn rows_of(
    alloc: Global,
    steps: &[Step],
    ignore_case: bool,
    text: &str,
) -> Result<Vec<Vec<bool>>, OutOfMemory>
    ensures { IfOk result (λ rows. AreRows ignore_case (chars text.now) steps.now rows.items) }
{
    let mut rows = Vec::with_capacity(alloc, steps.len())?;
    rows.push(row_of_none(alloc, text)?)?;
    let mut before = steps;
    while let Some((step, fewer)) = before.split_last() {
        let others = skip_steps(steps, before.len());
        let row = row_of(alloc, *step, others, ignore_case, &rows, text)?;
        rows.push(row)?;
        before = fewer;
    }
    Ok(rows)
}

/// Returns the row of no steps, which match only the empty suffix of `text`.
fn row_of_none(alloc: Global, text: &str) -> Result<Vec<bool>, OutOfMemory>
    ensures { IfOk result (λ row.
        (ignore_case : Bool) → IsRow ignore_case (chars text.now) [] row.items) }
{
    let mut row = Vec::with_capacity(alloc, text.len())?;
    row.push(true)?;
    for _ in 0..text.len() {
        row.push(false)?;
    }
    Ok(row)
}

/// Returns for each suffix of `text`, from the shortest, whether `step` followed by `others`
/// matches the suffix. `rows` has a row of that kind for each suffix of `others`.
fn row_of(
    alloc: Global,
    step: Step,
    others: &[Step],
    ignore_case: bool,
    rows: &[Vec<bool>],
    text: &str,
) -> Result<Vec<bool>, OutOfMemory>
    requires { AreRows ignore_case (chars text.now) others.now rows.now }
    ensures { IfOk result (λ row.
        IsRow ignore_case (chars text.now) (step ∷ others.now) row.items) }
{
    if let Step::OptionalGroup(group) = step {
        let missing = skip_steps(others, group.steps);
        return either(alloc, row_for(rows, others), row_for(rows, missing));
    }
    let after = row_for(rows, following(step, others));
    Ok(matched_prefix(alloc, step, others, ignore_case, after, text)?.row)
}

/// Returns the row of two alternatives: whether a suffix is matched by `one` or by `other`. As long
/// as `one`.
fn either(alloc: Global, one: &[bool], other: &[bool]) -> Result<Vec<bool>, OutOfMemory>
    ensures len { IfOk result (λ row. length row.items ≡ length one.now) }
    ensures bits { IfOk result (λ row.
        (n : ℕ) → n < length one.now → has row.items n ≡ has one.now n || has other.now n) }
{
    let mut row = Vec::with_capacity(alloc, one.len())?;
    for n in 0..one.len() {
        row.push(is_in_either(one, other, n))?;
    }
    Ok(row)
}

/// Whether the row `one` or the row `other` says that the suffix of `count` characters is matched.
fn is_in_either(one: &[bool], other: &[bool], count: usize) -> bool
    ensures { result ≡ has one.now count || has other.now count }
{
    has(one, count) || has(other, count)
}

/// Returns the row of the steps, which says which suffixes of the text they match, by the number of
/// the steps. Empty if there is no row for that number.
pub fn row_for<'r>(rows: &'r [Vec<bool>], steps: &[Step]) -> &'r [bool]
    ensures { result.now ≡ row_at rows.now (length steps.now) }
{
    match rows.get(steps.len()) {
        Some(row) => row,
        None => &[],
    }
}

/// Whether the steps match `text`, looked up in the row of the steps for a text that ends in
/// `text`.
pub fn does_match(rows: &[Vec<bool>], steps: &[Step], text: &str) -> bool
    ensures { IsMatchedByRows rows.now steps.now (chars text.now) result }
{
    has(row_for(rows, steps), character_count(text))
}

/// The number of characters of a text.
fn character_count(text: &str) -> usize
    ensures { result ≡ length (chars text.now) }
{
    let mut count = 0;
    let mut rest = text;
    while let Some((_, remaining)) = split_first(rest) {
        count += 1;
        rest = remaining;
    }
    count
}
