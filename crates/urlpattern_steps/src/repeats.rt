//! Pieces of lists of steps, literals in a text (each a first character and literal steps), and the
//! ends of runs.

ghost use Rattle.std.specs.Prelude.{◌≡◌, ℕ, suc, ◌<◌, List, length, None, IfNone, IfSome, drop, take, if◌then◌else◌};
ghost use Rattle.std.specs.Option.{option_or};
ghost use Rattle.std.specs.Str.{chars};
ghost use Rattle.urlpattern_steps.specs.Walk.{BeginsAs, BeginsWithCopies, IsEntryForRest, IsWithoutLast, end_if_continued, literal_text, literals};

use crate::step::Step;
use crate::text_cuts::{after_same, is_same, without_last};
use urlpattern_syntax::text::split_first;

/// The steps after the first `count`, or no steps if there are fewer.
pub fn skip_steps(steps: &[Step], count: usize) -> &[Step]
    ensures { result.now ≡ drop count steps.now }
{
    steps.get(count..).unwrap_or(&[])
}

/// The first `count` steps, or all steps if there are fewer.
pub fn first_steps(steps: &[Step], count: usize) -> &[Step]
    ensures { result.now ≡ take count steps.now }
{
    steps.get(..count).unwrap_or(steps)
}

/// Returns the rest of `text` after a literal: `first`, then the character of each literal step in
/// `literal`. Characters are compared by `is_same`. `None`: `text` does not begin with the literal.
#[inline(always)]
pub fn after_literals<'t>(
    text: &'t str,
    first: char,
    literal: &[Step],
    ignore_case: bool,
) -> Option<&'t str>
    ensures cut { IfSome result (λ rest.
        BeginsAs ignore_case (literal_text first literal.now) (chars text.now) (chars rest.now)) }
    ensures other { IfNone result ((rest : List ℕ)
        → ¬ BeginsAs ignore_case (literal_text first literal.now) (chars text.now) rest) }
    ensures len { IfSome result (λ rest. length rest.now < length text.now) }
{
    let mut rest = after_same(text, first, ignore_case)?;
    let mut left = literal;
    while let Some((step, others)) = left.split_first() {
        if let Step::Literal(c) = step {
            let Some(remaining) = after_same(rest, *c, ignore_case) else {
                return None;
            };
            rest = remaining;
        }
        left = others;
    }
    Some(rest)
}

/// Returns the rest of `text` after all copies of a literal at its start: `first`, then the
/// character of each literal step in `literal`. Characters are compared by `is_same`.
pub fn skip_copies<'t>(text: &'t str, first: char, literal: &[Step], ignore_case: bool) -> &'t str
    ensures front { BeginsWithCopies ignore_case (literal_text first literal.now) (chars text.now)
        (chars result.now) }
    ensures all { (rest : List ℕ)
        → ¬ BeginsAs ignore_case (literal_text first literal.now) (chars result.now) rest }
{
    let mut rest = text;
    while let Some(remaining) = after_literals(rest, first, literal, ignore_case) {
        rest = remaining;
    }
    rest
}

/// Returns `text` without its last characters, as many as a copy of a literal has: one, and one for
/// each literal step in `literal`. The characters are not compared. `None`: `text` has fewer
/// characters.
pub fn without_copy<'t>(text: &'t str, literal: &[Step]) -> Option<&'t str>
    ensures few { IfNone result (length (chars text.now) < suc (length (literals literal.now))) }
    ensures cut { IfSome result (λ front.
        IsWithoutLast (suc (length (literals literal.now))) text.now front.now) }
    ensures len { IfSome result (λ front. length front.now < length text.now) }
{
    let Some(mut front) = without_last(text) else {
        return None;
    };
    let mut left = literal;
    while let Some((step, others)) = left.split_first() {
        if let Step::Literal(_) = step {
            let Some(shorter) = without_last(front) else {
                return None;
            };
            front = shorter;
        }
        left = others;
    }
    Some(front)
}

/// Counts the steps in `literal` that are `Step::Literal`.
fn literal_count(literal: &[Step]) -> usize
    ensures { result ≡ length (literals literal.now) }
{
    let mut count = 0;
    let mut left = literal;
    while let Some((step, others)) = left.split_first() {
        if let Step::Literal(_) = step {
            count += 1;
        }
        left = others;
    }
    count
}

/// Returns the entry of `table` for the rest of `text` after a literal: `first`, then the character
/// of each literal step in `literal`, compared by `is_same`. `None`: `text` does not begin with the
/// literal, or the entry is `None`.
///
/// `table` has an entry for each suffix that is shorter than `text`, the empty one first: where a
/// step ends, in bytes, if a literal of the step ends before the suffix.
pub fn entry_after_literal(
    table: &[Option<usize>],
    first: char,
    literal: &[Step],
    ignore_case: bool,
    text: &str,
) -> Option<usize>
    ensures there { IsEntryForRest ignore_case (literal_text first literal.now) (chars text.now)
        table.now result }
    ensures other { ((rest : List ℕ)
        → ¬ BeginsAs ignore_case (literal_text first literal.now) (chars text.now) rest)
        → result ≡ None }
{
    after_literals(text, first, literal, ignore_case)?;
    let index = table
        .len()
        .checked_sub(literal_count(literal))?
        .checked_sub(1)?;
    match table.get(index) {
        Some(entry) => *entry,
        None => None,
    }
}

/// Returns the end of a run that continues with the first character of `text`: `later`, its end as
/// found from the next character on. `None`: `text` is empty or begins with `end`, or `later` is
/// `None`.
pub fn end_if_continued(
    text: &str,
    end: char,
    ignore_case: bool,
    later: Option<usize>,
) -> Option<usize>
    ensures { result ≡ end_if_continued ignore_case end later (chars text.now) }
{
    match split_first(text) {
        Some((c, _)) if !is_same(c, end, ignore_case) => later,
        _ => None,
    }
}

/// Chooses the end of separated runs, seen from one place in the text. `onward` is the end if the
/// run consumes the next character, `stopping` the end if the run stops at the place. Returns the
/// end for a run that begins at the place, and the end for a run that began before.
///
/// Greedy runs prefer `onward` and may be empty; lazy runs prefer `stopping` and are not empty.
pub fn choose_ends(
    is_greedy: bool,
    onward: Option<usize>,
    stopping: Option<usize>,
) -> (Option<usize>, Option<usize>)
    ensures beginning { result.0 ≡ (if is_greedy then option_or onward stopping else onward) }
    ensures either { result.1
        ≡ (if is_greedy then option_or onward stopping else option_or stopping onward) }
{
    if is_greedy {
        let either = onward.or(stopping);
        (either, either)
    } else {
        (onward, stopping.or(onward))
    }
}
