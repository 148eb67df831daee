//! Matches a text by backtracking.

ghost use Rattle.std.specs.Prelude.{◌≡◌, ◌∷◌, ◌++◌, replicate, None, IfOk, OnOk};
ghost use Rattle.std.specs.Str.{chars};
ghost use Rattle.urlpattern_meaning.specs.CaptureTexts.{captures_view};
ghost use Rattle.urlpattern_steps.specs.FailedStates.{IsStateOf};
ghost use Rattle.urlpattern_steps.specs.Walk.{captured_prefix, walk};
ghost use Rattle.urlpattern_steps.specs.AddedCaptures.{MatchesRestIfOk, MatchesInTurn};

mod copies;
mod runs;
mod segments;

use crate::failed_states::FailedStates;
use crate::repeats::skip_steps;
use crate::run_ends::has_one_end;
use crate::step::{Group, Step};
use crate::text_cuts::{after_same, split_at_first};
use std::alloc::Global;
use urlpattern_syntax::error::OutOfMemory;

/// A match in progress.
#[derive(Drop)]
struct Attempt<'s, 't> {
    /// The captures so far.
    captures: Vec<Option<&'t str>>,
    /// The memoized failed states.
    failed: FailedStates<'s, 't>,
}

/// Whether steps match a whole text, or that memory ran out.
type DoesMatch = Result<bool, OutOfMemory>;

/// Returns the captures of the steps, if they match the whole text. A capture in an optional group
/// that does not match is `None`. `None` instead of captures: no match.
///
/// If `is_memoized`, no choice is tried twice in one state.
pub fn walk<'t>(
    alloc: Global,
    steps: &[Step],
    ignore_case: bool,
    is_memoized: bool,
    text: &'t str,
) -> Result<Option<Vec<Option<&'t str>>>, OutOfMemory>
    ensures { IfOk result (λ found.
        captures_view found ≡ walk ignore_case steps.now (chars text.now)) }
{
    let failed = FailedStates::new(alloc, steps, ignore_case, text, is_memoized)?;
    let mut attempt = Attempt {
        captures: Vec::new(alloc),
        failed,
    };
    if attempt.match_rest(ignore_case, steps, text)? {
        Ok(Some(attempt.captures))
    } else {
        Ok(None)
    }
}

impl<'t> Attempt<'_, 't> {
    /// Whether the steps match the whole text. On a match their captures are added to
    /// `self.captures`, otherwise none.
    #[cycle(following)]
    fn match_rest(&mut self, ignore_case: bool, steps: &[Step], text: &'t str) -> DoesMatch
        requires { IsStateOf ignore_case self.old.failed steps.now (chars text.now) }
        ensures { MatchesRestIfOk self.old self.new result
            (walk ignore_case steps.now (chars text.now)) }
    {
        let count = self.captures.len();
        if self.match_in_turn(ignore_case, steps, text)? {
            return Ok(true);
        }
        self.captures.truncate(count);
        Ok(false)
    }

    /// Whether the steps match the whole text. On a match their captures are added to
    /// `self.captures`, otherwise perhaps some of them.
    ///
    /// The steps up to the first with a choice are matched in a loop, without a recursive call for
    /// each.
    #[cycle(following)]
    fn match_in_turn(&mut self, ignore_case: bool, steps: &[Step], text: &'t str) -> DoesMatch
        requires { IsStateOf ignore_case self.old.failed steps.now (chars text.now) }
        ensures { IfOk result (λ taken.
            MatchesInTurn self.old self.new taken (walk ignore_case steps.now (chars text.now))) }
    {
        let mut left = steps;
        let mut rest = text;
        while let Some((step, others)) = left.split_first() {
            match step {
                Step::Literal(c) => {
                    let Some(remaining) = after_same(rest, *c, ignore_case) else {
                        return Ok(false);
                    };
                    rest = remaining;
                    left = others;
                }
                Step::LazyRun(end) if has_one_end(&self.failed, others, *end) => {
                    let (front, remaining) = split_at_first(rest, *end, ignore_case);
                    if front.is_empty() {
                        return Ok(false);
                    }
                    self.captures.push(Some(front))?;
                    rest = remaining;
                    left = others;
                }
                Step::DotStar if has_one_end(&self.failed, others, '\n') => {
                    let (front, remaining) = split_at_first(rest, '\n', ignore_case);
                    self.captures.push(Some(front))?;
                    rest = remaining;
                    left = others;
                }
                Step::LazyRun(end) => return self.match_shortest_run(
                    ignore_case,
                    *end,
                    left,
                    others,
                    rest,
                ),
                _ => return self.match_memoized(ignore_case, step, left, others, rest),
            }
        }
        Ok(rest.is_empty())
    }

    /// Whether `steps`, which are `step` and `others`, match the whole text. On a match their
    /// captures are added to `self.captures`, otherwise perhaps some of them.
    ///
    /// A state that is memoized as failed is not tried again. A state that fails is memoized, if
    /// the match memoizes states.
    #[cycle(following)]
    fn match_memoized(
        &mut self,
        ignore_case: bool,
        step: &Step,
        steps: &[Step],
        others: &[Step],
        text: &'t str,
    ) -> DoesMatch
        requires state { IsStateOf ignore_case self.old.failed steps.now (chars text.now) }
        requires first { steps.now ≡ step.now ∷ others.now }
        ensures { IfOk result (λ taken.
            MatchesInTurn self.old self.new taken (walk ignore_case steps.now (chars text.now))) }
    {
        if self.failed.contains(steps, text) {
            return Ok(false);
        }
        if self.match_first_step(ignore_case, step, steps, others, text)? {
            return Ok(true);
        }
        self.failed.insert(steps, text);
        Ok(false)
    }

    /// Whether `steps`, which are `step` and `others`, match the whole text. On a match their
    /// captures are added to `self.captures`, otherwise perhaps some of them.
    ///
    /// The ways in which `step` can match a prefix are tried in order of preference.
    #[cycle(following)]
    fn match_first_step(
        &mut self,
        ignore_case: bool,
        step: &Step,
        steps: &[Step],
        others: &[Step],
        text: &'t str,
    ) -> DoesMatch
        requires state { IsStateOf ignore_case self.old.failed steps.now (chars text.now) }
        requires first { steps.now ≡ step.now ∷ others.now }
        ensures { IfOk result (λ taken.
            MatchesInTurn self.old self.new taken (walk ignore_case steps.now (chars text.now))) }
    {
        match step {
            Step::Literal(c) => match after_same(text, *c, ignore_case) {
                Some(rest) => self.match_rest(ignore_case, others, rest),
                None => Ok(false),
            },
            Step::LazyRun(end) => self.match_shortest_run(ignore_case, *end, steps, others, text),
            Step::DotStar => self.match_longest_run(ignore_case, steps, others, text),
            Step::OptionalGroup(group) => self.match_optional_group(
                ignore_case,
                *group,
                others,
                text,
            ),
            Step::GreedyRun(run) => self.match_greedy_run(ignore_case, *run, others, text),
            Step::RepeatedLiteral(copies) => self.match_copies(ignore_case, *copies, others, text),
            Step::Segments(segments) => self.match_segments(ignore_case, *segments, others, text),
        }
    }

    /// Whether `others`, which begins with the steps of an optional group, matches the whole text,
    /// or else the steps after the group do, with `None` for each capture of the group. On a match
    /// the captures are added to `self.captures`, otherwise perhaps some of them.
    #[cycle(following)]
    fn match_optional_group(
        &mut self,
        ignore_case: bool,
        group: Group,
        others: &[Step],
        text: &'t str,
    ) -> DoesMatch
        requires { IsStateOf ignore_case self.old.failed others.now (chars text.now) }
        ensures { IfOk result (λ taken.
            MatchesInTurn self.old self.new taken
            (walk ignore_case (Step.OptionalGroup group ∷ others.now) (chars text.now))) }
    {
        if self.match_rest(ignore_case, others, text)? {
            return Ok(true);
        }
        push_unmatched(&mut self.captures, group.captures)?;
        self.match_in_turn(ignore_case, skip_steps(others, group.steps), text)
    }

    /// Whether the steps match the whole of `rest`, which follows the captured prefix `front`. On a
    /// match `front` and the captures of the steps are added to `self.captures`, otherwise nothing.
    #[cycle(following)]
    fn match_after_capture(
        &mut self,
        ignore_case: bool,
        front: &'t str,
        steps: &[Step],
        rest: &'t str,
    ) -> DoesMatch
        requires { IsStateOf ignore_case self.old.failed steps.now (chars rest.now) }
        ensures { MatchesRestIfOk self.old self.new result
            (captured_prefix (walk ignore_case steps.now) (chars front.now) (chars rest.now)) }
    {
        self.captures.push(Some(front))?;
        if self.match_rest(ignore_case, steps, rest)? {
            return Ok(true);
        }
        self.captures.pop();
        Ok(false)
    }
}

/// Adds `count` captures that are `None`, for a group that does not match.
pub fn push_unmatched(captures: &mut Vec<Option<&str>>, count: usize) -> Result<(), OutOfMemory>
    ensures { OnOk result (captures.new.items ≡ captures.old.items ++ replicate count None) }
{
    for _ in 0..count {
        captures.push(None)?;
    }
    Ok(())
}
