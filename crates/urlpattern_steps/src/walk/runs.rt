//! Matches a run of characters and the steps after it.

ghost use Rattle.std.specs.Prelude.{◌≡◌, ◌∷◌};
ghost use Rattle.std.specs.Str.{chars};
ghost use Rattle.urlpattern_steps.specs.FailedStates.{IsStateOf};
ghost use Rattle.urlpattern_steps.specs.Walk.{walk};
ghost use Rattle.urlpattern_steps.specs.AddedCaptures.{MatchesRestIfOk};

use crate::run_ends::{longest_prefix, memoize_run, next_of_run};
use crate::step::{Run, Step};
use crate::text_cuts::{after_prefix, split_at_first, without_last};
use crate::walk::{Attempt, DoesMatch};
use urlpattern_syntax::text::before;

impl<'t> Attempt<'_, 't> {
    /// Whether `steps`, a lazy run without `end` followed by `others`, matches the whole text. The
    /// shortest run is tried first. On a match the run and the captures of `others` are added to
    /// `self.captures`, otherwise nothing.
    #[cycle(following)]
    pub(super) fn match_shortest_run(
        &mut self,
        ignore_case: bool,
        end: char,
        steps: &[Step],
        others: &[Step],
        text: &'t str,
    ) -> DoesMatch
        requires state { IsStateOf ignore_case self.old.failed steps.now (chars text.now) }
        requires first { steps.now ≡ Step.LazyRun end ∷ others.now }
        ensures { MatchesRestIfOk self.old self.new result
            (walk ignore_case steps.now (chars text.now)) }
    {
        let mut rest = text;
        while let Some((_, remaining)) = next_of_run(&self.failed, ignore_case, end, steps, rest) {
            rest = remaining;
            if self.match_after_capture(ignore_case, before(text, rest), others, rest)? {
                return Ok(true);
            }
        }
        memoize_run(&mut self.failed, ignore_case, end, steps, text);
        Ok(false)
    }

    /// Whether `steps`, a `DotStar` followed by `others`, matches the whole text. The longest run
    /// is tried first. On a match the run and the captures of `others` are added to
    /// `self.captures`, otherwise nothing.
    #[cycle(following)]
    pub(super) fn match_longest_run(
        &mut self,
        ignore_case: bool,
        steps: &[Step],
        others: &[Step],
        text: &'t str,
    ) -> DoesMatch
        requires state { IsStateOf ignore_case self.old.failed steps.now (chars text.now) }
        requires first { steps.now ≡ Step.DotStar ∷ others.now }
        ensures { MatchesRestIfOk self.old self.new result
            (walk ignore_case steps.now (chars text.now)) }
    {
        let mut front = longest_prefix(&self.failed, ignore_case, steps, text);
        loop {
            let rest = after_prefix(text, front);
            if self.match_after_capture(ignore_case, front, others, rest)? {
                return Ok(true);
            }
            self.failed.insert(steps, rest);
            let Some(shorter) = without_last(front) else {
                return Ok(false);
            };
            front = shorter;
        }
    }

    /// Whether `run`, followed by `steps`, matches the whole text. The longest run is tried first.
    /// On a match the run and the captures of the steps are added to `self.captures`, otherwise
    /// nothing.
    #[cycle(following)]
    pub(super) fn match_greedy_run(
        &mut self,
        ignore_case: bool,
        run: Run,
        steps: &[Step],
        text: &'t str,
    ) -> DoesMatch
        requires { IsStateOf ignore_case self.old.failed steps.now (chars text.now) }
        ensures { MatchesRestIfOk self.old self.new result
            (walk ignore_case (Step.GreedyRun run ∷ steps.now) (chars text.now)) }
    {
        let (mut front, _) = split_at_first(text, run.end, ignore_case);
        while let Some(shorter) = without_last(front) {
            let rest = after_prefix(text, front);
            if self.match_after_capture(ignore_case, front, steps, rest)? {
                return Ok(true);
            }
            front = shorter;
        }
        if run.may_be_empty {
            self.match_after_capture(ignore_case, front, steps, text)
        } else {
            Ok(false)
        }
    }
}
