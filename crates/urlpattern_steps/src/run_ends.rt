//! Where runs of characters end in a match.

ghost use Rattle.std.specs.Prelude.{◌≡◌, ◌∷◌, ◌<◌, false, List, length, None, IfNone, IfSome, IsTrue};
ghost use Rattle.std.specs.Str.{chars};
ghost use Rattle.urlpattern_steps.specs.FailedStates.{HasEnded, IsPrefixOfRun, IsStateOf};
ghost use Rattle.urlpattern_steps.specs.Walk.{walk, BeginOnlyWith};
ghost use Rattle.urlpattern_meaning.specs.Matching.{is_same_character};
ghost use Rattle.urlpattern_syntax.specs.Text.{line_feed};

use crate::failed_states::FailedStates;
use crate::step::Step;
use crate::stops::begin_only_with;
use crate::text_cuts::is_same;
use urlpattern_syntax::text::{before, split_first};

/// Whether a run without `end`, followed by these steps, is known to end only at the first `end` or
/// at the end of the text, in a match without memoization. `false` decides nothing.
pub fn has_one_end(failed: &FailedStates<'_, '_>, steps: &[Step], end: char) -> bool
    ensures { IsTrue result → BeginOnlyWith end steps.now }
{
    !failed.is_memoizing() && begin_only_with(steps, end)
}

/// Returns the character with which a run continues, the first in `text`, and the rest. `None`: the
/// text is empty or begins with `end`, or the state of the steps and the text is memoized as
/// failed.
///
/// The run is the first of the steps.
#[inline(always)]
pub fn next_of_run<'t>(
    failed: &FailedStates<'_, '_>,
    ignore_case: bool,
    end: char,
    steps: &[Step],
    text: &'t str,
) -> Option<(char, &'t str)>
    requires { IsStateOf ignore_case failed.now steps.now (chars text.now) }
    ensures none { IfNone result (HasEnded ignore_case end steps.now (chars text.now)) }
    ensures cut { IfSome result (λ next. chars text.now ≡ next.0 ∷ chars next.1.now) }
    ensures other { IfSome result (λ next. is_same_character ignore_case next.0 end ≡ false) }
    ensures len { IfSome result (λ next. length next.1.now < length text.now) }
{
    if failed.contains(steps, text) {
        return None;
    }
    let (c, rest) = split_first(text)?;
    if is_same(c, end, ignore_case) {
        None
    } else {
        Some((c, rest))
    }
}

/// Returns the longest prefix of `text` without a line feed, or a shorter one, up to the first
/// place where the state of the steps is memoized as failed.
///
/// The first of the steps is a run without a line feed.
pub fn longest_prefix<'t>(
    failed: &FailedStates<'_, '_>,
    ignore_case: bool,
    steps: &[Step],
    text: &'t str,
) -> &'t str
    requires { IsStateOf ignore_case failed.now steps.now (chars text.now) }
    ensures { IsPrefixOfRun ignore_case line_feed steps.now text.now result.now }
{
    let mut rest = text;
    while let Some((_, remaining)) = next_of_run(failed, ignore_case, '\n', steps, rest) {
        rest = remaining;
    }
    before(text, rest)
}

/// Memoizes that the steps, which do not match `text`, fail before each character of the run that
/// `text` begins with, up to the first place that is memoized already. Does nothing if no states
/// are memoized.
///
/// The first of the steps is a lazy run without `end`.
pub fn memoize_run(
    failed: &mut FailedStates<'_, '_>,
    ignore_case: bool,
    end: char,
    steps: &[Step],
    text: &str,
)
    requires state { IsStateOf ignore_case failed.old steps.now (chars text.now) }
    requires first { (others : List Step) × (steps.now ≡ Step.LazyRun end ∷ others) }
    requires dead { walk ignore_case steps.now (chars text.now) ≡ None }
    ensures { failed.new ≡ failed.old }
{
    if !failed.is_memoizing() {
        return;
    }
    let mut rest = text;
    while let Some((_, remaining)) = next_of_run(failed, ignore_case, end, steps, rest) {
        failed.insert(steps, rest);
        rest = remaining;
    }
}
