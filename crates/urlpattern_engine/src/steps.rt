//! Matches a text by the steps of an expression.

ghost use Rattle.std.specs.Prelude.{◌≡◌, IfOk};
ghost use Rattle.std.specs.Str.{chars};
ghost use Rattle.urlpattern_meaning.specs.CaptureTexts.{captures_view};
ghost use Rattle.urlpattern_steps.specs.Walk.{walk};

use crate::strategy::StepSearch;
use std::alloc::Global;
use urlpattern_steps::step::Step;
use urlpattern_steps::walk::walk;
use urlpattern_steps::walk_by_table;
use urlpattern_syntax::error::OutOfMemory;

/// The text of an expression, its steps, and how the steps match a text.
#[derive(Drop)]
pub(crate) struct Steps {
    pub(crate) text: String,
    pub(crate) steps: Vec<Step>,
    pub(crate) search: StepSearch,
}

impl Steps {
    /// Creates the value from an expression and its steps, and chooses how the steps match.
    #[inline(always)]
    pub(crate) fn new(text: String, steps: Vec<Step>) -> Steps
        ensures text { result.text ≡ text }
        ensures steps { result.steps ≡ steps }
    {
        Steps {
            text,
            search: StepSearch::of(&steps),
            steps,
        }
    }

    /// Returns the captures of the steps, if they match the whole text. `None`: no match. An inner
    /// `None`: the group did not participate.
    #[inline(always)]
    pub(crate) fn matches<'t>(
        &self,
        alloc: Global,
        ignore_case: bool,
        text: &'t str,
    ) -> Result<Option<Vec<Option<&'t str>>>, OutOfMemory>
        ensures { IfOk result (λ found.
            captures_view found ≡ walk ignore_case self.now.steps.items (chars text.now)) }
    {
        match_steps(alloc, &self.steps, ignore_case, self.search, text)
    }
}

/// Returns the captures of the steps, if they match the whole text, in the way that `search` says.
/// `None`: no match. An inner `None`: the group did not participate.
#[inline(always)]
pub(crate) fn match_steps<'t>(
    alloc: Global,
    steps: &[Step],
    ignore_case: bool,
    search: StepSearch,
    text: &'t str,
) -> Result<Option<Vec<Option<&'t str>>>, OutOfMemory>
    ensures { IfOk result (λ found.
        captures_view found ≡ walk ignore_case steps.now (chars text.now)) }
{
    match search {
        StepSearch::Table => walk_by_table(alloc, steps, ignore_case, text),
        StepSearch::Backtracking | StepSearch::MemoizedIfLong | StepSearch::Memoized => {
            walk(alloc, steps, ignore_case, search.is_memoized(text), text)
        }
    }
}
