//! Matches runs joined by a separator and the steps after them.

ghost use Rattle.std.specs.Prelude.{◌∷◌, IfOk, OnOk};
ghost use Rattle.std.specs.Str.{chars};
ghost use Rattle.urlpattern_steps.specs.FailedStates.{IsStateOf};
ghost use Rattle.urlpattern_steps.specs.Walk.{walk};
ghost use Rattle.urlpattern_steps.specs.AddedCaptures.{MatchesRestIfOk, IsEndHere, IsEndOfSegments, Untouched};

use crate::repeats::{choose_ends, end_if_continued, entry_after_literal, first_steps, skip_steps};
use crate::step::{Segments, Step};
use crate::text_cuts::{after_prefix, split_at_boundary, without_last};
use crate::walk::{Attempt, DoesMatch};
use std::mem;
use urlpattern_syntax::error::OutOfMemory;

impl<'t> Attempt<'_, 't> {
    /// Whether runs joined by a separator, and the steps after them, match the whole text. On a
    /// match the preferred runs, as one capture, and the captures of the steps are added to
    /// `self.captures`, otherwise nothing.
    ///
    /// `steps` begins with the literal steps that have the characters of the separator after the
    /// first.
    #[cycle(following)]
    pub(super) fn match_segments(
        &mut self,
        ignore_case: bool,
        segments: Segments,
        steps: &[Step],
        text: &'t str,
    ) -> DoesMatch
        requires { IsStateOf ignore_case self.old.failed steps.now (chars text.now) }
        ensures { MatchesRestIfOk self.old self.new result
            (walk ignore_case (Step.Segments segments ∷ steps.now) (chars text.now)) }
    {
        let literal = first_steps(steps, segments.separator.others);
        let others = skip_steps(steps, segments.separator.others);
        match self.end_of_segments(ignore_case, segments, literal, others, text)? {
            Some(count) => {
                let (front, rest) = split_at_boundary(text, count);
                self.match_after_capture(ignore_case, front, others, rest)
            }
            None => Ok(false),
        }
    }

    /// Returns the length in bytes of the preferred separated runs at the start of `text` after
    /// which `others` matches the rest. `None`: no match. No capture is added.
    ///
    /// The separator is its first character, then the character of each literal step in `literal`.
    /// The ends are found from the end of the text to its start.
    #[cycle(following)]
    fn end_of_segments(
        &mut self,
        ignore_case: bool,
        segments: Segments,
        literal: &[Step],
        others: &[Step],
        text: &'t str,
    ) -> Result<Option<usize>, OutOfMemory>
        requires { IsStateOf ignore_case self.old.failed others.now (chars text.now) }
        ensures cut { IfOk result (λ end.
            IsEndOfSegments ignore_case segments literal.now others.now text.now end) }
        ensures same { OnOk result (Untouched self.old self.new) }
    {
        let alloc = *self.captures.allocator();
        let mut begun = Vec::with_capacity(alloc, text.len())?;
        let mut later = None;
        let mut front = text;
        loop {
            let rest = after_prefix(text, front);
            let next = entry_after_literal(
                &begun,
                segments.separator.first,
                literal,
                ignore_case,
                rest,
            );
            let stopping = self.end_here(ignore_case, others, next, front.len(), rest)?;
            let onward = end_if_continued(rest, segments.end, ignore_case, later);
            let (beginning, either) = choose_ends(segments.is_greedy, onward, stopping);
            let Some(shorter) = without_last(front) else {
                return Ok(beginning);
            };
            begun.push(beginning)?;
            later = either;
            front = shorter;
        }
    }

    /// Returns the end in bytes of separated runs, one of which may end at `here`, before `rest`:
    /// `next`, the end if a separator and more runs follow, or else `here`, if the steps match
    /// `rest`. `None`: `next` is `None`, and the steps do not match `rest`.
    #[cycle(following)]
    fn end_here(
        &mut self,
        ignore_case: bool,
        steps: &[Step],
        next: Option<usize>,
        here: usize,
        rest: &'t str,
    ) -> Result<Option<usize>, OutOfMemory>
        requires { IsStateOf ignore_case self.old.failed steps.now (chars rest.now) }
        ensures end { IfOk result (λ end.
            IsEndHere next here (walk ignore_case steps.now (chars rest.now)) end) }
        ensures same { OnOk result (Untouched self.old self.new) }
    {
        if next.is_some() {
            return Ok(next);
        }
        let alloc = *self.captures.allocator();
        let captures = mem::replace(&mut self.captures, Vec::new(alloc));
        let does_match = self.match_rest(ignore_case, steps, rest)?;
        self.captures = captures;
        if does_match { Ok(Some(here)) } else { Ok(None) }
    }
}
