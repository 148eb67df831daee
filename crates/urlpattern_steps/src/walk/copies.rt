//! Matches a repeated literal and the steps after it.

ghost use Rattle.std.specs.Prelude.{◌∷◌};
ghost use Rattle.std.specs.Str.{chars};
ghost use Rattle.urlpattern_steps.specs.FailedStates.{IsStateOf};
ghost use Rattle.urlpattern_steps.specs.Walk.{walk, walk_copies};
ghost use Rattle.urlpattern_steps.specs.AddedCaptures.{MatchesRestIfOk};

use crate::repeats::{after_literals, first_steps, skip_copies, skip_steps, without_copy};
use crate::step::{RepeatedLiteral, Step};
use crate::text_cuts::after_prefix;
use crate::walk::{Attempt, DoesMatch};
use urlpattern_syntax::text::before;

impl<'t> Attempt<'_, 't> {
    /// Whether a repeated literal and the steps after it match the whole text. The greatest number
    /// of copies is tried first. On a match the captures are added to `self.captures`, otherwise
    /// none.
    ///
    /// `steps` begins with the literal steps that have the characters of the literal after the
    /// first.
    #[cycle(following)]
    pub(super) fn match_copies(
        &mut self,
        ignore_case: bool,
        copies: RepeatedLiteral,
        steps: &[Step],
        text: &'t str,
    ) -> DoesMatch
        requires { IsStateOf ignore_case self.old.failed steps.now (chars text.now) }
        ensures { MatchesRestIfOk self.old self.new result
            (walk ignore_case (Step.RepeatedLiteral copies ∷ steps.now) (chars text.now)) }
    {
        let first = copies.text.first;
        let literal = first_steps(steps, copies.text.others);
        let others = skip_steps(steps, copies.text.others);
        if copies.allows_zero {
            return self.match_any_copies(ignore_case, first, literal, others, text);
        }
        match after_literals(text, first, literal, ignore_case) {
            Some(rest) => self.match_any_copies(ignore_case, first, literal, others, rest),
            None => Ok(false),
        }
    }

    /// Whether any number of copies of a literal, followed by `others`, matches the whole text. The
    /// greatest number is tried first. On a match the captures are added to `self.captures`,
    /// otherwise none.
    ///
    /// The literal is `first`, then the character of each literal step in `literal`.
    #[cycle(following)]
    fn match_any_copies(
        &mut self,
        ignore_case: bool,
        first: char,
        literal: &[Step],
        others: &[Step],
        text: &'t str,
    ) -> DoesMatch
        requires { IsStateOf ignore_case self.old.failed others.now (chars text.now) }
        ensures { MatchesRestIfOk self.old self.new result
            (walk_copies ignore_case first literal.now others.now (chars text.now)) }
    {
        let rest = skip_copies(text, first, literal, ignore_case);
        let mut front = before(text, rest);
        loop {
            if self.match_rest(ignore_case, others, after_prefix(text, front))? {
                return Ok(true);
            }
            let Some(shorter) = without_copy(front, literal) else {
                return Ok(false);
            };
            front = shorter;
        }
    }
}
