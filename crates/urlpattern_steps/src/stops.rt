//! The first characters of the texts that steps match.

ghost use Rattle.std.specs.Prelude.{IsTrue};
ghost use Rattle.urlpattern_steps.specs.Walk.{BeginOnlyWith};

use crate::repeats::skip_steps;
use crate::step::Step;

/// Whether each nonempty text that the steps match is known to begin with `end` (in either case, if
/// case is ignored). `false`: unknown.
pub fn begin_only_with(steps: &[Step], end: char) -> bool
    ensures { IsTrue result → BeginOnlyWith end steps.now }
{
    let mut rest = steps;
    while let Some((step, others)) = rest.split_first() {
        match step {
            Step::Literal(c) => return *c == end,
            Step::OptionalGroup(group) => {
                if !begin_with(others, end) {
                    return false;
                }
                rest = skip_steps(others, group.steps);
            }
            Step::RepeatedLiteral(copies) => {
                if copies.text.first != end {
                    return false;
                }
                if !copies.allows_zero {
                    return true;
                }
                rest = skip_steps(others, copies.text.others);
            }
            Step::LazyRun(_) | Step::DotStar | Step::GreedyRun(_) | Step::Segments(_) => {
                return false;
            }
        }
    }
    true
}

/// Whether the first step is the literal `c`. `false` if there are no steps.
fn begin_with(steps: &[Step], c: char) -> bool
    ensures { IsTrue result → BeginOnlyWith c steps.now }
{
    match steps.split_first() {
        Some((Step::Literal(other), _)) => *other == c,
        _ => false,
    }
}
