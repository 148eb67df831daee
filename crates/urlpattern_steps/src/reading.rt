//! Parses a regular expression into steps.

ghost use Rattle.std.specs.Prelude.{◌≡◌, ◌↔◌, ◌∷◌, ℕ, ◌<◌, ◌≤◌, List, length, drop, codes, IfNone, IfOk, IfSome, IsTrue};
ghost use Rattle.std.specs.Str.{chars};
ghost use Rattle.urlpattern_meaning.specs.GeneratedTexts.{IsGenerated};
ghost use Rattle.urlpattern_steps.specs.ReadSteps.{AddsSegments, AreCopySteps, AreGrouped, AreLiterals, AreStepsOf, BeginsLastRun, IsStepGroup, ReadsLast, ReadsSegments, SpellLiteral};
ghost use Rattle.urlpattern_steps.specs.Walk.{capture_count};

use crate::step::{Group, LiteralString, RepeatedLiteral, Segments, Step};
use crate::step_tokens::{
    GroupQuantifier, StepToken, after_open, after_segments, read_literal, read_run, read_token,
    run_of,
};
use crate::text_cuts::after;
use std::alloc::{AllocError, Global};

/// Parses `regexp` into steps that capture what a backtracking engine finds first. `None`: `regexp`
/// cannot be parsed into steps, as each expression that parts without custom ones generate can.
pub fn read_steps(alloc: Global, regexp: &str) -> Result<Option<Vec<Step>>, AllocError>
    ensures steps { IfOk result (λ read. IfSome read (λ steps.
        AreStepsOf (chars regexp.now) steps.items)) }
    ensures none { IfOk result (λ read. IfNone read (¬ IsGenerated (chars regexp.now))) }
{
    let Some(mut rest) = after(regexp, '^') else {
        return Ok(None);
    };
    let mut steps = Vec::with_capacity(alloc, regexp.len())?;
    let mut opened = None;
    while let Some((token, remaining)) = read_token(rest) {
        match token {
            StepToken::Step(step) => steps.push(step)?,
            StepToken::OptionalStep(step) => {
                steps.push(Step::OptionalGroup(ONE_CAPTURE))?;
                steps.push(step)?;
            }
            StepToken::FirstSegment(end, is_greedy) => {
                let Some(after) = read_segments(&mut steps, end, is_greedy, remaining)? else {
                    return Ok(None);
                };
                rest = after;
                continue;
            }
            StepToken::Open => match opened {
                Some(_) => return Ok(None),
                None => opened = Some(steps.len()),
            },
            StepToken::Close(times) => {
                let Some(first) = opened else {
                    return Ok(None);
                };
                if !close_group(&mut steps, first, times)? {
                    return Ok(None);
                }
                opened = None;
            }
        }
        rest = remaining;
    }
    if opened.is_none() && is_end(rest) {
        Ok(Some(steps))
    } else {
        Ok(None)
    }
}

/// Replaces the steps from index `first` on, the body of a non-capturing group, by the steps of the
/// group with its quantifier `times`; an empty body stays empty. `false`: no steps express the
/// quantified group.
fn close_group(
    steps: &mut Vec<Step>,
    first: usize,
    times: GroupQuantifier,
) -> Result<bool, AllocError>
    requires { first ≤ length steps.old.items }
    ensures group { IfOk result (λ is_group.
        IsTrue is_group → AreGrouped (IsStepGroup times) first steps.old steps.new) }
    ensures any { IfOk result (λ is_group.
        (group : List Step) → IsStepGroup times (drop first steps.old.items) group
        → IsTrue is_group) }
{
    if steps.len() == first {
        return Ok(true);
    }
    match times {
        GroupQuantifier::Once => Ok(true),
        GroupQuantifier::Optional => {
            let group = counted_group(&steps[first..]);
            steps.insert(first, Step::OptionalGroup(group))?;
            Ok(true)
        }
        GroupQuantifier::ZeroOrMore => Ok(close_copies(steps, first, true)),
        GroupQuantifier::OneOrMore => Ok(close_copies(steps, first, false)),
    }
}

/// Replaces the steps from index `first` on, which spell a literal, by a greedy repeat of the
/// literal: `*` if `allows_zero`, otherwise `+`. `false`: some step there is not literal, or there
/// are none.
fn close_copies(steps: &mut Vec<Step>, first: usize, allows_zero: bool) -> bool
    requires { first ≤ length steps.old.items }
    ensures group { IsTrue result
        → AreGrouped (AreCopySteps allows_zero) first steps.old steps.new }
    ensures any { (group : List Step) → AreCopySteps allows_zero (drop first steps.old.items) group
        → IsTrue result }
{
    let Some(text) = literal_string_of(&steps[first..]) else {
        return false;
    };
    steps[first] = Step::RepeatedLiteral(RepeatedLiteral { text, allows_zero });
    true
}

/// The literal that the steps spell, a character each. `None`: some step is not literal, or there
/// are no steps.
fn literal_string_of(steps: &[Step]) -> Option<LiteralString>
    ensures text { IfSome result (λ text. SpellLiteral steps.now text) }
    ensures other { IfNone result ((first : ℕ) (others : List Step)
        → steps.now ≡ Step.Literal first ∷ others
        → ¬ AreLiterals others) }
{
    match steps {
        [Step::Literal(first), others @ ..] if are_literals(others) => Some(LiteralString {
            first: *first,
            others: others.len(),
        }),
        _ => None,
    }
}

/// Whether each step is a `Step::Literal`.
fn are_literals(steps: &[Step]) -> bool
    ensures { IsTrue result ↔ AreLiterals steps.now }
{
    let mut rest = steps;
    while let [step, others @ ..] = rest {
        match step {
            Step::Literal(_) => rest = others,
            _ => return false,
        }
    }
    true
}

/// The size of a group of one step, which captures.
const ONE_CAPTURE: Group = Group {
    steps: 1,
    captures: 1,
};

/// The size of a group that has exactly these steps.
fn counted_group(steps: &[Step]) -> Group
    ensures { result ≡ record { steps = length steps.now; captures = capture_count steps.now } }
{
    let mut captures = 0;
    let mut rest = steps;
    while let [step, others @ ..] = rest {
        match step {
            Step::LazyRun(_) | Step::DotStar | Step::GreedyRun(_) | Step::Segments(_) => captures +=
                1,
            Step::Literal(_) | Step::OptionalGroup(_) | Step::RepeatedLiteral(_) => {}
        }
        rest = others;
    }
    Group {
        steps: steps.len(),
        captures,
    }
}

/// Whether the text is exactly `$`, which ends an expression.
fn is_end(text: &str) -> bool
    ensures { IsTrue result ↔ (chars text.now ≡ codes "$") }
{
    match after(text, '$') {
        Some(rest) => rest.is_empty(),
        None => false,
    }
}

/// Parses the remainder of separated runs, after `((?:`, the first run and `)(?:`: the separator,
/// `(?:`, the run again and `))*)`. Adds the steps of the separated runs and returns the text after
/// the remainder. `None`: `text` does not begin with a remainder, and some literal steps may have
/// been added.
///
/// `end` is the character that ends a run, and `is_greedy` whether a run is greedy: those of the
/// first run, which the last has to have too.
fn read_segments<'a>(
    steps: &mut Vec<Step>,
    end: char,
    is_greedy: bool,
    text: &'a str,
) -> Result<Option<&'a str>, AllocError>
    ensures read { IfOk result (AddsSegments end is_greedy steps.old steps.new (chars text.now)) }
    ensures reads { IfOk result (ReadsSegments end is_greedy (chars text.now)) }
    ensures len { IfOk result (λ read. IfSome read (λ rest. length rest.now < length text.now)) }
{
    let first = steps.len();
    let mut rest = text;
    while let Some((c, remaining)) = read_literal(rest) {
        steps.push(Step::Literal(c))?;
        rest = remaining;
    }
    let Some(remaining) = read_last_segment(rest, end, is_greedy) else {
        return Ok(None);
    };
    let Some(separator) = literal_string_of(&steps[first..]) else {
        return Ok(None);
    };
    steps[first] = Step::Segments(Segments {
        separator,
        end,
        is_greedy,
    });
    Ok(Some(remaining))
}

/// Returns the text after `(?:`, a run and `))*)`, which end separated runs. `None`: `text` does
/// not begin with them, or the run has another `end` or `is_greedy`.
fn read_last_segment(text: &str, end: char, is_greedy: bool) -> Option<&str>
    ensures cut { IfSome result (λ rest.
        BeginsLastRun end is_greedy (chars text.now) (chars rest.now)) }
    ensures reads { ReadsLast end is_greedy (chars text.now) result }
    ensures len { IfSome result (λ rest. length rest.now < length text.now) }
{
    let (single, rest) = read_run(after_open(text)?)?;
    let (other, is_other_greedy) = run_of(single)?;
    if other != end || is_other_greedy != is_greedy {
        return None;
    }
    after_segments(rest)
}
