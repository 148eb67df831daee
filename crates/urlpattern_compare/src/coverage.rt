//! Compares the texts that two lists of parts match.

ghost use Rattle.std.specs.Prelude.{◌≡◌, ℕ, List, IfNone, IfOk, IfSome, IsTrue, false, true};
ghost use Rattle.urlpattern_compare.specs.Answers.{IsCovering, IsCoveringOf, IsFoundBy, IsOverlap, IsOverlapOf, IsSought, IsSoughtOf, AreKnown, answer_of};
ghost use Rattle.urlpattern_compare.specs.{Conditions.accepts, Examples.IsExampleOf, MeantTexts.MeansText};
ghost use Rattle.urlpattern_syntax.specs.{Options.OptionsView, Options.options_view, Parts.PartView, Parts.parts_view};

use crate::accepting::accepts;
use crate::condition::Condition;
use crate::examples::example_of;
use crate::fronts::fronts_part_ways;
use crate::joint_states::is_as;
use crate::known_parts::unknown_parts;
use crate::parts_automaton::{PartsAutomaton, make};
use crate::search::{Found, most_sets};
use crate::text_search::find_text;
use std::alloc::{AllocError, Global};
use urlpattern_components::ComponentName;
use urlpattern_syntax::parser::{Options, Part};

/// Whether parts match each text without line feed that other parts, the asked ones, match.
#[derive(Debug, Drop)]
pub enum Covering {
    /// The parts match each of these texts.
    Covered,
    /// The characters of a text without line feed that the asked parts match, and the parts do not.
    NotCovered(Vec<char>),
    /// Not known, for this reason.
    Unknown(Reason),
}

/// Whether a text without line feed exists that two lists of parts match.
#[derive(Debug, Drop)]
pub enum Overlap {
    /// No text without line feed exists that the parts of both lists match.
    Apart,
    /// The characters of a text without line feed that the parts of both lists match.
    Common(Vec<char>),
    /// Not known, for this reason.
    Unknown(Reason),
}

/// Why a comparison has no result.
#[derive(Clone, Copy, Debug, PartialEq, Eq)]
pub enum Reason {
    /// A custom regular expression is not simple (`urlpattern_expressions::is_simple`), and case is
    /// kept.
    CustomExpression,
    /// Case is ignored, and a part is a custom regular expression, or an engine matches the
    /// component that does not honour the flag `i`, such as `regex::Regex`.
    IgnoredCase,
    /// The parts need more than [`MOST_STATES`](crate::MOST_STATES) states, an expression needs too
    /// large a tree or more than [`MOST_EDGES`](crate::MOST_EDGES) edges, or the search for a text
    /// that decides reaches more than [`MOST_SETS`](crate::MOST_SETS) sets of states. Of two small
    /// components without custom expressions it is never the reason, as
    /// [`small_components_are_compared`](crate::comparing_laws) says.
    TooMany,
}

/// The result of looking for a text that two lists of parts match, or only the first.
#[derive(Debug, Drop)]
pub(crate) enum Answer {
    /// The characters of the text.
    Text(Vec<char>),
    /// No such text exists.
    Nothing,
    /// Not known, for this reason.
    Unknown(Reason),
}

/// Returns whether `parts` match each text without line feed that the parts `asked` match.
///
/// `NotCovered` has one of the shortest texts that `asked` match and `parts` do not.
pub fn covers(
    alloc: Global,
    options: &Options,
    parts: &[Part],
    asked_options: &Options,
    asked: &[Part],
) -> Result<Covering, AllocError>
    ensures { IfOk result (IsCoveringOf options.now parts.now asked_options.now asked.now) }
{
    let answer = find_meant(alloc, asked_options, asked, options, parts, false)?;
    Ok(covering_of(answer))
}

/// Returns what `covers` does, of parts that tell which texts they match.
pub(crate) fn covers_known(
    alloc: Global,
    options: &Options,
    parts: &[Part],
    asked_options: &Options,
    asked: &[Part],
) -> Result<Covering, AllocError>
    requires parts { AreKnown (options_view options.now) (parts_view parts.now) }
    requires asked { AreKnown (options_view asked_options.now) (parts_view asked.now) }
    ensures { IfOk result (IsCoveringOf options.now parts.now asked_options.now asked.now) }
{
    let answer = find_known(alloc, asked_options, asked, options, parts, false)?;
    Ok(covering_of(answer))
}

/// Returns the result of `covers` for an answer about texts that only the asked parts match.
fn covering_of(answer: Answer) -> Covering
    ensures { (options asked_options : OptionsView) (parts asked : List PartView)
        → IsSought asked_options asked options parts false answer
        → IsCovering options parts asked_options asked result }
{
    match answer {
        Answer::Nothing => Covering::Covered,
        Answer::Text(text) => Covering::NotCovered(text),
        Answer::Unknown(reason) => Covering::Unknown(reason),
    }
}

/// Returns whether a text without line feed exists that `parts` match, and `others` match too.
///
/// `Common` has one of the shortest texts that both lists match.
pub fn overlaps(
    alloc: Global,
    options: &Options,
    parts: &[Part],
    other_options: &Options,
    others: &[Part],
) -> Result<Overlap, AllocError>
    ensures { IfOk result (IsOverlapOf options.now parts.now other_options.now others.now) }
{
    let answer = find_meant(alloc, options, parts, other_options, others, true)?;
    Ok(overlap_of(answer))
}

/// Returns what `overlaps` does, of parts that tell which texts they match.
pub(crate) fn overlaps_known(
    alloc: Global,
    options: &Options,
    parts: &[Part],
    other_options: &Options,
    others: &[Part],
) -> Result<Overlap, AllocError>
    requires parts { AreKnown (options_view options.now) (parts_view parts.now) }
    requires others { AreKnown (options_view other_options.now) (parts_view others.now) }
    ensures { IfOk result (IsOverlapOf options.now parts.now other_options.now others.now) }
{
    let answer = find_known(alloc, options, parts, other_options, others, true)?;
    Ok(overlap_of(answer))
}

/// Returns the result of `overlaps` for an answer about texts that both lists of parts match.
fn overlap_of(answer: Answer) -> Overlap
    ensures { (options other_options : OptionsView) (parts others : List PartView)
        → IsSought options parts other_options others true answer
        → IsOverlap options parts other_options others result }
{
    match answer {
        Answer::Nothing => Overlap::Apart,
        Answer::Text(text) => Overlap::Common(text),
        Answer::Unknown(reason) => Overlap::Unknown(reason),
    }
}

/// Finds a text without line feed that `parts` match, and that `others` match if `is_meant` is
/// true, and do not match if it is false.
fn find_meant(
    alloc: Global,
    options: &Options,
    parts: &[Part],
    other_options: &Options,
    others: &[Part],
    is_meant: bool,
) -> Result<Answer, AllocError>
    ensures { IfOk result (IsSoughtOf options.now parts.now other_options.now others.now is_meant) }
{
    match settled(alloc, options, parts, other_options, others, is_meant)? {
        Some(answer) => Ok(answer),
        None => search_meant(alloc, options, parts, other_options, others, is_meant),
    }
}

/// Finds the text of `find_meant`, of parts that tell which texts they match.
fn find_known(
    alloc: Global,
    options: &Options,
    parts: &[Part],
    other_options: &Options,
    others: &[Part],
    is_meant: bool,
) -> Result<Answer, AllocError>
    requires parts { AreKnown (options_view options.now) (parts_view parts.now) }
    requires others { AreKnown (options_view other_options.now) (parts_view others.now) }
    ensures { IfOk result (IsSoughtOf options.now parts.now other_options.now others.now is_meant) }
{
    match settled(alloc, options, parts, other_options, others, is_meant)? {
        Some(answer) => Ok(answer),
        None => search_known(alloc, options, parts, other_options, others, is_meant),
    }
}

/// Returns the answer of `find_meant` where the fronts of the two lists tell that no text is
/// matched by both. `None`: the fronts do not tell, or no text that `parts` match is made from them
/// alone.
fn settled(
    alloc: Global,
    options: &Options,
    parts: &[Part],
    other_options: &Options,
    others: &[Part],
    is_meant: bool,
) -> Result<Option<Answer>, AllocError>
    ensures { IfOk result (λ found. IfSome found
        (IsSoughtOf options.now parts.now other_options.now others.now is_meant)) }
{
    if !are_apart(options, parts, other_options, others) {
        return Ok(None);
    }
    if is_meant {
        return Ok(Some(Answer::Nothing));
    }
    match example_of(alloc, options, parts)? {
        Some(text) => Ok(Some(Answer::Text(text))),
        None => Ok(None),
    }
}

/// Whether case is kept, and the fronts of the two lists tell that no text is matched by both.
pub(crate) fn are_apart(
    options: &Options,
    parts: &[Part],
    other_options: &Options,
    others: &[Part],
) -> bool
    ensures { IsTrue result → (text : List ℕ)
        → MeansText (options_view options.now) (parts_view parts.now) text
        → ¬ MeansText (options_view other_options.now) (parts_view others.now) text }
{
    if options.ignore_case {
        return false;
    }
    if other_options.ignore_case {
        return false;
    }
    fronts_part_ways(parts, others)
}

/// Finds the text of `find_meant`, unless the parts of a list do not tell which texts they match.
fn search_meant(
    alloc: Global,
    options: &Options,
    parts: &[Part],
    other_options: &Options,
    others: &[Part],
    is_meant: bool,
) -> Result<Answer, AllocError>
    ensures { IfOk result (IsSoughtOf options.now parts.now other_options.now others.now is_meant) }
{
    match unknown_parts(alloc, options, parts)? {
        Some(reason) => return Ok(Answer::Unknown(reason)),
        None => {}
    }
    match unknown_parts(alloc, other_options, others)? {
        Some(reason) => return Ok(Answer::Unknown(reason)),
        None => {}
    }
    search_known(alloc, options, parts, other_options, others, is_meant)
}

/// Finds the text of `find_meant`, of parts that tell which texts they match: the one that is made
/// from `parts` alone, or by a search.
fn search_known(
    alloc: Global,
    options: &Options,
    parts: &[Part],
    other_options: &Options,
    others: &[Part],
    is_meant: bool,
) -> Result<Answer, AllocError>
    requires parts { AreKnown (options_view options.now) (parts_view parts.now) }
    requires others { AreKnown (options_view other_options.now) (parts_view others.now) }
    ensures { IfOk result (IsSoughtOf options.now parts.now other_options.now others.now is_meant) }
{
    let Some(other) = make(alloc, other_options, others)? else {
        return Ok(Answer::Unknown(Reason::TooMany));
    };
    if let Some(text) = example_by(alloc, options, parts, &other, is_meant)? {
        return Ok(Answer::Text(text));
    }
    let Some(one) = make(alloc, options, parts)? else {
        return Ok(Answer::Unknown(Reason::TooMany));
    };
    let found = find_by(alloc, &one, &other, is_meant)?;
    Ok(answer_of(found))
}

/// Returns the text that is made from `parts` alone, if `other` accepts it and `is_accepted` is
/// true, or rejects it and `is_accepted` is false.
fn example_by(
    alloc: Global,
    options: &Options,
    parts: &[Part],
    other: &PartsAutomaton,
    is_accepted: bool,
) -> Result<Option<Vec<char>>, AllocError>
    ensures { IfOk result (λ found. IfSome found (λ text.
        IsExampleOf (options_view options.now) (parts_view parts.now) text.items
        × (accepts other.now text.items ≡ is_accepted))) }
{
    let Some(text) = example_of(alloc, options, parts)? else {
        return Ok(None);
    };
    let found = accepts(alloc, other, &text)?;
    if is_as(is_accepted, found) {
        Ok(Some(text))
    } else {
        Ok(None)
    }
}

/// Finds a text without line feed that `one` accepts, and that `other` accepts if `is_accepted`,
/// and rejects otherwise.
fn find_by(
    alloc: Global,
    one: &PartsAutomaton,
    other: &PartsAutomaton,
    is_accepted: bool,
) -> Result<Found, AllocError>
    ensures { IfOk result (IsFoundBy one.now other.now is_accepted) }
{
    let mut conditions = Vec::new(alloc);
    conditions.push(condition(one, true))?;
    conditions.push(condition(other, is_accepted))?;
    let most = most_sets(one.states, other.states);
    let found = find_text(alloc, &conditions, most)?;
    Ok(found)
}

/// Returns the condition that the automaton accepts a text, or rejects it. Which component the text
/// is of is not looked at.
fn condition<'a>(automaton: &'a PartsAutomaton, is_accepted: bool) -> Condition<'a>
    ensures automaton { result.automaton.now ≡ automaton.now }
    ensures accepted { result.is_accepted ≡ is_accepted }
{
    Condition {
        component: ComponentName::Protocol,
        automaton,
        is_accepted,
    }
}

/// Returns what a search found, as an `Answer`. A search that exceeded its bound is `Unknown`, for
/// the reason `TooMany`.
fn answer_of(found: Found) -> Answer
    ensures { result ≡ answer_of found }
{
    match found {
        Found::Text(text) => Answer::Text(text),
        Found::Nothing => Answer::Nothing,
        Found::TooMany => Answer::Unknown(Reason::TooMany),
    }
}
