//! Whether eight texts exist that each of some patterns matches, and none of others.

ghost use Rattle.std.specs.Prelude.{◌≡◌, ◌↔◌, ◌++◌, ◌∷◌, [], All, Contains, IfOk, IsTrue, List, OnOk, map, true};
ghost use Rattle.urlpattern_components.specs.Eight.{at};
ghost use Rattle.urlpattern_compare.specs.Candidates.{AreLines, MeetsEach, TextAt, text_at};
ghost use Rattle.urlpattern_compare.specs.CommonTexts.{AreAdded, AreAutomata, AreLists, AreTaken, DependsIfUnknown, HasAutomata, IsAutomatonOrLacks, IsCommonAnswer, IsConditionOf, IsFoundTaken, IsLack, IsSure, SomeAreTaken, TakesAll, TakesEach, TakesIn, string_at};
ghost use Rattle.urlpattern_compare.specs.EqualParts.{AreEqualParts};
ghost use Rattle.urlpattern_syntax.specs.Text.{text_of};

use crate::apart::{are_apart_by_fronts, is_apart_from};
use crate::candidates::{FoundTexts, Limits, find_texts};
use crate::component_coverage::unknown;
use crate::condition::Condition;
use crate::copies::copy_of;
use crate::coverage::Reason;
use crate::lacks::{first_lack, is_same_in, is_sure_of};
use crate::parts_automaton::{PartsAutomaton, make};
use crate::pattern_parts::{PatternParts, string_of};
use std::alloc::{AllocError, Global};
use urlpattern_components::{ComponentName, Eight};
use urlpattern_syntax::ComponentParts;

/// Eight texts that each of some patterns matches, and none of others.
#[derive(Debug, Drop)]
pub enum Common {
    /// Eight texts, without line feeds.
    Texts(Eight<String>),
    /// No such texts without line feeds exist.
    Nothing,
    /// Not known, for this reason.
    Unknown(Doubt),
}

/// A component without automaton, maybe one of several: nothing is known of it, or its automaton
/// would be too large.
#[derive(Clone, Copy, Debug, PartialEq, Eq)]
pub struct Lack {
    /// The index of the pattern in its list.
    pub pattern: usize,
    /// The component.
    pub component: ComponentName,
    /// Why it has no automaton.
    pub reason: Reason,
}

/// Why it is not known whether texts exist that some patterns match, and others do not.
#[derive(Clone, Copy, Debug, PartialEq, Eq)]
pub enum Doubt {
    /// Whether there are such texts depends on what components without automaton match. This is one
    /// of them, of a pattern of `all_of`; others may decide.
    AllOf(Lack),
    /// Whether there are such texts depends on what components without automaton match. This is one
    /// of them, of a pattern of `none_of`; others may decide.
    NoneOf(Lack),
    /// The automata of this component need more sets of states than [`Limits`] allows.
    TooManySets(ComponentName),
    /// More texts would have to be tried than [`Limits`] allows.
    TooManyTexts,
}

/// The automata of a pattern's eight components, made once for any number of questions.
#[derive(Debug, Drop)]
pub struct PatternAutomata {
    /// The parts of the pattern.
    pub parts: PatternParts,
    /// The automata. `None`: nothing is known of the component, or its automaton would be too large
    /// ([`Reason::TooMany`](crate::Reason::TooMany)).
    pub automata: Eight<Option<PartsAutomaton>>,
}

impl PatternAutomata {
    /// Makes the automata of the pattern with these parts.
    pub fn new(alloc: Global, parts: PatternParts) -> Result<Self, AllocError>
        ensures automata { IfOk result AreAutomata }
        ensures parts { IfOk result (λ it. it.parts ≡ parts) }
    {
        let automata = automata_of(alloc, &parts)?;
        Ok(PatternAutomata { parts, automata })
    }

    /// Makes the automata of the pattern with these parts, of which it keeps a copy.
    pub fn of(alloc: Global, parts: &PatternParts) -> Result<Self, AllocError>
        ensures automata { IfOk result AreAutomata }
        ensures parts { IfOk result (λ it. AreEqualParts parts.now it.parts) }
    {
        let copy = copy_of(alloc, parts)?;
        PatternAutomata::new(alloc, copy)
    }
}

/// Returns the automaton of each component.
fn automata_of(
    alloc: Global,
    parts: &PatternParts,
) -> Result<Eight<Option<PartsAutomaton>>, AllocError>
    ensures { IfOk result (λ automata. (name : ComponentName)
        → IsAutomatonOrLacks (at parts.now.components name) (at automata name)) }
{
    let automaton = |name: ComponentName| -> Result<Option<PartsAutomaton>, AllocError>
        ensures { IfOk result (IsAutomatonOrLacks (at parts.entry.now.components name)) }
    { automaton_of(alloc, parts.components.get(name)) };
    Eight::try_from_fn(automaton)
}

/// Returns the automaton of the component. `None`: nothing is known of the component, or its
/// automaton would be too large.
fn automaton_of(
    alloc: Global,
    component: &ComponentParts,
) -> Result<Option<PartsAutomaton>, AllocError>
    ensures { IfOk result (IsAutomatonOrLacks component.now) }
{
    match unknown(alloc, component)? {
        None => make(alloc, &component.options, &component.parts),
        Some(_) => Ok(None),
    }
}

/// Finds eight texts without line feeds that each pattern of `all_of` matches, and no pattern of
/// `none_of`.
///
/// Whether one pattern covers another is the question for texts that the other matches, and the one
/// does not; whether a rule of a table is reached, that for texts that it matches, and none of the
/// rules before it does; whether two patterns overlap, that for texts that both match.
///
/// What is required holds of automata that [`PatternAutomata::new`] made.
pub fn find_common<'a>(
    alloc: Global,
    all_of: &[&'a PatternAutomata],
    none_of: &[&'a PatternAutomata],
    limits: Limits,
) -> Result<Common, AllocError>
    requires all_of { All AreAutomata (map (λ it. it.now) all_of.now) }
    requires none_of { All AreAutomata (map (λ it. it.now) none_of.now) }
    ensures answer { IfOk result
        (IsCommonAnswer (map (λ it. it.now) all_of.now) (map (λ it. it.now) none_of.now) limits) }
    ensures depends { IfOk result
        (DependsIfUnknown (map (λ it. it.now) all_of.now) (map (λ it. it.now) none_of.now)) }
{
    let found = find_taken(alloc, all_of, none_of, limits, true)?;
    match found {
        FoundTexts::Nothing => Ok(Common::Nothing),
        FoundTexts::TooManySets(component) => Ok(Common::Unknown(Doubt::TooManySets(component))),
        FoundTexts::TooManyTexts => Ok(Common::Unknown(Doubt::TooManyTexts)),
        FoundTexts::Texts(texts) => texts_or_doubt(alloc, all_of, none_of, limits, &texts),
    }
}

/// Returns the texts, if they are common whatever components match that have no automaton, or
/// others, or a doubt.
fn texts_or_doubt<'a>(
    alloc: Global,
    all_of: &[&'a PatternAutomata],
    none_of: &[&'a PatternAutomata],
    limits: Limits,
    texts: &Eight<Vec<char>>,
) -> Result<Common, AllocError>
    requires all_of { All AreAutomata (map (λ it. it.now) all_of.now) }
    requires none_of { All AreAutomata (map (λ it. it.now) none_of.now) }
    requires lines { AreLines (text_at texts.now) }
    requires taken { AreTaken (map (λ it. it.now) all_of.now) (map (λ it. it.now) none_of.now)
        true (text_at texts.now) }
    ensures answer { IfOk result
        (IsCommonAnswer (map (λ it. it.now) all_of.now) (map (λ it. it.now) none_of.now) limits) }
    ensures depends { IfOk result
        (DependsIfUnknown (map (λ it. it.now) all_of.now) (map (λ it. it.now) none_of.now)) }
{
    match first_lack(alloc, &[], all_of)? {
        Some(lack) => Ok(Common::Unknown(Doubt::AllOf(lack))),
        None => texts_if_known(alloc, all_of, none_of, limits, texts),
    }
}

/// Returns the texts, if they are common whatever components of `none_of` match that have no
/// automaton, or others, or a doubt. Each component of `all_of` has an automaton.
fn texts_if_known<'a>(
    alloc: Global,
    all_of: &[&'a PatternAutomata],
    none_of: &[&'a PatternAutomata],
    limits: Limits,
    texts: &Eight<Vec<char>>,
) -> Result<Common, AllocError>
    requires all_of { All AreAutomata (map (λ it. it.now) all_of.now) }
    requires none_of { All AreAutomata (map (λ it. it.now) none_of.now) }
    requires lines { AreLines (text_at texts.now) }
    requires taken { AreTaken (map (λ it. it.now) all_of.now) (map (λ it. it.now) none_of.now)
        true (text_at texts.now) }
    requires known { All HasAutomata (map (λ it. it.now) all_of.now) }
    ensures answer { IfOk result
        (IsCommonAnswer (map (λ it. it.now) all_of.now) (map (λ it. it.now) none_of.now) limits) }
    ensures depends { IfOk result
        (DependsIfUnknown (map (λ it. it.now) all_of.now) (map (λ it. it.now) none_of.now)) }
{
    match first_lack(alloc, all_of, none_of)? {
        Some(lack) => certain_or(alloc, all_of, none_of, limits, lack),
        None => Ok(Common::Texts(strings_of(alloc, texts)?)),
    }
}

/// Returns texts that are common whatever components of `none_of` match that have no automaton, or
/// the doubt `lack`. Each component of `all_of` has an automaton.
fn certain_or<'a>(
    alloc: Global,
    all_of: &[&'a PatternAutomata],
    none_of: &[&'a PatternAutomata],
    limits: Limits,
    lack: Lack,
) -> Result<Common, AllocError>
    requires all_of { All AreAutomata (map (λ it. it.now) all_of.now) }
    requires none_of { All AreAutomata (map (λ it. it.now) none_of.now) }
    requires known { All HasAutomata (map (λ it. it.now) all_of.now) }
    requires lack { IsLack (map (λ it. it.now) none_of.now) lack }
    requires taken { SomeAreTaken (map (λ it. it.now) all_of.now)
        (map (λ it. it.now) none_of.now) true }
    ensures answer { IfOk result
        (IsCommonAnswer (map (λ it. it.now) all_of.now) (map (λ it. it.now) none_of.now) limits) }
    ensures depends { IfOk result
        (DependsIfUnknown (map (λ it. it.now) all_of.now) (map (λ it. it.now) none_of.now)) }
{
    let found = find_taken(alloc, all_of, none_of, limits, false)?;
    match found {
        FoundTexts::Nothing => Ok(Common::Unknown(Doubt::NoneOf(lack))),
        FoundTexts::TooManySets(component) => Ok(Common::Unknown(Doubt::TooManySets(component))),
        FoundTexts::TooManyTexts => Ok(Common::Unknown(Doubt::TooManyTexts)),
        FoundTexts::Texts(texts) => Ok(Common::Texts(strings_of(alloc, &texts)?)),
    }
}

/// Returns the eight texts of these characters.
fn strings_of(alloc: Global, texts: &Eight<Vec<char>>) -> Result<Eight<String>, AllocError>
    ensures { IfOk result (λ strings. (name : ComponentName)
        → string_at strings name ≡ text_at texts.now name) }
{
    let string = |name: ComponentName| -> Result<String, AllocError>
        ensures { IfOk result (λ string. text_of string ≡ text_at texts.entry.now name) }
    { string_of(alloc, texts.get(name)) };
    Eight::try_from_fn(string)
}

/// Finds eight texts that the automata of each pattern of `all_of` accept, and those of no pattern
/// of `none_of`, where a component without automaton accepts any text. With `is_sure`, patterns of
/// `none_of` do not count that have such a component, unless it is the same in `all_of`.
fn find_taken<'a>(
    alloc: Global,
    all_of: &[&'a PatternAutomata],
    none_of: &[&'a PatternAutomata],
    limits: Limits,
    is_sure: bool,
) -> Result<FoundTexts, AllocError>
    requires all_of { All AreAutomata (map (λ it. it.now) all_of.now) }
    requires none_of { All AreAutomata (map (λ it. it.now) none_of.now) }
    ensures { IfOk result
        (IsFoundTaken (map (λ it. it.now) all_of.now) (map (λ it. it.now) none_of.now) is_sure
        limits) }
{
    if are_apart_by_fronts(all_of) {
        return Ok(FoundTexts::Nothing);
    }
    let first = accepting(alloc, all_of)?;
    let lists = lists_of(alloc, all_of, none_of, is_sure)?;
    find_texts(alloc, first, &lists, limits)
}

/// Returns the conditions that the automata of each pattern accept.
fn accepting<'a>(
    alloc: Global,
    patterns: &[&'a PatternAutomata],
) -> Result<Vec<Condition<'a>>, AllocError>
    ensures on { IfOk result (λ conditions. All (λ it. (pattern : PatternAutomata)
        × Contains (map (λ it. it.now) patterns.now) pattern × IsConditionOf pattern it)
        conditions.items) }
    ensures meant { IfOk result (λ conditions. (texts : TextAt) → MeetsEach conditions.items texts
        ↔ All (λ pattern. TakesAll pattern texts) (map (λ it. it.now) patterns.now)) }
{
    let mut conditions = Vec::new(alloc);
    for pattern in patterns {
        push_conditions(&mut conditions, &[], *pattern)?;
    }
    Ok(conditions)
}

/// Returns the conditions of the patterns of `none_of` that count, and may take texts of `all_of`.
fn lists_of<'a>(
    alloc: Global,
    all_of: &[&PatternAutomata],
    none_of: &[&'a PatternAutomata],
    is_sure: bool,
) -> Result<Vec<Vec<Condition<'a>>>, AllocError>
    requires all_of { All AreAutomata (map (λ it. it.now) all_of.now) }
    requires none_of { All AreAutomata (map (λ it. it.now) none_of.now) }
    ensures { IfOk result (λ lists. AreLists (map (λ it. it.now) all_of.now)
        (map (λ it. it.now) none_of.now) is_sure lists.items) }
{
    let mut lists = Vec::new(alloc);
    for pattern in none_of {
        push_list(alloc, &mut lists, all_of, *pattern, is_sure)?;
    }
    Ok(lists)
}

/// Appends the conditions of the pattern, if it counts, and may take texts that each pattern of
/// `all_of` takes.
fn push_list<'a>(
    alloc: Global,
    lists: &mut Vec<Vec<Condition<'a>>>,
    all_of: &[&PatternAutomata],
    pattern: &'a PatternAutomata,
    is_sure: bool,
) -> Result<(), AllocError>
    requires all_of { All AreAutomata (map (λ it. it.now) all_of.now) }
    requires pattern { AreAutomata pattern.now }
    ensures { OnOk result ((front : List PatternAutomata)
        → AreLists (map (λ it. it.now) all_of.now) front is_sure lists.old.items
        → AreLists (map (λ it. it.now) all_of.now) (front ++ pattern.now ∷ []) is_sure
        lists.new.items) }
{
    if !is_counted(is_sure, all_of, pattern) {
        return Ok(());
    }
    if is_apart_from(all_of, pattern) {
        return Ok(());
    }
    let mut conditions = Vec::new(alloc);
    push_conditions(&mut conditions, all_of, pattern)?;
    lists.push(conditions)?;
    Ok(())
}

/// Whether a pattern of `none_of` counts: with `is_sure` only one that is sure does.
fn is_counted(is_sure: bool, all_of: &[&PatternAutomata], pattern: &PatternAutomata) -> bool
    ensures { IsTrue result
        ↔ (IsTrue is_sure → IsSure (map (λ it. it.now) all_of.now) pattern.now) }
{
    if is_sure {
        is_sure_of(all_of, pattern)
    } else {
        true
    }
}

/// Appends the conditions of the pattern: that the automaton of each component accepts, if it has
/// one, and the component is not the same in a pattern of `all_of`.
fn push_conditions<'a>(
    conditions: &mut Vec<Condition<'a>>,
    all_of: &[&PatternAutomata],
    pattern: &'a PatternAutomata,
) -> Result<(), AllocError>
    ensures { OnOk result (AreAdded pattern.now
        (TakesEach (map (λ it. it.now) all_of.now) pattern.now) conditions.old.items
        conditions.new.items) }
{
    for component in ComponentName::all() {
        push_condition(conditions, all_of, pattern, component)?;
    }
    Ok(())
}

/// Appends the condition that the automaton of the component accepts, if it has one, and the
/// component is not the same in a pattern of `all_of`.
fn push_condition<'a>(
    conditions: &mut Vec<Condition<'a>>,
    all_of: &[&PatternAutomata],
    pattern: &'a PatternAutomata,
    component: ComponentName,
) -> Result<(), AllocError>
    ensures { OnOk result (AreAdded pattern.now
        (λ texts. TakesIn (map (λ it. it.now) all_of.now) pattern.now texts component)
        conditions.old.items conditions.new.items) }
{
    if is_same_in(all_of, pattern, component) {
        return Ok(());
    }
    match pattern.automata.get(component) {
        Some(automaton) => {
            conditions.push(accepted_by(component, automaton))?;
            Ok(())
        }
        None => Ok(()),
    }
}

/// Returns the condition that the automaton accepts the text of the component.
fn accepted_by<'a>(component: ComponentName, automaton: &'a PartsAutomaton) -> Condition<'a>
    ensures component { result.component ≡ component }
    ensures automaton { result.automaton.now ≡ automaton.now }
    ensures accepted { result.is_accepted ≡ true }
{
    Condition {
        component,
        automaton,
        is_accepted: true,
    }
}
