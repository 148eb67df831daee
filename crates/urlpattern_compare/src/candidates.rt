//! Candidates: conditions on eight texts, with texts that meet them.

ghost use Rattle.std.specs.Prelude.{◌≡◌, ◌++◌, ◌∷◌, [], Err, IfErr, IfOk, IfSome, IsSome, Ok, OnOk};
ghost use Rattle.urlpattern_compare.specs.Candidates.{AreCandidates, AreFirstTexts, HasManySetsAt, IsFirstText, IsFoundAt, IsFoundTexts, IsSplit, IsTextWith, IsWithText, AreLines, MeetsEach, negated, text_at};
ghost use Rattle.urlpattern_components.specs.Eight.{at};

use crate::accepting::{conditions_at, first_met};
use crate::condition::Condition;
use crate::search::Found;
use crate::text_search::find_text;
use std::alloc::{AllocError, Global};
use urlpattern_components::{ComponentName, Eight};

/// How far a search goes.
#[derive(Clone, Copy, Debug)]
pub struct Limits {
    /// How many sets of states the automata of a component may have. A search keeps those it
    /// reaches in memory: each takes a byte for each state of these automata, and four bytes for
    /// each character of a text that leads to it. For each set, a search looks at each edge of
    /// these automata a few times, and at each set that it keeps.
    pub sets: usize,
    /// How many times eight texts may be tried.
    pub texts: usize,
}

/// Limits that no table of patterns is known to reach.
pub const USUAL_LIMITS: Limits = Limits {
    sets: 10_000,
    texts: 1_000,
};

/// What a search for eight texts found.
#[derive(Debug, Drop)]
pub(crate) enum FoundTexts {
    /// The characters of such texts.
    Texts(Eight<Vec<char>>),
    /// No such texts exist.
    Nothing,
    /// The search was given up: the automata of the component have too many sets of states.
    TooManySets(ComponentName),
    /// The search was given up: too many times eight texts would have to be tried.
    TooManyTexts,
}

/// Conditions, and eight texts that meet them.
#[derive(Debug, Drop)]
pub(crate) struct Candidate<'a> {
    /// The conditions.
    pub(crate) conditions: Vec<Condition<'a>>,
    /// The texts.
    pub(crate) texts: Eight<Vec<char>>,
}

/// Why no text of a component is known.
#[derive(Debug, Drop)]
pub(crate) enum NoTexts {
    /// No text without line feed meets the conditions.
    Nothing,
    /// Memory ran out.
    OutOfMemory,
}

impl From<AllocError> for NoTexts {
    ghost use Rattle.urlpattern_compare.specs.declared.candidates.NoTexts.TheVariants as lacking;

    ghost from_gives = { λ _ lack. lack ≡ lacking.OutOfMemory };

    fn from(_error: AllocError) -> NoTexts {
        NoTexts::OutOfMemory
    }
}

/// A text, or the component in which the search was given up.
pub(crate) type TextOrDoubt = Result<Vec<char>, ComponentName>;

/// Eight texts, or a component in which the search was given up.
pub(crate) type TextsOrDoubt = Result<Eight<Vec<char>>, ComponentName>;

/// Finds eight texts without line feed that meet the conditions `first`, and do not meet some
/// condition of each list of `refused`.
pub(crate) fn find_texts<'a>(
    alloc: Global,
    first: Vec<Condition<'a>>,
    refused: &[Vec<Condition<'a>>],
    limits: Limits,
) -> Result<FoundTexts, AllocError>
    ensures { IfOk result (IsFoundTexts first.entry.items refused.now limits) }
{
    match first_texts(alloc, &first, limits.sets) {
        Ok(Ok(texts)) => {
            let candidate = Candidate {
                conditions: first,
                texts,
            };
            divide(alloc, candidate, refused, limits)
        }
        Ok(Err(component)) => Ok(FoundTexts::TooManySets(component)),
        Err(NoTexts::Nothing) => Ok(FoundTexts::Nothing),
        Err(NoTexts::OutOfMemory) => Err(AllocError),
    }
}

/// Finds eight texts without line feed that meet `conditions`.
fn first_texts(
    alloc: Global,
    conditions: &[Condition<'_>],
    most: usize,
) -> Result<TextsOrDoubt, NoTexts>
    ensures { AreFirstTexts conditions.now most result }
{
    let text = |name: ComponentName| -> Result<TextOrDoubt, NoTexts>
        ensures text { IsFirstText conditions.entry.now most name result }
        ensures none { IfErr result (λ lack. AreFirstTexts conditions.entry.now most (Err lack)) }
    { first_text(alloc, conditions, name, most) };
    // Paths and hosts differ most often, so they are the first.
    Ok(known_texts(Eight {
        pathname: text(ComponentName::Pathname)?,
        hostname: text(ComponentName::Hostname)?,
        protocol: text(ComponentName::Protocol)?,
        port: text(ComponentName::Port)?,
        search: text(ComponentName::Search)?,
        hash: text(ComponentName::Hash)?,
        username: text(ComponentName::Username)?,
        password: text(ComponentName::Password)?,
    }))
}

/// Returns the texts, or a component in which the search was given up, if there is one.
fn known_texts(texts: Eight<TextOrDoubt>) -> TextsOrDoubt
    ensures known { IfOk result (λ known.
        (name : ComponentName) → at texts name ≡ Ok (at known name)) }
    ensures doubt { IfErr result (λ doubt. (name : ComponentName) × (at texts name ≡ Err doubt)) }
{
    let known = |text: TextOrDoubt| -> TextOrDoubt
        ensures { result ≡ text }
    { text };
    texts.try_map(known)
}

/// Finds a text without line feed that meets those of `conditions` that are on the component.
fn first_text(
    alloc: Global,
    conditions: &[Condition<'_>],
    component: ComponentName,
    most: usize,
) -> Result<TextOrDoubt, NoTexts>
    ensures { IsFirstText conditions.now most component result }
{
    match find_at(alloc, conditions, component, most)? {
        Found::Text(text) => Ok(Ok(text)),
        Found::Nothing => Err(NoTexts::Nothing),
        Found::TooMany => Ok(Err(component)),
    }
}

/// Finds eight texts without line feed that meet the conditions of `first`, and do not meet some
/// condition of each list of `refused`.
fn divide<'a>(
    alloc: Global,
    first: Candidate<'a>,
    refused: &[Vec<Condition<'a>>],
    limits: Limits,
) -> Result<FoundTexts, AllocError>
    requires lines { AreLines (text_at first.texts) }
    requires met { MeetsEach first.conditions.items (text_at first.texts) }
    ensures { IfOk result (IsFoundTexts first.entry.conditions.items refused.now limits) }
{
    let mut candidates = Vec::new(alloc);
    candidates.push(first)?;
    let mut doubt = None;
    let mut left = limits.texts;
    while let Some(parent) = candidates.pop() {
        if left == 0 {
            return Ok(FoundTexts::TooManyTexts);
        }
        left -= 1;
        match first_met(alloc, refused, &parent.texts)? {
            None => return Ok(FoundTexts::Texts(parent.texts)),
            Some(index) => {
                let found = split(
                    alloc,
                    &parent,
                    &refused[index],
                    limits.sets,
                    &mut candidates,
                )?;
                doubt = found.or(doubt);
            }
        }
    }
    match doubt {
        Some(component) => Ok(FoundTexts::TooManySets(component)),
        None => Ok(FoundTexts::Nothing),
    }
}

/// Adds to `candidates` those that divide what meets the conditions of `parent`, and not all of
/// `refused`, which the texts of `parent` meet: one for each of `refused`, in which that condition
/// is not met, and those before it are. One that no texts meet is left out.
///
/// Returns a component in which a search was given up, if there is one.
fn split<'a>(
    alloc: Global,
    parent: &Candidate<'a>,
    refused: &[Condition<'a>],
    most: usize,
    candidates: &mut Vec<Candidate<'a>>,
) -> Result<Option<ComponentName>, AllocError>
    requires lines { AreLines (text_at parent.now.texts) }
    requires met { MeetsEach parent.now.conditions.items (text_at parent.now.texts) }
    requires refused { MeetsEach refused.now (text_at parent.now.texts) }
    ensures candidates { OnOk result
        (AreCandidates parent.now.conditions.items refused.now candidates.old.items
        candidates.new.items) }
    ensures divided { IfOk result (λ doubt.
        IsSplit parent.now.conditions.items refused.now (IsSome doubt) candidates.new.items) }
    ensures many { IfOk result (λ doubt. IfSome doubt (λ component.
        HasManySetsAt (parent.now.conditions.items ++ refused.now) component most)) }
{
    let mut conditions = Vec::from_slice(alloc, &parent.conditions)?;
    let mut doubt = None;
    for condition in refused {
        let found = reject(
            alloc,
            &conditions,
            *condition,
            &parent.texts,
            most,
            candidates,
        )?;
        doubt = found.or(doubt);
        conditions.push(*condition)?;
    }
    Ok(doubt)
}

/// Adds to `candidates` the one of what meets `conditions`, and not `condition`, if there are such
/// texts; those of other components are `texts`, which meet `conditions`.
///
/// Returns the component of `condition` if the search was given up.
fn reject<'a>(
    alloc: Global,
    conditions: &[Condition<'a>],
    condition: Condition<'a>,
    texts: &Eight<Vec<char>>,
    most: usize,
    candidates: &mut Vec<Candidate<'a>>,
) -> Result<Option<ComponentName>, AllocError>
    requires lines { AreLines (text_at texts.now) }
    requires met { MeetsEach conditions.now (text_at texts.now) }
    ensures candidates { OnOk result
        (AreCandidates conditions.now (condition.entry ∷ []) candidates.old.items
        candidates.new.items) }
    ensures divided { IfOk result (λ doubt.
        IsSplit conditions.now (condition.entry ∷ []) (IsSome doubt) candidates.new.items) }
    ensures many { IfOk result (λ doubt. IfSome doubt (λ component.
        HasManySetsAt (conditions.now ++ condition.entry ∷ []) component most)) }
{
    let mut more = Vec::from_slice(alloc, conditions)?;
    more.push(negated(condition))?;
    match find_at(alloc, &more, condition.component, most)? {
        Found::Text(text) => {
            let new_texts = with_text(alloc, texts, condition.component, &text)?;
            candidates.push(Candidate {
                conditions: more,
                texts: new_texts,
            })?;
            Ok(None)
        }
        Found::Nothing => Ok(None),
        Found::TooMany => Ok(Some(condition.component)),
    }
}

/// Returns the condition that is met where this one is not.
fn negated(condition: Condition<'_>) -> Condition<'_>
    ensures { result ≡ negated condition.entry }
{
    Condition {
        component: condition.component,
        automaton: condition.automaton,
        is_accepted: !condition.is_accepted,
    }
}

/// Finds a text without line feed that meets those of `conditions` that are on the component. The
/// search is given up when it reaches more than `most` places.
pub(crate) fn find_at(
    alloc: Global,
    conditions: &[Condition<'_>],
    component: ComponentName,
    most: usize,
) -> Result<Found, AllocError>
    ensures { IfOk result (IsFoundAt conditions.now component most) }
{
    let own = conditions_at(alloc, conditions, component)?;
    find_text(alloc, &own, most)
}

/// Returns the eight texts `texts` with `text` for the component.
fn with_text(
    alloc: Global,
    texts: &Eight<Vec<char>>,
    component: ComponentName,
    text: &[char],
) -> Result<Eight<Vec<char>>, AllocError>
    ensures { IfOk result (λ new.
        IsWithText (text_at texts.now) component text.now (text_at new)) }
{
    let value = |name: ComponentName| -> Result<Vec<char>, AllocError>
        ensures { IfOk result (λ new.
            IsTextWith (text_at texts.entry.now) component text.entry.now name new.items) }
    { text_or(alloc, texts, component, text, name) };
    Eight::try_from_fn(value)
}

/// Returns `text` if `name` is the component, and otherwise the text that `texts` has for `name`.
fn text_or(
    alloc: Global,
    texts: &Eight<Vec<char>>,
    component: ComponentName,
    text: &[char],
    name: ComponentName,
) -> Result<Vec<char>, AllocError>
    ensures { IfOk result (λ new.
        IsTextWith (text_at texts.now) component text.now name new.items) }
{
    if name == component {
        Vec::from_slice(alloc, text)
    } else {
        Vec::from_slice(alloc, texts.get(name))
    }
}
